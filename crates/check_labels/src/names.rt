//! The names of a program's items.

ghost use Rattle.std.specs.Prelude.{◌≡◌};
ghost use Rattle.check_labels.specs.Names.{item_name};

use method::program::{Item, Program};

/// The name that the source gives the item.
pub fn item_name(program: &Program, item: Item) -> &[u8]
    ensures { result.now ≡ item_name program.now item }
{
    match item {
        Item::Struct(n) => match program.structs.get(n as usize) {
            Some(info) => info.name.as_slice(),
            None => &[],
        },
        Item::Function(n) => match program.functions.get(n as usize) {
            Some(info) => info.name.as_slice(),
            None => &[],
        },
    }
}
