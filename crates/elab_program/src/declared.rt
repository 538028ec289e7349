//! What a program declares, one item after the other.

ghost use Rattle.std.specs.Prelude.{◌≡◌, ◌≤◌, length, map, IfOk};
ghost use Rattle.c_syntax.specs.Views as view;
ghost use Rattle.typing_spec.specs.Declarations.{structs as structs_among};
ghost use Rattle.typing_symbols.specs.Whole.{program};
ghost use Rattle.elab_program.specs.Walks as spec;
ghost use Rattle.elab_program.specs.Views.{declared};

use c_syntax::items::{Function, Item};
use std::alloc::{AllocError, Global};
use typing_symbols::declarations::{Declarations, StructEntry};

/// A struct with its fields, or a function.
#[derive(Clone, Copy)]
pub enum Declared<'s, 'a> {
    Struct(&'s StructEntry<'a>),
    Function(&'a Function),
}

/// An item before which so many of these structs stand.
fn declared_item<'s, 'a>(
    structs: &'s [StructEntry<'a>],
    place: usize,
    x: &'a Item,
) -> Declared<'s, 'a>
    requires { spec.structs_behind place (view.item x.now) ≤ length structs.now }
    ensures { declared result ≡ spec.declared_at (map (λ s. view.struct s.tree.now) structs.now) place (view.item x.now) }
{
    match x {
        Item::Struct(_) => Declared::Struct(&structs[place]),
        Item::Function(function) => Declared::Function(function),
    }
}

/// How many of these structs stand before the item that follows.
fn next_place(structs: &[StructEntry<'_>], place: usize, x: &Item) -> usize
    requires { spec.structs_behind place (view.item x.now) ≤ length structs.now }
    ensures { result ≡ spec.structs_behind place (view.item x.now) }
{
    match x {
        Item::Struct(_) => place + 1,
        Item::Function(_) => place,
    }
}

/// These items, where these are the structs among them.
fn declared_items<'s, 'a>(
    alloc: Global,
    structs: &'s [StructEntry<'a>],
    items: &'a [Item],
) -> Result<Vec<Declared<'s, 'a>>, AllocError>
    requires { map (λ s. view.struct s.tree.now) structs.now ≡ structs_among (map view.item items.now) }
    ensures { IfOk result (λ v. map declared v.items ≡ map view.item items.now) }
{
    let mut so_far = Vec::new(alloc);
    let mut place = 0;
    for x in items {
        so_far.push(declared_item(structs, place, x))?;
        place = next_place(structs, place, x);
    }
    Ok(so_far)
}

/// The items of a program.
pub fn all_declared<'s, 'a>(
    alloc: Global,
    declarations: &'s Declarations<'a>,
) -> Result<Vec<Declared<'s, 'a>>, AllocError>
    ensures { IfOk result (λ v. map declared v.items ≡ program declarations.now) }
{
    let structs = declarations.structs();
    let all = declared_items(alloc, structs, declarations.items)?;
    Ok(all)
}
