//! Tables from names to first places.

ghost use Rattle.std.specs.Prelude.{◌≡◌, ℕ, List, OnOk};
ghost use Rattle.std.specs.Option.{option_or};
ghost use Rattle.std.specs.Str.{bytes_eq};
ghost use Rattle.typing_symbols.specs.Lookup.{at, place_if};

use c_syntax::expressions::Identifier;
use indexmap::IndexMap;
use std::alloc::AllocError;

/// Notes a name's place, unless it has one.
pub fn note<'a>(
    places: &mut IndexMap<&'a [u8], usize>,
    name: &'a Identifier,
    place: usize,
) -> Result<(), AllocError>
    ensures { OnOk result ((y : List ℕ) → at places.new y ≡ option_or (at places.old y) (place_if (bytes_eq name.now.name.items y) place)) }
{
    let key = name.name.as_slice();
    if places.contains_key(key) {
        return Ok(());
    }
    places.insert(key, place)?;
    Ok(())
}
