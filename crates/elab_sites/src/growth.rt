//! Lists that grow.

ghost use Rattle.std.specs.Prelude.{◌≡◌, ◌++◌, ◌∷◌, [], OnOk};

use std::alloc::AllocError;

/// Appends an element: one that finds no room is dropped here, and not by the caller.
pub fn append<T: Drop>(all: &mut Vec<T>, one: T) -> Result<(), AllocError>
    ensures { OnOk result (all.new.items ≡ all.old.items ++ one ∷ []) }
{
    all.push(one)?;
    Ok(())
}
