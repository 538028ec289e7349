//! What memory can fail at.

ghost use Rattle.std.specs.Prelude.{◌≡◌, [], ◌∷◌, ◌++◌, IfOk, IfErr, OnOk};
ghost use Rattle.reader_expressions.specs.Reading.{IsOutOfMemory};

use crate::reading::ReadFault;
use std::alloc::Global;

/// The value in a box.
pub fn boxed<'a, T: Drop>(alloc: Global, value: T) -> Result<Box<T>, ReadFault<'a>>
    ensures ok { IfOk result (λ b. b.value ≡ value) }
    ensures err { IfErr result IsOutOfMemory }
{
    match Box::new(alloc, value) {
        Ok(held) => Ok(held),
        Err(_) => Err(ReadFault::OutOfMemory),
    }
}

/// One more value behind those of the list.
pub fn add<'a, T: Drop>(list: &mut Vec<T>, value: T) -> Result<(), ReadFault<'a>>
    ensures ok { OnOk result (list.new.items ≡ list.old.items ++ value ∷ []) }
    ensures err { IfErr result IsOutOfMemory }
{
    match list.push(value) {
        Ok(()) => Ok(()),
        Err(_) => Err(ReadFault::OutOfMemory),
    }
}

/// A copy of the bytes.
pub fn copied<'a>(alloc: Global, bytes: &[u8]) -> Result<Vec<u8>, ReadFault<'a>>
    ensures ok { IfOk result (λ v. v.items ≡ bytes.now) }
    ensures err { IfErr result IsOutOfMemory }
{
    match Vec::from_slice(alloc, bytes) {
        Ok(copy) => Ok(copy),
        Err(_) => Err(ReadFault::OutOfMemory),
    }
}

/// A list of one value.
pub fn single<'a, T: Drop>(alloc: Global, value: T) -> Result<Vec<T>, ReadFault<'a>>
    ensures ok { IfOk result (λ v. v.items ≡ value ∷ []) }
    ensures err { IfErr result IsOutOfMemory }
{
    let mut list = Vec::new(alloc);
    add(&mut list, value)?;
    Ok(list)
}
