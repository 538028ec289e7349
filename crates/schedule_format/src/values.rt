//! Words that are values.

ghost use Rattle.std.specs.Prelude.{◌≡◌};
ghost use Rattle.object_types.specs.References.{ref, is_reference};
ghost use Rattle.decimal_text.specs.Reading.{Finds};
ghost use Rattle.schedule_format.specs.Reading.{Gives, reference_of, value_of, values_in};

use crate::fault::ScheduleFault;
use crate::words::{Words, cut};
use decimal_text::number::{parse_count, parse_number};
use object_types::references::Ref;
use object_types::values::Value;
use std::alloc::Global;

/// The greatest type number, serial and thread number.
pub const GREATEST: u32 = 4294967295;

/// Whether the type has such a reference: of type 0 there is NULL alone.
fn is_reference(ty: u32, serial: u32) -> bool
    ensures { result ≡ is_reference (ref ty serial) }
{
    ty != 0 || serial == 0
}

/// The reference of this type and serial, both as texts.
#[tactic(auto, using(crate::proofs::References::references))]
fn reference(ty: &[u8], serial: &[u8]) -> Option<Ref>
    ensures { Finds (λ r. r) result (reference_of ty.now serial.now) }
{
    let ty = parse_count(GREATEST, ty)?;
    let serial = parse_count(GREATEST, serial)?;
    let is_any = is_reference(ty, serial);
    if !is_any {
        return None;
    }
    Some(Ref { ty, serial })
}

/// The value that the word is.
#[tactic(auto, using(crate::proofs::Pieces::three_parts), unfolding(crate::specs::Reading::value_of))]
pub fn value(word: &[u8]) -> Option<Value>
    ensures { Finds (λ v. v) result (value_of word.now) }
{
    let Some((ty, serial)) = cut(b'.', word) else {
        let number = parse_number(word)?;
        return Some(Value::Int(number));
    };
    if let Some((_, _)) = cut(b'.', serial) {
        return None;
    }
    let reference = reference(ty, serial)?;
    Some(Value::Ref(reference))
}

/// The values that the words are.
pub fn values(alloc: Global, number: u32, words: Words<'_>) -> Result<Vec<Value>, ScheduleFault>
    ensures { Gives (λ v. v.items) result (values_in number words.entry) }
{
    let mut found = Vec::new(alloc);
    let mut words = words;
    while let Some(word) = words.next() {
        let Some(value) = value(word) else {
            return Err(ScheduleFault::BadNumber(number));
        };
        found.push(value)?;
    }
    Ok(found)
}
