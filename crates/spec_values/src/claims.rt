//! The conjuncts that a claim was made with.

ghost use Rattle.std.specs.Prelude.{◌≡◌, map};
ghost use Rattle.object_types.specs.Values.{same_values};
ghost use Rattle.object_types.specs.Shapes.{same_entry, has_entry};
ghost use Rattle.object_types.specs.Lookups.{look_up};
ghost use Rattle.method.specs.SpecValue.{filling, entry_of};
ghost use Rattle.spec_values.specs.Scenes.{scene_at};

use crate::place::Place;
use method::program::{Conjunct, Hole};
use object_types::shapes::Entry;
use object_types::values::Value;

/// Whether these are the values of the holes.
fn fill(at: &Place<'_>, holes: &[Hole], values: &[Value]) -> bool
    ensures { result ≡ same_values (map (filling (scene_at at.now)) holes.now) values.now }
{
    let mut i = 0;
    while i < holes.len() && i < values.len() {
        if !at.filling(holes[i]).is_same(values[i]) {
            return false;
        }
        i += 1;
    }
    holes.len() == values.len()
}

/// Whether the conjunct, with the values of its holes, is this one.
fn is_entry(at: &Place<'_>, conjunct: &Conjunct, entry: &Entry) -> bool
    ensures { result ≡ same_entry (entry_of (scene_at at.now) conjunct.now) entry.now }
{
    conjunct.shape == entry.shape && fill(at, &conjunct.holes, entry.values.as_slice())
}

/// Whether the claim that is spoken of was made with the conjunct.
#[tactic(auto, using(crate::proofs::Members::some_found, crate::proofs::Members::some_next, crate::proofs::Members::some_nowhere))]
pub fn has(at: &Place<'_>, conjunct: &Conjunct) -> bool
    ensures { result ≡ has_entry (entry_of (scene_at at.now) conjunct.now) (look_up at.now.after.now at.now.subject).shapes }
{
    for entry in at.after.shapes(at.subject) {
        if is_entry(at, conjunct, entry) {
            return true;
        }
    }
    false
}
