//! What a claim was made with.

ghost use Rattle.std.specs.Prelude.{◌≡◌};
ghost use Rattle.object_types.specs.Values.{same_values};
ghost use Rattle.object_types.specs.Shapes.{same_entry, has_entry};
ghost use Rattle.object_types.specs.Lookups.{look_up};
ghost use Rattle.claims.specs.Making.{entry};

pub use invariants::invariant::claim_holds;
use object_types::heap::Heap;
use object_types::references::Ref;
use object_types::shapes::Entry;
use object_types::values::{Value, Values};

/// Whether the two rows are one.
fn same_rows(left: &[Value], right: &Values) -> bool
    ensures { result ≡ same_values left.now right.now }
{
    right.is_same(left)
}

/// Whether the conjunct has this shape and these values.
fn is_entry(shape: u32, values: &[Value], other: &Entry) -> bool
    ensures { result ≡ same_entry (entry shape values.now) other.now }
{
    shape == other.shape && same_rows(values, &other.values)
}

/// Whether the claim was made with a conjunct of this shape and these values.
#[tactic(auto, using(spec_values::proofs::Members::some_found, spec_values::proofs::Members::some_next, spec_values::proofs::Members::some_nowhere))]
pub fn claims_shape(h: &Heap, c: Ref, shape: u32, values: &[Value]) -> bool
    ensures { result ≡ has_entry (entry shape values.now) (look_up h.now c).shapes }
{
    for other in h.shapes(c) {
        if is_entry(shape, values, other) {
            return true;
        }
    }
    false
}
