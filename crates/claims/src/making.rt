//! Making claims, and ending them. Each is worked out on a copy, so a refusal changes nothing.

ghost use Rattle.std.specs.Prelude.{◌≡◌, ℕ, pos, negsuc, [], OnOk, OnErr, IfOk, IfErr, IsErrOf, IsTrue, IsFalse, ◌↔◌};
ghost use Rattle.object_types.specs.References.{ref};
ghost use Rattle.object_types.specs.Sets.{set_of};
ghost use Rattle.object_types.specs.Shapes.{entries_of};
ghost use Rattle.object_types.specs.Heap.{nothing, put_at, is_absent, put, count_more};
ghost use Rattle.object_types.specs.Content.{IsFresh};
ghost use Rattle.object_types.specs.Lookups.{look_up, heap_of};
ghost use Rattle.method.specs.Actions.{new_claim};
ghost use Rattle.claims.specs.Making.{with_claim, without_claim};
ghost use Rattle.claims.specs.Steps.{OverflowsIfFull};

use crate::counts::{ClaimFault, CountStep, count_all};
use object_types::heap::Heap;
use object_types::records::Mode;
use object_types::references::{NULL, Ref};
use object_types::shapes::Entry;
use std::alloc::AllocError;

/// The type number of claims.
const CLAIMS: u32 = 2;

/// Makes the set of what the claim lists.
fn list_all(h: &mut Heap, c: Ref, objects: &[Ref]) -> Result<(), AllocError>
    requires { (look_up h.old c).listed ≡ [] }
    ensures ok { OnOk result (look_up h.new ≡ put_at (look_up h.old) c (record (look_up h.old c) { listed = set_of objects.now })) }
{
    let mut i = objects.len();
    while i > 0 {
        i -= 1;
        h.set_listed(c, objects[i], true)?;
    }
    Ok(())
}

/// Makes the list of conjuncts that the claim is made with.
fn shape_all(h: &mut Heap, c: Ref, parts: &[Entry]) -> Result<(), AllocError>
    requires { (look_up h.old c).shapes ≡ [] }
    ensures ok { OnOk result (look_up h.new ≡ put_at (look_up h.old) c (record (look_up h.old c) { shapes = entries_of parts.now })) }
{
    let mut i = parts.len();
    while i > 0 {
        i -= 1;
        let part = &parts[i];
        h.set_shape(c, part.shape, part.values.as_slice(), true)?;
    }
    Ok(())
}

/// Writes the record of a new claim.
fn place_claim(
    h: &mut Heap,
    c: Ref,
    t: Ref,
    objects: &[Ref],
    parts: &[Entry],
) -> Result<(), AllocError>
    requires { look_up h.old c ≡ nothing }
    ensures ok { OnOk result (look_up h.new ≡ put_at (look_up h.old) c (new_claim t objects.now parts.now)) }
{
    h.set_status(c, Mode::Closed, t)?;
    list_all(h, c, objects)?;
    shape_all(h, c, parts)?;
    Ok(())
}

/// Makes a claim of t on the objects, each listed and counted once, with these conjuncts: a new closed object.
///
/// # Errors
/// NoSerial where the last serial of claims is used; CountFull where an object's count would leave 128 bits.
pub fn add_claim(h: &mut Heap, t: Ref, objects: &[Ref], parts: &[Entry]) -> Result<Ref, ClaimFault>
    requires vacant { (s : ℕ) → IsFresh (look_up h.old) 2 s → look_up h.old (ref 2 s) ≡ nothing }
    ensures ok { IfOk result (λ c. look_up h.new ≡ (with_claim c t objects.now parts.now (heap_of h.old)).get) }
    ensures fresh { IfOk result (λ c. (c.ty ≡ 2) × IsFresh (look_up h.old) 2 c.serial) }
    ensures no_serial { IsErrOf result ClaimFault.NoSerial ↔ IsFalse (is_absent (look_up h.old (ref 2 4294967295)).mode) }
    ensures full { IfErr result (OverflowsIfFull (pos 1) objects.now (heap_of h.old)) }
    ensures err { OnErr result (h.new ≡ h.old) }
{
    let Some(c) = h.fresh(CLAIMS) else {
        return Err(ClaimFault::NoSerial);
    };
    let mut after = h.copy()?;
    place_claim(&mut after, c, t, objects, parts)?;
    count_all(&mut after, objects, CountStep::Up)?;
    *h = after;
    Ok(c)
}

/// Ends the claim: it is freed, its record stays, and what it lists is counted once less.
///
/// # Errors
/// CountFull where an object's count would leave 128 bits.
pub fn drop_claim(h: &mut Heap, c: Ref) -> Result<(), ClaimFault>
    ensures ok { OnOk result (look_up h.new ≡ (without_claim c (heap_of h.old)).get) }
    ensures full { IfErr result (OverflowsIfFull (negsuc 0) (look_up h.old c).listed (heap_of h.old)) }
    ensures serial { IfErr result (λ fault. fault ≡ ClaimFault.NoSerial → ⊥) }
    ensures err { OnErr result (h.new ≡ h.old) }
{
    let mut after = h.copy()?;
    after.set_status(c, Mode::Freed, NULL)?;
    count_all(&mut after, h.listed(c), CountStep::Down)?;
    *h = after;
    Ok(())
}
