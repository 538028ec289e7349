//! Objects that annotations and values name.

ghost use Rattle.std.specs.Prelude.{◌≡◌, List, map, IfOk};
ghost use Rattle.object_types.specs.declared.references.Ref.{Ref as Reference};
ghost use Rattle.object_types.specs.Sets.{every, set_of};
ghost use Rattle.object_types.specs.Values.{referent};
ghost use Rattle.machine_values.specs.Spots.{heap_at, spot_at};
ghost use Rattle.machine_values.specs.Testing.{code_scene};
ghost use Rattle.machine_ownership.specs.Owned.{is_owned};
ghost use Rattle.machine_ownership.specs.Items.{AreItems};

use machine_values::spot::Spot;
use machine_values::stop::Stop;
use machine_values::tests::spec_value;
use machine_values::values::referent;
use method::program::{Program, Spec};
use object_types::heap::Heap;
use object_types::references::Ref;
use object_types::sets::RefSet;
use object_types::values::Value;
use ownership::status::wrapped;
use spec_eval::env::Env;
use std::alloc::{AllocError, Global};

/// Whether the thread owns the object closed, and may write it.
pub(crate) fn is_owned(at: &Spot<'_>, h: &Heap, o: Ref) -> bool
    ensures { (x y : List Reference) → result ≡ is_owned (spot_at x at.now) (heap_at y h.now) o }
{
    if !wrapped(h, at.context.me, o) {
        return false;
    }
    at.may_write(o)
}

/// Whether the thread owns each of the objects closed, and may write it.
pub(crate) fn all_owned(at: &Spot<'_>, h: &Heap, objects: &[Ref]) -> bool
    ensures { (x y : List Reference) → result ≡ every (is_owned (spot_at x at.now) (heap_at y h.now)) objects.now }
{
    for o in objects {
        if !is_owned(at, h, *o) {
            return false;
        }
    }
    true
}

/// The references that values are.
pub(crate) fn referents(alloc: Global, values: &[Value]) -> Result<Vec<Ref>, AllocError>
    ensures { IfOk result (λ objects. objects.items ≡ map referent values.now) }
{
    values.iter().map(|v| referent(*v)).collect(alloc)
}

/// The set of the objects, in reference order.
pub(crate) fn set_of(alloc: Global, objects: &[Ref]) -> Result<Vec<Ref>, AllocError>
    ensures { IfOk result (λ set. set.items ≡ set_of objects.now) }
{
    let mut set = RefSet::empty(alloc);
    for o in objects {
        set.set(*o, true)?;
    }
    Vec::from_slice(alloc, set.as_slice())
}

/// The objects that annotations name on a heap: a writes list's, or those of a type's invariants.
///
/// # Errors
/// Wide, with the operands of the first exact result on the way that leaves 128 bits.
pub fn items_of(
    alloc: Global,
    program: &Program,
    items: &[Spec],
    h: &Heap,
    env: &Env,
) -> Result<Vec<Ref>, Stop>
    ensures { AreItems result program.now items.now (code_scene env.now h.now h.now) }
{
    let mut objects = Vec::new(alloc);
    for e in items {
        let v = spec_value(program, e, h, h, env)?;
        objects.push(referent(v))?;
    }
    Ok(objects)
}
