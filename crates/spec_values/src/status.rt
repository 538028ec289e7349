//! What a heap says of an object.

ghost use Rattle.std.specs.Prelude.{◌≡◌, IsTrue};
ghost use Rattle.object_types.specs.References.{same_ref};
ghost use Rattle.object_types.specs.Values.{is_zero};
ghost use Rattle.object_types.specs.Sets.{is_in};
ghost use Rattle.object_types.specs.Heap.{closed_in, is_open, mutable, wrapped, wrapped0};
ghost use Rattle.object_types.specs.Lookups.{look_up, heap_of};
ghost use Rattle.method.specs.Tables.{read, in_type, zero_of, type_of_field};

use method::program::{DeclaredType, Program};
use object_types::heap::Heap;
use object_types::records::Mode;
use object_types::references::{NULL, Ref};
use object_types::values::Value;

/// Whether the object is closed.
pub fn is_closed(heap: &Heap, o: Ref) -> bool
    ensures { result ≡ closed_in (heap_of heap.now) o }
{
    match heap.view(o).mode {
        Mode::Closed => true,
        Mode::Absent | Mode::Open | Mode::Freed => false,
    }
}

/// Whether the object is open.
fn is_open(heap: &Heap, o: Ref) -> bool
    ensures { result ≡ is_open (look_up heap.now o).mode }
{
    match heap.view(o).mode {
        Mode::Open => true,
        Mode::Absent | Mode::Closed | Mode::Freed => false,
    }
}

/// Whether the thread owns the object.
pub fn is_owner(thread: Ref, heap: &Heap, o: Ref) -> bool
    ensures { result ≡ same_ref (look_up heap.now o).owner thread }
{
    heap.view(o).owner.is_same(thread)
}

/// `\mutable`
pub fn is_mutable(thread: Ref, heap: &Heap, o: Ref) -> bool
    ensures { result ≡ mutable thread (heap_of heap.now) o }
{
    is_open(heap, o) && is_owner(thread, heap, o)
}

/// `\wrapped`
pub fn is_wrapped(thread: Ref, heap: &Heap, o: Ref) -> bool
    ensures { result ≡ wrapped thread (heap_of heap.now) o }
{
    is_closed(heap, o) && is_owner(thread, heap, o)
}

/// `\wrapped0`
pub fn is_wrapped_unclaimed(thread: Ref, heap: &Heap, o: Ref) -> bool
    ensures { result ≡ wrapped0 thread (heap_of heap.now) o }
{
    is_wrapped(thread, heap, o) && heap.view(o).count == 0
}

/// Whether the set has the member.
#[tactic(auto, using(crate::proofs::Members::found, crate::proofs::Members::next, crate::proofs::Members::nowhere))]
pub fn contains(set: &[Ref], member: Ref) -> bool
    ensures { result ≡ is_in member set.now }
{
    for other in set {
        if member.is_same(*other) {
            return true;
        }
    }
    false
}

/// The zero of a declared type.
#[tactic(auto, unfolding(object_types::specs::References::same_ref))]
pub fn zero_of(ty: DeclaredType) -> Value
    ensures value { result ≡ zero_of ty }
    ensures zero { IsTrue (is_zero result) }
{
    match ty {
        DeclaredType::Integer(_) => Value::Int(0),
        DeclaredType::Pointer(_) | DeclaredType::Object | DeclaredType::Claim => Value::Ref(NULL),
    }
}

/// The declared type of a field.
pub fn type_of_field(program: &Program, field: u32) -> DeclaredType
    ensures { result ≡ type_of_field program.now field }
{
    match program.fields.get(field as usize) {
        Some(info) => info.ty,
        None => DeclaredType::Object,
    }
}

/// The value of the object's field.
pub fn read(program: &Program, heap: &Heap, o: Ref, field: u32) -> Value
    ensures { result ≡ read program.now (heap_of heap.now) o field }
{
    heap.read(o, field, zero_of(type_of_field(program, field)))
}

/// Whether the reference is of the declared type.
#[tactic(auto, unfolding(method::specs::Tables::in_type))]
pub fn is_of(ty: DeclaredType, reference: Ref) -> bool
    ensures { result ≡ in_type ty (Value.Ref reference) }
{
    match ty {
        DeclaredType::Integer(_) => false,
        DeclaredType::Pointer(number) => reference.is_same(NULL) || reference.ty == number,
        DeclaredType::Object => {
            (reference.ty != 0 || reference.serial == 0) && reference.ty != 1
        }
        DeclaredType::Claim => reference.is_same(NULL) || reference.ty == 2,
    }
}
