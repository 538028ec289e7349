//! The words of an expression, whose parts have been worked out.

ghost use Rattle.std.specs.Prelude.{◌≡◌, not, pos, ◌-ℤ◌, if◌then◌else◌};
ghost use Rattle.object_types.specs.declared.values.Value.TheVariants.{Int, Ref as Refers};
ghost use Rattle.object_types.specs.References.{same_ref};
ghost use Rattle.object_types.specs.Values.{int, referent, says, truth, same_value};
ghost use Rattle.object_types.specs.Sets.{is_in};
ghost use Rattle.object_types.specs.Heap.{closed_in, mutable, wrapped, wrapped0};
ghost use Rattle.object_types.specs.Lookups.{look_up, heap_of};
ghost use Rattle.method.specs.Tables.{read};
ghost use Rattle.method.specs.SpecValue.{compute, compare};
ghost use Rattle.method.specs.Overflow.{exact};
ghost use Rattle.spec_values.specs.Answers.{Gives};

use crate::arithmetic::{compare, compute};
use crate::place::Place;
use crate::status::{
    contains, is_closed, is_mutable, is_owner, is_wrapped, is_wrapped_unclaimed, read,
};
use crate::values::{is_true, number, referent, says};
use int_ranges::exact::{Wide, sub_exact};
use method::program::{Comparison, Operator};
use object_types::references::Ref;
use object_types::values::Value;

/// `o->f`
pub fn field(at: &Place<'_>, o: Value, f: u32) -> Value
    ensures { result ≡ read at.now.program.now (heap_of at.now.after.now) (referent o) f }
{
    read(at.program, at.after, referent(o), f)
}

/// `o->\closed`
pub fn closed(at: &Place<'_>, o: Value) -> Value
    ensures { result ≡ says (closed_in (heap_of at.now.after.now) (referent o)) }
{
    says(is_closed(at.after, referent(o)))
}

/// `o->\owner`
pub fn owner(at: &Place<'_>, o: Value) -> Value
    ensures { result ≡ Refers (look_up at.now.after.now (referent o)).owner }
{
    Value::Ref(at.after.view(referent(o)).owner)
}

/// `o->\claim_count`
pub fn claim_count(at: &Place<'_>, o: Value) -> Value
    ensures { result ≡ Int (look_up at.now.after.now (referent o)).count }
{
    Value::Int(at.after.view(referent(o)).count)
}

/// The members of `x->\owns`.
pub fn owned<'a>(at: &Place<'a>, x: Value) -> &'a [Ref]
    ensures { result.now ≡ (look_up at.now.after.now (referent x)).owned }
{
    at.after.owned(referent(x))
}

/// The objects that the claim claims.
pub fn listed<'a>(at: &Place<'a>, claim: Value) -> &'a [Ref]
    ensures { result.now ≡ (look_up at.now.after.now (referent claim)).listed }
{
    at.after.listed(referent(claim))
}

/// `o \in x->\owns`
pub fn member(at: &Place<'_>, o: Value, x: Value) -> Value
    ensures { result ≡ says (is_in (referent o) (look_up at.now.after.now (referent x)).owned) }
{
    says(contains(owned(at, x), referent(o)))
}

/// `\wrapped(o)`
pub fn wrapped(at: &Place<'_>, o: Value) -> Value
    ensures { result ≡ says (wrapped at.now.thread (heap_of at.now.after.now) (referent o)) }
{
    says(is_wrapped(at.thread, at.after, referent(o)))
}

/// `\wrapped0(o)`
pub fn wrapped0(at: &Place<'_>, o: Value) -> Value
    ensures { result ≡ says (wrapped0 at.now.thread (heap_of at.now.after.now) (referent o)) }
{
    says(is_wrapped_unclaimed(at.thread, at.after, referent(o)))
}

/// `\mutable(o)`
pub fn mutable(at: &Place<'_>, o: Value) -> Value
    ensures { result ≡ says (mutable at.now.thread (heap_of at.now.after.now) (referent o)) }
{
    says(is_mutable(at.thread, at.after, referent(o)))
}

/// `\fresh(o)`
pub fn fresh(at: &Place<'_>, o: Value) -> Value
    ensures { result ≡ says (not (same_ref (look_up at.now.before.now (referent o)).owner at.now.thread)) }
{
    says(!is_owner(at.thread, at.before, referent(o)))
}

/// Whether the claim claims the object.
pub fn lists(at: &Place<'_>, claim: Ref, o: Value) -> Value
    ensures { result ≡ says (is_in (referent o) (look_up at.now.after.now claim).listed) }
{
    says(contains(at.after.listed(claim), referent(o)))
}

/// `\claims_object(claim, o)`
pub fn claims_object(at: &Place<'_>, claim: Value, o: Value) -> Value
    ensures { result ≡ says (is_in (referent o) (look_up at.now.after.now (referent claim)).listed) }
{
    lists(at, referent(claim), o)
}

/// `!a`
pub fn negation(a: Value) -> Value
    ensures { result ≡ says (not (truth a)) }
{
    says(!is_true(a))
}

/// `a <==> b`
pub fn equivalence(a: Value, b: Value) -> Value
    ensures { result ≡ says (if truth a then truth b else not (truth b)) }
{
    says(is_true(a) == is_true(b))
}

/// A comparison.
pub fn comparison(comparison: Comparison, a: Value, b: Value) -> Value
    ensures { result ≡ says (compare comparison a b) }
{
    says(compare(comparison, a, b))
}

/// `a == b`
pub fn equality(a: Value, b: Value) -> Value
    ensures { result ≡ says (same_value a b) }
{
    says(a.is_same(b))
}

/// `-a`
pub fn opposite(a: Value) -> Result<Value, Wide>
    ensures { Gives result (Int (pos 0 -ℤ int a)) (exact (pos 0 -ℤ int a) (pos 0) (int a)) }
{
    Ok(Value::Int(sub_exact(0, number(a))?))
}

/// An operator of arithmetic.
pub fn arithmetic(operator: Operator, a: Value, b: Value) -> Result<Value, Wide>
    ensures { Gives result (Int (compute operator (int a) (int b))) (exact (compute operator (int a) (int b)) (int a) (int b)) }
{
    Ok(Value::Int(compute(operator, number(a), number(b))?))
}
