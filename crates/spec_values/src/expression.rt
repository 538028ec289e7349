//! Expressions, worked out at a place.

ghost use Rattle.std.specs.Prelude.{◌≡◌, ◌||◌, ◌&&◌, not, if◌then◌else◌, None};
ghost use Rattle.object_types.specs.Values.{says, truth};
ghost use Rattle.object_types.specs.Sets.{every, is_in};
ghost use Rattle.method.specs.SpecValue.{value, holds, is_exactly};
ghost use Rattle.method.specs.Overflow.{overflow, list_overflow};
ghost use Rattle.spec_values.specs.Scenes.{scene_at};
ghost use Rattle.spec_values.specs.Answers.{Gives};
ghost use Rattle.spec_values.specs.Quantified.{each_holds, holds_there, overflow_there, is_met, met_overflow, of_each, of_each_overflow, of_some, of_some_overflow, list_referents, referents_overflow};

use crate::claims::has;
use crate::place::{Bound, Place};
use crate::status::{contains, is_of};
use crate::values::{is_true, referent, says};
use crate::words;
use int_ranges::exact::Wide;
use method::program::{DeclaredType, Spec};
use object_types::references::{NULL, Ref};
use object_types::values::Value;

/// The value of an expression at a place.
///
/// # Errors
/// The operands of the first exact result on the way that leaves 128 bits.
#[cycle(work_out)]
pub fn work_out(at: &Place<'_>, e: &Spec) -> Result<Value, Wide>
    ensures { Gives result (value at.now.program.now e.now (scene_at at.now)) (overflow at.now.program.now e.now (scene_at at.now)) }
{
    match e {
        Spec::Number(number) => Ok(Value::Int(*number)),
        Spec::Truth(holds) => Ok(says(*holds)),
        Spec::Null => Ok(Value::Ref(NULL)),
        Spec::Variable(i) => Ok(at.variable(*i)),
        Spec::Bound(i) => Ok(Value::Ref(at.bound.member(*i))),
        Spec::This => Ok(Value::Ref(at.this)),
        Spec::Me => Ok(Value::Ref(at.thread)),
        Spec::Result => Ok(at.result),
        Spec::Field(o, f) => Ok(words::field(at, work_out(at, o)?, *f)),
        Spec::Closed(o) => Ok(words::closed(at, work_out(at, o)?)),
        Spec::Owner(o) => Ok(words::owner(at, work_out(at, o)?)),
        Spec::ClaimCount(o) => Ok(words::claim_count(at, work_out(at, o)?)),
        Spec::Member(o, x) => Ok(words::member(at, work_out(at, o)?, work_out(at, x)?)),
        Spec::Not(a) => Ok(words::negation(work_out(at, a)?)),
        Spec::Negate(a) => words::opposite(work_out(at, a)?),
        Spec::Arithmetic(operator, a, b) => {
            words::arithmetic(*operator, work_out(at, a)?, work_out(at, b)?)
        }
        Spec::Compare(comparison, a, b) => {
            Ok(words::comparison(*comparison, work_out(at, a)?, work_out(at, b)?))
        }
        Spec::And(a, b) => and(at, work_out(at, a)?, b),
        Spec::Or(a, b) => or(at, work_out(at, a)?, b),
        Spec::Implies(a, b) => implies(at, work_out(at, a)?, b),
        Spec::Iff(a, b) => Ok(words::equivalence(work_out(at, a)?, work_out(at, b)?)),
        Spec::Choose(test, a, b) => {
            if is_true(work_out(at, test)?) {
                return work_out(at, a);
            }
            work_out(at, b)
        }
        Spec::Old(a) => work_out(&at.old(), a),
        Spec::Unchanged(a) => Ok(words::equality(work_out(&at.old(), a)?, work_out(at, a)?)),
        Spec::Wrapped(o) => Ok(words::wrapped(at, work_out(at, o)?)),
        Spec::Wrapped0(o) => Ok(words::wrapped0(at, work_out(at, o)?)),
        Spec::Mutable(o) => Ok(words::mutable(at, work_out(at, o)?)),
        Spec::Fresh(o) => Ok(words::fresh(at, work_out(at, o)?)),
        Spec::ClaimsObject(c, o) => Ok(words::claims_object(
            at,
            work_out(at, c)?,
            work_out(at, o)?,
        )),
        Spec::ClaimsOnly(_, c, objects) => {
            claims_only(at, words::listed(at, work_out(at, c)?), objects)
        }
        Spec::Claims(c, conjuncts) => all_hold(&at.about(referent(work_out(at, c)?)), conjuncts),
        Spec::Lists(o) => Ok(words::lists(at, at.subject, work_out(at, o)?)),
        Spec::Has(conjunct) => Ok(says(has(at, conjunct))),
        Spec::ForAll(_, ty, x, body) => for_all(at, *ty, words::owned(at, work_out(at, x)?), body),
        Spec::Exists(_, ty, x, conjuncts) => exists(
            at,
            *ty,
            words::owned(at, work_out(at, x)?),
            conjuncts,
        ),
    }
}

/// `left && right`
#[cycle(work_out)]
fn and(at: &Place<'_>, left: Value, right: &Spec) -> Result<Value, Wide>
    ensures { let p = at.now.program.now in let s = scene_at at.now in Gives result (says (truth left && holds p right.now s)) (if truth left then overflow p right.now s else None) }
{
    if !is_true(left) {
        return Ok(says(false));
    }
    Ok(says(is_true(work_out(at, right)?)))
}

/// `left || right`
#[cycle(work_out)]
fn or(at: &Place<'_>, left: Value, right: &Spec) -> Result<Value, Wide>
    ensures { let p = at.now.program.now in let s = scene_at at.now in Gives result (says (truth left || holds p right.now s)) (if truth left then None else overflow p right.now s) }
{
    if is_true(left) {
        return Ok(says(true));
    }
    Ok(says(is_true(work_out(at, right)?)))
}

/// `premise ==> conclusion`
#[cycle(work_out)]
fn implies(at: &Place<'_>, premise: Value, conclusion: &Spec) -> Result<Value, Wide>
    ensures { let p = at.now.program.now in let s = scene_at at.now in Gives result (says (not (truth premise) || holds p conclusion.now s)) (if truth premise then overflow p conclusion.now s else None) }
{
    if !is_true(premise) {
        return Ok(says(true));
    }
    Ok(says(is_true(work_out(at, conclusion)?)))
}

/// Whether each conjunct holds, up to one that doesn't.
#[cycle(work_out)]
#[tactic(auto, using(crate::proofs::Deciding::held_err, crate::proofs::Deciding::held_false, crate::proofs::Deciding::held_stops, crate::proofs::Deciding::held_next, crate::proofs::Deciding::held_end, crate::proofs::Deciding::held_fits))]
fn all_hold(at: &Place<'_>, conjuncts: &[Spec]) -> Result<Value, Wide>
    ensures { let p = at.now.program.now in let s = scene_at at.now in Gives result (says (each_holds p conjuncts.now s)) (list_overflow p conjuncts.now s) }
{
    for conjunct in conjuncts {
        if !is_true(work_out(at, conjunct)?) {
            return Ok(says(false));
        }
    }
    Ok(says(true))
}

/// Whether the body holds of the member, or it isn't of the declared type.
#[cycle(work_out)]
fn body_holds(at: &Place<'_>, ty: DeclaredType, member: Ref, body: &Spec) -> Result<bool, Wide>
    ensures { let p = at.now.program.now in let s = scene_at at.now in Gives result (holds_there p ty body.now s member) (overflow_there p ty body.now s member) }
{
    if !is_of(ty, member) {
        return Ok(true);
    }
    let bound = Bound::Within(member, at.bound);
    Ok(is_true(work_out(&at.within(&bound), body)?))
}

/// Whether the body holds of each member of the declared type, up to one of which it doesn't.
#[cycle(work_out)]
#[tactic(auto, using(crate::proofs::Deciding::each_err, crate::proofs::Deciding::each_false, crate::proofs::Deciding::each_stops, crate::proofs::Deciding::each_next, crate::proofs::Deciding::each_end, crate::proofs::Deciding::each_fits))]
fn for_all(at: &Place<'_>, ty: DeclaredType, members: &[Ref], body: &Spec) -> Result<Value, Wide>
    ensures { let p = at.now.program.now in let s = scene_at at.now in Gives result (says (of_each p ty body.now s members.now)) (of_each_overflow p ty body.now s members.now) }
{
    for member in members {
        if !body_holds(at, ty, *member, body)? {
            return Ok(says(false));
        }
    }
    Ok(says(true))
}

/// Whether the member is of the declared type, and the conjuncts hold of it.
#[cycle(work_out)]
fn conjuncts_hold(
    at: &Place<'_>,
    ty: DeclaredType,
    member: Ref,
    conjuncts: &[Spec],
) -> Result<bool, Wide>
    ensures { let p = at.now.program.now in let s = scene_at at.now in Gives result (is_met p ty conjuncts.now s member) (met_overflow p ty conjuncts.now s member) }
{
    if !is_of(ty, member) {
        return Ok(false);
    }
    let bound = Bound::Within(member, at.bound);
    Ok(is_true(all_hold(&at.within(&bound), conjuncts)?))
}

/// Whether the conjuncts hold of some member of the declared type, up to one of which they do.
#[cycle(work_out)]
#[tactic(auto, using(crate::proofs::Deciding::some_err, crate::proofs::Deciding::some_true, crate::proofs::Deciding::some_stops, crate::proofs::Deciding::some_on, crate::proofs::Deciding::some_end, crate::proofs::Deciding::some_fits))]
fn exists(
    at: &Place<'_>,
    ty: DeclaredType,
    members: &[Ref],
    conjuncts: &[Spec],
) -> Result<Value, Wide>
    ensures { let p = at.now.program.now in let s = scene_at at.now in Gives result (says (of_some p ty conjuncts.now s members.now)) (of_some_overflow p ty conjuncts.now s members.now) }
{
    for member in members {
        if conjuncts_hold(at, ty, *member, conjuncts)? {
            return Ok(says(true));
        }
    }
    Ok(says(false))
}

/// Whether each of the objects is in the set. All are worked out, also behind one that is not.
#[cycle(work_out)]
#[tactic(auto, using(crate::proofs::Objects::all_err, crate::proofs::Objects::all_next, crate::proofs::Objects::all_end, crate::proofs::Objects::all_fits))]
fn all_listed(at: &Place<'_>, set: &[Ref], objects: &[Spec]) -> Result<bool, Wide>
    ensures { let p = at.now.program.now in let s = scene_at at.now in Gives result (every (λ o. is_in o set.now) (list_referents p objects.now s)) (referents_overflow p objects.now s) }
{
    let mut all = true;
    for object in objects {
        let o = referent(work_out(at, object)?);
        all &= contains(set, o);
    }
    Ok(all)
}

/// Whether the member is one of the objects, none of which overflows.
#[cycle(work_out)]
#[tactic(auto, using(crate::proofs::Objects::one_err, crate::proofs::Objects::one_true, crate::proofs::Objects::one_next, crate::proofs::Objects::one_end))]
fn is_object(at: &Place<'_>, member: Ref, objects: &[Spec]) -> Result<bool, Wide>
    requires { referents_overflow at.now.program.now objects.now (scene_at at.now) ≡ None }
    ensures { Gives result (is_in member (list_referents at.now.program.now objects.now (scene_at at.now))) None }
{
    for object in objects {
        if member.is_same(referent(work_out(at, object)?)) {
            return Ok(true);
        }
    }
    Ok(false)
}

/// Whether each member of the set is one of the objects, none of which overflows.
#[cycle(work_out)]
#[tactic(auto, using(crate::proofs::Objects::every_false, crate::proofs::Objects::every_next, crate::proofs::Objects::every_end))]
fn no_others(at: &Place<'_>, set: &[Ref], objects: &[Spec]) -> Result<bool, Wide>
    requires { referents_overflow at.now.program.now objects.now (scene_at at.now) ≡ None }
    ensures { let os = list_referents at.now.program.now objects.now (scene_at at.now) in Gives result (every (λ o. is_in o os) set.now) None }
{
    for member in set {
        if !is_object(at, *member, objects)? {
            return Ok(false);
        }
    }
    Ok(true)
}

/// Whether the set has the objects as its members, and no others.
#[cycle(work_out)]
fn claims_only(at: &Place<'_>, set: &[Ref], objects: &[Spec]) -> Result<Value, Wide>
    ensures { let p = at.now.program.now in let s = scene_at at.now in Gives result (says (is_exactly set.now (list_referents p objects.now s))) (referents_overflow p objects.now s) }
{
    if !all_listed(at, set, objects)? {
        return Ok(says(false));
    }
    Ok(says(no_others(at, set, objects)?))
}
