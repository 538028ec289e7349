//! Interlocked calls, and right sides.

ghost use Rattle.std.specs.Prelude.{◌≡◌, ◌||◌, not, if◌then◌else◌};
ghost use Rattle.std.specs.Prelude.{slice_get, Some, None, IfSome, IfNone};
ghost use Rattle.object_types.specs.Values.{says, same_value};
ghost use Rattle.method.specs.Tables.{in_type, type_of_field};
ghost use Rattle.method.specs.Expressions.{eval_all};
ghost use Rattle.method.specs.Actions.{Tally, counts, replaced, given, operands};
ghost use Rattle.method.specs.Actions.{exchange, convert_to, afterwards, right_side};
ghost use Rattle.machine_values.specs.Answers.{Yields};
ghost use Rattle.machine_values.specs.Items.{AtSpot, YieldsAll};
ghost use Rattle.machine_objects.specs.Runs.{Reading, RunsTo, RunsToOr, place_of, ended_value};
ghost use Rattle.machine_claims.specs.Calls.{run_value, run_call, IsReplaced};
ghost use Rattle.machine_claims.specs.RunsOut.{RightRunsOut};

use crate::making::make_claim;
use int_ranges::ctype::CType;
use machine_objects::objects::malloc;
use machine_objects::progress::{Place, Progress};
use machine_objects::store::store;
use machine_values::eval::{converted, eval, is_readable};
use machine_values::spot::Spot;
use machine_values::stop::Stop;
use machine_values::tables::{in_type, read, type_of_field};
use machine_values::values::{local, number, referent, says};
use method::program::{
    CheckKind, ClaimSite, Expr, InterlockedResult, Operation, Program, RightSide,
};
use object_types::references::Ref;
use object_types::values::Value;
use std::alloc::Global;

/// The value by which the operation replaces another; none where a count leaves 128 bits.
fn replacement(operation: &Operation, values: &[Value], was: Value) -> Option<Value>
    ensures { IsReplaced operation.now result (replaced operation.now values.now was) }
{
    match operation {
        Operation::CompareExchange(_, _) => {
            if was.is_same(local(values, 1)) {
                return Some(local(values, 0));
            }
            Some(was)
        }
        Operation::Exchange(_) => Some(local(values, 0)),
        Operation::Increment => Some(Value::Int(number(was).checked_add(1)?)),
        Operation::Decrement => Some(Value::Int(number(was).checked_sub(1)?)),
    }
}

/// What the call gives: the earlier value, or for a count the new one.
fn call_value(operation: &Operation, was: Value, now: Value) -> Value
    ensures { result ≡ given operation.now was now }
{
    match operation {
        Operation::CompareExchange(_, _) | Operation::Exchange(_) => was,
        Operation::Increment | Operation::Decrement => now,
    }
}

/// Whether the operation counts, so that its result must fit the field's type.
fn counts(operation: &Operation) -> bool
    ensures { result ≡ counts operation.now }
{
    match operation {
        Operation::CompareExchange(_, _) | Operation::Exchange(_) => false,
        Operation::Increment | Operation::Decrement => true,
    }
}

/// Whether the value may be stored into the field: it is no count, or of the field's type.
fn fits_field(at: &Spot<'_>, operation: &Operation, f: u32, now: Value) -> bool
    ensures { result ≡ (not (counts operation.now) || in_type (type_of_field at.now.program.now f) now) }
{
    !counts(operation) || in_type(type_of_field(at.program, f), now)
}

/// Reads the field, and stores what the operation makes of its value.
fn exchange(
    alloc: Global,
    at: &Spot<'_>,
    operation: &Operation,
    o: Ref,
    f: u32,
    values: &[Value],
    progress: &mut Progress,
) -> Result<Value, Stop>
    ensures { Reading at.now progress.old
        (λ p s g n. RunsTo result progress.new (exchange p s operation.now o f values.now n g)) }
{
    if !is_readable(alloc, at, &progress.heap, o, f)? {
        return Err(at.fault(CheckKind::Read));
    }
    let was = read(at.program, &progress.heap, o, f);
    let Some(now) = replacement(operation, values, was) else {
        return Err(at.fault(CheckKind::Range));
    };
    if !fits_field(at, operation, f, now) {
        return Err(at.fault(CheckKind::Range));
    }
    store(at, Place::InField(o, f), now, progress)?;
    Ok(call_value(operation, was, now))
}

/// The value converted, if it has to be.
pub fn convert_to(at: &Spot<'_>, ty: Option<CType>, value: Value) -> Result<Value, Stop>
    ensures { AtSpot at.now (λ s n. Yields result (convert_to s ty value n)) }
{
    match ty {
        Some(ty) => converted(at, ty, value),
        None => Ok(value),
    }
}

/// Whether the two are the same, or aren't, as a value.
fn comparison_value(equal: bool, a: Value, b: Value) -> Value
    ensures { result ≡ says (if equal then same_value a b else not (same_value a b)) }
{
    if equal {
        return says(a.is_same(b));
    }
    says(!a.is_same(b))
}

/// What becomes of an Interlocked call's value.
fn end_value(
    alloc: Global,
    at: &Spot<'_>,
    ending: &InterlockedResult,
    v: Value,
    progress: &Progress,
) -> Result<Value, Stop>
    ensures { Reading at.now progress.now
        (λ p s g n. Yields result (ended_value (afterwards p s ending.now n (record { value = v; starting = g })))) }
{
    match ending {
        InterlockedResult::Plainly(ty) => convert_to(at, *ty, v),
        InterlockedResult::Compared(ty, equal, e, to) => {
            let a = convert_to(at, *ty, v)?;
            let b = eval(alloc, at, &progress.heap, &progress.locals, e)?;
            convert_to(at, *to, comparison_value(*equal, a, b))
        }
    }
}

/// The values of the operation's operands.
fn operand_values(
    alloc: Global,
    at: &Spot<'_>,
    operation: &Operation,
    progress: &Progress,
) -> Result<Vec<Value>, Stop>
    ensures { Reading at.now progress.now
        (λ p s g n. YieldsAll result (eval_all p s g.heap g.locals (operands operation.now) n)) }
{
    let mut values = Vec::new(alloc);
    match operation {
        Operation::CompareExchange(new, old) => {
            values.push(eval(alloc, at, &progress.heap, &progress.locals, new)?)?;
            values.push(eval(alloc, at, &progress.heap, &progress.locals, old)?)?;
        }
        Operation::Exchange(new) => {
            values.push(eval(alloc, at, &progress.heap, &progress.locals, new)?)?;
        }
        Operation::Increment | Operation::Decrement => {}
    }
    Ok(values)
}

/// An Interlocked call.
fn call_interlocked(
    alloc: Global,
    at: &Spot<'_>,
    object: &Expr,
    f: u32,
    operation: &Operation,
    ending: &InterlockedResult,
    progress: &mut Progress,
) -> Result<Value, Stop>
    ensures { Reading at.now progress.old
        (λ p s g n. RunsTo result progress.new (run_call p s object.now f operation.now ending.now n g)) }
{
    let o = eval(alloc, at, &progress.heap, &progress.locals, object)?;
    let values = operand_values(alloc, at, operation, progress)?;
    let v = exchange(alloc, at, operation, referent(o), f, &values, progress)?;
    end_value(alloc, at, ending, v, progress)
}

/// The value of an expression of code, in a right side.
fn compute_value(
    alloc: Global,
    at: &Spot<'_>,
    e: &Expr,
    progress: &mut Progress,
) -> Result<Value, Stop>
    ensures { Reading at.now progress.old (λ p s g n. RunsTo result progress.new (run_value p s e.now n g)) }
{
    eval(alloc, at, &progress.heap, &progress.locals, e)
}

/// The claim site with the number.
fn site_of(program: &Program, n: u32) -> Option<&ClaimSite>
    ensures some { IfSome result (λ site. slice_get program.now.sites.items n ≡ Some site.now) }
    ensures none { IfNone result (slice_get program.now.sites.items n ≡ None) }
{
    program.sites.get(n as usize)
}

/// The value of a right side, whose value will be stored at the place.
///
/// # Errors
/// The fault of its first check that fails; Wide, with the operands of the first exact result on the way that leaves 128
/// bits; Misfit where a malloc has no choice, or there is no claim site of its number; Exhausted where no reference is
/// left for what it makes, or a claim count would leave 128 bits.
pub fn right_side(
    alloc: Global,
    at: &Spot<'_>,
    right: &RightSide,
    place: Place,
    progress: &mut Progress,
) -> Result<Value, Stop>
    ensures { (t : Tally) →
        Reading at.now progress.old
        (λ p s g n. RunsToOr (RightRunsOut p s right.now n g) result progress.new
        (right_side p s right.now (place_of place) n t g)) }
{
    match right {
        RightSide::Compute(e) => compute_value(alloc, at, e, progress),
        RightSide::Malloc(ty) => malloc(at, *ty, progress),
        RightSide::NewClaim(n) => {
            let Some(site) = site_of(at.program, *n) else {
                return Err(Stop::Misfit);
            };
            make_claim(alloc, at, site, place, progress)
        }
        RightSide::Interlocked(object, f, operation, ending) => {
            call_interlocked(alloc, at, object, *f, operation, ending, progress)
        }
    }
}
