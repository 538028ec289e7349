//! The value of an expression of code, with the checks on the way.

ghost use Rattle.std.specs.Prelude.{◌≡◌, ℤ, ◌-ℤ◌, pos, IfOk};
ghost use Rattle.object_types.specs.Values.{int, referent};
ghost use Rattle.method.specs.Expressions.{readable, arithmetic, converted, eval, eval_all};
ghost use Rattle.machine_values.specs.Answers.{Yields, IsExact};
ghost use Rattle.machine_values.specs.Items.{AtSpot, OnHeap, OnHeaps, ranged, field_read, YieldsAll};

use crate::arithmetic::{checked_result, compute, lacks_quotient};
use crate::spot::Spot;
use crate::stop::Stop;
use crate::tables::{has_number, in_range, is_volatile, read};
use crate::values::{compare, contains, is_true, local, number, referent, says};
use int_ranges::ctype::CType;
use int_ranges::exact::{Wide, sub_exact};
use method::program::{CheckKind, Comparison, Expr, Operator};
use object_types::heap::Heap;
use object_types::references::{NULL, Ref};
use object_types::values::Value;
use ownership::stable::{is_stable_by_owners, stable_set};
use ownership::status::mutable;
use std::alloc::{AllocError, Global};

/// Whether the object's field may be read.
pub fn is_readable(
    alloc: Global,
    at: &Spot<'_>,
    heap: &Heap,
    o: Ref,
    field: u32,
) -> Result<bool, AllocError>
    ensures { IfOk result (λ b. OnHeaps at.now heap.now (λ s h. b ≡ readable at.now.program.now s h o field)) }
{
    if mutable(heap, at.context.me, o) {
        return Ok(true);
    }
    if at.is_listed(o) {
        return Ok(true);
    }
    if is_volatile(at.program, field) {
        return Ok(false);
    }
    if is_stable_by_owners(at.program, heap, at.context.me, o) {
        return Ok(true);
    }
    let stable = stable_set(alloc, at.program, heap, at.context.me)?;
    Ok(contains(&stable, o))
}

/// The value of the object's field, where it may be read.
fn field(alloc: Global, at: &Spot<'_>, heap: &Heap, o: Value, f: u32) -> Result<Value, Stop>
    ensures { OnHeap at.now heap.now (λ s h n. Yields result (field_read at.now.program.now s h (referent o) f n)) }
{
    let o = referent(o);
    if !is_readable(alloc, at, heap, o, f)? {
        return Err(at.fault(CheckKind::Read));
    }
    Ok(read(at.program, heap, o, f))
}

/// The value converted to a type that lacks some values of its source.
pub fn converted(at: &Spot<'_>, ty: CType, value: Value) -> Result<Value, Stop>
    ensures { AtSpot at.now (λ s n. Yields result (converted s ty value n)) }
{
    if !has_number(ty, value) {
        return Err(at.fault(CheckKind::Range));
    }
    Ok(value)
}

/// An exact result as a value, where the type has it.
#[tactic(auto, using(crate::proofs::Ranges::leaves_range))]
fn ranged(at: &Spot<'_>, ty: CType, exact: Result<i128, Wide>) -> Result<Value, Stop>
    ensures { (z : ℤ) → IsExact exact z → AtSpot at.now (λ s n. Yields result (ranged s ty z n)) }
{
    let Ok(number) = exact else {
        return Err(at.fault(CheckKind::Range));
    };
    if !in_range(ty, number) {
        return Err(at.fault(CheckKind::Range));
    }
    Ok(Value::Int(number))
}

/// `-a`
fn opposite(at: &Spot<'_>, ty: CType, a: Value) -> Result<Value, Stop>
    ensures { AtSpot at.now (λ s n. Yields result (ranged s ty (pos 0 -ℤ int a) n)) }
{
    ranged(at, ty, sub_exact(0, number(a)))
}

/// An operator of arithmetic.
fn arithmetic(
    at: &Spot<'_>,
    operator: Operator,
    ty: CType,
    a: Value,
    b: Value,
) -> Result<Value, Stop>
    ensures { AtSpot at.now (λ s n. Yields result (arithmetic s operator ty (int a) (int b) n)) }
{
    if lacks_quotient(operator, b) {
        return Err(at.fault(CheckKind::Divide));
    }
    let Ok(checked) = checked_result(operator, a, b) else {
        return Err(at.fault(CheckKind::Range));
    };
    if !has_number(ty, checked) {
        return Err(at.fault(CheckKind::Range));
    }
    Ok(compute(operator, a, b, checked))
}

/// The value of an expression of code.
pub fn eval(
    alloc: Global,
    at: &Spot<'_>,
    heap: &Heap,
    locals: &[Value],
    e: &Expr,
) -> Result<Value, Stop>
    ensures { OnHeap at.now heap.now (λ s h n. Yields result (eval at.now.program.now s h locals.now e.now n)) }
{
    match e {
        Expr::Number(number) => Ok(Value::Int(*number)),
        Expr::Null => Ok(Value::Ref(NULL)),
        Expr::Variable(i) => Ok(local(locals, *i)),
        Expr::Field(o, f) => field(alloc, at, heap, eval(alloc, at, heap, locals, o)?, *f),
        Expr::Not(a) => Ok(says(!is_true(eval(alloc, at, heap, locals, a)?))),
        Expr::Negate(a, ty) => opposite(at, *ty, eval(alloc, at, heap, locals, a)?),
        Expr::Arithmetic(operator, a, b, ty) => {
            let a = eval(alloc, at, heap, locals, a)?;
            let b = eval(alloc, at, heap, locals, b)?;
            arithmetic(at, *operator, *ty, a, b)
        }
        Expr::Compare(comparison, a, b) => {
            let a = eval(alloc, at, heap, locals, a)?;
            let b = eval(alloc, at, heap, locals, b)?;
            Ok(says(compare(*comparison, a, b)))
        }
        Expr::And(a, b) => {
            if !is_true(eval(alloc, at, heap, locals, a)?) {
                return Ok(says(false));
            }
            Ok(says(is_true(eval(alloc, at, heap, locals, b)?)))
        }
        Expr::Or(a, b) => {
            if is_true(eval(alloc, at, heap, locals, a)?) {
                return Ok(says(true));
            }
            Ok(says(is_true(eval(alloc, at, heap, locals, b)?)))
        }
        Expr::Choose(test, a, b) => {
            if is_true(eval(alloc, at, heap, locals, test)?) {
                return eval(alloc, at, heap, locals, a);
            }
            eval(alloc, at, heap, locals, b)
        }
        Expr::Convert(a, ty) => converted(at, *ty, eval(alloc, at, heap, locals, a)?),
    }
}

/// The values of expressions of code, from left to right.
pub fn eval_all(
    alloc: Global,
    at: &Spot<'_>,
    heap: &Heap,
    locals: &[Value],
    es: &[Expr],
) -> Result<Vec<Value>, Stop>
    ensures { OnHeap at.now heap.now (λ s h n. YieldsAll result (eval_all at.now.program.now s h locals.now es.now n)) }
{
    let mut values = Vec::new(alloc);
    for e in es {
        values.push(eval(alloc, at, heap, locals, e)?)?;
    }
    Ok(values)
}
