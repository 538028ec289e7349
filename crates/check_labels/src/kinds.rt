//! The kinds of the checks that expressions and left sides hold.

ghost use Rattle.std.specs.Prelude.{◌≡◌, ◌++◌, IfOk, replicate};
ghost use Rattle.method.specs.Actions.{operands};
ghost use Rattle.method.specs.Labels as spec;
ghost use Rattle.check_labels.specs.Kinds as own;

use int_ranges::ctype::CType;
use method::program::{CheckKind, Expr, InterlockedResult, Operation, Operator, Target};
use std::alloc::AllocError;

/// Adds the kinds, in their order.
pub fn add_each(more: &[CheckKind], kinds: &mut Vec<CheckKind>) -> Result<(), AllocError>
    ensures { IfOk result (λ u. kinds.new.items ≡ kinds.old.items ++ more.now) }
{
    kinds.extend_from_slice(more)?;
    Ok(())
}

/// Adds the kind so many times.
pub fn add_times(
    kind: CheckKind,
    times: usize,
    kinds: &mut Vec<CheckKind>,
) -> Result<(), AllocError>
    ensures { IfOk result (λ u. kinds.new.items ≡ kinds.old.items ++ replicate times kind) }
{
    for _ in 0..times {
        kinds.push(kind)?;
    }
    Ok(())
}

/// Adds what an operator checks behind its operands.
fn add_arithmetic_kinds(operator: Operator, kinds: &mut Vec<CheckKind>) -> Result<(), AllocError>
    ensures { IfOk result (λ u. kinds.new.items ≡ kinds.old.items ++ own.arithmetic_kinds operator) }
{
    match operator {
        Operator::Over | Operator::Modulo => {
            add_each(&[CheckKind::Divide, CheckKind::Range], kinds)?;
            Ok(())
        }
        Operator::Plus | Operator::Minus | Operator::Times => {
            kinds.push(CheckKind::Range)?;
            Ok(())
        }
    }
}

/// Adds what the expression checks.
#[tactic(auto, using(std::proofs::lemmas::List::append_assoc))]
pub fn add_kinds(e: &Expr, kinds: &mut Vec<CheckKind>) -> Result<(), AllocError>
    ensures { IfOk result (λ u. kinds.new.items ≡ kinds.old.items ++ spec.kinds e.now) }
{
    match e {
        Expr::Number(_) | Expr::Null | Expr::Variable(_) => Ok(()),
        Expr::Field(object, _) => {
            add_kinds(object, kinds)?;
            kinds.push(CheckKind::Read)?;
            Ok(())
        }
        Expr::Not(operand) => {
            add_kinds(operand, kinds)?;
            Ok(())
        }
        Expr::Negate(operand, _) | Expr::Convert(operand, _) => {
            add_kinds(operand, kinds)?;
            kinds.push(CheckKind::Range)?;
            Ok(())
        }
        Expr::Arithmetic(operator, left, right, _) => {
            add_kinds(left, kinds)?;
            add_kinds(right, kinds)?;
            add_arithmetic_kinds(*operator, kinds)?;
            Ok(())
        }
        Expr::Compare(_, left, right) | Expr::And(left, right) | Expr::Or(left, right) => {
            add_kinds(left, kinds)?;
            add_kinds(right, kinds)?;
            Ok(())
        }
        Expr::Choose(test, first, second) => {
            add_kinds(test, kinds)?;
            add_kinds(first, kinds)?;
            add_kinds(second, kinds)?;
            Ok(())
        }
    }
}

/// Adds what the expressions check.
pub fn add_all_kinds(es: &[Expr], kinds: &mut Vec<CheckKind>) -> Result<(), AllocError>
    ensures { IfOk result (λ u. kinds.new.items ≡ kinds.old.items ++ spec.all_kinds es.now) }
{
    for e in es {
        add_kinds(e, kinds)?;
    }
    Ok(())
}

/// Adds what the expression checks, if there is one.
pub fn add_option_kinds(e: &Option<Expr>, kinds: &mut Vec<CheckKind>) -> Result<(), AllocError>
    ensures { IfOk result (λ u. kinds.new.items ≡ kinds.old.items ++ spec.option_kinds e.now) }
{
    match e {
        None => Ok(()),
        Some(e) => {
            add_kinds(e, kinds)?;
            Ok(())
        }
    }
}

/// Adds what finding the left side's place checks.
pub fn add_target_kinds(target: &Target, kinds: &mut Vec<CheckKind>) -> Result<(), AllocError>
    ensures { IfOk result (λ u. kinds.new.items ≡ kinds.old.items ++ spec.target_kinds target.now) }
{
    match target {
        Target::Local(_) => Ok(()),
        Target::FieldOf(object, _) => {
            add_kinds(object, kinds)?;
            Ok(())
        }
    }
}

/// Adds what storing at the left side checks.
pub fn add_store_kinds(target: &Target, kinds: &mut Vec<CheckKind>) -> Result<(), AllocError>
    ensures { IfOk result (λ u. kinds.new.items ≡ kinds.old.items ++ spec.store_kinds target.now) }
{
    match target {
        Target::Local(_) => Ok(()),
        Target::FieldOf(_, _) => {
            add_each(&[CheckKind::Write, CheckKind::Writes], kinds)?;
            Ok(())
        }
    }
}

/// Adds what the conversion checks, if there is one.
pub fn add_conversion_kinds(
    conversion: &Option<CType>,
    kinds: &mut Vec<CheckKind>,
) -> Result<(), AllocError>
    ensures { IfOk result (λ u. kinds.new.items ≡ kinds.old.items ++ spec.conversion_kinds conversion.now) }
{
    match conversion {
        None => Ok(()),
        Some(_) => {
            kinds.push(CheckKind::Range)?;
            Ok(())
        }
    }
}

/// Adds what the operands of an Interlocked operation check.
#[tactic(auto, using(crate::proofs::Steps::append_nil, std::proofs::lemmas::List::append_assoc))]
fn add_operand_kinds(operation: &Operation, kinds: &mut Vec<CheckKind>) -> Result<(), AllocError>
    ensures { IfOk result (λ u. kinds.new.items ≡ kinds.old.items ++ spec.all_kinds (operands operation.now)) }
{
    match operation {
        Operation::CompareExchange(value, expected) => {
            add_kinds(value, kinds)?;
            add_kinds(expected, kinds)?;
            Ok(())
        }
        Operation::Exchange(value) => {
            add_kinds(value, kinds)?;
            Ok(())
        }
        Operation::Increment | Operation::Decrement => Ok(()),
    }
}

/// Adds what an Interlocked operation checks behind its operands.
fn add_exchange_kinds(operation: &Operation, kinds: &mut Vec<CheckKind>) -> Result<(), AllocError>
    ensures { IfOk result (λ u. kinds.new.items ≡ kinds.old.items ++ own.exchange_kinds operation.now) }
{
    match operation {
        Operation::Increment | Operation::Decrement => {
            add_each(
                &[
                    CheckKind::Read,
                    CheckKind::Range,
                    CheckKind::Write,
                    CheckKind::Writes,
                ],
                kinds,
            )?;
            Ok(())
        }
        Operation::CompareExchange(_, _) | Operation::Exchange(_) => {
            add_each(
                &[CheckKind::Read, CheckKind::Write, CheckKind::Writes],
                kinds,
            )?;
            Ok(())
        }
    }
}

/// Adds what becomes of an Interlocked call's value checks.
#[tactic(auto, using(std::proofs::lemmas::List::append_assoc))]
fn add_afterwards_kinds(
    afterwards: &InterlockedResult,
    kinds: &mut Vec<CheckKind>,
) -> Result<(), AllocError>
    ensures { IfOk result (λ u. kinds.new.items ≡ kinds.old.items ++ spec.afterwards_kinds afterwards.now) }
{
    match afterwards {
        InterlockedResult::Plainly(conversion) => {
            add_conversion_kinds(conversion, kinds)?;
            Ok(())
        }
        InterlockedResult::Compared(conversion, _, right, truth) => {
            add_conversion_kinds(conversion, kinds)?;
            add_kinds(right, kinds)?;
            add_conversion_kinds(truth, kinds)?;
            Ok(())
        }
    }
}

/// Adds what an Interlocked call checks.
#[tactic(auto, using(std::proofs::lemmas::List::append_assoc))]
pub fn add_interlocked_kinds(
    object: &Expr,
    operation: &Operation,
    afterwards: &InterlockedResult,
    kinds: &mut Vec<CheckKind>,
) -> Result<(), AllocError>
    ensures { IfOk result (λ u. kinds.new.items ≡ kinds.old.items ++
        own.interlocked_kinds object.now operation.now afterwards.now) }
{
    add_kinds(object, kinds)?;
    add_operand_kinds(operation, kinds)?;
    add_exchange_kinds(operation, kinds)?;
    add_afterwards_kinds(afterwards, kinds)?;
    Ok(())
}
