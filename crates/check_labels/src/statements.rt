//! The checks of statements.

ghost use Rattle.std.specs.Prelude.{◌≡◌, ◌++◌, IfOk, Some};
ghost use Rattle.method.specs.Labels as spec;
ghost use Rattle.method.specs.declared.program.CheckKind.TheVariants.{Requires, Writes};
ghost use Rattle.check_labels.specs.Kinds as own;
ghost use Rattle.check_labels.specs.Labels.{checks_of};

use crate::actions::{WRAPPING, add_action_labels, add_unwrap_kinds};
use crate::kinds::{
    add_all_kinds, add_conversion_kinds, add_option_kinds, add_store_kinds, add_target_kinds,
    add_times,
};
use crate::lines::{Label, add_invariant_labels, add_loop_labels, add_on_line, add_test_labels};
use crate::tables::function_of;
use int_ranges::ctype::CType;
use method::program::{CheckKind, Expr, FunctionInfo, Program, Receiver, Stmt};
use std::alloc::{AllocError, Global};

/// Adds what finding the place of a call's value checks.
fn add_receiver_kinds(receiver: &Receiver, kinds: &mut Vec<CheckKind>) -> Result<(), AllocError>
    ensures { IfOk result (λ u. kinds.new.items ≡ kinds.old.items ++ spec.receiver_kinds receiver.now) }
{
    match receiver {
        Receiver::Nobody | Receiver::NewVariable(_) => Ok(()),
        Receiver::Place(target) => {
            add_target_kinds(target, kinds)?;
            Ok(())
        }
    }
}

/// Adds what storing a call's value checks.
fn add_receiving_kinds(receiver: &Receiver, kinds: &mut Vec<CheckKind>) -> Result<(), AllocError>
    ensures { IfOk result (λ u. kinds.new.items ≡ kinds.old.items ++ spec.receiving_kinds receiver.now) }
{
    match receiver {
        Receiver::Nobody | Receiver::NewVariable(_) => Ok(()),
        Receiver::Place(target) => {
            add_store_kinds(target, kinds)?;
            Ok(())
        }
    }
}

/// Adds what a call checks of its function.
fn add_callee_kinds(function: &FunctionInfo, kinds: &mut Vec<CheckKind>) -> Result<(), AllocError>
    ensures { IfOk result (λ u. kinds.new.items ≡ kinds.old.items ++
        spec.contract_kinds Requires Writes (Some function.now)) }
{
    add_times(CheckKind::Requires, function.requires_.len(), kinds)?;
    add_times(CheckKind::Writes, function.writes.len(), kinds)?;
    Ok(())
}

/// Adds what a call checks of the function of this number.
fn add_contract_kinds(
    program: &Program,
    number: u32,
    kinds: &mut Vec<CheckKind>,
) -> Result<(), AllocError>
    ensures { IfOk result (λ u. kinds.new.items ≡ kinds.old.items ++ own.callee_kinds program.now number) }
{
    match function_of(program, number) {
        None => Ok(()),
        Some(function) => {
            add_callee_kinds(function, kinds)?;
            Ok(())
        }
    }
}

/// Adds what a call checks.
#[tactic(auto, using(std::proofs::lemmas::List::append_assoc))]
fn add_call_kinds(
    program: &Program,
    receiver: &Receiver,
    conversion: &Option<CType>,
    function: u32,
    arguments: &[Expr],
    kinds: &mut Vec<CheckKind>,
) -> Result<(), AllocError>
    ensures { IfOk result (λ u. kinds.new.items ≡ kinds.old.items ++
        own.call_kinds program.now receiver.now conversion.now function arguments.now) }
{
    add_receiver_kinds(receiver, kinds)?;
    add_all_kinds(arguments, kinds)?;
    add_contract_kinds(program, function, kinds)?;
    add_conversion_kinds(conversion, kinds)?;
    add_receiving_kinds(receiver, kinds)?;
    Ok(())
}

/// Adds the checks of a return on the line.
fn add_return_labels(
    alloc: Global,
    function: &FunctionInfo,
    line: u32,
    value: &Option<Expr>,
    labels: &mut Vec<Label>,
) -> Result<(), AllocError>
    ensures { IfOk result (λ u. checks_of labels.new.items ≡
        checks_of labels.old.items ++ spec.on_line line (own.return_kinds function.now value.now)) }
{
    let mut kinds = Vec::new(alloc);
    add_option_kinds(value, &mut kinds)?;
    add_times(CheckKind::Ensures, function.ensures_.len(), &mut kinds)?;
    add_on_line(line, &kinds, labels)?;
    Ok(())
}

/// Adds the checks of an unwrap on the line.
fn add_unwrap_labels(
    alloc: Global,
    line: u32,
    object: &Expr,
    labels: &mut Vec<Label>,
) -> Result<(), AllocError>
    ensures { IfOk result (λ u. checks_of labels.new.items ≡
        checks_of labels.old.items ++ spec.on_line line (own.unwrap_kinds object.now)) }
{
    let mut kinds = Vec::new(alloc);
    add_unwrap_kinds(object, &mut kinds)?;
    add_on_line(line, &kinds, labels)?;
    Ok(())
}

/// Adds the checks of a statement that holds no others.
fn add_plain_labels(
    alloc: Global,
    program: &Program,
    function: &FunctionInfo,
    statement: &Stmt,
    labels: &mut Vec<Label>,
) -> Result<(), AllocError>
    ensures { IfOk result (λ u. checks_of labels.new.items ≡
        checks_of labels.old.items ++ own.plain_labels program.now function.now statement.now) }
{
    match statement {
        Stmt::Do(line, action) => {
            add_action_labels(alloc, program, *line, action, labels)?;
            Ok(())
        }
        Stmt::Call(line, receiver, conversion, called, arguments) => {
            let mut kinds = Vec::new(alloc);
            add_call_kinds(
                program, receiver, conversion, *called, arguments, &mut kinds,
            )?;
            add_on_line(*line, &kinds, labels)?;
            Ok(())
        }
        Stmt::Return(line, value) => {
            add_return_labels(alloc, function, *line, value, labels)?;
            Ok(())
        }
        Stmt::If(_, _, _, _, _) | Stmt::While(_, _, _, _) => Ok(()),
        Stmt::DoWhile(_, _, _, _, _) | Stmt::Unwrapping(_, _, _, _, _) => Ok(()),
    }
}

/// Adds the checks of the statement.
#[cycle(statement)]
fn add_statement_labels(
    alloc: Global,
    program: &Program,
    function: &FunctionInfo,
    statement: &Stmt,
    labels: &mut Vec<Label>,
) -> Result<(), AllocError>
    ensures { IfOk result (λ u. checks_of labels.new.items ≡
        checks_of labels.old.items ++ spec.stmt_labels program.now function.now statement.now) }
{
    match statement {
        Stmt::Do(_, _) | Stmt::Call(_, _, _, _, _) | Stmt::Return(_, _) => {
            add_plain_labels(alloc, program, function, statement, labels)
        }
        Stmt::If(line, _, test, first, second) => {
            add_test_labels(alloc, *line, test, labels)?;
            add_body_labels(alloc, program, function, first, labels)?;
            add_body_labels(alloc, program, function, second, labels)
        }
        Stmt::While(line, invariants, test, body) => {
            add_loop_labels(alloc, *line, invariants, test, labels)?;
            add_body_labels(alloc, program, function, body, labels)?;
            add_invariant_labels(alloc, *line, invariants, labels)
        }
        Stmt::DoWhile(line, invariants, body, tested, test) => {
            add_invariant_labels(alloc, *line, invariants, labels)?;
            add_body_labels(alloc, program, function, body, labels)?;
            add_test_labels(alloc, *tested, test, labels)?;
            add_invariant_labels(alloc, *line, invariants, labels)
        }
        Stmt::Unwrapping(line, _, _, object, body) => {
            add_unwrap_labels(alloc, *line, object, labels)?;
            add_body_labels(alloc, program, function, body, labels)?;
            add_on_line(*line, &WRAPPING, labels)
        }
    }
}

/// Adds the checks of the statements.
#[cycle(statement)]
pub fn add_body_labels(
    alloc: Global,
    program: &Program,
    function: &FunctionInfo,
    statements: &[Stmt],
    labels: &mut Vec<Label>,
) -> Result<(), AllocError>
    ensures { IfOk result (λ u. checks_of labels.new.items ≡
        checks_of labels.old.items ++ spec.body_labels program.now function.now statements.now) }
{
    for statement in statements {
        add_statement_labels(alloc, program, function, statement, labels)?;
    }
    Ok(())
}
