//! The variables that text declares.

ghost use Rattle.std.specs.Prelude.{◌≡◌, ◌++◌, IfOk};
ghost use Rattle.conditions.specs.Statements as spec;
ghost use Rattle.statement_text.specs.Rows.{all_declare};

use method::program::{Action, Receiver, Stmt};
use std::alloc::AllocError;

/// Adds the variable that the action declares, if it declares one.
fn add_action_declares(action: &Action, so_far: &mut Vec<u32>) -> Result<(), AllocError>
    ensures { IfOk result (λ u. so_far.new.items ≡ so_far.old.items ++ spec.action_declares action.now) }
{
    match action {
        Action::Declare(i) => {
            so_far.push(*i)?;
            Ok(())
        }
        Action::Define(i, _) => {
            so_far.push(*i)?;
            Ok(())
        }
        Action::Simply(_) | Action::WrapObject(_, _, _) | Action::UnwrapObject(_) => Ok(()),
        Action::AssertSpec(_) | Action::FreeObject(_) | Action::SpawnThread(_, _) => Ok(()),
        Action::Atomic(_, _) => Ok(()),
    }
}

/// Adds the variable that a call's value declares, if it declares one.
fn add_receiver_declares(receiver: &Receiver, so_far: &mut Vec<u32>) -> Result<(), AllocError>
    ensures { IfOk result (λ u. so_far.new.items ≡ so_far.old.items ++ spec.receiver_declares receiver.now) }
{
    match receiver {
        Receiver::NewVariable(i) => {
            so_far.push(*i)?;
            Ok(())
        }
        Receiver::Nobody | Receiver::Place(_) => Ok(()),
    }
}

/// Adds the variables that the statement declares.
#[cycle(statement)]
pub fn add_declares(statement: &Stmt, so_far: &mut Vec<u32>) -> Result<(), AllocError>
    ensures { IfOk result (λ u. so_far.new.items ≡ so_far.old.items ++ spec.declares statement.now) }
{
    match statement {
        Stmt::Do(_, action) => {
            add_action_declares(action, so_far)?;
            Ok(())
        }
        Stmt::If(_, _, _, first, second) => {
            add_all_declares(first, so_far)?;
            add_all_declares(second, so_far)?;
            Ok(())
        }
        Stmt::While(_, _, _, body) => {
            add_all_declares(body, so_far)?;
            Ok(())
        }
        Stmt::DoWhile(_, _, body, _, _) => {
            add_all_declares(body, so_far)?;
            Ok(())
        }
        Stmt::Unwrapping(_, _, _, _, body) => {
            add_all_declares(body, so_far)?;
            Ok(())
        }
        Stmt::Call(_, receiver, _, _, _) => {
            add_receiver_declares(receiver, so_far)?;
            Ok(())
        }
        Stmt::Return(_, _) => Ok(()),
    }
}

/// Adds the variables that the statements declare.
#[cycle(statement)]
pub fn add_all_declares(statements: &[Stmt], so_far: &mut Vec<u32>) -> Result<(), AllocError>
    ensures { IfOk result (λ u. so_far.new.items ≡ so_far.old.items ++ all_declare statements.now) }
{
    for statement in statements {
        add_declares(statement, so_far)?;
    }
    Ok(())
}
