//! The variables that text may set.

ghost use Rattle.std.specs.Prelude.{◌≡◌, ◌++◌, IfOk};
ghost use Rattle.method.specs.Text as spec;
ghost use Rattle.statement_text.specs.Rows.{all_set};

use method::program::{Action, Inner, Receiver, Simple, Stmt, Target};
use std::alloc::AllocError;

/// Adds the variable that the left side sets, if it sets one.
fn add_target_sets(target: &Target, so_far: &mut Vec<u32>) -> Result<(), AllocError>
    ensures { IfOk result (λ u. so_far.new.items ≡ so_far.old.items ++ spec.target_sets target.now) }
{
    match target {
        Target::Local(i) => {
            so_far.push(*i)?;
            Ok(())
        }
        Target::FieldOf(_, _) => Ok(()),
    }
}

/// Adds what the statement sets.
fn add_simple_sets(statement: &Simple, so_far: &mut Vec<u32>) -> Result<(), AllocError>
    ensures { IfOk result (λ u. so_far.new.items ≡ so_far.old.items ++ spec.simple_sets statement.now) }
{
    match statement {
        Simple::Assign(target, _) => add_target_sets(target, so_far),
        Simple::ChangeOwned(_, _, _) | Simple::EndClaim(_, _, _) => Ok(()),
    }
}

/// Adds what a statement of a block sets.
#[cycle(inner)]
fn add_inner_sets(inner: &Inner, so_far: &mut Vec<u32>) -> Result<(), AllocError>
    ensures { IfOk result (λ u. so_far.new.items ≡ so_far.old.items ++ spec.inner_sets inner.now) }
{
    match inner {
        Inner::Inside(_, statement) => {
            add_simple_sets(statement, so_far)?;
            Ok(())
        }
        Inner::InsideIf(_, _, first, second) => {
            add_block_sets(first, so_far)?;
            add_block_sets(second, so_far)?;
            Ok(())
        }
    }
}

/// Adds what the statements of a block set.
#[cycle(inner)]
fn add_block_sets(inners: &[Inner], so_far: &mut Vec<u32>) -> Result<(), AllocError>
    ensures { IfOk result (λ u. so_far.new.items ≡ so_far.old.items ++ spec.inner_list_sets inners.now) }
{
    for inner in inners {
        add_inner_sets(inner, so_far)?;
    }
    Ok(())
}

/// Adds what the action sets.
fn add_action_sets(action: &Action, so_far: &mut Vec<u32>) -> Result<(), AllocError>
    ensures { IfOk result (λ u. so_far.new.items ≡ so_far.old.items ++ spec.action_sets action.now) }
{
    match action {
        Action::Simply(statement) => {
            add_simple_sets(statement, so_far)?;
            Ok(())
        }
        Action::Declare(i) => {
            so_far.push(*i)?;
            Ok(())
        }
        Action::Define(i, _) => {
            so_far.push(*i)?;
            Ok(())
        }
        Action::Atomic(_, body) => {
            add_block_sets(body, so_far)?;
            Ok(())
        }
        Action::WrapObject(_, _, _) | Action::UnwrapObject(_) | Action::AssertSpec(_) => Ok(()),
        Action::FreeObject(_) | Action::SpawnThread(_, _) => Ok(()),
    }
}

/// Adds the variable that a call's value goes to, if it goes to one.
fn add_receiver_sets(receiver: &Receiver, so_far: &mut Vec<u32>) -> Result<(), AllocError>
    ensures { IfOk result (λ u. so_far.new.items ≡ so_far.old.items ++ spec.receiver_sets receiver.now) }
{
    match receiver {
        Receiver::Nobody => Ok(()),
        Receiver::NewVariable(i) => {
            so_far.push(*i)?;
            Ok(())
        }
        Receiver::Place(target) => {
            add_target_sets(target, so_far)?;
            Ok(())
        }
    }
}

/// Adds the variables that the statement may set, those that it declares among them.
#[cycle(statement)]
pub fn add_sets(statement: &Stmt, so_far: &mut Vec<u32>) -> Result<(), AllocError>
    ensures { IfOk result (λ u. so_far.new.items ≡ so_far.old.items ++ spec.sets statement.now) }
{
    match statement {
        Stmt::Do(_, action) => {
            add_action_sets(action, so_far)?;
            Ok(())
        }
        Stmt::If(_, _, _, first, second) => {
            add_all_sets(first, so_far)?;
            add_all_sets(second, so_far)?;
            Ok(())
        }
        Stmt::While(_, _, _, body) => {
            add_all_sets(body, so_far)?;
            Ok(())
        }
        Stmt::DoWhile(_, _, body, _, _) => {
            add_all_sets(body, so_far)?;
            Ok(())
        }
        Stmt::Unwrapping(_, _, _, _, body) => {
            add_all_sets(body, so_far)?;
            Ok(())
        }
        Stmt::Call(_, receiver, _, _, _) => {
            add_receiver_sets(receiver, so_far)?;
            Ok(())
        }
        Stmt::Return(_, _) => Ok(()),
    }
}

/// Adds the variables that the statements may set.
#[cycle(statement)]
pub fn add_all_sets(statements: &[Stmt], so_far: &mut Vec<u32>) -> Result<(), AllocError>
    ensures { IfOk result (λ u. so_far.new.items ≡ so_far.old.items ++ all_set statements.now) }
{
    for statement in statements {
        add_sets(statement, so_far)?;
    }
    Ok(())
}
