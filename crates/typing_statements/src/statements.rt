//! Statements.

ghost use Rattle.std.specs.Prelude.{◌≡◌, map, IfOk, OnOk};
ghost use Rattle.c_syntax.specs.Grammar.{stms_of};
ghost use Rattle.c_syntax.specs.Views as view;
ghost use Rattle.typing_spec.specs.Pieces as pieces;
ghost use Rattle.typing_symbols.specs.Scopes.{known};
ghost use Rattle.typing_expressions.specs.Violations.{violations};
ghost use Rattle.typing_expressions.specs.Views.{findings};
ghost use Rattle.typing_statements.specs.Views.{fixed, within, statement_pieces};

use crate::ghost_blocks::ghost_statement;
use crate::scopes::{Surroundings, know};
use crate::simple::{
    assertion, assign_statement, atomic_block, call_statement, declaration, do_front, for_front,
    free_statement, if_front, return_statement, spawn_statement, while_front, wrap_statement,
};
use c_syntax::statements::Stmt;
use std::alloc::AllocError;
use typing_expressions::context::Quantified;
use typing_expressions::expressions::expression;
use typing_expressions::violations::Diagnostics;
use typing_symbols::variables::Variables;

/// What breaks in a statement. Where memory is wanted the caller gives up.
#[cycle(statements)]
pub fn statement<'s, 'a>(
    around: Surroundings<'s, 'a>,
    variables: &mut Variables<'a>,
    x: &'a Stmt,
) -> Result<Diagnostics, AllocError>
    ensures violations { IfOk result (λ f. findings f ≡ violations (statement_pieces (within (fixed around.entry) (known variables.old)) (view.stm x.now))) }
    ensures kept { OnOk result (known variables.new ≡ known variables.old) }
{
    let none = Quantified::Nothing;
    let context = around.context(variables, &none);
    match x {
        Stmt::Block(_, all, _) => statements(around, variables, all),
        Stmt::Skip(_) => Ok(Diagnostics::nothing()),
        Stmt::Declare(span, ty, _, first) => Ok(declaration(context, *span, ty, first)),
        Stmt::Assign(span, change) => Ok(assign_statement(context, *span, change)),
        Stmt::Call(span, called) => Ok(call_statement(context, *span, called)),
        Stmt::If(span, test, yes) => {
            let front = if_front(context, *span, test);
            let inner = statement(around, variables, yes)?;
            Ok(front.then(inner))
        }
        Stmt::IfElse(span, test, first, second) => {
            let front = if_front(context, *span, test);
            let yes = statement(around, variables, first)?;
            let no = statement(around, variables, second)?;
            Ok(front.then(yes.then(no)))
        }
        Stmt::While(span, test, invariants, body) => {
            let front = while_front(context, *span, test, invariants);
            let inner = statement(around, variables, body)?;
            Ok(front.then(inner))
        }
        Stmt::Do(span, invariants, body, _, test) => {
            let front = do_front(context, *span, invariants);
            let inner = statement(around, variables, body)?;
            let condition = expression(around.context(variables, &none), test).violations;
            Ok(front.then(inner.then(condition)))
        }
        Stmt::For(span, before, test, after, invariants, body) => {
            let front = for_front(context, *span, before, test, after, invariants);
            let inner = statement(around, variables, body)?;
            Ok(front.then(inner))
        }
        Stmt::Return(span, value) => Ok(return_statement(context, *span, value)),
        Stmt::Spawn(span, called) => Ok(spawn_statement(context, *span, called)),
        Stmt::Free(span, pointer) => Ok(free_statement(context, *span, pointer)),
        Stmt::Assert(span, property) => Ok(assertion(context, *span, property)),
        Stmt::Ghost(_, inner) => ghost_statement(around.as_ghost(), variables, inner),
        Stmt::Wrap(span, object) => Ok(wrap_statement(context, *span, object)),
        Stmt::Unwrap(span, object) => Ok(wrap_statement(context, *span, object)),
        Stmt::Unwrapping(span, object, all, _) => {
            let front = wrap_statement(context, *span, object);
            let inner = statements(around.inside_unwrapping(), variables, all)?;
            Ok(front.then(inner))
        }
        Stmt::Atomic(span, objects, all, _) => {
            let inner = statements(around.inside_atomic(), variables, all)?;
            let context = around.context(variables, &none);
            Ok(atomic_block(context, *span, objects, inner))
        }
    }
}

/// What breaks in statements, each of which knows what those before it declare.
#[cycle(statements)]
pub fn statements<'s, 'a>(
    around: Surroundings<'s, 'a>,
    variables: &mut Variables<'a>,
    all: &'a [Stmt],
) -> Result<Diagnostics, AllocError>
    ensures violations { IfOk result (λ f. findings f ≡ violations (pieces.in_statements (within (fixed around.entry) (known variables.old)) (stms_of (map view.stm all.now)))) }
    ensures kept { OnOk result (known variables.new ≡ known variables.old) }
{
    let count = variables.count();
    let mut so_far = Diagnostics::nothing();
    for x in all {
        let one = statement(around, variables, x)?;
        so_far = so_far.then(one);
        know(variables, x)?;
    }
    variables.keep(count);
    Ok(so_far)
}
