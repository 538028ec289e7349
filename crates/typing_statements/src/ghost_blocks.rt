//! Ghost statements.

ghost use Rattle.std.specs.Prelude.{◌≡◌, map, IfOk, OnOk};
ghost use Rattle.c_syntax.specs.Grammar.{ghosts_of};
ghost use Rattle.c_syntax.specs.Views as view;
ghost use Rattle.typing_spec.specs.Pieces as pieces;
ghost use Rattle.typing_symbols.specs.Scopes.{known};
ghost use Rattle.typing_expressions.specs.Violations.{violations};
ghost use Rattle.typing_expressions.specs.Views.{findings};
ghost use Rattle.typing_statements.specs.Views.{fixed, within, ghost_pieces};

use crate::ghosts::{claim_end, ghost_assignment, ghost_declaration, ghost_wrap, owned_set_change};
use crate::scopes::{Surroundings, know_ghost};
use c_syntax::ghosts::GhostStmt;
use std::alloc::AllocError;
use typing_expressions::context::Quantified;
use typing_expressions::expressions::expression;
use typing_expressions::violations::Diagnostics;
use typing_symbols::variables::Variables;

/// What breaks in a ghost statement. Where memory is wanted the caller gives up.
#[cycle(ghosts)]
pub fn ghost_statement<'s, 'a>(
    around: Surroundings<'s, 'a>,
    variables: &mut Variables<'a>,
    x: &'a GhostStmt,
) -> Result<Diagnostics, AllocError>
    ensures violations { IfOk result (λ f. findings f ≡ violations (ghost_pieces (within (fixed around.entry) (known variables.old)) (view.ghost x.now))) }
    ensures kept { OnOk result (known variables.new ≡ known variables.old) }
{
    let none = Quantified::Nothing;
    let context = around.context(variables, &none);
    match x {
        GhostStmt::Block(_, all) => ghost_statements(around, variables, all),
        GhostStmt::Declare(span, ty, _, first) => Ok(ghost_declaration(context, *span, ty, first)),
        GhostStmt::Assign(_, left, _, value) => Ok(ghost_assignment(context, left, value)),
        GhostStmt::Owns(_, left, _, change) => Ok(owned_set_change(context, left, change)),
        GhostStmt::DestroyClaim(_, claim, objects) => Ok(claim_end(context, claim, objects)),
        GhostStmt::Wrap(span, object) => Ok(ghost_wrap(context, *span, object)),
        GhostStmt::Unwrap(span, object) => Ok(ghost_wrap(context, *span, object)),
        GhostStmt::If(_, test, yes) => {
            let condition = expression(context, test).violations;
            let inner = ghost_statement(around, variables, yes)?;
            Ok(condition.then(inner))
        }
        GhostStmt::IfElse(_, test, first, second) => {
            let condition = expression(context, test).violations;
            let yes = ghost_statement(around, variables, first)?;
            let no = ghost_statement(around, variables, second)?;
            Ok(condition.then(yes.then(no)))
        }
    }
}

/// What breaks in ghost statements, each of which knows what those before it declare.
#[cycle(ghosts)]
fn ghost_statements<'s, 'a>(
    around: Surroundings<'s, 'a>,
    variables: &mut Variables<'a>,
    all: &'a [GhostStmt],
) -> Result<Diagnostics, AllocError>
    ensures violations { IfOk result (λ f. findings f ≡ violations (pieces.in_ghosts (within (fixed around.entry) (known variables.old)) (ghosts_of (map view.ghost all.now)))) }
    ensures kept { OnOk result (known variables.new ≡ known variables.old) }
{
    let count = variables.count();
    let mut so_far = Diagnostics::nothing();
    for x in all {
        let one = ghost_statement(around, variables, x)?;
        so_far = so_far.then(one);
        know_ghost(variables, x)?;
    }
    variables.keep(count);
    Ok(so_far)
}
