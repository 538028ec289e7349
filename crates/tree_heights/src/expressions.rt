//! How high expressions are.

ghost use Rattle.std.specs.Prelude.{◌≡◌, ◌<◌, ◌≤◌};
ghost use Rattle.c_syntax.specs.Views.{exp, exps};
ghost use Rattle.tree_heights.specs.Heights as h;
ghost use Rattle.tree_heights.specs.Parts as p;

use c_syntax::expressions::Expr;

/// How high an expression is.
#[cycle(expressions)]
pub(crate) fn expression(x: &Expr) -> u32
    requires few { p.expression (exp x.now) < 1073741824 }
    ensures high { result ≡ h.expression (exp x.now) }
    ensures low { result ≤ p.expression (exp x.now) }
{
    match x {
        Expr::Number(_, _, _) | Expr::Name(_) | Expr::Null(_) | Expr::Constant(_, _) => 1,
        Expr::Group(_, inner) => 1 + expression(inner),
        Expr::Field(_, left, _) => 1 + expression(left),
        Expr::Status(_, left, _, _) => 1 + expression(left),
        Expr::Owns(_, left, _) => 1 + expression(left),
        Expr::Unary(_, _, operand) => 1 + expression(operand),
        Expr::Binary(_, _, left, right) => 1 + expression(left).max(expression(right)),
        Expr::Conditional(_, test, first, second) => {
            1 + expression(test)
                .max(expression(first))
                .max(expression(second))
        }
        Expr::Apply(_, _, argument) => 1 + expression(argument),
        Expr::Several(_, _, arguments) => 1 + greatest_expression(arguments),
        Expr::ClaimsObject(_, claim, object) => 1 + expression(claim).max(expression(object)),
        Expr::Claims(_, claim, property) => 1 + expression(claim).max(expression(property)),
        Expr::Approves(_, _) => 3,
        Expr::Quantified(_, _, _, _, body) => 1 + expression(body),
    }
}

/// The greatest height of expressions, 0 of none.
#[cycle(expressions)]
pub(crate) fn greatest_expression(all: &[Expr]) -> u32
    requires few { p.all p.expression (exps all.now) < 1073741824 }
    ensures high { result ≡ h.greatest h.expression (exps all.now) }
    ensures low { result ≤ p.all p.expression (exps all.now) }
{
    let mut most = 0;
    for x in all {
        most = most.max(expression(x));
    }
    most
}

/// The greatest height of a call's ghost arguments, 0 of none.
pub(crate) fn greatest_ghost_argument(all: &[Expr]) -> u32
    requires few { p.all p.expression (exps all.now) < 1073741824 }
    ensures high { result ≡ h.greatest h.ghost_argument (exps all.now) }
    ensures low { result ≤ p.all p.expression (exps all.now) }
{
    let mut most = 0;
    for x in all {
        most = most.max(1 + expression(x));
    }
    most
}
