//! How many quantified formulas stand in an expression. A number that leaves 32 bits is answered as want of memory.

ghost use Rattle.std.specs.Prelude.{◌≡◌, ◌+◌, IfOk};
ghost use Rattle.c_syntax.specs.Views as view;
ghost use Rattle.c_syntax.specs.Grammar.{exps_of};
ghost use Rattle.typed_program.specs.Annotations as spec;

use c_syntax::expressions::Expr;
use c_syntax::tree::ListWord;
use std::alloc::AllocError;

/// The sum of two numbers.
pub fn plus(left: u32, right: u32) -> Result<u32, AllocError>
    ensures { IfOk result (λ n. n ≡ left + right) }
{
    match left.checked_add(right) {
        Some(n) => Ok(n),
        None => Err(AllocError),
    }
}

/// How many quantified formulas a word of several arguments is itself.
fn own_formulas(word: ListWord) -> u32
    ensures { result ≡ spec.own_formulas word }
{
    match word {
        ListWord::Mine => 0,
        ListWord::ClaimsOnly => 1,
    }
}

/// The number behind the formulas of an expression, of which the first has this number.
#[cycle(formulas)]
#[tactic(auto, using(crate::proofs::Vectors::all_behind))]
pub fn next_formula(first: u32, x: &Expr) -> Result<u32, AllocError>
    ensures { IfOk result (λ n. n ≡ first + spec.formulas (view.exp x.now)) }
{
    match x {
        Expr::Number(_, _, _) | Expr::Name(_) | Expr::Null(_) | Expr::Constant(_, _) => Ok(first),
        Expr::Approves(_, _) => Ok(first),
        Expr::Group(_, inner) | Expr::Field(_, inner, _) | Expr::Status(_, inner, _, _) => {
            next_formula(first, inner)
        }
        Expr::Owns(_, inner, _) | Expr::Unary(_, _, inner) | Expr::Apply(_, _, inner) => {
            next_formula(first, inner)
        }
        Expr::Binary(_, _, left, right) => {
            let middle = next_formula(first, left)?;
            next_formula(middle, right)
        }
        Expr::ClaimsObject(_, left, right) | Expr::Claims(_, left, right) => {
            let middle = next_formula(first, left)?;
            next_formula(middle, right)
        }
        Expr::Conditional(_, test, left, right) => {
            let second = next_formula(first, test)?;
            let third = next_formula(second, left)?;
            next_formula(third, right)
        }
        Expr::Several(_, word, arguments) => {
            let start = plus(first, own_formulas(*word))?;
            behind_all(start, arguments)
        }
        Expr::Quantified(_, _, _, _, body) => {
            let start = plus(first, 1)?;
            next_formula(start, body)
        }
    }
}

/// The number behind the formulas of several expressions, of which the first has this number.
#[cycle(formulas)]
fn behind_all(first: u32, all: &[Expr]) -> Result<u32, AllocError>
    ensures { IfOk result (λ n. n ≡ first + spec.all_formulas (exps_of (view.exps all.now))) }
{
    let mut next = first;
    for x in all {
        next = next_formula(next, x)?;
    }
    Ok(next)
}
