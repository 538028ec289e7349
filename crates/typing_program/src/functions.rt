//! Functions, with the rules of their own.

ghost use Rattle.std.specs.Prelude.{◌≡◌, map, IfOk};
ghost use Rattle.c_syntax.specs.Views as view;
ghost use Rattle.typing_spec.specs.Functions as forms;
ghost use Rattle.typing_symbols.specs.Whole.{program};
ghost use Rattle.typing_expressions.specs.Views.{maybe_broken};
ghost use Rattle.typing_program.specs.Violation as spec;

use crate::names::first_repeated;
use crate::variables::variables_of;
use c_syntax::items::Function;
use c_syntax::statements::Stmt;
use std::alloc::{AllocError, Global};
use typing_expressions::rule::Rule;
use typing_expressions::violations::{Violation, broken_if, earlier};
use typing_statements::functions::function_parts;
use typing_symbols::declarations::Declarations;

/// Whether a statement is a return.
fn is_return(x: &Stmt) -> bool
    ensures { result ≡ forms.is_return (view.stm x.now) }
{
    matches!(x, Stmt::Return(_, _))
}

/// Whether the last of these statements is a return. (`last` is refused: an option of a statement is too large a type.)
fn ends_with_return(body: &[Stmt]) -> bool
    ensures { result ≡ forms.ends_with_return (view.stms body.now) }
{
    if body.is_empty() {
        return false;
    }
    is_return(&body[body.len() - 1])
}

/// Whether a function has a value and doesn't end with a return.
#[tactic(auto, using(crate::proofs::Firsts::has_value))]
fn is_open(x: &Function) -> bool
    ensures { result ≡ spec.is_open (view.function x.now) }
{
    x.result.is_some() && !ends_with_return(&x.body)
}

/// The first rule of its own that a function breaks.
fn own_breaks(alloc: Global, x: &Function) -> Result<Option<Violation>, AllocError>
    ensures { IfOk result (λ b. maybe_broken b ≡ spec.function_own (view.function x.now)) }
{
    let names = variables_of(alloc, x)?;
    let twice = first_repeated(alloc, &names)?;
    let form = broken_if(is_open(x), Rule::ReturnForm, x.end);
    Ok(earlier(twice, form))
}

/// The first rule that a function breaks, itself or in its parts.
fn function_breaks<'s, 'a>(
    alloc: Global,
    declarations: &'s Declarations<'a>,
    x: &'a Function,
) -> Result<Option<Violation>, AllocError>
    ensures { IfOk result (λ b. maybe_broken b ≡ spec.function_first (program declarations.now) (view.function x.now)) }
{
    let own = own_breaks(alloc, x)?;
    let parts = function_parts(alloc, declarations, x)?;
    Ok(earlier(own, parts.first))
}

/// The first rule that functions of a program break.
pub fn functions_break<'s, 'a>(
    alloc: Global,
    declarations: &'s Declarations<'a>,
    all: &[&'a Function],
) -> Result<Option<Violation>, AllocError>
    ensures { IfOk result (λ b. maybe_broken b ≡ spec.functions_first (program declarations.now) (map (λ f. view.function f.now) all.now)) }
{
    let mut so_far: Option<Violation> = None;
    for x in all {
        let one = function_breaks(alloc, declarations, x)?;
        so_far = earlier(so_far, one);
    }
    Ok(so_far)
}
