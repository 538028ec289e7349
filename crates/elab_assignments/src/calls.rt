//! Calls of functions.

ghost use Rattle.std.specs.Prelude.{◌≡◌, ◌++◌, map, IfOk, OnOk};
ghost use Rattle.c_syntax.specs.Views as view;
ghost use Rattle.elab_code.specs.Views.{around as here};
ghost use Rattle.typed_program.specs.Numbers as numbers;
ghost use Rattle.typed_program.specs.Statements as spec;
ghost use Rattle.typed_program.specs.Views as seen;

use crate::values::stored;
use c_syntax::expressions::{Call, Expr as Tree};
use c_syntax::items::Parameter;
use elab_code::around::Around;
use elab_code::numbers::function_number;
use int_ranges::ctype::CType;
use method::program::{Expr, Receiver, Stmt};
use std::alloc::{AllocError, Global};
use tree_building::pair_with;

/// Arguments in the types of their parameters, behind those that are there.
fn pass<'s, 'a>(
    alloc: Global,
    around: Around<'s, 'a>,
    all: &mut Vec<Expr>,
    parameters: &'a [Parameter],
    arguments: &'a [Tree],
) -> Result<(), AllocError>
    ensures { OnOk result (seen.codes all.new.items ≡ seen.codes all.old.items ++ spec.passed (here around.entry) (map view.parameter parameters.now) (view.exps arguments.now)) }
{
    for (parameter, argument) in parameters.iter().zip(arguments) {
        let value = stored(alloc, around, &parameter.ty, argument)?;
        all.push(value)?;
    }
    Ok(())
}

/// The arguments of a call, ghost ones behind; none where no function has its name.
pub fn arguments<'s, 'a>(
    alloc: Global,
    around: Around<'s, 'a>,
    x: &'a Call,
) -> Result<Vec<Expr>, AllocError>
    ensures { IfOk result (λ v. seen.codes v.items ≡ spec.arguments (here around.entry) (view.call x.now)) }
{
    let mut all = Vec::new(alloc);
    let Some(function) = around.context.scope.declarations.find_function(&x.function) else {
        return Ok(all);
    };
    pass(alloc, around, &mut all, &function.parameters, &x.arguments)?;
    pass(
        alloc,
        around,
        &mut all,
        &function.ghost_parameters,
        &x.ghost_arguments,
    )?;
    Ok(all)
}

/// The function that is called, and the arguments.
#[derive(Drop)]
struct CallParts {
    function: u32,
    arguments: Vec<Expr>,
}

/// What a call names.
fn call_parts<'s, 'a>(
    alloc: Global,
    around: Around<'s, 'a>,
    x: &'a Call,
) -> Result<CallParts, AllocError>
    ensures function { IfOk result (λ c. c.function ≡ numbers.function_number (here around.entry).context.scope.items (view.id x.now.function)) }
    ensures arguments { IfOk result (λ c. seen.codes c.arguments.items ≡ spec.arguments (here around.entry) (view.call x.now)) }
{
    let function = function_number(around.context.scope.declarations, &x.function)?;
    let arguments = arguments(alloc, around, x)?;
    Ok(CallParts {
        function,
        arguments,
    })
}

/// A call, whose value goes to this place in this type.
pub fn call_of<'s, 'a>(
    alloc: Global,
    around: Around<'s, 'a>,
    line: u32,
    to: Receiver,
    conversion: Option<CType>,
    x: &'a Call,
) -> Result<Stmt, AllocError>
    ensures { IfOk result (λ v. seen.stmt v ≡ spec.call_of (here around.entry) line (seen.receiver to) conversion (view.call x.now)) }
{
    let (to, parts) = pair_with(to, call_parts(alloc, around, x))?;
    Ok(Stmt::Call(line, to, conversion, parts.function, parts.arguments))
}
