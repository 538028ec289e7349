//! Functions that begin, and what stands ahead of them.

ghost use Rattle.std.specs.Prelude.{◌≡◌, ◌++◌, Some, None, map, slice_get, OnOk, IfOk, IfErr, IfSome, IfNone};
ghost use Rattle.method.specs.Machine.{Run, zeros_of};
ghost use Rattle.machine_objects.specs.Runs.{IsSilent};
ghost use Rattle.machine_turns.specs.Frames.{ahead};
ghost use Rattle.machine_turns.specs.Turns.{Begins};

use crate::activation::{Activation, Remaining};
use machine_values::spot::Context;
use machine_values::stop::Stop;
use machine_values::tables::zero_of;
use method::program::{FunctionInfo, Program, Stmt, VariableInfo};
use object_types::values::Value;
use std::alloc::Global;

/// The function with this number.
pub fn function_of(program: &Program, number: u32) -> Option<&FunctionInfo>
    ensures some { IfSome result (λ f. slice_get program.now.functions.items number ≡ Some f.now) }
    ensures none { IfNone result (slice_get program.now.functions.items number ≡ None) }
{
    program.functions.get(number as usize)
}

/// Puts statements onto the code, so that the first comes next.
pub fn push_body<'p>(code: &mut Vec<Remaining<'p>>, body: &'p [Stmt]) -> Result<(), Stop>
    ensures ok { OnOk result (ahead code.new.items ≡ map Run body.now ++ ahead code.old.items) }
    ensures err { IfErr result IsSilent }
{
    let mut i = body.len();
    while i > 0 {
        i -= 1;
        code.push(Remaining::Run(&body[i]))?;
    }
    Ok(())
}

/// The statements as code.
pub fn body_code<'p>(alloc: Global, body: &'p [Stmt]) -> Result<Vec<Remaining<'p>>, Stop>
    ensures ok { IfOk result (λ code. ahead code.items ≡ map Run body.now) }
    ensures err { IfErr result IsSilent }
{
    let mut code = Vec::new(alloc);
    push_body(&mut code, body)?;
    Ok(code)
}

/// Adds the first values of variables.
fn push_zeros(locals: &mut Vec<Value>, variables: &[VariableInfo]) -> Result<(), Stop>
    ensures ok { OnOk result (locals.new.items ≡ locals.old.items ++ zeros_of variables.now) }
    ensures err { IfErr result IsSilent }
{
    for variable in variables {
        locals.push(zero_of(variable.ty))?;
    }
    Ok(())
}

/// A function that begins.
pub fn begin<'p>(
    alloc: Global,
    function: &'p FunctionInfo,
    context: Context,
) -> Result<Activation<'p>, Stop>
    ensures ok { IfOk result (Begins (Some function.now) context) }
    ensures err { IfErr result IsSilent }
{
    let mut locals = Vec::from_slice(alloc, &context.args)?;
    let behind = (function.parameters as usize).min(function.variables.len());
    push_zeros(&mut locals, &function.variables[behind..])?;
    let code = body_code(alloc, &function.body)?;
    Ok(Activation {
        context,
        locals,
        code,
    })
}

/// The run of a function that isn't there: its arguments, and no code.
fn begin_empty<'p>(alloc: Global, context: Context) -> Result<Activation<'p>, Stop>
    ensures ok { IfOk result (Begins None context) }
    ensures err { IfErr result IsSilent }
{
    let locals = Vec::from_slice(alloc, &context.args)?;
    Ok(Activation {
        context,
        locals,
        code: Vec::new(alloc),
    })
}

/// The function of the context that begins.
pub fn first_frame<'p>(
    alloc: Global,
    program: &'p Program,
    context: Context,
) -> Result<Activation<'p>, Stop>
    ensures ok { IfOk result
        (Begins (slice_get program.now.functions.items context.function) context) }
    ensures err { IfErr result IsSilent }
{
    match function_of(program, context.function) {
        Some(function) => begin(alloc, function, context),
        None => begin_empty(alloc, context),
    }
}
