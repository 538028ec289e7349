//! Functions, but for the rules of their own.

ghost use Rattle.std.specs.Prelude.{◌≡◌, IfOk};
ghost use Rattle.c_syntax.specs.Views as view;
ghost use Rattle.typing_symbols.specs.Whole.{program};
ghost use Rattle.typing_expressions.specs.Violations.{violations};
ghost use Rattle.typing_expressions.specs.Views.{findings};
ghost use Rattle.typing_statements.specs.Parts as spec;

use crate::contracts::{contract, know_parameters, parameter_types, value_type};
use crate::scopes::Surroundings;
use crate::statements::statements;
use c_syntax::items::Function;
use std::alloc::{AllocError, Global};
use typing_expressions::context::{Quantified, Text};
use typing_expressions::violations::Diagnostics;
use typing_symbols::declarations::Declarations;
use typing_symbols::variables::Variables;

/// What breaks in the parts of a function: the types of its value and of its parameters, its contract and its body.
pub fn function_parts<'s, 'a>(
    alloc: Global,
    declarations: &'s Declarations<'a>,
    x: &'a Function,
) -> Result<Diagnostics, AllocError>
    ensures { IfOk result (λ f. findings f ≡ violations (spec.function_parts (program declarations.now) (view.function x.now))) }
{
    let mut variables = Variables::new(alloc);
    know_parameters(&mut variables, false, &x.parameters)?;
    know_parameters(&mut variables, true, &x.ghost_parameters)?;
    let around = Surroundings {
        declarations,
        value: x.result.as_ref(),
        text: Text::Code,
        in_atomic: false,
        in_unwrapping: false,
    };
    let none = Quantified::Nothing;
    let clauses = contract(around.context(&variables, &none), &x.contract);
    let body = statements(around, &mut variables, &x.body)?;
    let value = value_type(declarations, &x.result);
    let concrete = parameter_types(declarations, &x.parameters);
    let ghosts = parameter_types(declarations, &x.ghost_parameters);
    Ok(value.then(concrete.then(ghosts.then(clauses.then(body)))))
}
