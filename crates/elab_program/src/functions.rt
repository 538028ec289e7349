//! Functions.

ghost use Rattle.std.specs.Prelude.{◌≡◌, ◌+◌, length, map, IfOk, option_map};
ghost use Rattle.c_syntax.specs.Views as view;
ghost use Rattle.elab_shapes.specs.Views.{sorts as sorts_seen};
ghost use Rattle.elab_code.specs.Names.{texts};
ghost use Rattle.typing_symbols.specs.Scopes.{variable, known};
ghost use Rattle.typing_symbols.specs.Whole.{program};
ghost use Rattle.elab_assignments.specs.Views.{before as stands};
ghost use Rattle.typing_statements.specs.Views.{fixed};
ghost use Rattle.elab_program.specs.Functions as spec;
ghost use Rattle.elab_clauses.specs.Numberings.{numbering as shaped};
ghost use Rattle.elab_statements.specs.Settings.{setting as set, at};
ghost use Rattle.typed_program.specs.Numbers as numbers;
ghost use Rattle.typed_program.specs.Statements.{plus_formulas, rows};
ghost use Rattle.typed_program.specs.Tables as tables;
ghost use Rattle.typed_program.specs.Variables as variables_of;
ghost use Rattle.typed_program.specs.Views as seen;

use c_syntax::expressions::ValueType;
use c_syntax::items::Function;
use elab_assignments::counters::Counters;
use elab_clauses::contracts::{behind_contract, postconditions, preconditions, written};
use elab_clauses::fields::text;
use elab_clauses::numbering::Numbering;
use elab_code::numbers::{declared_type, sum};
use elab_code::places::Places;
use elab_shapes::sorts::{Sorts, sort_of_type};
use elab_sites::variables::{names, variables};
use elab_statements::settings::Setting;
use elab_statements::statements::statements;
use method::program::{
    Clause as ClauseInfo, DeclaredType, FunctionInfo, Shape, Sort, Spec, Stmt as StmtInfo,
    VariableInfo,
};
use std::alloc::{AllocError, Global};
use typing_expressions::context::{Quantified, Text};
use typing_statements::contracts::know_parameters;
use typing_statements::scopes::Surroundings;
use typing_symbols::declarations::Declarations;
use typing_symbols::variables::{Variable, Variables};

/// A variable.
fn variable_info(
    alloc: Global,
    declarations: &Declarations<'_>,
    x: Variable<'_>,
) -> Result<VariableInfo, AllocError>
    ensures { IfOk result (λ v. seen.variable v ≡ tables.variable (program declarations.now) (variable x.entry)) }
{
    let name = text(alloc, x.name)?;
    let ty = declared_type(declarations, x.ty)?;
    Ok(VariableInfo {
        name,
        ty,
        is_ghost: x.is_ghost,
    })
}

/// Variables.
fn variable_table(
    alloc: Global,
    declarations: &Declarations<'_>,
    all: &[Variable<'_>],
) -> Result<Vec<VariableInfo>, AllocError>
    ensures { IfOk result (λ v. map seen.variable v.items ≡ map (tables.variable (program declarations.now)) (map variable all.now)) }
{
    let mut so_far = Vec::new(alloc);
    for x in all {
        let one = variable_info(alloc, declarations, *x)?;
        so_far.push(one)?;
    }
    Ok(so_far)
}

/// The type of a function's value, if it has one.
fn value_type(
    declarations: &Declarations<'_>,
    value: &Option<ValueType>,
) -> Result<Option<DeclaredType>, AllocError>
    ensures { IfOk result (λ v. v ≡ option_map (numbers.declared_type (program declarations.now)) (option_map view.ty value.now)) }
{
    match value {
        None => Ok(None),
        Some(ty) => {
            let declared = declared_type(declarations, ty)?;
            Ok(Some(declared))
        }
    }
}

/// The sort of a function's value; that of an integer where it has none.
fn value_sort(
    declarations: &Declarations<'_>,
    value: &Option<ValueType>,
) -> Result<Sort, AllocError>
    ensures { IfOk result (λ v. v ≡ tables.value_sort (program declarations.now) (option_map view.ty value.now)) }
{
    match value {
        None => Ok(Sort::IntSort),
        Some(ty) => {
            let declared = declared_type(declarations, ty)?;
            Ok(sort_of_type(declared))
        }
    }
}

/// The sorts of variables.
fn variable_sorts(
    alloc: Global,
    declarations: &Declarations<'_>,
    all: &[Variable<'_>],
) -> Result<Vec<Sort>, AllocError>
    ensures { IfOk result (λ v. v.items ≡ map (spec.variable_sort (program declarations.now)) (map variable all.now)) }
{
    let mut sorts = Vec::new(alloc);
    for one in all {
        let ty = declared_type(declarations, one.ty)?;
        sorts.push(sort_of_type(ty))?;
    }
    Ok(sorts)
}

/// The sorts of a function's variables and value.
pub fn sorts_of<'a>(
    alloc: Global,
    declarations: &Declarations<'a>,
    x: &'a Function,
) -> Result<Sorts, AllocError>
    ensures { IfOk result (λ v. sorts_seen v ≡ tables.function_sorts (program declarations.now) (view.function x.now)) }
{
    let all = variables(alloc, x)?;
    let sorts = variable_sorts(alloc, declarations, &all)?;
    let value = value_sort(declarations, &x.result)?;
    Ok(Sorts {
        variables: sorts,
        value,
    })
}

/// What stands around a function's statements, but for its variables.
pub fn surroundings<'s, 'a>(
    declarations: &'s Declarations<'a>,
    x: &'a Function,
) -> Surroundings<'s, 'a>
    ensures { fixed result ≡ spec.function_fixed (program declarations.now) (view.function x.now) }
{
    Surroundings {
        declarations,
        value: x.result.as_ref(),
        text: Text::Code,
        in_atomic: false,
        in_unwrapping: false,
    }
}

/// The variables that are known at the start of a function's body: its parameters.
pub fn parameters<'a>(alloc: Global, x: &'a Function) -> Result<Variables<'a>, AllocError>
    ensures { IfOk result (λ v. known v ≡ spec.function_known (view.function x.now)) }
{
    let mut known = Variables::new(alloc);
    know_parameters(&mut known, false, &x.parameters)?;
    know_parameters(&mut known, true, &x.ghost_parameters)?;
    Ok(known)
}

/// The variables of a function by their places.
pub fn places<'a>(alloc: Global, x: &'a Function) -> Result<Places<'a>, AllocError>
    ensures { IfOk result (λ p. texts p.names.items ≡ map (λ v. v.name.name) (variables_of.variables (view.function x.now))) }
{
    let all = names(alloc, x)?;
    let places = Places::of(alloc, all)?;
    Ok(places)
}

/// A function of these parts.
fn info_of(
    x: &Function,
    name: Vec<u8>,
    value: Option<DeclaredType>,
    parameters: u32,
    variables: Vec<VariableInfo>,
    required: Vec<ClauseInfo>,
    ensured: Vec<ClauseInfo>,
    writes: Vec<Spec>,
    body: Vec<StmtInfo>,
) -> FunctionInfo
    ensures { seen.function result ≡ spec.function_of (view.function x.now) name.items value parameters (map seen.variable variables.items) (map seen.clause required.items) (map seen.clause ensured.items) (seen.specs writes.items) (seen.stmts body.items) }
{
    FunctionInfo {
        name,
        result: value,
        parameters,
        variables,
        requires_: required,
        ensures_: ensured,
        writes,
        body,
        end: x.end.line,
    }
}

/// How many parameters a function has.
fn parameter_count(x: &Function) -> Result<u32, AllocError>
    ensures { IfOk result (λ n. n ≡ length (view.function x.now).parameters + length (view.function x.now).ghost_parameters) }
{
    sum(x.parameters.len(), x.ghost_parameters.len())
}

/// The variables of a function as they stand in its table.
fn table_of(
    alloc: Global,
    declarations: &Declarations<'_>,
    x: &Function,
) -> Result<Vec<VariableInfo>, AllocError>
    ensures { IfOk result (λ v. map seen.variable v.items ≡ map (tables.variable (program declarations.now)) (variables_of.variables (view.function x.now))) }
{
    let all = variables(alloc, x)?;
    let table = variable_table(alloc, declarations, &all)?;
    Ok(table)
}

/// What stands before the statements of a function.
fn behind_clauses(before: Counters, x: &Function) -> Result<Counters, AllocError>
    ensures { IfOk result (λ n. stands n ≡ plus_formulas (stands before) (tables.contract_formulas (view.function x.now).contract)) }
{
    let formulas = behind_contract(before.formulas, &x.contract)?;
    Ok(Counters { formulas, ..before })
}

/// The statements of a function, with what stands around them.
fn body_of<'s, 'a>(
    alloc: Global,
    setting: Setting<'s, 'a>,
    numbering: Numbering<'s>,
    scope: &mut Variables<'a>,
    before: Counters,
    x: &'a Function,
) -> Result<Vec<StmtInfo>, AllocError>
    ensures { IfOk result (λ v. seen.stmts v.items ≡ tables.numbered_row (shaped numbering.entry).shapes (shaped numbering.entry).sorts (rows (at (set setting.entry) (known scope.old)) (plus_formulas (stands before) (tables.contract_formulas (view.function x.now).contract)) (view.function x.now).body.all)) }
{
    let start = behind_clauses(before, x)?;
    let body = statements(alloc, setting, numbering, scope, start, &x.body)?;
    Ok(body.statements)
}

/// A function before which so much stands, with what stands around its contract and its statements.
fn occurrence<'s, 'a>(
    alloc: Global,
    setting: Setting<'s, 'a>,
    numbering: Numbering<'s>,
    scope: &mut Variables<'a>,
    before: Counters,
    x: &'a Function,
) -> Result<FunctionInfo, AllocError>
    requires { at (set setting) (known scope.now) ≡ tables.around_function (program setting.surroundings.declarations.now) (view.function x.now) }
    ensures { IfOk result (λ v. seen.function v ≡ spec.numbered (shaped numbering.entry) (tables.function (program setting.entry.surroundings.declarations.now) (stands before) (view.function x.now))) }
{
    let none = Quantified::Nothing;
    let contract = x.contract.as_slice();
    let around = setting.around(scope, &none);
    let required = preconditions(alloc, around, numbering, before.formulas, contract)?;
    let ensured = postconditions(alloc, around, numbering, before.formulas, contract)?;
    let writes = written(alloc, around, numbering, before.formulas, contract)?;
    let body = body_of(alloc, setting, numbering, scope, before, x)?;
    let name = text(alloc, &x.name)?;
    let value = value_type(setting.surroundings.declarations, &x.result)?;
    let count = parameter_count(x)?;
    let table = table_of(alloc, setting.surroundings.declarations, x)?;
    Ok(info_of(
        x, name, value, count, table, required, ensured, writes, body,
    ))
}

/// A function before which so much stands.
pub fn function_info<'s, 'a>(
    alloc: Global,
    declarations: &'s Declarations<'a>,
    shapes: &[Shape],
    before: Counters,
    x: &'a Function,
) -> Result<FunctionInfo, AllocError>
    ensures { IfOk result (λ v. seen.function v ≡ spec.function (program declarations.now) (map seen.shape shapes.now) (stands before) (view.function x.now)) }
{
    let places = places(alloc, x)?;
    let sorts = sorts_of(alloc, declarations, x)?;
    let mut scope = parameters(alloc, x)?;
    let setting = Setting {
        surroundings: surroundings(declarations, x),
        places: &places,
    };
    let numbering = Numbering {
        shapes,
        sorts: &sorts,
    };
    let info = occurrence(alloc, setting, numbering, &mut scope, before, x)?;
    Ok(info)
}
