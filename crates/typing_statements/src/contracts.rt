//! Contracts of functions, and their parameters.

ghost use Rattle.std.specs.Prelude.{◌≡◌, map, flat_map, OnOk};
ghost use Rattle.std.specs.Option.{option_map};
ghost use Rattle.c_syntax.specs.Views as view;
ghost use Rattle.typing_spec.specs.Pieces as pieces;
ghost use Rattle.typing_symbols.specs.Scopes.{known};
ghost use Rattle.typing_symbols.specs.Whole.{program};
ghost use Rattle.typing_expressions.specs.Violations.{violations};
ghost use Rattle.typing_expressions.specs.Views.{context as around, findings};
ghost use Rattle.typing_statements.specs.Parts as spec;

use c_syntax::expressions::{Expr, ValueType};
use c_syntax::items::{Clause, Parameter, WritesItem};
use c_syntax::tree::Condition;
use std::alloc::AllocError;
use typing_expressions::context::{Context, Scope, Text};
use typing_expressions::expressions::expression;
use typing_expressions::forms::first_place;
use typing_expressions::judged::unconverted_if;
use typing_expressions::kinds::Kind;
use typing_expressions::violations::Diagnostics;
use typing_expressions::words::type_breaks;
use typing_symbols::declarations::Declarations;
use typing_symbols::variables::{Variable, Variables};

/// The expression of an item of a writes list.
fn listed(x: &WritesItem) -> &Expr
    ensures { view.exp result.now ≡ spec.listed (view.written x.now) }
{
    match x {
        WritesItem::Object(object) => object,
        WritesItem::Span(_, object) => object,
        WritesItem::Extent(_, object) => object,
    }
}

/// An item of a writes list: a reference.
fn listed_item<'s, 'a>(context: Context<'s, 'a>, object: &'a Expr) -> Diagnostics
    ensures { findings result ≡ spec.listed_found (around context.entry) (view.exp object.now) }
{
    let judged = expression(context, object);
    let own = unconverted_if(judged.kind, Kind::Object, first_place(object));
    Diagnostics::breaking(own).then(judged.violations)
}

/// A writes list.
fn writes_list<'s, 'a>(context: Context<'s, 'a>, all: &'a [WritesItem]) -> Diagnostics
    ensures { findings result ≡ violations (flat_map (spec.listed_pieces (around context.entry)) (map view.written all.now)) }
{
    let mut so_far = Diagnostics::nothing();
    for x in all {
        so_far = so_far.then(listed_item(context, listed(x)));
    }
    so_far
}

/// What stands around a condition of a contract: in an ensures clause `\result` is the function's value.
fn in_condition<'s, 'a>(context: Context<'s, 'a>, condition: Condition) -> Context<'s, 'a>
    ensures { around result ≡ pieces.in_condition condition (around context.entry) }
{
    match condition {
        Condition::Requires => context.with_text(Text::Requires),
        Condition::Ensures => Context {
            scope: Scope {
                result_type: context.value,
                ..context.scope
            },
            text: Text::Ensures,
            ..context
        },
        Condition::Maintains => context.with_text(Text::Maintains),
    }
}

/// A clause of a contract.
fn clause<'s, 'a>(context: Context<'s, 'a>, x: &'a Clause) -> Diagnostics
    ensures { findings result ≡ violations (pieces.clause (around context.entry) (view.clause x.now)) }
{
    match x {
        Clause::Condition(_, condition, property) => {
            expression(in_condition(context, *condition), property).violations
        }
        Clause::Writes(_, all) => writes_list(context.with_text(Text::Writes), all),
    }
}

/// A contract.
pub fn contract<'s, 'a>(context: Context<'s, 'a>, all: &'a [Clause]) -> Diagnostics
    ensures { findings result ≡ violations (flat_map (pieces.clause (around context.entry)) (map view.clause all.now)) }
{
    let mut so_far = Diagnostics::nothing();
    for x in all {
        so_far = so_far.then(clause(context, x));
    }
    so_far
}

/// The types of parameters.
pub fn parameter_types<'s, 'a>(
    declarations: &'s Declarations<'a>,
    all: &'a [Parameter],
) -> Diagnostics
    ensures { findings result ≡ violations (pieces.types_of (program declarations.now) (map view.parameter all.now)) }
{
    let mut so_far = Diagnostics::nothing();
    for x in all {
        so_far = so_far.then(Diagnostics::breaking(type_breaks(declarations, &x.ty)));
    }
    so_far
}

/// The type of a function's value, if it has one.
pub fn value_type<'s, 'a>(
    declarations: &'s Declarations<'a>,
    value: &'a Option<ValueType>,
) -> Diagnostics
    ensures { findings result ≡ violations (pieces.if_some (pieces.struct_name (program declarations.now)) (option_map view.ty value.now)) }
{
    match value {
        None => Diagnostics::nothing(),
        Some(ty) => Diagnostics::breaking(type_breaks(declarations, ty)),
    }
}

/// Makes parameters known.
pub fn know_parameters<'a>(
    variables: &mut Variables<'a>,
    is_ghost: bool,
    all: &'a [Parameter],
) -> Result<(), AllocError>
    ensures { OnOk result (known variables.new ≡ spec.with_parameters is_ghost (map view.parameter all.now) (known variables.old)) }
{
    for x in all {
        variables.push(Variable {
            name: &x.name,
            ty: &x.ty,
            is_ghost,
        })?;
    }
    Ok(())
}
