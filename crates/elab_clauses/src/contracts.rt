//! Contracts.

ghost use Rattle.std.specs.Prelude.{◌≡◌, ◌+◌, ◌++◌, ◌∷◌, [], map, IfOk, OnOk};
ghost use Rattle.c_syntax.specs.Items as trees;
ghost use Rattle.c_syntax.specs.Views as view;
ghost use Rattle.elab_code.specs.Views.{around as here};
ghost use Rattle.elab_clauses.specs.Numberings.{numbering as shaped};
ghost use Rattle.typed_program.specs.Annotations as annotations;
ghost use Rattle.typed_program.specs.Shapes.{numbered as with_shapes};
ghost use Rattle.typed_program.specs.Tables as tables;
ghost use Rattle.typed_program.specs.Trees as t;
ghost use Rattle.typed_program.specs.Views as seen;
ghost use Rattle.elab_clauses.specs.Typing as spec;

use crate::numbering::{Numbering, said};
use c_syntax::expressions::Expr;
use c_syntax::items::{Clause, WritesItem};
use c_syntax::token::Span;
use c_syntax::tree::Condition;
use elab_annotations::counts::next_formula;
use elab_code::around::Around;
use method::program::{Clause as ClauseInfo, Spec};
use std::alloc::{AllocError, Global};
use typing_expressions::context::{Context, Scope, Text};

/// The expression of an item of a writes list.
pub fn item_of(x: &WritesItem) -> &Expr
    ensures { view.exp result.now ≡ tables.item_of (view.written x.now) }
{
    match x {
        WritesItem::Object(object) => object,
        WritesItem::Span(_, object) => object,
        WritesItem::Extent(_, object) => object,
    }
}

/// The number behind the formulas of a writes list.
fn behind_list(first: u32, all: &[WritesItem]) -> Result<u32, AllocError>
    ensures { IfOk result (λ n. n ≡ first + tables.list_formulas (map view.written all.now)) }
{
    let mut next = first;
    for x in all {
        next = next_formula(next, item_of(x))?;
    }
    Ok(next)
}

/// The number behind the formulas of a clause.
fn behind_clause(first: u32, x: &Clause) -> Result<u32, AllocError>
    ensures { IfOk result (λ n. n ≡ first + tables.clause_formulas (view.clause x.now)) }
{
    match x {
        Clause::Condition(_, _, property) => next_formula(first, property),
        Clause::Writes(_, all) => behind_list(first, all),
    }
}

/// The number behind the formulas of a contract.
pub fn behind_contract(first: u32, all: &[Clause]) -> Result<u32, AllocError>
    ensures { IfOk result (λ n. n ≡ first + tables.contract_formulas (map view.clause all.now)) }
{
    let mut next = first;
    for x in all {
        next = behind_clause(next, x)?;
    }
    Ok(next)
}

/// What stands around a condition of a contract: in an ensures clause `\result` is the function's value.
pub fn inside_condition<'s, 'a>(condition: Condition, around: Around<'s, 'a>) -> Around<'s, 'a>
    ensures { here result ≡ tables.in_clause condition (here around.entry) }
{
    let context = around.context;
    match condition {
        Condition::Requires => Around {
            context: Context {
                text: Text::Requires,
                ..context
            },
            ..around
        },
        Condition::Ensures => Around {
            context: Context {
                scope: Scope {
                    result_type: context.value,
                    ..context.scope
                },
                text: Text::Ensures,
                ..context
            },
            ..around
        },
        Condition::Maintains => Around {
            context: Context {
                text: Text::Maintains,
                ..context
            },
            ..around
        },
    }
}

/// A clause with its line.
fn clause_at(span: Span, spec: Spec) -> ClauseInfo
    ensures { seen.clause result ≡ tables.clause span (seen.spec spec) }
{
    ClauseInfo {
        line: span.line,
        spec,
    }
}

/// Adds what a condition says, where it is one of these.
fn add_condition<'s, 'a>(
    alloc: Global,
    around: Around<'s, 'a>,
    numbering: Numbering<'_>,
    first: u32,
    span: Span,
    condition: Condition,
    property: &'a Expr,
    so_far: &mut Vec<ClauseInfo>,
) -> Result<(), AllocError>
    ensures { OnOk result (map seen.clause so_far.new.items ≡ map seen.clause so_far.old.items ++ tables.numbered_clause (shaped numbering.entry).shapes (shaped numbering.entry).sorts (tables.clause span (annotations.spec (tables.in_clause condition (here around.entry)) first (view.exp property.now))) ∷ []) }
{
    let inside = inside_condition(condition, around);
    let holds = said(alloc, inside, numbering, first, property)?;
    let one = clause_at(span, holds.spec);
    so_far.push(one)?;
    Ok(())
}

/// That an object is mutable.
fn mutable(alloc: Global, object: Spec) -> Result<Spec, AllocError>
    ensures { IfOk result (λ s. seen.spec s ≡ t.SMutable (seen.spec object)) }
{
    let held = Box::new(alloc, object)?;
    Ok(Spec::Mutable(held))
}

/// Whether an item of a writes list has to be mutable.
fn is_whole(x: &WritesItem) -> bool
    ensures { result ≡ spec.is_whole (view.written x.now) }
{
    match x {
        WritesItem::Object(_) => false,
        WritesItem::Span(_, _) | WritesItem::Extent(_, _) => true,
    }
}

/// Adds that the object of an item of a writes list is mutable.
fn add_object<'s, 'a>(
    alloc: Global,
    around: Around<'s, 'a>,
    numbering: Numbering<'_>,
    first: u32,
    span: Span,
    object: &'a Expr,
    so_far: &mut Vec<ClauseInfo>,
) -> Result<(), AllocError>
    ensures { OnOk result (map seen.clause so_far.new.items ≡ map seen.clause so_far.old.items ++ tables.numbered_clause (shaped numbering.entry).shapes (shaped numbering.entry).sorts (tables.clause span (t.SMutable (annotations.spec (here around.entry) first (view.exp object.now)))) ∷ []) }
{
    let named = said(alloc, around, numbering, first, object)?;
    let holds = mutable(alloc, named.spec)?;
    let one = clause_at(span, holds);
    so_far.push(one)?;
    Ok(())
}

/// Adds that the object of an item with `\span` or `\extent` is mutable.
fn add_item<'s, 'a>(
    alloc: Global,
    around: Around<'s, 'a>,
    numbering: Numbering<'_>,
    first: u32,
    span: Span,
    x: &'a WritesItem,
    so_far: &mut Vec<ClauseInfo>,
) -> Result<(), AllocError>
    ensures { OnOk result (map seen.clause so_far.new.items ≡ map seen.clause so_far.old.items ++ map (tables.numbered_clause (shaped numbering.entry).shapes (shaped numbering.entry).sorts) (map (tables.clause span) (tables.mutable_item (here around.entry) first (view.written x.now)))) }
{
    if is_whole(x) {
        add_object(alloc, around, numbering, first, span, item_of(x), so_far)
    } else {
        Ok(())
    }
}

/// Adds that the objects of a writes list with `\span` or `\extent` are mutable.
fn add_mutable<'s, 'a>(
    alloc: Global,
    around: Around<'s, 'a>,
    numbering: Numbering<'_>,
    first: u32,
    span: Span,
    all: &'a [WritesItem],
    so_far: &mut Vec<ClauseInfo>,
) -> Result<(), AllocError>
    ensures { OnOk result (map seen.clause so_far.new.items ≡ map seen.clause so_far.old.items ++ map (tables.numbered_clause (shaped numbering.entry).shapes (shaped numbering.entry).sorts) (map (tables.clause span) (tables.mutable_items (here around.entry) first (map view.written all.now)))) }
{
    let mut next = first;
    for x in all {
        add_item(alloc, around, numbering, next, span, x, so_far)?;
        next = next_formula(next, item_of(x))?;
    }
    Ok(())
}

/// Adds what the items of a writes list are.
fn add_listed<'s, 'a>(
    alloc: Global,
    around: Around<'s, 'a>,
    numbering: Numbering<'_>,
    first: u32,
    all: &'a [WritesItem],
    so_far: &mut Vec<Spec>,
) -> Result<(), AllocError>
    ensures { OnOk result (seen.specs so_far.new.items ≡ seen.specs so_far.old.items ++ map (with_shapes (shaped numbering.entry).shapes (shaped numbering.entry).sorts) (tables.listed_items (here around.entry) first (map view.written all.now))) }
{
    let mut next = first;
    for x in all {
        let object = said(alloc, around, numbering, next, item_of(x))?;
        next = object.next;
        so_far.push(object.spec)?;
    }
    Ok(())
}

/// What stands around a writes list.
pub fn in_writes<'s, 'a>(around: Around<'s, 'a>) -> Around<'s, 'a>
    ensures { here result ≡ tables.in_writes (here around.entry) }
{
    Around {
        context: Context {
            text: Text::Writes,
            ..around.context
        },
        ..around
    }
}

/// Where a clause of a contract has to hold: where the function begins, or where it ends.
#[derive(Clone, Copy)]
enum Boundary {
    Entry,
    Exit,
}

/// Whether a condition has to hold at this boundary.
fn holds_at(boundary: Boundary, condition: Condition) -> bool
    ensures { result ≡ spec.holds_at boundary condition }
{
    match boundary {
        Boundary::Entry => !matches!(condition, Condition::Ensures),
        Boundary::Exit => !matches!(condition, Condition::Requires),
    }
}

/// Adds what a condition says, if it has to hold at this boundary.
fn add_condition_at<'s, 'a>(
    alloc: Global,
    around: Around<'s, 'a>,
    numbering: Numbering<'_>,
    first: u32,
    boundary: Boundary,
    span: Span,
    condition: Condition,
    property: &'a Expr,
    so_far: &mut Vec<ClauseInfo>,
) -> Result<(), AllocError>
    ensures { OnOk result (map seen.clause so_far.new.items ≡ map seen.clause so_far.old.items ++ map (tables.numbered_clause (shaped numbering.entry).shapes (shaped numbering.entry).sorts) (spec.clause_at boundary (here around.entry) first (trees.Holds span condition (view.exp property.now)))) }
{
    if holds_at(boundary, condition) {
        add_condition(
            alloc, around, numbering, first, span, condition, property, so_far,
        )
    } else {
        Ok(())
    }
}

/// Adds what has to hold at this boundary by a clause.
fn add_clause_at<'s, 'a>(
    alloc: Global,
    around: Around<'s, 'a>,
    numbering: Numbering<'_>,
    first: u32,
    boundary: Boundary,
    x: &'a Clause,
    so_far: &mut Vec<ClauseInfo>,
) -> Result<(), AllocError>
    ensures { OnOk result (map seen.clause so_far.new.items ≡ map seen.clause so_far.old.items ++ map (tables.numbered_clause (shaped numbering.entry).shapes (shaped numbering.entry).sorts) (spec.clause_at boundary (here around.entry) first (view.clause x.now))) }
{
    match x {
        Clause::Condition(span, condition, property) => add_condition_at(
            alloc, around, numbering, first, boundary, *span, *condition, property, so_far,
        ),
        Clause::Writes(span, all) => match boundary {
            Boundary::Entry => {
                add_mutable(
                    alloc,
                    in_writes(around),
                    numbering,
                    first,
                    *span,
                    all,
                    so_far,
                )
            }
            Boundary::Exit => Ok(()),
        },
    }
}

/// What has to hold at this boundary by a contract.
fn clauses_at<'s, 'a>(
    alloc: Global,
    around: Around<'s, 'a>,
    numbering: Numbering<'_>,
    first: u32,
    boundary: Boundary,
    all: &'a [Clause],
) -> Result<Vec<ClauseInfo>, AllocError>
    ensures { IfOk result (λ v. map seen.clause v.items ≡ spec.clauses_at boundary (shaped numbering.entry) (here around.entry) first (map view.clause all.now)) }
{
    let mut so_far = Vec::new(alloc);
    let mut next = first;
    for x in all {
        add_clause_at(alloc, around, numbering, next, boundary, x, &mut so_far)?;
        next = behind_clause(next, x)?;
    }
    Ok(so_far)
}

/// What a contract requires.
pub fn preconditions<'s, 'a>(
    alloc: Global,
    around: Around<'s, 'a>,
    numbering: Numbering<'_>,
    first: u32,
    all: &'a [Clause],
) -> Result<Vec<ClauseInfo>, AllocError>
    ensures { IfOk result (λ v. map seen.clause v.items ≡ spec.preconditions (shaped numbering.entry) (here around.entry) first (map view.clause all.now)) }
{
    clauses_at(alloc, around, numbering, first, Boundary::Entry, all)
}

/// What a contract ensures.
pub fn postconditions<'s, 'a>(
    alloc: Global,
    around: Around<'s, 'a>,
    numbering: Numbering<'_>,
    first: u32,
    all: &'a [Clause],
) -> Result<Vec<ClauseInfo>, AllocError>
    ensures { IfOk result (λ v. map seen.clause v.items ≡ spec.postconditions (shaped numbering.entry) (here around.entry) first (map view.clause all.now)) }
{
    clauses_at(alloc, around, numbering, first, Boundary::Exit, all)
}

/// Adds what a clause's writes list names.
fn add_written<'s, 'a>(
    alloc: Global,
    around: Around<'s, 'a>,
    numbering: Numbering<'_>,
    first: u32,
    x: &'a Clause,
    so_far: &mut Vec<Spec>,
) -> Result<(), AllocError>
    ensures { OnOk result (seen.specs so_far.new.items ≡ seen.specs so_far.old.items ++ map (with_shapes (shaped numbering.entry).shapes (shaped numbering.entry).sorts) (tables.written (here around.entry) first (view.clause x.now))) }
{
    match x {
        Clause::Condition(_, _, _) => Ok(()),
        Clause::Writes(_, all) => {
            add_listed(alloc, in_writes(around), numbering, first, all, so_far)
        }
    }
}

/// What a contract's writes lists name.
pub fn written<'s, 'a>(
    alloc: Global,
    around: Around<'s, 'a>,
    numbering: Numbering<'_>,
    first: u32,
    all: &'a [Clause],
) -> Result<Vec<Spec>, AllocError>
    ensures { IfOk result (λ v. seen.specs v.items ≡ spec.written (shaped numbering.entry) (here around.entry) first (map view.clause all.now)) }
{
    let mut so_far = Vec::new(alloc);
    let mut next = first;
    for x in all {
        add_written(alloc, around, numbering, next, x, &mut so_far)?;
        next = behind_clause(next, x)?;
    }
    Ok(so_far)
}
