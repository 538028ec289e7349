//! The arguments of an `axiom` step, and which of them name terms.

ghost use Rattle.std.specs.Prelude.{◌≡◌, ◌<◌, ◌≤◌, ◌++◌, true, None, Some, map, replicate, slice_get, length, option_map, IfNone, IfOk, IfSome, OnOk};
ghost use Rattle.term_meaning.specs.Columns.{column_sorts};
ghost use Rattle.term_meaning.specs.Meaning.{Language as Meant, quantified_sorts};
ghost use Rattle.term_sorts.specs.Sorting.{HasColumns};
ghost use Rattle.axiom_steps.specs.Steps.{naturals};
ghost use Rattle.block_layout.specs.Trees.{named};
ghost use Rattle.axiom_parameters.specs.Parameters as spec;
ghost use Rattle.certificate_upgrade.specs.Conclusions as steps;
ghost use Rattle.upgrade_blocks.specs.Parameters.{seen};
ghost use Rattle.upgrade_blocks.specs.Marks.{MarksOne, follow, if_marked, is_term, natural_of};

use crate::parameters::{Parameter, parameters_of};
use std::alloc::{AllocError, Global};
use terms::sort::{Column, Columns, Sorts};

/// The number, where it isn't negative.
fn natural(number: i128) -> Option<u128>
    ensures { result ≡ natural_of number }
{
    if number < 0 {
        return None;
    }
    Some(number.unsigned_abs())
}

/// The number at this place, where it isn't negative.
fn natural_at(numbers: &[i128], i: usize) -> Option<u128>
    requires { i < length numbers.now }
    ensures { Some result ≡ option_map natural_of (slice_get numbers.now i) }
{
    natural(numbers[i])
}

/// The numbers; none of them where one is negative.
fn naturals(alloc: Global, numbers: &[i128]) -> Result<Vec<u128>, AllocError>
    ensures { IfOk result (λ ns. ns.items ≡ steps.or_empty (naturals numbers.now)) }
{
    let mut all = Vec::new(alloc);
    for i in 0..numbers.len() {
        let Some(number) = natural_at(numbers, i) else {
            return Ok(Vec::new(alloc));
        };
        all.push(number)?;
    }
    Ok(all)
}

/// The arguments among the numbers of a step `axiom N P args t`; none where one is negative.
pub fn args_of(alloc: Global, numbers: &[i128]) -> Result<Vec<u128>, AllocError>
    ensures { IfOk result (λ args. args.items ≡ steps.args_of numbers.now) }
{
    let count = numbers.len();
    if count < 3 {
        return Ok(Vec::new(alloc));
    }
    let args = naturals(alloc, &numbers[2..count - 1])?;
    Ok(args)
}

/// The column with this number.
fn column_at(columns: &[Column], number: u128) -> Option<&Column>
    ensures some { IfSome result (λ column. slice_get columns.now number ≡ Some column.now) }
    ensures none { IfNone result (slice_get columns.now number ≡ None) }
{
    if number >= columns.len() as u128 {
        return None;
    }
    columns.get(number as usize)
}

/// How many keys it has behind the first.
fn key_count(columns: &[Column], number: u128) -> usize
    ensures { (l : Meant) → columns.now ≡ column_sorts l.program → result ≡ spec.key_count l number }
{
    let Some(column) = column_at(columns, number) else {
        return 0;
    };
    column.keys.as_slice().len().saturating_sub(1)
}

/// The sorts of the holes of the quantified formula with this number.
fn holes_at(quantified: &[Sorts], number: u128) -> Option<&Sorts>
    ensures some { IfSome result (λ holes. slice_get quantified.now number ≡ Some holes.now) }
    ensures none { IfNone result (slice_get quantified.now number ≡ None) }
{
    if number >= quantified.len() as u128 {
        return None;
    }
    quantified.get(number as usize)
}

/// How many holes it has.
fn hole_count(quantified: &[Sorts], number: u128) -> usize
    ensures { (l : Meant) → quantified.now ≡ quantified_sorts l → result ≡ spec.hole_count l number }
{
    let Some(holes) = holes_at(quantified, number) else {
        return 0;
    };
    holes.as_slice().len()
}

/// Whether the number that the parameter takes first names a term.
fn is_term(parameter: Parameter) -> bool
    ensures { result ≡ is_term (seen parameter) }
{
    matches!(parameter, Parameter::OneTerm)
}

/// How many terms follow that number.
fn follow(columns: &Columns, parameter: Parameter, number: u128) -> u128
    ensures { (l : Meant) → HasColumns columns.now l → result ≡ follow l (seen parameter) number }
{
    match parameter {
        Parameter::OneTerm => 0,
        Parameter::TermList => number,
        Parameter::TypeNumber => 0,
        Parameter::ColumnKeys => key_count(&columns.columns, number) as u128,
        Parameter::FormulaHoles => hole_count(&columns.quantified, number) as u128,
    }
}

/// So many, or as many as there are at most.
fn up_to(count: u128, most: usize) -> usize
    ensures few { result ≤ count }
    ensures within { result ≤ most }
    ensures all { result < count → most ≤ result }
{
    if count < most as u128 {
        return count as usize;
    }
    most
}

/// Marks so many numbers as names of terms.
fn mark_terms(count: usize, marks: &mut Vec<bool>) -> Result<(), AllocError>
    ensures { OnOk result (marks.new.items ≡ marks.old.items ++ replicate count true) }
{
    for _ in 0..count {
        marks.push(true)?;
    }
    Ok(())
}

/// Marks the numbers that the parameter takes, of those that have no mark yet.
fn mark_one(
    columns: &Columns,
    parameter: Parameter,
    args: &[u128],
    marks: &mut Vec<bool>,
) -> Result<(), AllocError>
    ensures { OnOk result (MarksOne columns.now (seen parameter) args.now marks.old.items marks.new.items) }
{
    let place = marks.len();
    if place >= args.len() {
        return Ok(());
    }
    let behind = follow(columns, parameter, number_at(args, place));
    let count = up_to(behind, args.len() - place - 1);
    marks.push(is_term(parameter))?;
    mark_terms(count, marks)?;
    Ok(())
}

fn parameter_at(parameters: &[Parameter], i: usize) -> Parameter
    requires { i < length parameters.now }
    ensures { slice_get parameters.now i ≡ Some result }
{
    parameters[i]
}

/// Of each number that the parameters take, whether it names a term.
fn name_terms(
    alloc: Global,
    columns: &Columns,
    parameters: &[Parameter],
    args: &[u128],
) -> Result<Vec<bool>, AllocError>
    ensures { (l : Meant) → HasColumns columns.now l →
        IfOk result (λ marks. marks.items ≡ spec.name_terms l (map seen parameters.now) args.now) }
{
    let mut marks = Vec::new(alloc);
    for i in 0..parameters.len() {
        mark_one(columns, parameter_at(parameters, i), args, &mut marks)?;
    }
    Ok(marks)
}

/// Which of the arguments among the numbers of a step `axiom N P args t` name terms.
pub fn arg_marks(
    alloc: Global,
    columns: &Columns,
    numbers: &[i128],
    args: &[u128],
) -> Result<Vec<bool>, AllocError>
    requires { args.now ≡ steps.args_of numbers.now }
    ensures { (l : Meant) → HasColumns columns.now l →
        IfOk result (λ marks. marks.items ≡ steps.arg_marks l numbers.now) }
{
    let [number, part, ..] = numbers else {
        return Ok(Vec::new(alloc));
    };
    let marks = name_terms(alloc, columns, parameters_of(*number, *part), args)?;
    Ok(marks)
}

fn mark_at(marks: &[bool], i: usize) -> bool
    requires { i < length marks.now }
    ensures { slice_get marks.now i ≡ Some result }
{
    marks[i]
}

fn number_at(numbers: &[u128], i: usize) -> u128
    requires { i < length numbers.now }
    ensures { slice_get numbers.now i ≡ Some result }
{
    numbers[i]
}

/// Adds the number, where its mark says that it names a term.
fn add_marked(mark: bool, number: u128, numbers: &mut Vec<u128>) -> Result<(), AllocError>
    ensures { OnOk result (numbers.new.items ≡ numbers.old.items ++ if_marked mark number) }
{
    if mark {
        numbers.push(number)?;
    }
    Ok(())
}

/// The numbers that name terms.
fn term_numbers(alloc: Global, marks: &[bool], args: &[u128]) -> Result<Vec<u128>, AllocError>
    ensures { IfOk result (λ numbers. numbers.items ≡ spec.term_numbers marks.now args.now) }
{
    let mut numbers = Vec::new(alloc);
    for i in 0..marks.len() {
        if i >= args.len() {
            return Ok(numbers);
        }
        add_marked(mark_at(marks, i), number_at(args, i), &mut numbers)?;
    }
    Ok(numbers)
}

/// What the number names in a list.
pub fn name_at(names: &[u32], number: u128) -> Option<u32>
    ensures { result ≡ slice_get names.now number }
{
    if number >= names.len() as u128 {
        return None;
    }
    Some(names[number as usize])
}

/// What the numbers name in a list; nothing where one of them names nothing.
fn all_named(alloc: Global, names: &[u32], numbers: &[u128]) -> Result<Vec<u32>, AllocError>
    ensures { IfOk result (λ nodes. nodes.items ≡ steps.or_empty (named names.now numbers.now)) }
{
    let mut nodes = Vec::new(alloc);
    for i in 0..numbers.len() {
        let Some(node) = name_at(names, number_at(numbers, i)) else {
            return Ok(Vec::new(alloc));
        };
        nodes.push(node)?;
    }
    Ok(nodes)
}

/// The nodes that the arguments name, where the marks say that they name terms; none where one of them names none.
pub fn arg_nodes(
    alloc: Global,
    names: &[u32],
    marks: &[bool],
    args: &[u128],
) -> Result<Vec<u32>, AllocError>
    ensures { IfOk result (λ nodes.
        nodes.items ≡ steps.or_empty (named names.now (spec.term_numbers marks.now args.now))) }
{
    let numbers = term_numbers(alloc, marks, args)?;
    let nodes = all_named(alloc, names, &numbers)?;
    Ok(nodes)
}
