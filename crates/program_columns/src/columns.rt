//! The sorts of a program's columns, by their numbers.

ghost use Rattle.std.specs.Prelude.{◌≡◌, ◌∷◌, [], ◌++◌, IfOk, OnOk, map};
ghost use Rattle.term_meaning.specs.Columns.{column_sorts, term_sort};
ghost use Rattle.method.specs.Tables.{sort_of_type};
ghost use Rattle.program_columns.specs.Columns.{column, fixed_columns, fields_columns, shapes_columns, hole_sorts};

use method::program::{DeclaredType, FieldInfo, Program, Shape, Sort as HoleSort};
use std::alloc::{AllocError, Global};
use terms::sort::{Column, Sort, Sorts};

/// Appends a column with these keys, which the heap is before, and values of this sort.
fn add_column(
    alloc: Global,
    keys: &[Sort],
    value: Sort,
    columns: &mut Vec<Column>,
) -> Result<(), AllocError>
    ensures { OnOk result (columns.new.items ≡ columns.old.items ++ column keys.now value ∷ []) }
{
    let sorts = Vec::from_slice(alloc, keys)?;
    columns.push(Column {
        keys: Sorts::new(sorts),
        value,
    })?;
    Ok(())
}

/// The columns that every program has: mode, owner, claim count, owned set and claimed set.
fn fixed_columns(alloc: Global) -> Result<Vec<Column>, AllocError>
    ensures { IfOk result (λ columns. columns.items ≡ fixed_columns) }
{
    let mut columns = Vec::new(alloc);
    add_column(alloc, &[Sort::Ref], Sort::Int, &mut columns)?;
    add_column(alloc, &[Sort::Ref], Sort::Ref, &mut columns)?;
    add_column(alloc, &[Sort::Ref], Sort::Int, &mut columns)?;
    add_column(alloc, &[Sort::Ref, Sort::Ref], Sort::Int, &mut columns)?;
    add_column(alloc, &[Sort::Ref, Sort::Ref], Sort::Int, &mut columns)?;
    Ok(columns)
}

/// The sort of the values of a declared type.
fn type_sort(ty: DeclaredType) -> Sort
    ensures { result ≡ term_sort (sort_of_type ty) }
{
    match ty {
        DeclaredType::Integer(_) => Sort::Int,
        DeclaredType::Pointer(_) | DeclaredType::Object | DeclaredType::Claim => Sort::Ref,
    }
}

/// Appends the columns of these fields.
fn add_fields(
    alloc: Global,
    fields: &[FieldInfo],
    columns: &mut Vec<Column>,
) -> Result<(), AllocError>
    ensures { OnOk result (columns.new.items ≡ columns.old.items ++ fields_columns fields.now) }
{
    for field in fields {
        add_column(alloc, &[Sort::Ref], type_sort(field.ty), columns)?;
    }
    Ok(())
}

/// The sort of what fills a hole.
fn hole_sort(hole: HoleSort) -> Sort
    ensures { result ≡ term_sort hole }
{
    match hole {
        HoleSort::IntSort => Sort::Int,
        HoleSort::RefSort => Sort::Ref,
    }
}

/// The keys of a shape's column: the claim, and what fills the holes.
fn shape_keys(alloc: Global, holes: &[HoleSort]) -> Result<Vec<Sort>, AllocError>
    ensures { IfOk result (λ keys. keys.items ≡ hole_sorts holes.now) }
{
    let mut keys = Vec::new(alloc);
    keys.push(Sort::Ref)?;
    for hole in holes {
        keys.push(hole_sort(*hole))?;
    }
    Ok(keys)
}

/// Appends the columns of these shapes.
fn add_shapes(alloc: Global, shapes: &[Shape], columns: &mut Vec<Column>) -> Result<(), AllocError>
    ensures { OnOk result (columns.new.items ≡ columns.old.items ++ shapes_columns shapes.now) }
{
    for shape in shapes {
        let keys = shape_keys(alloc, &shape.holes)?;
        add_column(alloc, &keys, Sort::Int, columns)?;
    }
    Ok(())
}

/// The sorts of the program's columns, by their numbers: those that every program has, those of its fields, those of
/// its shapes. Only want of memory is an error.
#[tactic(auto, using(crate::proofs::Listed::columns_are))]
pub fn program_columns(alloc: Global, program: &Program) -> Result<Vec<Column>, AllocError>
    ensures { IfOk result (λ columns. columns.items ≡ column_sorts program.now) }
{
    let mut columns = fixed_columns(alloc)?;
    add_fields(alloc, &program.fields, &mut columns)?;
    add_shapes(alloc, &program.shapes, &mut columns)?;
    Ok(columns)
}
