//! Columns and types, as the axioms test them.

ghost use Rattle.std.specs.Prelude.{◌≡◌, ◌<◌, ◌∷◌, ◌++◌, not, ◌&&◌, List, Some, None, IfSome, IfNone, slice_get, option_map, drop};
ghost use Rattle.terms.specs.declared.sort.Column.{Column as Sorted};
ghost use Rattle.term_meaning.specs.Columns as c;
ghost use Rattle.method.specs.Tables as tables;
ghost use Rattle.axiom_instances.specs.Axioms as spec;
ghost use Rattle.rule_instances.specs.Columns.{seen};

use axiom_steps::steps::Column;
use method::program::{DeclaredType, Program, StructInfo};
use terms::sort::{Column as Sorted, Sort};

/// The type number of claims.
const CLAIMS: u128 = 2;

/// The type number of the first struct.
const FIRST_STRUCT: u128 = 3;

/// The struct with the type number.
fn struct_of(program: &Program, ty: u128) -> Option<&StructInfo>
    ensures some { IfSome result (λ info. tables.struct_of program.now ty ≡ Some info.now) }
    ensures none { IfNone result (tables.struct_of program.now ty ≡ None) }
{
    if ty < FIRST_STRUCT || ty - FIRST_STRUCT >= program.structs.len() as u128 {
        return None;
    }
    program.structs.get((ty - FIRST_STRUCT) as usize)
}

/// Whether the type is a claim or a struct.
fn is_type(program: &Program, ty: u128) -> bool
    ensures { result ≡ spec.is_type program.now ty }
{
    if ty == CLAIMS {
        return true;
    }
    is_struct(program, ty)
}

/// Whether the type is a struct of the program.
pub fn is_struct(program: &Program, ty: u128) -> bool
    ensures { result ≡ tables.is_struct program.now ty }
{
    match struct_of(program, ty) {
        Some(_) => true,
        None => false,
    }
}

/// Whether claims may list objects of the type.
fn is_claimable(program: &Program, ty: u128) -> bool
    ensures { result ≡ tables.is_claimable program.now ty }
{
    match struct_of(program, ty) {
        Some(info) => info.is_claimable,
        None => false,
    }
}

/// Whether the owned sets of closed objects of the type may change.
fn has_volatile_owns(program: &Program, ty: u128) -> bool
    ensures { result ≡ tables.has_volatile_owns program.now ty }
{
    match struct_of(program, ty) {
        Some(info) => info.has_volatile_owns,
        None => false,
    }
}

/// Whether the type is one of objects that can't be claimed.
pub fn is_unclaimable(program: &Program, ty: u128) -> bool
    ensures { result ≡ (spec.is_type program.now ty && not (tables.is_claimable program.now ty)) }
{
    let of_objects = is_type(program, ty);
    let claimable = is_claimable(program, ty);
    of_objects && !claimable
}

/// Whether the owned sets of closed objects of the type stay as they are.
pub fn has_fixed_set(program: &Program, ty: u128) -> bool
    ensures { result ≡ (spec.is_type program.now ty && not (tables.has_volatile_owns program.now ty)) }
{
    let of_objects = is_type(program, ty);
    let volatile = has_volatile_owns(program, ty);
    of_objects && !volatile
}

/// Whether the field is one of the struct with the type number.
fn is_field_of(program: &Program, field: usize, ty: u128) -> bool
    ensures { result ≡ tables.is_field_of program.now field ty }
{
    match program.fields.get(field) {
        Some(info) => info.of as u128 == ty,
        None => false,
    }
}

fn is_volatile(program: &Program, field: usize) -> bool
    ensures { result ≡ tables.is_volatile program.now field }
{
    match program.fields.get(field) {
        Some(info) => info.is_volatile,
        None => false,
    }
}

fn is_approved(program: &Program, field: usize) -> bool
    ensures { result ≡ tables.is_approved program.now field }
{
    match program.fields.get(field) {
        Some(info) => info.is_approved,
        None => false,
    }
}

/// Whether a closed object of the type keeps the column.
pub fn is_fixed(program: &Program, ty: u128, column: Column) -> bool
    ensures { result ≡ spec.is_fixed program.now ty (seen column) }
{
    match column {
        Column::Modes | Column::Owners | Column::Counts => false,
        Column::OwnedSets => has_fixed_set(program, ty),
        Column::ClaimedSets => ty == CLAIMS,
        Column::Field(field) => is_fixed_field(program, ty, field),
        Column::Shape(_) => ty == CLAIMS,
    }
}

fn is_fixed_field(program: &Program, ty: u128, field: usize) -> bool
    ensures { result ≡ (tables.is_field_of program.now field ty && not (tables.is_volatile program.now field)) }
{
    let member = is_field_of(program, field, ty);
    let volatile = is_volatile(program, field);
    member && !volatile
}

/// Whether the column is an approved field of the type.
pub fn is_approved_of(program: &Program, ty: u128, column: Column) -> bool
    ensures { result ≡ spec.is_approved_of program.now ty (seen column) }
{
    match column {
        Column::Field(field) => is_field_of(program, field, ty) && is_approved(program, field),
        Column::Modes | Column::Owners | Column::Counts | Column::OwnedSets => false,
        Column::ClaimedSets | Column::Shape(_) => false,
    }
}

/// Whether the column is neither mode nor owner.
pub fn is_content(column: Column) -> bool
    ensures { result ≡ spec.is_content_column (seen column) }
{
    match column {
        Column::Modes | Column::Owners => false,
        Column::Counts | Column::OwnedSets | Column::ClaimedSets => true,
        Column::Field(_) | Column::Shape(_) => true,
    }
}

/// Whether the column is that of owned sets.
pub fn is_owned(column: Column) -> bool
    ensures { result ≡ spec.is_owned (seen column) }
{
    match column {
        Column::OwnedSets => true,
        Column::Modes | Column::Owners | Column::Counts | Column::ClaimedSets => false,
        Column::Field(_) | Column::Shape(_) => false,
    }
}

/// The declared type of the column's field.
pub fn type_of(program: &Program, column: Column) -> Option<DeclaredType>
    ensures { result ≡ spec.type_of_column program.now (seen column) }
{
    match column {
        Column::Field(field) => Some(type_of_field(program, field)),
        Column::Modes | Column::Owners | Column::Counts | Column::OwnedSets => None,
        Column::ClaimedSets | Column::Shape(_) => None,
    }
}

fn type_of_field(program: &Program, field: usize) -> DeclaredType
    ensures { result ≡ tables.type_of_field program.now field }
{
    match program.fields.get(field) {
        Some(info) => info.ty,
        None => DeclaredType::Object,
    }
}

/// One of the columns that each program has, by its number.
fn status_column(number: u128) -> Column
    requires { number < 5 }
    ensures { (rest : List c.Column)
        → slice_get (c.Modes ∷ c.Owners ∷ c.Counts ∷ c.OwnedSets ∷ c.ClaimedSets ∷ rest) number ≡ Some (seen result) }
{
    match number {
        0 => Column::Modes,
        1 => Column::Owners,
        2 => Column::Counts,
        3 => Column::OwnedSets,
        _ => Column::ClaimedSets,
    }
}

/// One of the columns of fields and shapes, counted from the first of them on.
#[tactic(auto, using(crate::proofs::Numbered::a_field, crate::proofs::Numbered::a_shape, crate::proofs::Numbered::no_column))]
fn content_column(program: &Program, number: u128) -> Option<Column>
    ensures { option_map seen result
        ≡ slice_get (c.field_columns 0 program.now.fields.items ++ c.shape_columns 0 program.now.shapes.items) number }
{
    let fields = program.fields.len() as u128;
    if number < fields {
        return Some(Column::Field(number as usize));
    }
    if number - fields < program.shapes.len() as u128 {
        return Some(Column::Shape((number - fields) as usize));
    }
    None
}

/// The column with this number.
#[tactic(auto, using(crate::proofs::Numbered::behind_status))]
pub fn column_of(program: &Program, number: u128) -> Option<Column>
    ensures { option_map seen result ≡ slice_get (c.columns_of program.now) number }
{
    if number < 5 {
        return Some(status_column(number));
    }
    content_column(program, number - 5)
}

/// The sorts of a column's further keys, by the sorts of all columns.
pub fn further_keys(columns: &[Sorted], number: u128) -> &[Sort]
    ensures { (x : Sorted) → slice_get columns.now number ≡ Some x → result.now ≡ drop 1 x.keys }
{
    if number >= columns.len() as u128 {
        return &[];
    }
    let Some((_, rest)) = columns[number as usize].keys.as_slice().split_first() else {
        return &[];
    };
    rest
}
