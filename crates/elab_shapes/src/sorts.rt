//! Of which sorts what fills holes is.

ghost use Rattle.std.specs.Prelude.{◌≡◌};
ghost use Rattle.typed_program.specs.Shapes as spec;
ghost use Rattle.elab_shapes.specs.Views.{sorts as sorts_seen};

use method::program::{DeclaredType, Hole, Sort};

/// Of which sorts a function's variables are, and its value.
#[derive(Drop)]
pub struct Sorts {
    pub variables: Vec<Sort>,
    pub value: Sort,
}

/// The sort of the values of a declared type.
pub fn sort_of_type(ty: DeclaredType) -> Sort
    ensures { result ≡ spec.sort_of_type ty }
{
    match ty {
        DeclaredType::Integer(_) => Sort::IntSort,
        DeclaredType::Pointer(_) | DeclaredType::Object | DeclaredType::Claim => Sort::RefSort,
    }
}

/// The sort of a variable of the function; that of references where it has none of this number.
fn sort_of_variable(sorts: &Sorts, number: u32) -> Sort
    ensures { result ≡ spec.sort_of (sorts_seen sorts.now) (Hole.OfVariable number) }
{
    match sorts.variables.get(number as usize) {
        Some(sort) => *sort,
        None => Sort::RefSort,
    }
}

/// The sort of what fills a hole.
pub fn sort_of(sorts: &Sorts, hole: Hole) -> Sort
    ensures { result ≡ spec.sort_of (sorts_seen sorts.now) hole }
{
    match hole {
        Hole::OfVariable(number) => sort_of_variable(sorts, number),
        Hole::OfBound(_) | Hole::OfMe | Hole::OfThis => Sort::RefSort,
        Hole::OfResult => sorts.value,
    }
}
