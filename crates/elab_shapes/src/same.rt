//! Whether two conjuncts have the same shape.

ghost use Rattle.std.specs.Prelude.{◌≡◌, ◌==◌, nat_eq};
ghost use Rattle.typed_program.specs.Shapes as spec;
ghost use Rattle.typed_program.specs.Views as seen;
ghost use Rattle.elab_shapes.specs.Forms as forms;

use crate::parts::{count, part_at};
use method::program::{Comparison, Operator, Shape, Sort, Spec};

/// Whether two operators are one.
fn same_operator(x: Operator, y: Operator) -> bool
    ensures { result ≡ (spec.operator_number x == spec.operator_number y) }
{
    x == y
}

/// Whether two operators are one.
fn same_comparison(x: Comparison, y: Comparison) -> bool
    ensures { result ≡ (spec.comparison_number x == spec.comparison_number y) }
{
    x == y
}

/// Whether two numbers are one.
fn same_number(x: i128, y: i128) -> bool
    ensures { result ≡ spec.same_int x y }
{
    x == y
}

/// Whether two truth values are one.
fn same_truth(x: bool, y: bool) -> bool
    ensures { result ≡ spec.same_bool x y }
{
    x == y
}

/// Whether two sorts are one.
fn same_sort(x: Sort, y: Sort) -> bool
    ensures { result ≡ spec.same_sort x y }
{
    x == y
}

/// Whether two lists of sorts are one.
fn same_sorts(xs: &[Sort], ys: &[Sort]) -> bool
    ensures { result ≡ spec.same_sorts xs.now ys.now }
{
    xs == ys
}

/// The number of the form of a conjunct with its holes; 0 of a form that stands in none. Quantifiers and
/// `\claims_only` stand in none, nor do conjuncts that are numbered already.
fn form(x: &Spec) -> u8
    ensures { result ≡ forms.form (seen.spec x.now) }
{
    match x {
        Spec::Number(_) => 1,
        Spec::Truth(_) => 2,
        Spec::Null => 3,
        Spec::Variable(_) => 4,
        Spec::Field(_, _) => 5,
        Spec::Closed(_) => 6,
        Spec::Owner(_) => 7,
        Spec::ClaimCount(_) => 8,
        Spec::Member(_, _) => 9,
        Spec::Not(_) => 10,
        Spec::Negate(_) => 11,
        Spec::Arithmetic(_, _, _) => 12,
        Spec::Compare(_, _, _) => 13,
        Spec::And(_, _) => 14,
        Spec::Or(_, _) => 15,
        Spec::Implies(_, _) => 16,
        Spec::Iff(_, _) => 17,
        Spec::Choose(_, _, _) => 18,
        Spec::ClaimsObject(_, _) => 19,
        Spec::Claims(_, _) => 20,
        Spec::Lists(_) => 21,
        Spec::Bound(_) | Spec::This | Spec::Me | Spec::Result => 0,
        Spec::Old(_) | Spec::Unchanged(_) | Spec::Wrapped(_) | Spec::Wrapped0(_) => 0,
        Spec::Mutable(_) | Spec::Fresh(_) | Spec::Has(_) => 0,
        Spec::ForAll(_, _, _, _) | Spec::Exists(_, _, _, _) | Spec::ClaimsOnly(_, _, _) => 0,
    }
}

/// Whether two of one form have the same number, field or operator, where they have one.
fn same_detail(x: &Spec, y: &Spec) -> bool
    ensures { result ≡ forms.same_detail (seen.spec x.now) (seen.spec y.now) }
{
    match x {
        Spec::Number(x) => match y {
            Spec::Number(y) => same_number(*x, *y),
            _ => true,
        },
        Spec::Truth(x) => match y {
            Spec::Truth(y) => same_truth(*x, *y),
            _ => true,
        },
        Spec::Variable(i) => match y {
            Spec::Variable(j) => *i == *j,
            _ => true,
        },
        Spec::Field(_, i) => match y {
            Spec::Field(_, j) => *i == *j,
            _ => true,
        },
        Spec::Arithmetic(o, _, _) => match y {
            Spec::Arithmetic(r, _, _) => same_operator(*o, *r),
            _ => true,
        },
        Spec::Compare(o, _, _) => match y {
            Spec::Compare(r, _, _) => same_comparison(*o, *r),
            _ => true,
        },
        _ => true,
    }
}

/// Whether two are of one form that stands in conjuncts, with as many parts.
fn same_form(x: &Spec, y: &Spec) -> bool
    ensures { result ≡ forms.same_form (seen.spec x.now) (seen.spec y.now) }
{
    let number = form(x);
    number != 0 && number == form(y) && count(x) == count(y)
}

/// Whether two conjuncts with their holes are one tree.
#[cycle(same)]
fn same(x: &Spec, y: &Spec) -> bool
    ensures { result ≡ spec.same (seen.spec x.now) (seen.spec y.now) }
{
    if !same_form(x, y) {
        return false;
    }
    if !same_detail(x, y) {
        return false;
    }
    for i in 0..count(x) {
        let one = part_at(x, i);
        let other = part_at(y, i);
        if !same(one.spec, other.spec) {
            return false;
        }
    }
    true
}

/// Whether two shapes are the same: their holes are of the same sorts, and their conjuncts are one tree.
pub fn same_shape(x: &Shape, y: &Shape) -> bool
    ensures { result ≡ spec.same_shape (seen.shape x.now) (seen.shape y.now) }
{
    same_sorts(&x.holes, &y.holes) && same(&x.conjunct, &y.conjunct)
}
