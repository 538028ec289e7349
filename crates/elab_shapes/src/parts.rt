//! Annotations by their parts: what stands in an annotation, in order.

ghost use Rattle.std.specs.Prelude.{◌≡◌, ◌<◌, [], ◌∷◌, length, get_or};
ghost use Rattle.typed_program.specs.Views as seen;
ghost use Rattle.elab_shapes.specs.Parts as view;
ghost use Rattle.elab_shapes.specs.Views.{part as part_seen};

use method::program::Spec;

/// An annotation that stands in another, and whether it is a conjunct of `\claims` that gets a number.
#[derive(Clone, Copy)]
pub struct Part<'a> {
    pub spec: &'a Spec,
    pub is_conjunct: bool,
}

/// A part that is no such conjunct.
fn plain(x: &Spec) -> Part<'_>
    ensures { part_seen result ≡ view.plain (seen.spec x.now) }
{
    Part {
        spec: x,
        is_conjunct: false,
    }
}

/// A conjunct of `\claims`; `o->\closed` gets no number.
fn conjunct(x: &Spec) -> Part<'_>
    ensures { part_seen result ≡ view.conjunct (seen.spec x.now) }
{
    match x {
        Spec::Lists(_) => plain(x),
        _ => Part {
            spec: x,
            is_conjunct: true,
        },
    }
}

/// One of a row.
fn member(xs: &[Spec], i: usize) -> &Spec
    requires { i < length xs.now }
    ensures { result.now ≡ get_or xs.now i result.now }
{
    &xs[i]
}

/// The only part.
fn only_one(x: &Spec, i: usize) -> Part<'_>
    requires { i < 1 }
    ensures { part_seen result ≡ get_or (view.plain (seen.spec x.now) ∷ []) i (part_seen result) }
{
    plain(x)
}

/// One of two parts.
fn one_of_two<'a>(x: &'a Spec, y: &'a Spec, i: usize) -> Part<'a>
    requires { i < 2 }
    ensures { part_seen result ≡ get_or (view.plain (seen.spec x.now) ∷ view.plain (seen.spec y.now) ∷ []) i (part_seen result) }
{
    if i == 0 { plain(x) } else { plain(y) }
}

/// One of three parts.
fn one_of_three<'a>(x: &'a Spec, y: &'a Spec, z: &'a Spec, i: usize) -> Part<'a>
    requires { i < 3 }
    ensures { part_seen result ≡ get_or (view.plain (seen.spec x.now) ∷ view.plain (seen.spec y.now) ∷ view.plain (seen.spec z.now) ∷ []) i (part_seen result) }
{
    match i {
        0 => plain(x),
        1 => plain(y),
        _ => plain(z),
    }
}

/// A part and those of a row, one of them.
fn one_of_row<'a>(x: &'a Spec, xs: &'a [Spec], i: usize) -> Part<'a>
    requires { i < length (view.plain (seen.spec x.now) ∷ view.all_plain (seen.in_row xs.now)) }
    ensures { part_seen result ≡ get_or (view.plain (seen.spec x.now) ∷ view.all_plain (seen.in_row xs.now)) i (part_seen result) }
{
    if i == 0 {
        plain(x)
    } else {
        plain(member(xs, i - 1))
    }
}

/// The claim and the conjuncts of `\claims`, one of them.
fn one_of_claims<'a>(x: &'a Spec, xs: &'a [Spec], i: usize) -> Part<'a>
    requires { i < length (view.plain (seen.spec x.now) ∷ view.conjuncts (seen.in_row xs.now)) }
    ensures { part_seen result ≡ get_or (view.plain (seen.spec x.now) ∷ view.conjuncts (seen.in_row xs.now)) i (part_seen result) }
{
    if i == 0 {
        plain(x)
    } else {
        conjunct(member(xs, i - 1))
    }
}

/// How many parts an annotation has.
pub fn count(x: &Spec) -> usize
    ensures { result ≡ length (view.parts (seen.spec x.now)) }
{
    match x {
        Spec::Number(_) | Spec::Truth(_) | Spec::Null | Spec::Variable(_) => 0,
        Spec::Bound(_) | Spec::This | Spec::Me | Spec::Result | Spec::Has(_) => 0,
        Spec::Field(_, _) | Spec::Closed(_) | Spec::Owner(_) | Spec::ClaimCount(_) => 1,
        Spec::Not(_) | Spec::Negate(_) | Spec::Old(_) | Spec::Unchanged(_) => 1,
        Spec::Wrapped(_) | Spec::Wrapped0(_) | Spec::Mutable(_) | Spec::Fresh(_) => 1,
        Spec::Lists(_) => 1,
        Spec::Member(_, _) | Spec::Arithmetic(_, _, _) | Spec::Compare(_, _, _) => 2,
        Spec::And(_, _) | Spec::Or(_, _) | Spec::Implies(_, _) | Spec::Iff(_, _) => 2,
        Spec::ClaimsObject(_, _) | Spec::ForAll(_, _, _, _) => 2,
        Spec::Choose(_, _, _) => 3,
        Spec::Claims(_, xs) => 1 + xs.len(),
        Spec::Exists(_, _, _, xs) => 1 + xs.len(),
        Spec::ClaimsOnly(_, _, xs) => 1 + xs.len(),
    }
}

/// A part of an annotation by its place.
pub fn part_at(x: &Spec, i: usize) -> Part<'_>
    requires { i < length (view.parts (seen.spec x.now)) }
    ensures { part_seen result ≡ get_or (view.parts (seen.spec x.now)) i (part_seen result) }
{
    match x {
        Spec::Number(_) | Spec::Truth(_) | Spec::Null | Spec::Variable(_) => plain(x),
        Spec::Bound(_) | Spec::This | Spec::Me | Spec::Result | Spec::Has(_) => plain(x),
        Spec::Field(x, _) | Spec::Closed(x) | Spec::Owner(x) => only_one(x, i),
        Spec::ClaimCount(x) | Spec::Not(x) | Spec::Negate(x) | Spec::Old(x) => only_one(x, i),
        Spec::Unchanged(x) | Spec::Wrapped(x) | Spec::Wrapped0(x) => only_one(x, i),
        Spec::Mutable(x) | Spec::Fresh(x) | Spec::Lists(x) => only_one(x, i),
        Spec::Member(x, y) | Spec::Arithmetic(_, x, y) => one_of_two(x, y, i),
        Spec::Compare(_, x, y) | Spec::And(x, y) | Spec::Or(x, y) => one_of_two(x, y, i),
        Spec::Implies(x, y) | Spec::Iff(x, y) => one_of_two(x, y, i),
        Spec::ClaimsObject(x, y) | Spec::ForAll(_, _, x, y) => one_of_two(x, y, i),
        Spec::Choose(x, y, z) => one_of_three(x, y, z, i),
        Spec::Claims(x, xs) => one_of_claims(x, xs, i),
        Spec::Exists(_, _, x, xs) => one_of_row(x, xs, i),
        Spec::ClaimsOnly(_, x, xs) => one_of_row(x, xs, i),
    }
}
