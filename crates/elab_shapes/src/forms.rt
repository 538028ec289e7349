//! An annotation of the same form with other parts.

ghost use Rattle.std.specs.Prelude.{◌≡◌, [], ◌∷◌, length, None, IfOk};
ghost use Rattle.typed_program.specs.Trees as t;
ghost use Rattle.typed_program.specs.Views as seen;
ghost use Rattle.elab_shapes.specs.Parts as view;
ghost use Rattle.elab_shapes.specs.RowForms as rows;

use method::program::{Conjunct, DeclaredType, Spec};
use std::alloc::{AllocError, Global};

/// The form of an annotation that has a part and a row, with what else it holds.
#[derive(Clone, Copy)]
pub enum RowForm {
    Claims,
    Exists(u32, DeclaredType),
    ClaimsOnly(u32),
}

/// A copy of a conjunct that has a number.
pub fn copied(x: &Conjunct) -> Result<Conjunct, AllocError>
    ensures { IfOk result (λ c. seen.conjunct c ≡ seen.conjunct x.now) }
{
    let holes = x.holes.clone()?;
    Ok(Conjunct {
        shape: x.shape,
        holes,
    })
}

/// A copy of an annotation that has no parts.
fn without_parts(form: &Spec) -> Result<Spec, AllocError>
    requires { length (view.parts (seen.spec form.now)) ≡ 0 }
    ensures { IfOk result (λ v. seen.spec v ≡ seen.spec form.now) }
{
    match form {
        Spec::Number(number) => Ok(Spec::Number(*number)),
        Spec::Truth(holds) => Ok(Spec::Truth(*holds)),
        Spec::Null => Ok(Spec::Null),
        Spec::Variable(number) => Ok(Spec::Variable(*number)),
        Spec::Bound(number) => Ok(Spec::Bound(*number)),
        Spec::This => Ok(Spec::This),
        Spec::Me => Ok(Spec::Me),
        Spec::Has(conjunct) => {
            let conjunct = copied(conjunct)?;
            Ok(Spec::Has(conjunct))
        }
        _ => Ok(Spec::Result),
    }
}

/// A form with one part.
fn with_one(form: &Spec, x: Box<Spec>) -> Spec
    requires few { rows.row_form (seen.spec form.now) ≡ None }
    requires many { length (view.parts (seen.spec form.now)) ≡ 1 }
    ensures { seen.spec result ≡ view.with_parts (seen.spec form.now) (seen.spec x.value ∷ []) }
{
    match form {
        Spec::Field(_, field) => Spec::Field(x, *field),
        Spec::Closed(_) => Spec::Closed(x),
        Spec::Owner(_) => Spec::Owner(x),
        Spec::ClaimCount(_) => Spec::ClaimCount(x),
        Spec::Not(_) => Spec::Not(x),
        Spec::Negate(_) => Spec::Negate(x),
        Spec::Old(_) => Spec::Old(x),
        Spec::Unchanged(_) => Spec::Unchanged(x),
        Spec::Wrapped(_) => Spec::Wrapped(x),
        Spec::Wrapped0(_) => Spec::Wrapped0(x),
        Spec::Mutable(_) => Spec::Mutable(x),
        Spec::Fresh(_) => Spec::Fresh(x),
        _ => Spec::Lists(x),
    }
}

/// A form with two parts.
fn with_two(form: &Spec, x: Box<Spec>, y: Box<Spec>) -> Spec
    requires few { rows.row_form (seen.spec form.now) ≡ None }
    requires many { length (view.parts (seen.spec form.now)) ≡ 2 }
    ensures { seen.spec result ≡ view.with_parts (seen.spec form.now) (seen.spec x.value ∷ seen.spec y.value ∷ []) }
{
    match form {
        Spec::Member(_, _) => Spec::Member(x, y),
        Spec::Arithmetic(operator, _, _) => Spec::Arithmetic(*operator, x, y),
        Spec::Compare(comparison, _, _) => Spec::Compare(*comparison, x, y),
        Spec::And(_, _) => Spec::And(x, y),
        Spec::Or(_, _) => Spec::Or(x, y),
        Spec::Implies(_, _) => Spec::Implies(x, y),
        Spec::Iff(_, _) => Spec::Iff(x, y),
        Spec::ForAll(number, ty, _, _) => Spec::ForAll(*number, *ty, x, y),
        _ => Spec::ClaimsObject(x, y),
    }
}

/// `\claims` of a claim and these conjuncts.
fn claims_of(claim: Box<Spec>, conjuncts: Vec<Spec>) -> Spec
    ensures { seen.spec result ≡ t.SClaims (seen.spec claim.value) (view.row (seen.specs conjuncts.items)) }
{
    Spec::Claims(claim, conjuncts)
}

/// `\exists` over the objects that an object owns, with these conjuncts.
fn exists_of(number: u32, ty: DeclaredType, owner: Box<Spec>, conjuncts: Vec<Spec>) -> Spec
    ensures { seen.spec result ≡ t.SExists number ty (seen.spec owner.value) (view.row (seen.specs conjuncts.items)) }
{
    Spec::Exists(number, ty, owner, conjuncts)
}

/// `\claims_only` of a claim and these objects.
fn claims_only_of(number: u32, claim: Box<Spec>, objects: Vec<Spec>) -> Spec
    ensures { seen.spec result ≡ t.SClaimsOnly number (seen.spec claim.value) (view.row (seen.specs objects.items)) }
{
    Spec::ClaimsOnly(number, claim, objects)
}

/// A form with a part and a row.
fn with_row(form: RowForm, x: Box<Spec>, xs: Vec<Spec>) -> Spec
    ensures { seen.spec result ≡ rows.with_row form (seen.spec x.value) (seen.specs xs.items) }
{
    match form {
        RowForm::Claims => claims_of(x, xs),
        RowForm::Exists(number, ty) => exists_of(number, ty, x, xs),
        RowForm::ClaimsOnly(number) => claims_only_of(number, x, xs),
    }
}

/// The form of an annotation that has a row.
fn row_form(form: &Spec) -> Option<RowForm>
    ensures { result ≡ rows.row_form (seen.spec form.now) }
{
    match form {
        Spec::Claims(_, _) => Some(RowForm::Claims),
        Spec::Exists(number, ty, _, _) => Some(RowForm::Exists(*number, *ty)),
        Spec::ClaimsOnly(number, _, _) => Some(RowForm::ClaimsOnly(*number)),
        Spec::Number(_) | Spec::Truth(_) | Spec::Null | Spec::Variable(_) => None,
        Spec::Bound(_) | Spec::This | Spec::Me | Spec::Result | Spec::Has(_) => None,
        Spec::Field(_, _) | Spec::Closed(_) | Spec::Owner(_) | Spec::ClaimCount(_) => None,
        Spec::Not(_) | Spec::Negate(_) | Spec::Old(_) | Spec::Unchanged(_) => None,
        Spec::Wrapped(_) | Spec::Wrapped0(_) | Spec::Mutable(_) | Spec::Fresh(_) => None,
        Spec::Lists(_) | Spec::Member(_, _) | Spec::Arithmetic(_, _, _) => None,
        Spec::Compare(_, _, _) | Spec::And(_, _) | Spec::Or(_, _) | Spec::Implies(_, _) => None,
        Spec::Iff(_, _) | Spec::ClaimsObject(_, _) | Spec::ForAll(_, _, _, _) => None,
        Spec::Choose(_, _, _) => None,
    }
}

/// An annotation on the heap.
fn boxed(alloc: Global, whole: Spec) -> Result<Box<Spec>, AllocError>
    ensures { IfOk result (λ b. b.value ≡ whole) }
{
    let held = Box::new(alloc, whole)?;
    Ok(held)
}

/// An annotation without a row, with these parts.
fn without_row(alloc: Global, form: &Spec, parts: Vec<Spec>) -> Result<Spec, AllocError>
    requires few { rows.row_form (seen.spec form.now) ≡ None }
    requires many { length parts.items ≡ length (view.parts (seen.spec form.now)) }
    ensures { IfOk result (λ v. seen.spec v ≡ view.with_parts (seen.spec form.now) (seen.specs parts.items)) }
{
    let mut others = parts;
    let Some(last) = others.pop() else {
        return without_parts(form);
    };
    let last = boxed(alloc, last)?;
    let Some(middle) = others.pop() else {
        return Ok(with_one(form, last));
    };
    let middle = boxed(alloc, middle)?;
    let Some(first) = others.pop() else {
        return Ok(with_two(form, middle, last));
    };
    let first = boxed(alloc, first)?;
    Ok(Spec::Choose(first, middle, last))
}

/// An annotation of the same form with these parts, as many as it has.
pub fn with_parts(alloc: Global, form: &Spec, parts: Vec<Spec>) -> Result<Spec, AllocError>
    requires { length parts.items ≡ length (view.parts (seen.spec form.now)) }
    ensures { IfOk result (λ v. seen.spec v ≡ view.with_parts (seen.spec form.now) (seen.specs parts.items)) }
{
    let Some(of_row) = row_form(form) else {
        return without_row(alloc, form, parts);
    };
    let mut others = parts;
    let first = boxed(alloc, others.remove(0))?;
    Ok(with_row(of_row, first, others))
}
