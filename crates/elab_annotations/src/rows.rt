//! Several expressions of annotations in a row.

ghost use Rattle.std.specs.Prelude.{◌≡◌, IfOk};
ghost use Rattle.typed_program.specs.Trees as t;
ghost use Rattle.typed_program.specs.Views.{spec as said, in_row};
ghost use Rattle.elab_annotations.specs.Typing.{two, nothing as none, single as alone_in, pushed as with_last, appended as both, mine_typed, member as is_member, claims_typed, claims_only_typed, exists_typed};
ghost use Rattle.elab_annotations.specs.Views.{annotation, boxed as seen, row_of};

use crate::annotations::TypedSpec;
use crate::parts::BoxedSpec;
use method::program::{DeclaredType, Spec};
use std::alloc::{AllocError, Global};

/// Several expressions as they are typed, and the number that the next quantified formula behind them has.
#[derive(Drop)]
pub struct Row {
    pub specs: Vec<Spec>,
    pub next: u32,
}

impl Row {
    /// No expression.
    pub fn nothing(alloc: Global, next: u32) -> Row
        ensures { row_of result ≡ none next }
    {
        Row {
            specs: Vec::new(alloc),
            next,
        }
    }

    /// With one more.
    pub fn with(self, last: TypedSpec) -> Result<Row, AllocError>
        ensures { IfOk result (λ r. row_of r ≡ with_last (row_of self) (annotation last)) }
    {
        let mut specs = self.specs;
        let next = last.next;
        specs.push(last.spec)?;
        Ok(Row { specs, next })
    }

    /// With one more, which stands in a box.
    pub fn with_boxed(self, last: BoxedSpec) -> Result<Row, AllocError>
        ensures { IfOk result (λ r. row_of r ≡ with_last (row_of self) (seen last)) }
    {
        self.with(last.taken_out())
    }

    /// With those of a row behind it.
    pub fn then(self, more: Row) -> Result<Row, AllocError>
        ensures { IfOk result (λ r. row_of r ≡ both (row_of self) (row_of more)) }
    {
        let mut specs = self.specs;
        let next = more.next;
        let mut rest = more.specs;
        specs.append(&mut rest)?;
        Ok(Row { specs, next })
    }
}

/// One expression.
pub fn single(alloc: Global, one: BoxedSpec) -> Result<Row, AllocError>
    ensures { IfOk result (λ r. row_of r ≡ alone_in (seen one)) }
{
    Row::nothing(alloc, 0).with_boxed(one)
}

/// That an object is owned by `\this`.
fn member(alloc: Global, object: Spec) -> Result<Box<Spec>, AllocError>
    ensures { IfOk result (λ s. said s.value ≡ is_member (said object)) }
{
    let first = Box::new(alloc, object)?;
    let second = Box::new(alloc, Spec::This)?;
    let whole = Box::new(alloc, Spec::Member(first, second))?;
    Ok(whole)
}

/// That both hold.
fn both_hold(alloc: Global, left: Box<Spec>, right: Box<Spec>) -> Result<Box<Spec>, AllocError>
    ensures { IfOk result (λ s. said s.value ≡ t.SAnd (said left.value) (said right.value)) }
{
    let whole = Box::new(alloc, Spec::And(left, right))?;
    Ok(whole)
}

/// `\mine` of these.
pub fn all_owned(alloc: Global, arguments: Row) -> Result<BoxedSpec, AllocError>
    ensures { IfOk result (λ v. seen v ≡ mine_typed (row_of arguments)) }
{
    let next = arguments.next;
    let mut rest = arguments.specs;
    let Some(last) = rest.pop() else {
        return BoxedSpec::new(alloc, Spec::Truth(true), next);
    };
    let mut spec = member(alloc, last)?;
    while let Some(object) = rest.pop() {
        let before = member(alloc, object)?;
        spec = both_hold(alloc, before, spec)?;
    }
    Ok(BoxedSpec { spec, next })
}

/// `\claims` of a claim and these conjuncts.
fn claims_of(claim: Box<Spec>, conjuncts: Vec<Spec>) -> Spec
    ensures { said result ≡ t.SClaims (said claim.value) (in_row conjuncts.items) }
{
    Spec::Claims(claim, conjuncts)
}

/// `\claims` of a claim and these conjuncts.
pub fn claims(alloc: Global, claim: BoxedSpec, conjuncts: Row) -> Result<BoxedSpec, AllocError>
    ensures { IfOk result (λ v. seen v ≡ claims_typed (seen claim) (row_of conjuncts)) }
{
    let next = conjuncts.next;
    BoxedSpec::new(alloc, claims_of(claim.spec, conjuncts.specs), next)
}

/// `\claims_only` of a claim and these objects.
fn claims_only_of(number: u32, claim: Box<Spec>, objects: Vec<Spec>) -> Spec
    ensures { said result ≡ t.SClaimsOnly number (said claim.value) (in_row objects.items) }
{
    Spec::ClaimsOnly(number, claim, objects)
}

/// `\claims_only` of a claim and these objects, with its number.
pub fn claims_only(
    alloc: Global,
    number: u32,
    claim: BoxedSpec,
    objects: Row,
) -> Result<BoxedSpec, AllocError>
    ensures { IfOk result (λ v. seen v ≡ claims_only_typed number (seen claim) (row_of objects)) }
{
    let next = objects.next;
    BoxedSpec::new(
        alloc,
        claims_only_of(number, claim.spec, objects.specs),
        next,
    )
}

/// `\forall` over the objects that an object owns, as what holds of each says.
pub fn for_all(
    alloc: Global,
    number: u32,
    ty: DeclaredType,
    owner: BoxedSpec,
    holds: BoxedSpec,
) -> Result<BoxedSpec, AllocError>
    ensures { IfOk result (λ v. seen v ≡ two (t.SForAll number ty) (seen owner) (seen holds)) }
{
    BoxedSpec::new(
        alloc,
        Spec::ForAll(number, ty, owner.spec, holds.spec),
        holds.next,
    )
}

/// `\exists` over the objects that an object owns, with these conjuncts.
fn exists_of(number: u32, ty: DeclaredType, owner: Box<Spec>, conjuncts: Vec<Spec>) -> Spec
    ensures { said result ≡ t.SExists number ty (said owner.value) (in_row conjuncts.items) }
{
    Spec::Exists(number, ty, owner, conjuncts)
}

/// `\exists` over the objects that an object owns, with these conjuncts.
pub fn exists(
    alloc: Global,
    number: u32,
    ty: DeclaredType,
    owner: Box<Spec>,
    conjuncts: Row,
) -> Result<BoxedSpec, AllocError>
    ensures { IfOk result (λ v. seen v ≡ exists_typed number ty (said owner.value) (row_of conjuncts)) }
{
    let next = conjuncts.next;
    BoxedSpec::new(alloc, exists_of(number, ty, owner, conjuncts.specs), next)
}
