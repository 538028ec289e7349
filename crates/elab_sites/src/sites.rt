//! Claim sites.

ghost use Rattle.std.specs.Prelude.{◌≡◌, ◌++◌, ◌∷◌, [], map, IfOk, OnOk, if◌then◌else◌};
ghost use Rattle.std.specs.List.{list_any};
ghost use Rattle.c_syntax.specs.Views as view;
ghost use Rattle.typing_spec.specs.Trees as trees;
ghost use Rattle.typing_spec.specs.Types.{kind as kind_at};
ghost use Rattle.elab_code.specs.Names.{texts};
ghost use Rattle.elab_code.specs.Views.{around as here};
ghost use Rattle.typing_expressions.specs.Views.{maybe_kind};
ghost use Rattle.typed_program.specs.Codes.{code};
ghost use Rattle.typed_program.specs.Sites as spec;
ghost use Rattle.typed_program.specs.Trees as t;
ghost use Rattle.typed_program.specs.Views.{claimed as claimed_seen};
ghost use Rattle.elab_sites.specs.Views.{site as site_seen};

use crate::growth::append;
use c_syntax::expressions::{Expr, Identifier};
use elab_annotations::annotations::property as property_of;
use elab_code::around::Around;
use elab_code::codes::typed_code;
use elab_code::numbers::{number, struct_number};
use elab_code::places::Places;
use method::program::{Claimed, DeclaredType, Spec};
use std::alloc::{AllocError, Global};
use tree_building::pair_with;
use typing_expressions::forms::{bare, mentions};
use typing_expressions::kinds::Kind;

/// A claim that is made: its function, its line, the variables that stand in it in order of declaration, the claimed expressions, and what the conjuncts of its property say.
#[derive(Drop)]
pub struct Site {
    pub function: u32,
    pub line: u32,
    pub variables: Vec<u32>,
    pub claimed: Vec<Claimed>,
    pub property: Vec<Spec>,
}

/// What a text says: an annotation, or that a claim is made.
#[derive(Drop)]
pub enum Occurrence {
    Says(Spec),
    Makes(Site),
}

/// Whether a name stands free in one of the expressions.
fn stands_in(name: &Identifier, all: &[Expr]) -> bool
    ensures { result ≡ list_any (trees.mentions (view.id name.now)) (view.exps all.now) }
{
    for x in all {
        if mentions(name, x) {
            return true;
        }
    }
    false
}

/// Whether a name stands free in the property of a claim or in a claimed object.
fn stands_in_claim(name: &Identifier, objects: &[Expr], property: &Expr) -> bool
    ensures { result ≡ list_any (trees.mentions (view.id name.now)) (view.exp property.now ∷ view.exps objects.now) }
{
    mentions(name, property) || stands_in(name, objects)
}

/// Adds a place, if it is wanted.
fn add_if(found: &mut Vec<u32>, place: usize, is_wanted: bool) -> Result<(), AllocError>
    ensures { OnOk result (found.new.items ≡ (if is_wanted then found.old.items ++ place ∷ [] else found.old.items)) }
{
    if is_wanted {
        let next = number(place)?;
        return append(found, next);
    }
    Ok(())
}

/// The numbers of the variables that stand in a claim.
fn named(
    alloc: Global,
    places: &Places<'_>,
    objects: &[Expr],
    property: &Expr,
) -> Result<Vec<u32>, AllocError>
    ensures { IfOk result (λ v. v.items ≡ spec.named 0 (texts places.now.names.items) (view.exp property.now ∷ view.exps objects.now)) }
{
    let mut found: Vec<u32> = Vec::new(alloc);
    for (i, name) in places.names.iter().enumerate() {
        let is_wanted = stands_in_claim(name, objects, property);
        add_if(&mut found, i, is_wanted)?;
    }
    Ok(found)
}

/// The declared type of a claimed value.
fn type_of_claimed(
    around: &Around<'_, '_>,
    kind: Option<Kind<'_, '_>>,
) -> Result<DeclaredType, AllocError>
    ensures { IfOk result (λ d. d ≡ spec.type_of_claimed (here around.now) (maybe_kind kind.entry)) }
{
    match kind {
        Some(Kind::Pointer(entry)) => {
            let n = struct_number(around.context.scope.declarations, &entry.tree.name)?;
            Ok(DeclaredType::Pointer(n))
        }
        Some(Kind::Claim) => Ok(DeclaredType::Claim),
        Some(Kind::Null) => Ok(DeclaredType::Pointer(0)),
        _ => Ok(DeclaredType::Object),
    }
}

/// A claimed expression that is no name and no null.
fn other_claimed<'s, 'a>(
    alloc: Global,
    around: &Around<'s, 'a>,
    x: &'a Expr,
) -> Result<Claimed, AllocError>
    ensures { IfOk result (λ c. claimed_seen c ≡ t.ClaimedOther (code (here around.now) (view.exp x.now)) (spec.type_of_claimed (here around.now) (kind_at (here around.now).context.scope (view.exp x.now)))) }
{
    let typed = typed_code(alloc, *around, x)?;
    let ty = type_of_claimed(around, typed.kind);
    let (code, ty) = pair_with(typed.code, ty)?;
    Ok(Claimed::ClaimedOther(code, ty))
}

/// A claimed expression without its brackets.
fn claimed_bare<'s, 'a>(
    alloc: Global,
    around: &Around<'s, 'a>,
    x: &'a Expr,
) -> Result<Claimed, AllocError>
    ensures { IfOk result (λ c. claimed_seen c ≡ spec.claimed_bare (here around.now) (view.exp x.now)) }
{
    match x {
        Expr::Name(known) => {
            let n = number(around.places.place(known))?;
            Ok(Claimed::ClaimedVariable(n))
        }
        Expr::Null(_) => Ok(Claimed::ClaimedNull),
        _ => other_claimed(alloc, around, x),
    }
}

/// The claimed expressions of a claim.
fn all_claimed<'s, 'a>(
    alloc: Global,
    around: &Around<'s, 'a>,
    objects: &'a [Expr],
) -> Result<Vec<Claimed>, AllocError>
    ensures { IfOk result (λ v. map claimed_seen v.items ≡ map (spec.claimed (here around.now)) (view.exps objects.now)) }
{
    let mut all: Vec<Claimed> = Vec::new(alloc);
    for x in objects {
        let one = claimed_bare(alloc, around, bare(x))?;
        append(&mut all, one)?;
    }
    Ok(all)
}

/// The claim site of a `\make_claim` with these objects and this property.
pub fn make_site<'s, 'a>(
    alloc: Global,
    around: Around<'s, 'a>,
    function: u32,
    line: u32,
    objects: &'a [Expr],
    property: &'a Expr,
) -> Result<Site, AllocError>
    ensures { IfOk result (λ v. site_seen v ≡ spec.site (here around.entry) function line (view.exps objects.now) (view.exp property.now)) }
{
    let variables = named(alloc, around.places, objects, property)?;
    let claimed = all_claimed(alloc, &around, objects)?;
    let conjuncts = property_of(alloc, around, 0, property)?;
    Ok(Site {
        function,
        line,
        variables,
        claimed,
        property: conjuncts,
    })
}
