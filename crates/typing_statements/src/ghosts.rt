//! Ghost statements that hold no others.

ghost use Rattle.std.specs.Prelude.{◌≡◌, ◌∷◌, not, map};
ghost use Rattle.std.specs.Option.{option_map};
ghost use Rattle.c_syntax.specs.Ghosts as g;
ghost use Rattle.c_syntax.specs.Views as view;
ghost use Rattle.typing_spec.specs.Conversions as uses;
ghost use Rattle.typing_spec.specs.GhostCode.{variable_is, field_is};
ghost use Rattle.typing_spec.specs.Ownership as ownership;
ghost use Rattle.typing_spec.specs.Pieces as pieces;
ghost use Rattle.typing_spec.specs.Places.{fails};
ghost use Rattle.typing_spec.specs.Types as types;
ghost use Rattle.typing_expressions.specs.Violations.{violations};
ghost use Rattle.typing_expressions.specs.Views.{context as around, kind, maybe_kind, maybe_broken, findings};
ghost use Rattle.typing_statements.specs.Breaks as spec;
ghost use Rattle.typing_statements.specs.Views.{given, ghost_side, values_of, values_found, member_values, owns_values};

use crate::arguments::{Passed, misconverted};
use crate::rights::{Given, field_named};
use c_syntax::expressions::{Expr, Identifier, ValueType};
use c_syntax::ghosts::{GhostRight, Members, OwnsChange};
use c_syntax::items::FieldDeclaration;
use c_syntax::token::Span;
use typing_expressions::arrows::is_no_pointer;
use typing_expressions::context::Context;
use typing_expressions::expressions::{expression, row};
use typing_expressions::forms::first_place;
use typing_expressions::judged::unconverted_if;
use typing_expressions::kinds::Kind;
use typing_expressions::lookups::{find_variable, kind_of};
use typing_expressions::rule::Rule;
use typing_expressions::violations::{Diagnostics, Violation, broken_if, earlier};
use typing_expressions::words::type_breaks;

/// References in a row.
#[tactic(auto, using(typing_expressions::proofs::Rows::reference_uses))]
pub fn references<'s, 'a>(context: Context<'s, 'a>, all: &'a [Expr]) -> Passed
    ensures { values_of result ≡ values_found (pieces.expressions (around context.entry) (view.exps all.now)) (map (uses.as_reference (around context.entry)) (view.exps all.now)) }
{
    let judged = row(context, Kind::Object, all);
    Passed {
        violations: judged.violations,
        unconverted: judged.unconverted,
    }
}

/// What is added to an owned set or taken from it.
fn members<'s, 'a>(context: Context<'s, 'a>, x: &'a Members) -> Passed
    ensures { values_of result ≡ member_values (around context.entry) (view.members x.now) }
{
    match x {
        Members::One(object) => {
            let judged = expression(context, object);
            Passed {
                violations: judged.violations,
                unconverted: unconverted_if(judged.kind, Kind::Object, first_place(object)),
            }
        }
        Members::Set(objects) => references(context, objects),
    }
}

/// What stands right of an owned set.
fn owns_members<'s, 'a>(context: Context<'s, 'a>, x: &'a OwnsChange) -> Passed
    ensures { values_of result ≡ owns_values (around context.entry) (view.owns x.now) }
{
    match x {
        OwnsChange::Set(objects) => references(context, objects),
        OwnsChange::Add(added) => members(context, added),
        OwnsChange::Subtract(taken) => members(context, taken),
    }
}

/// Whether it is known to be an object that can't be claimed.
fn is_unclaimable<'s, 'a>(object: Option<Kind<'s, 'a>>) -> bool
    ensures { result ≡ fails ownership.may_be_claimed (maybe_kind object.entry) }
{
    match object {
        Some(Kind::Claim) => true,
        Some(Kind::Pointer(entry)) => !entry.is_claimable(),
        _ => false,
    }
}

/// The first of the objects that can't be claimed.
fn claimed_breaks<'s, 'a>(context: Context<'s, 'a>, objects: &'a [Expr]) -> Option<Violation>
    ensures { maybe_broken result ≡ spec.claimed_breaks (around context.entry) (view.exps objects.now) }
{
    let mut so_far = None;
    for x in objects {
        let unclaimable = is_unclaimable(expression(context, x).kind);
        so_far = earlier(
            so_far,
            broken_if(unclaimable, Rule::Claimed, first_place(x)),
        );
    }
    so_far
}

/// What breaks in a claim that is made of these objects with this property.
fn claim_found<'s, 'a>(
    context: Context<'s, 'a>,
    objects: &'a [Expr],
    property: &'a Expr,
) -> Diagnostics
    ensures { findings result ≡ spec.claim_found (around context.entry) (view.exps objects.now) (view.exp property.now) }
{
    let all = references(context, objects);
    let inner = expression(context.claim_property(objects), property);
    let own = earlier(all.unconverted, claimed_breaks(context, objects));
    Diagnostics::breaking(own).then(all.violations.then(inner.violations))
}

/// A right side of ghost code.

fn ghost_right<'s, 'a>(context: Context<'s, 'a>, x: &'a GhostRight) -> Given<'s, 'a>
    ensures { given result ≡ ghost_side (around context.entry) (view.ghost_rhs x.now) }
{
    match x {
        GhostRight::Value(value) => {
            let judged = expression(context, value);
            Given {
                kind: judged.kind,
                place: first_place(value),
                violations: judged.violations,
            }
        }
        GhostRight::MakeClaim(span, objects, property) => Given {
            kind: Some(Kind::Claim),
            place: *span,
            violations: claim_found(context, objects, property),
        },
    }
}

/// Whether the field is known and no ghost's.
fn is_code_field(field: Option<&FieldDeclaration>) -> bool
    ensures { result ≡ field_is (λ f. not f.is_ghost) (option_map (λ f. view.field f.now) field.entry) }
{
    match field {
        None => false,
        Some(field) => !field.is_ghost,
    }
}

/// Whether the name is that of a variable that is no ghost's.
fn is_code_variable<'s, 'a>(context: Context<'s, 'a>, name: &Identifier) -> bool
    ensures { result ≡ variable_is (λ v. not v.is_ghost) (types.find_variable (around context.entry).scope (view.id name.now)) }
{
    match find_variable(context.scope, name) {
        None => false,
        Some(known) => !known.is_ghost,
    }
}

/// A left side that isn't ghost.
fn ghost_write_breaks<'s, 'a>(context: Context<'s, 'a>, left: &'a Expr) -> Option<Violation>
    ensures { maybe_broken result ≡ spec.ghost_write_breaks (around context.entry) (view.exp left.now) }
{
    match left {
        Expr::Name(name) => broken_if(
            is_code_variable(context, name),
            Rule::GhostWrites,
            name.span,
        ),
        Expr::Field(_, _, name) => broken_if(
            is_code_field(field_named(context, left)),
            Rule::GhostWrites,
            name.span,
        ),
        _ => None,
    }
}

/// Whether an owned set is written as a whole.
fn is_whole(change: &OwnsChange) -> bool
    ensures { result ≡ ownership.is_whole (view.owns change.now) }
{
    match change {
        OwnsChange::Set(_) => true,
        OwnsChange::Add(_) | OwnsChange::Subtract(_) => false,
    }
}

/// Whether the owner is known to be a struct whose owned set can't be changed so.
fn is_fixed_set<'s, 'a>(in_atomic: bool, change: &OwnsChange, owner: Option<Kind<'s, 'a>>) -> bool
    ensures { result ≡ fails (ownership.takes_change in_atomic (view.owns change.now)) (maybe_kind owner.entry) }
{
    match owner {
        Some(Kind::Pointer(entry)) => {
            if in_atomic {
                !(entry.has_volatile_owns() && !is_whole(change))
            } else {
                !(entry.has_dynamic_owns() || entry.has_volatile_owns())
            }
        }
        _ => false,
    }
}

/// An owned set that can't be changed so.
fn owns_change_breaks<'s, 'a>(
    context: Context<'s, 'a>,
    left: &'a Expr,
    change: &OwnsChange,
) -> Option<Violation>
    ensures { maybe_broken result ≡ spec.owns_change_breaks (around context.entry) (view.exp left.now) (view.owns change.now) }
{
    match left {
        Expr::Owns(_, owner, word) => {
            let kind = expression(context, owner).kind;
            broken_if(
                is_fixed_set(context.in_atomic, change, kind),
                Rule::OwnsChange,
                *word,
            )
        }
        _ => None,
    }
}

/// What can't stand in an atomic block.
pub fn atomic_breaks<'s, 'a>(context: Context<'s, 'a>, span: Span) -> Option<Violation>
    ensures { maybe_broken result ≡ spec.atomic_breaks (around context.entry) span }
{
    broken_if(context.in_atomic, Rule::InAtomic, span)
}

/// What is wrapped or unwrapped and of this kind.
pub fn wrap_breaks<'s, 'a>(object: Option<Kind<'s, 'a>>, span: Span) -> Option<Violation>
    ensures { maybe_broken result ≡ spec.wrap_of (maybe_kind object.entry) span }
{
    broken_if(is_no_pointer(object), Rule::WrapOperand, span)
}

/// A ghost declaration.
pub fn ghost_declaration<'s, 'a>(
    context: Context<'s, 'a>,
    span: Span,
    ty: &'a ValueType,
    first: &'a Option<GhostRight>,
) -> Diagnostics
    ensures { findings result ≡ spec.ghost_declaration (around context.entry) span (view.ty ty.now) (option_map view.ghost_rhs first.now) }
{
    let late = atomic_breaks(context, span);
    let declared = Diagnostics::breaking(type_breaks(context.scope.declarations, ty));
    match first {
        None => Diagnostics::breaking(late).then(declared),
        Some(first) => {
            let value = ghost_right(context, first);
            let wanted = kind_of(context.scope.declarations, ty);
            let own = earlier(misconverted(value.kind, wanted, value.place), late);
            Diagnostics::breaking(own).then(declared.then(value.violations))
        }
    }
}

/// A ghost assignment.
pub fn ghost_assignment<'s, 'a>(
    context: Context<'s, 'a>,
    left: &'a Expr,
    right: &'a GhostRight,
) -> Diagnostics
    ensures { findings result ≡ spec.ghost_assignment (around context.entry) (view.exp left.now) (view.ghost_rhs right.now) }
{
    let before = expression(context, left);
    let value = ghost_right(context, right);
    let own = earlier(
        misconverted(value.kind, before.kind, value.place),
        ghost_write_breaks(context, left),
    );
    Diagnostics::breaking(own).then(before.violations.then(value.violations))
}

/// A change of an owned set.
pub fn owned_set_change<'s, 'a>(
    context: Context<'s, 'a>,
    left: &'a Expr,
    change: &'a OwnsChange,
) -> Diagnostics
    ensures { findings result ≡ spec.owned_set_change (around context.entry) (view.exp left.now) (view.owns change.now) }
{
    let before = expression(context, left);
    let all = owns_members(context, change);
    let own = earlier(all.unconverted, owns_change_breaks(context, left, change));
    Diagnostics::breaking(own).then(before.violations.then(all.violations))
}

/// The end of a claim of these objects.
pub fn claim_end<'s, 'a>(
    context: Context<'s, 'a>,
    claim: &'a Expr,
    objects: &'a [Expr],
) -> Diagnostics
    ensures { findings result ≡ spec.claim_end (around context.entry) (view.exp claim.now) (view.exps objects.now) }
{
    let ended = expression(context, claim);
    let all = references(context, objects);
    let own = earlier(
        unconverted_if(ended.kind, Kind::Claim, first_place(claim)),
        all.unconverted,
    );
    Diagnostics::breaking(own).then(ended.violations.then(all.violations))
}

/// A wrap or an unwrap in ghost code.
pub fn ghost_wrap<'s, 'a>(context: Context<'s, 'a>, span: Span, object: &'a Expr) -> Diagnostics
    ensures { findings result ≡ spec.wrapping (around context.entry) span (view.exp object.now) }
{
    let judged = expression(context, object);
    let own = earlier(
        atomic_breaks(context, span),
        wrap_breaks(judged.kind, first_place(object)),
    );
    Diagnostics::breaking(own).then(judged.violations)
}
