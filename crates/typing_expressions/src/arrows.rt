//! Names, words and arrows.

ghost use Rattle.std.specs.Prelude.{◌≡◌, ◌&&◌, not, is_some};
ghost use Rattle.std.specs.Option.{option_map, option_and_then};
ghost use Rattle.std.specs.List.{list_any};
ghost use Rattle.c_syntax.specs.Views.{id, exp, exps};
ghost use Rattle.c_syntax.specs.Views as view;
ghost use Rattle.typing_spec.specs.GhostCode as ghosts;
ghost use Rattle.typing_spec.specs.Names.{may_have};
ghost use Rattle.typing_spec.specs.Places as places;
ghost use Rattle.typing_spec.specs.SpecWords as words;
ghost use Rattle.typing_spec.specs.Trees.{same_tree};
ghost use Rattle.typing_spec.specs.Types as types;
ghost use Rattle.typing_expressions.specs.Judging as spec;
ghost use Rattle.typing_expressions.specs.Views.{context as around, property, text, kind, maybe_kind, maybe_broken, judged};

use crate::context::{Context, InProperty, Text};
use crate::forms::{first_place, is_this};
use crate::judged::{Judged, leaf, whole};
use crate::kinds::{Kind, status_kind};
use crate::lookups::{field_of, find_variable, kind_of, type_of_name};
use crate::rule::Rule;
use crate::same::same_tree as tree_is;
use crate::violations::{Diagnostics, Violation, broken_if, earlier};
use c_syntax::expressions::{Expr, Identifier};
use c_syntax::items::FieldDeclaration;
use c_syntax::token::Span;
use c_syntax::tree::{Constant, Status};

/// Whether a text is what runs.
fn is_code(of: Text) -> bool
    ensures { result ≡ ghosts.is_code (text of) }
{
    matches!(of, Text::Code)
}

/// Whether a text is a type's invariant.
pub fn is_type_invariant(of: Text) -> bool
    ensures { result ≡ words.is_type_invariant (text of) }
{
    matches!(of, Text::TypeInvariant)
}

/// Whether it is a property, or part of one.
pub fn is_property(within: InProperty<'_>) -> bool
    ensures { result ≡ words.is_property (property within.entry) }
{
    !matches!(within, InProperty::Outside)
}

/// Whether the name is that of a ghost variable.
fn is_ghost_variable<'s, 'a>(context: Context<'s, 'a>, name: &Identifier) -> bool
    ensures { result ≡ ghosts.variable_is (λ v. v.is_ghost) (types.find_variable (around context.entry).scope (id name.now)) }
{
    match find_variable(context.scope, name) {
        None => false,
        Some(known) => known.is_ghost,
    }
}

/// What a bare name is.
fn name_kind<'s, 'a>(context: Context<'s, 'a>, name: &Identifier) -> Option<Kind<'s, 'a>>
    ensures { maybe_kind result ≡ option_and_then (types.kind_of (around context.entry).scope.items) (types.type_of_name (around context.entry).scope (id name.now)) }
{
    match type_of_name(context.scope, name) {
        None => None,
        Some(ty) => kind_of(context.scope.declarations, ty),
    }
}

/// Whether nothing is declared by this name.
fn is_undeclared<'s, 'a>(context: Context<'s, 'a>, name: &Identifier) -> bool
    ensures { result ≡ not (is_some (types.type_of_name (around context.entry).scope (id name.now))) }
{
    type_of_name(context.scope, name).is_none()
}

/// What a bare name breaks.
fn name_breaks<'s, 'a>(context: Context<'s, 'a>, name: &Identifier) -> Option<Violation>
    ensures { maybe_broken result ≡ spec.name_breaks (around context.entry) (id name.now) }
{
    let undeclared = is_undeclared(context, name);
    let ghost_there = is_code(context.text) && is_ghost_variable(context, name);
    earlier(
        broken_if(undeclared, Rule::Undeclared, name.span),
        broken_if(ghost_there, Rule::GhostInCode, name.span),
    )
}

/// What a bare name is, and what breaks there.
pub fn name<'s, 'a>(context: Context<'s, 'a>, name: &Identifier) -> Judged<'s, 'a>
    ensures { judged result ≡ spec.name (around context.entry) (id name.now) }
{
    leaf(name_kind(context, name), name_breaks(context, name))
}

/// What a word of a spec is.
fn word_kind<'s, 'a>(context: Context<'s, 'a>, word: Constant) -> Option<Kind<'s, 'a>>
    ensures { maybe_kind result ≡ types.constant_kind (around context.entry).scope word }
{
    match word {
        Constant::True | Constant::False => Some(Kind::Integer),
        Constant::This => match context.scope.this {
            None => None,
            Some(entry) => Some(Kind::Pointer(entry)),
        },
        Constant::Me => Some(Kind::Object),
        Constant::Result => match context.scope.result_type {
            None => None,
            Some(ty) => kind_of(context.scope.declarations, ty),
        },
    }
}

/// Whether `\result` may stand: in an ensures clause of a function with a value.
fn has_result<'s, 'a>(context: Context<'s, 'a>) -> bool
    ensures { result ≡ (words.is_ensures (around context.entry).text && is_some (around context.entry).value) }
{
    match context.value {
        None => false,
        Some(_) => matches!(context.text, Text::Ensures),
    }
}

/// What a word of a spec breaks.
fn word_breaks<'s, 'a>(context: Context<'s, 'a>, span: Span, word: Constant) -> Option<Violation>
    ensures { maybe_broken result ≡ spec.word_breaks (around context.entry) span word }
{
    let in_invariant = is_type_invariant(context.text);
    match word {
        Constant::True | Constant::False => None,
        Constant::This => broken_if(!in_invariant, Rule::ThisPlace, span),
        Constant::Me => broken_if(in_invariant, Rule::InvariantReads, span),
        Constant::Result => {
            let may_stand = has_result(context);
            earlier(
                broken_if(in_invariant, Rule::InvariantReads, span),
                broken_if(!may_stand, Rule::ResultPlace, span),
            )
        }
    }
}

/// What a word of a spec is, and what breaks there.
pub fn word<'s, 'a>(context: Context<'s, 'a>, span: Span, word: Constant) -> Judged<'s, 'a>
    ensures { judged result ≡ spec.word (around context.entry) span word }
{
    leaf(word_kind(context, word), word_breaks(context, span, word))
}

// ---- arrows

/// The field with this name, if it is known.
pub fn field_found<'s, 'a>(
    left: Option<Kind<'s, 'a>>,
    name: &Identifier,
) -> Option<&'a FieldDeclaration>
    ensures { option_map (λ f. view.field f.now) result ≡ spec.field_found (maybe_kind left.entry) (id name.now) }
{
    match left {
        None => None,
        Some(left) => field_of(left, name),
    }
}

/// Whether there is a struct that has no such field.
fn has_not<'s, 'a>(left: Option<Kind<'s, 'a>>, name: &Identifier) -> bool
    ensures { result ≡ places.fails (may_have (id name.now)) (maybe_kind left.entry) }
{
    match left {
        None => false,
        Some(left) => left.is_pointer() && field_of(left, name).is_none(),
    }
}

/// Whether it is known to be something else than a `struct T *`.
pub fn is_no_pointer<'s, 'a>(left: Option<Kind<'s, 'a>>) -> bool
    ensures { result ≡ places.fails types.is_pointer (maybe_kind left.entry) }
{
    match left {
        None => false,
        Some(left) => !left.is_pointer(),
    }
}

/// Whether the field is known and is a ghost's.
pub fn is_ghost_field(field: Option<&FieldDeclaration>) -> bool
    ensures { result ≡ ghosts.field_is (λ f. f.is_ghost) (option_map (λ f. view.field f.now) field.entry) }
{
    match field {
        None => false,
        Some(field) => field.is_ghost,
    }
}

/// Whether the field is known and volatile.
pub fn is_volatile_field(field: Option<&FieldDeclaration>) -> bool
    ensures { result ≡ ghosts.field_is (λ f. f.is_volatile) (option_map (λ f. view.field f.now) field.entry) }
{
    match field {
        None => false,
        Some(field) => field.is_volatile,
    }
}

/// What an arrow to a field breaks.
fn field_breaks<'s, 'a>(
    context: Context<'s, 'a>,
    span: Span,
    name: &Identifier,
    left: Option<Kind<'s, 'a>>,
) -> Option<Violation>
    ensures { maybe_broken result ≡ spec.field_breaks (around context.entry) span (id name.now) (maybe_kind left.entry) }
{
    let undeclared = has_not(left, name);
    let ghost_there = is_code(context.text) && is_ghost_field(field_found(left, name));
    earlier(
        broken_if(undeclared, Rule::Undeclared, name.span),
        earlier(
            broken_if(is_no_pointer(left), Rule::Arrow, span),
            broken_if(ghost_there, Rule::GhostInCode, name.span),
        ),
    )
}

/// The access that an arrow to a field is, if it is one to a volatile field of what runs.
fn field_access<'s, 'a>(
    context: Context<'s, 'a>,
    name: &Identifier,
    left: Option<Kind<'s, 'a>>,
) -> Option<Span>
    ensures { result ≡ spec.field_access (around context.entry) (id name.now) (maybe_kind left.entry) }
{
    if is_code(context.text) && is_volatile_field(field_found(left, name)) {
        Some(name.span)
    } else {
        None
    }
}

/// What a field is.
fn field_kind<'s, 'a>(
    context: Context<'s, 'a>,
    name: &Identifier,
    left: Option<Kind<'s, 'a>>,
) -> Option<Kind<'s, 'a>>
    ensures { maybe_kind result ≡ option_and_then (λ f. types.kind_of (around context.entry).scope.items f.ty) (spec.field_found (maybe_kind left.entry) (id name.now)) }
{
    match field_found(left, name) {
        None => None,
        Some(field) => kind_of(context.scope.declarations, &field.ty),
    }
}

/// What an arrow to a field is, and what breaks there.
pub fn field<'s, 'a>(
    context: Context<'s, 'a>,
    span: Span,
    name: &Identifier,
    left: Judged<'s, 'a>,
) -> Judged<'s, 'a>
    ensures { judged result ≡ spec.field (around context.entry) span (id name.now) (judged left.entry) }
{
    let own = Diagnostics {
        first: field_breaks(context, span, name, left.kind),
        access: field_access(context, name, left.kind),
        later: None,
    };
    Judged {
        kind: field_kind(context, name, left.kind),
        violations: left.violations.then(own),
    }
}

/// Whether the object isn't one of these, as a tree.
fn is_unlisted(objects: &[Expr], object: &Expr) -> bool
    ensures { result ≡ not (list_any (same_tree (exp object.now)) (exps objects.now)) }
{
    for listed in objects {
        if tree_is(object, listed) {
            return false;
        }
    }
    true
}

/// What `->\closed` breaks as a part of a property.
fn closed_breaks(within: InProperty<'_>, object: &Expr, word: Span) -> Option<Violation>
    ensures { maybe_broken result ≡ spec.closed_breaks (property within.entry) (exp object.now) word }
{
    match within {
        InProperty::Outside | InProperty::Conjunct(None) => None,
        InProperty::Conjunct(Some(objects)) => broken_if(
            is_unlisted(objects, object),
            Rule::PropertyForm,
            first_place(object),
        ),
        InProperty::Below => broken_if(true, Rule::PropertyForm, word),
    }
}

/// What the word of a status breaks.
fn status_breaks<'s, 'a>(
    context: Context<'s, 'a>,
    object: &Expr,
    word: Span,
    status: Status,
) -> Option<Violation>
    ensures { maybe_broken result ≡ spec.status_breaks (around context.entry) (exp object.now) word status }
{
    let in_invariant = is_type_invariant(context.text);
    match status {
        Status::Closed => earlier(
            broken_if(in_invariant, Rule::InvariantReads, word),
            closed_breaks(context.property, object, word),
        ),
        Status::Owner => earlier(
            broken_if(in_invariant, Rule::InvariantReads, word),
            broken_if(is_property(context.property), Rule::PropertyForm, word),
        ),
        Status::ClaimCount => None,
    }
}

/// What a value of this kind is, if it is known to be a `struct T *`.
fn of_pointer<'s, 'a>(left: Option<Kind<'s, 'a>>, gives: Kind<'s, 'a>) -> Option<Kind<'s, 'a>>
    ensures { maybe_kind result ≡ option_and_then (λ k. types.only_if (types.is_pointer k) (kind gives.entry)) (maybe_kind left.entry) }
{
    match left {
        None => None,
        Some(left) => { if left.is_pointer() { Some(gives) } else { None } }
    }
}

/// What an arrow to a status is, and what breaks there.
pub fn status<'s, 'a>(
    context: Context<'s, 'a>,
    span: Span,
    object: &Expr,
    word: Span,
    status: Status,
    left: Judged<'s, 'a>,
) -> Judged<'s, 'a>
    ensures { judged result ≡ spec.status (around context.entry) span (exp object.now) word status (judged left.entry) }
{
    let arrow = broken_if(is_no_pointer(left.kind), Rule::Arrow, span);
    whole(
        of_pointer(left.kind, status_kind(status)),
        left.violations,
        earlier(arrow, status_breaks(context, object, word, status)),
    )
}

/// What an arrow to an owned set breaks.
fn owns_breaks<'s, 'a>(
    context: Context<'s, 'a>,
    span: Span,
    object: &Expr,
    word: Span,
    left: Option<Kind<'s, 'a>>,
) -> Option<Violation>
    ensures { maybe_broken result ≡ spec.owns_breaks (around context.entry) span (exp object.now) word (maybe_kind left.entry) }
{
    let of_another = is_type_invariant(context.text) && !is_this(object);
    earlier(
        broken_if(is_no_pointer(left), Rule::Arrow, span),
        earlier(
            broken_if(of_another, Rule::QuantifierForm, word),
            broken_if(is_property(context.property), Rule::PropertyForm, word),
        ),
    )
}

/// What an arrow to an owned set is, and what breaks there.
pub fn owns<'s, 'a>(
    context: Context<'s, 'a>,
    span: Span,
    object: &Expr,
    word: Span,
    left: Judged<'s, 'a>,
) -> Judged<'s, 'a>
    ensures { judged result ≡ spec.owns (around context.entry) span (exp object.now) word (judged left.entry) }
{
    whole(
        of_pointer(left.kind, Kind::OwnedSet),
        left.violations,
        owns_breaks(context, span, object, word, left.kind),
    )
}
