//! Words with arguments, and quantifiers.

ghost use Rattle.std.specs.Prelude.{◌≡◌};
ghost use Rattle.std.specs.Option.{option_map};
ghost use Rattle.c_syntax.specs.Views as view;
ghost use Rattle.c_syntax.specs.Views.{id, exp};
ghost use Rattle.typing_spec.specs.SpecWords as words;
ghost use Rattle.typing_spec.specs.Types as types;
ghost use Rattle.typing_symbols.specs.Whole.{program};
ghost use Rattle.typing_expressions.specs.Judging as spec;
ghost use Rattle.typing_expressions.specs.Views.{context as around, kind, maybe_kind, maybe_broken, judged, row_of};

use crate::arrows::{is_property, is_type_invariant};
use crate::context::{Context, Text};
use crate::forms::{first_place, is_of_form};
use crate::judged::{Judged, truth_of_both, unconverted_if, whole};
use crate::kinds::{Kind, function_kind};
use crate::lookups::is_no_struct;
use crate::rule::Rule;
use crate::violations::{Diagnostics, Violation, broken_if, earlier};
use c_syntax::expressions::{Expr, Identifier, ValueType};
use c_syntax::token::Span;
use c_syntax::tree::{ListWord, Quantifier, SpecFunction};
use typing_symbols::declarations::Declarations;

/// Whether the word tells a status.
fn is_status(function: SpecFunction) -> bool
    ensures { result ≡ words.is_status function }
{
    !matches!(function, SpecFunction::Old | SpecFunction::Unchanged)
}

/// Whether there is no earlier moment to compare with.
fn lacks_earlier<'s, 'a>(context: Context<'s, 'a>) -> bool
    ensures { result ≡ words.lacks_earlier (around context.entry) }
{
    match context.text {
        Text::Requires | Text::Maintains | Text::Writes | Text::ClaimProperty => true,
        _ => is_property(context.property),
    }
}

/// Whether the word can't stand there, for want of an earlier moment.
fn old_is_misplaced<'s, 'a>(function: SpecFunction, context: Context<'s, 'a>) -> bool
    ensures { result ≡ words.old_is_misplaced function (around context.entry) }
{
    match function {
        SpecFunction::Old => lacks_earlier(context) || context.in_old,
        SpecFunction::Unchanged | SpecFunction::Fresh => lacks_earlier(context),
        _ => false,
    }
}

/// What a word of one argument breaks.
fn apply_breaks<'s, 'a>(
    context: Context<'s, 'a>,
    span: Span,
    function: SpecFunction,
    argument: &Expr,
    kind: Option<Kind<'s, 'a>>,
) -> Option<Violation>
    ensures { maybe_broken result ≡ spec.apply_breaks (around context.entry) span function (exp argument.now) (maybe_kind kind.entry) }
{
    let misplaced = broken_if(old_is_misplaced(function, context), Rule::OldPlace, span);
    if !is_status(function) {
        return misplaced;
    }
    let in_invariant = broken_if(is_type_invariant(context.text), Rule::InvariantReads, span);
    let in_property = broken_if(is_property(context.property), Rule::PropertyForm, span);
    earlier(
        unconverted_if(kind, Kind::Object, first_place(argument)),
        earlier(in_invariant, earlier(misplaced, in_property)),
    )
}

/// What a word of one argument gives.
fn apply_kind<'s, 'a>(
    function: SpecFunction,
    argument: Option<Kind<'s, 'a>>,
) -> Option<Kind<'s, 'a>>
    ensures { maybe_kind result ≡ option_map (types.function_kind function) (maybe_kind argument.entry) }
{
    match argument {
        None => None,
        Some(argument) => Some(function_kind(function, argument)),
    }
}

/// A word of one argument.
pub fn apply<'s, 'a>(
    context: Context<'s, 'a>,
    span: Span,
    function: SpecFunction,
    argument: &Expr,
    inner: Judged<'s, 'a>,
) -> Judged<'s, 'a>
    ensures { judged result ≡ spec.apply (around context.entry) span function (exp argument.now) (judged inner.entry) }
{
    let own = apply_breaks(context, span, function, argument, inner.kind);
    whole(apply_kind(function, inner.kind), inner.violations, own)
}

/// Whether the word is `\mine`.
fn is_mine(word: ListWord) -> bool
    ensures { result ≡ words.is_mine word }
{
    matches!(word, ListWord::Mine)
}

/// What is wanted of the word's first argument.
pub fn first_wanted<'s, 'a>(word: ListWord) -> Kind<'s, 'a>
    ensures { kind result ≡ spec.first_wanted word }
{
    match word {
        ListWord::Mine => Kind::Object,
        ListWord::ClaimsOnly => Kind::Claim,
    }
}

/// Expressions in a row: the truth of a statement about all, what breaks in them, the first that doesn't convert to what is
/// wanted of it, and what is wanted of the next.
#[derive(Clone, Copy)]
pub struct Row<'s, 'a> {
    pub kind: Option<Kind<'s, 'a>>,
    pub violations: Diagnostics,
    pub unconverted: Option<Violation>,
    pub wanted: Kind<'s, 'a>,
}

impl<'s, 'a> Row<'s, 'a> {
    /// No expression, where this is wanted of the first.
    pub fn nothing(context: Context<'s, 'a>, wanted: Kind<'s, 'a>) -> Row<'s, 'a>
        ensures { row_of result ≡ spec.empty_row (kind wanted.entry) }
    {
        let _ = context;
        Row {
            kind: Some(Kind::Integer),
            violations: Diagnostics::nothing(),
            unconverted: None,
            wanted,
        }
    }

    /// With one more, behind which a reference is wanted.
    pub fn with(self, more: Judged<'s, 'a>, place: Span) -> Row<'s, 'a>
        ensures { row_of result ≡ spec.row_with (row_of self.entry) (judged more.entry) place }
    {
        Row {
            kind: truth_of_both(self.kind, more.kind),
            violations: self.violations.then(more.violations),
            unconverted: earlier(
                self.unconverted,
                unconverted_if(more.kind, self.wanted, place),
            ),
            wanted: Kind::Object,
        }
    }
}

/// A word of these arguments.
pub fn several<'s, 'a>(
    context: Context<'s, 'a>,
    span: Span,
    word: ListWord,
    arguments: Row<'s, 'a>,
) -> Judged<'s, 'a>
    ensures { judged result ≡ spec.several (around context.entry) span word (row_of arguments.entry) }
{
    let is_outside = is_mine(word) && !is_type_invariant(context.text);
    let is_held = is_property(context.property) && !is_mine(word);
    let own = earlier(
        broken_if(is_outside, Rule::ThisPlace, span),
        broken_if(is_held, Rule::PropertyForm, span),
    );
    whole(
        arguments.kind,
        arguments.violations,
        earlier(arguments.unconverted, own),
    )
}

/// `\claims_object` of a claim and an object.
pub fn claims_object<'s, 'a>(
    claim: &Expr,
    object: &Expr,
    first: Judged<'s, 'a>,
    second: Judged<'s, 'a>,
) -> Judged<'s, 'a>
    ensures { judged result ≡ spec.claims_object (exp claim.now) (exp object.now) (judged first.entry) (judged second.entry) }
{
    let own = earlier(
        unconverted_if(first.kind, Kind::Claim, first_place(claim)),
        unconverted_if(second.kind, Kind::Object, first_place(object)),
    );
    whole(
        truth_of_both(first.kind, second.kind),
        first.violations.then(second.violations),
        own,
    )
}

/// `\claims` of a claim and a property.
pub fn claims<'s, 'a>(claim: &Expr, first: Judged<'s, 'a>, second: Judged<'s, 'a>) -> Judged<'s, 'a>
    ensures { judged result ≡ spec.claims (exp claim.now) (judged first.entry) (judged second.entry) }
{
    let own = unconverted_if(first.kind, Kind::Claim, first_place(claim));
    whole(
        truth_of_both(first.kind, second.kind),
        first.violations.then(second.violations),
        own,
    )
}

/// What a declared type breaks: its struct isn't declared.
pub fn type_breaks<'s, 'a>(declarations: &'s Declarations<'a>, ty: &ValueType) -> Option<Violation>
    ensures { maybe_broken result ≡ spec.type_breaks (program declarations.now) (view.ty ty.now) }
{
    match ty {
        ValueType::Pointer(name) => broken_if(
            is_no_struct(declarations, name),
            Rule::Undeclared,
            name.span,
        ),
        _ => None,
    }
}

/// What a quantifier breaks.
fn quantified_breaks<'s, 'a>(
    context: Context<'s, 'a>,
    span: Span,
    quantifier: Quantifier,
    variable: &Identifier,
    body: &Expr,
) -> Option<Violation>
    ensures { maybe_broken result ≡ spec.quantified_breaks (around context.entry) span quantifier (id variable.now) (exp body.now) }
{
    let out_of_form = broken_if(
        !is_of_form(quantifier, variable, body),
        Rule::QuantifierForm,
        span,
    );
    earlier(
        out_of_form,
        broken_if(is_property(context.property), Rule::PropertyForm, span),
    )
}

/// The truth of a statement.
fn truth<'s, 'q, 'a>(kind: Option<Kind<'q, 'a>>) -> Option<Kind<'s, 'a>>
    ensures { maybe_kind result ≡ types.truth (maybe_kind kind.entry) }
{
    match kind {
        None => None,
        Some(_) => Some(Kind::Integer),
    }
}

/// A quantifier, whose body is known.
pub fn quantified<'s, 'q, 'a>(
    context: Context<'s, 'a>,
    span: Span,
    quantifier: Quantifier,
    ty: &ValueType,
    variable: &Identifier,
    body: &Expr,
    inner: Judged<'q, 'a>,
) -> Judged<'s, 'a>
    ensures { judged result ≡ spec.quantified (around context.entry) span quantifier (view.ty ty.now) (id variable.now) (exp body.now) (judged inner.entry) }
{
    let declared = Diagnostics::breaking(type_breaks(context.scope.declarations, ty));
    let own = quantified_breaks(context, span, quantifier, variable, body);
    whole(truth(inner.kind), declared.then(inner.violations), own)
}
