//! Right sides and assignments.

ghost use Rattle.std.specs.Prelude.{◌≡◌, not, ◌==◌, length, Option};
ghost use Rattle.std.specs.Option.{option_map};
ghost use Rattle.c_syntax.specs.Expressions as e;
ghost use Rattle.c_syntax.specs.Views as view;
ghost use Rattle.typing_spec.specs.Atomic as atomic;
ghost use Rattle.typing_spec.specs.GhostCode.{field_is};
ghost use Rattle.typing_spec.specs.Operands as operands;
ghost use Rattle.typing_spec.specs.Pieces as pieces;
ghost use Rattle.typing_spec.specs.Places.{fails};
ghost use Rattle.typing_spec.specs.Types as types;
ghost use Rattle.typing_spec.specs.Values as given_by;
ghost use Rattle.typing_symbols.specs.Whole.{program};
ghost use Rattle.typing_expressions.specs.Violations.{violations};
ghost use Rattle.typing_expressions.specs.Views.{context as around, maybe_kind, maybe_broken, findings};
ghost use Rattle.typing_statements.specs.Breaks as spec;
ghost use Rattle.typing_statements.specs.Views.{given, right_side, changed};

use crate::arguments::{call, misconverted, values_to};
use c_syntax::expressions::{
    Assignment, Call, Change, Compared, Expr, Identifier, InterlockedCall, Right, ValueType,
};
use c_syntax::items::FieldDeclaration;
use c_syntax::token::Span;
use c_syntax::tree::{BinaryOperator, Interlocked};
use typing_expressions::arrows::field_found;
use typing_expressions::context::Context;
use typing_expressions::expressions::expression;
use typing_expressions::forms::first_place;
use typing_expressions::judged::{Judged, binary_kind, misfit};
use typing_expressions::kinds::Kind;
use typing_expressions::lookups::{is_no_struct, kind_of};
use typing_expressions::rule::Rule;
use typing_expressions::violations::{Diagnostics, Violation, broken_if, earlier};
use typing_symbols::declarations::Declarations;

/// What a right side gives, where it stands, and what breaks in it.
#[derive(Clone, Copy)]
pub struct Given<'s, 'a> {
    pub kind: Option<Kind<'s, 'a>>,
    pub place: Span,
    pub violations: Diagnostics,
}

/// What a struct's name breaks.
pub fn struct_breaks<'s, 'a>(
    declarations: &'s Declarations<'a>,
    name: &Identifier,
) -> Option<Violation>
    ensures { maybe_broken result ≡ spec.struct_breaks (program declarations.now) (view.id name.now) }
{
    broken_if(
        is_no_struct(declarations, name),
        Rule::Undeclared,
        name.span,
    )
}

/// What the struct of a cast breaks.
fn cast_breaks<'s, 'a>(
    declarations: &'s Declarations<'a>,
    cast: &Option<Identifier>,
) -> Option<Violation>
    ensures { maybe_broken result ≡ spec.cast_breaks (program declarations.now) (option_map view.id cast.now) }
{
    match cast {
        None => None,
        Some(name) => struct_breaks(declarations, name),
    }
}

/// What a pointer to a struct of this name is.
fn struct_pointer<'s, 'a>(
    declarations: &'s Declarations<'a>,
    name: &Identifier,
) -> Option<Kind<'s, 'a>>
    ensures { maybe_kind result ≡ given_by.struct_pointer (program declarations.now) (view.id name.now) }
{
    match declarations.find_struct(name) {
        None => None,
        Some(entry) => Some(Kind::Pointer(entry)),
    }
}

/// What a `malloc` behind a cast breaks.
fn allocation_breaks<'s, 'a>(
    declarations: &'s Declarations<'a>,
    cast: &Option<Identifier>,
    span: Span,
    name: &Identifier,
) -> Option<Violation>
    ensures { maybe_broken result ≡ spec.allocation_breaks (program declarations.now) (option_map view.id cast.now) span (view.id name.now) }
{
    match cast {
        None => None,
        Some(wanted) => misconverted(
            struct_pointer(declarations, name),
            struct_pointer(declarations, wanted),
            span,
        ),
    }
}

/// What a `malloc` gives.
fn malloc_kind<'s, 'a>(
    declarations: &'s Declarations<'a>,
    cast: &Option<Identifier>,
    name: &Identifier,
) -> Option<Kind<'s, 'a>>
    ensures { maybe_kind result ≡ given_by.malloc_kind (program declarations.now) (option_map view.id cast.now) (view.id name.now) }
{
    match cast {
        None => struct_pointer(declarations, name),
        Some(wanted) => struct_pointer(declarations, wanted),
    }
}

/// What breaks in a `malloc`.
fn malloc_found<'s, 'a>(
    declarations: &'s Declarations<'a>,
    cast: &Option<Identifier>,
    span: Span,
    name: &Identifier,
) -> Diagnostics
    ensures { findings result ≡ spec.malloc_found (program declarations.now) (option_map view.id cast.now) span (view.id name.now) }
{
    let own = Diagnostics::breaking(allocation_breaks(declarations, cast, span, name));
    let before = Diagnostics::breaking(cast_breaks(declarations, cast));
    let following = Diagnostics::breaking(struct_breaks(declarations, name));
    own.then(before.then(following))
}

/// The field that an expression names, if it is one that is known.
pub fn field_named<'s, 'a>(context: Context<'s, 'a>, x: &'a Expr) -> Option<&'a FieldDeclaration>
    ensures { option_map (λ f. view.field f.now) result ≡ given_by.field_named (around context.entry).scope (view.exp x.now) }
{
    match x {
        Expr::Field(_, owner, name) => field_found(expression(context, owner).kind, name),
        _ => None,
    }
}

/// How many arguments stand behind the field of an Interlocked call.
fn others(function: Interlocked) -> usize
    ensures { result ≡ atomic.others function }
{
    match function {
        Interlocked::CompareExchange => 2,
        Interlocked::Exchange => 1,
        Interlocked::Increment | Interlocked::Decrement => 0,
    }
}

/// Whether the type is an integer's.
fn is_integer_type(ty: &ValueType) -> bool
    ensures { result ≡ atomic.is_integer_type (view.ty ty.now) }
{
    match ty {
        ValueType::Integer(_) => true,
        _ => false,
    }
}

/// Whether the field is known and no volatile integer.
fn is_fixed(field: Option<&FieldDeclaration>) -> bool
    ensures { result ≡ field_is (λ f. not (atomic.is_exchangeable f)) (option_map (λ f. view.field f.now) field.entry) }
{
    match field {
        None => false,
        Some(field) => !(field.is_volatile && is_integer_type(&field.ty)),
    }
}

/// Whether an Interlocked call stands outside an atomic block, on a field that is no volatile integer, or has another number of
/// arguments.
fn is_out_of_form<'s, 'a>(context: Context<'s, 'a>, x: &'a InterlockedCall) -> bool
    ensures { result ≡ spec.is_out_of_form (around context.entry) (view.inter x.now) }
{
    let on_another = is_fixed(field_named(context, &x.field));
    let is_other = x.arguments.len() != others(x.function);
    !context.in_atomic || (on_another || is_other)
}

/// What an Interlocked call on a field of this kind gives.
fn interlocked_kind<'s, 'a>(field: Option<Kind<'s, 'a>>) -> Option<Kind<'s, 'a>>
    ensures { maybe_kind result ≡ spec.integer_of (maybe_kind field.entry) }
{
    match field {
        Some(kind) => {
            if kind.is_integer() {
                Some(Kind::Integer)
            } else {
                None
            }
        }
        None => None,
    }
}

/// What an Interlocked call of this kind gives with what it is compared with and what breaks in that; and what the comparison
/// breaks.
fn comparison<'s, 'a>(
    context: Context<'s, 'a>,
    kind: Option<Kind<'s, 'a>>,
    compared: &'a Option<Compared>,
) -> (Judged<'s, 'a>, Option<Violation>)
    ensures gives { maybe_kind result.0.kind ≡ given_by.compared_kind (around context.entry).scope (maybe_kind kind.entry) (option_map view.comparison compared.now) }
    ensures inner { findings result.0.violations ≡ violations (pieces.compared (around context.entry) (option_map view.comparison compared.now)) }
    ensures own { maybe_broken result.1 ≡ spec.comparison_of (around context.entry) (maybe_kind kind.entry) (option_map view.comparison compared.now) }
{
    match compared {
        None => {
            let judged = Judged {
                kind,
                violations: Diagnostics::nothing(),
            };
            (judged, None)
        }
        Some(compared) => {
            let other = expression(context, &compared.other);
            let fails = misfit(BinaryOperator::Equal, kind, other.kind);
            let judged = Judged {
                kind: binary_kind(BinaryOperator::Equal, kind, other.kind),
                violations: other.violations,
            };
            (judged, broken_if(fails, Rule::Operands, compared.span))
        }
    }
}

/// An Interlocked call, and what it is compared with.
fn interlocked<'s, 'a>(
    context: Context<'s, 'a>,
    x: &'a InterlockedCall,
    compared: &'a Option<Compared>,
) -> Given<'s, 'a>
    ensures { given result ≡ right_side (around context.entry) (e.Locked (view.inter x.now) (option_map view.comparison compared.now)) }
{
    let field = expression(context, &x.field);
    let kind = interlocked_kind(field.kind);
    let arguments = values_to(context, &x.arguments, kind);
    let (other, unequal) = comparison(context, kind, compared);
    let out_of_form = broken_if(is_out_of_form(context, x), Rule::InterlockedCall, x.span);
    let own = earlier(unequal, earlier(arguments.unconverted, out_of_form));
    let inner = field
        .violations
        .then(arguments.violations.then(other.violations));
    Given {
        kind: other.kind,
        place: x.span,
        violations: Diagnostics::breaking(own).then(inner),
    }
}

/// What a function with a value of this type gives, or one without.
fn value_kind<'s, 'a>(
    declarations: &'s Declarations<'a>,
    value: &'a Option<ValueType>,
) -> Option<Kind<'s, 'a>>
    ensures { maybe_kind result ≡ given_by.value_kind (program declarations.now) (option_map view.ty value.now) }
{
    match value {
        None => Some(Kind::Void),
        Some(ty) => kind_of(declarations, ty),
    }
}

/// What a call gives.
fn call_kind<'s, 'a>(context: Context<'s, 'a>, x: &'a Call) -> Option<Kind<'s, 'a>>
    ensures { maybe_kind result ≡ given_by.call_kind (around context.entry).scope (view.call x.now) }
{
    match context.scope.declarations.find_function(&x.function) {
        None => None,
        Some(function) => value_kind(context.scope.declarations, &function.result),
    }
}

/// A right side.
pub fn right<'s, 'a>(context: Context<'s, 'a>, x: &'a Right) -> Given<'s, 'a>
    ensures { given result ≡ right_side (around context.entry) (view.rhs x.now) }
{
    match x {
        Right::Value(value) => {
            let judged = expression(context, value);
            Given {
                kind: judged.kind,
                place: first_place(value),
                violations: judged.violations,
            }
        }
        Right::Malloc(cast, span, name) => Given {
            kind: malloc_kind(context.scope.declarations, cast, name),
            place: *span,
            violations: malloc_found(context.scope.declarations, cast, *span, name),
        },
        Right::Interlocked(called, compared) => interlocked(context, called, compared),
        Right::Call(called) => Given {
            kind: call_kind(context, called),
            place: called.function.span,
            violations: call(context, called),
        },
    }
}

/// What an assignment's sign and right side break with a left side of some kind, and what breaks in the right side.
#[derive(Clone, Copy)]
pub struct Changed {
    pub own_misfit: bool,
    pub unconverted: Option<Violation>,
    pub reads_left: bool,
    pub violations: Diagnostics,
}

/// A change of a left side of this kind.
fn change<'s, 'a>(context: Context<'s, 'a>, left: Option<Kind<'s, 'a>>, x: &'a Change) -> Changed
    ensures { changed result ≡ spec.change (around context.entry) (maybe_kind left.entry) (view.effect x.now) }
{
    match x {
        Change::Set(value) => {
            let value = right(context, value);
            Changed {
                own_misfit: false,
                unconverted: misconverted(value.kind, left, value.place),
                reads_left: false,
                violations: value.violations,
            }
        }
        Change::Add(value) => {
            let value = expression(context, value);
            Changed {
                own_misfit: misfit(BinaryOperator::Plus, left, value.kind),
                unconverted: None,
                reads_left: true,
                violations: value.violations,
            }
        }
        Change::Subtract(value) => {
            let value = expression(context, value);
            Changed {
                own_misfit: misfit(BinaryOperator::Minus, left, value.kind),
                unconverted: None,
                reads_left: true,
                violations: value.violations,
            }
        }
        Change::Increment | Change::Decrement => Changed {
            own_misfit: is_no_integer(left),
            unconverted: None,
            reads_left: true,
            violations: Diagnostics::nothing(),
        },
    }
}

/// Whether it is known to be something else than an integer.
fn is_no_integer<'s, 'a>(kind: Option<Kind<'s, 'a>>) -> bool
    ensures { result ≡ fails types.is_integer (maybe_kind kind.entry) }
{
    match kind {
        None => false,
        Some(kind) => !kind.is_integer(),
    }
}

/// What an assignment itself breaks and accesses, whose left side breaks and accesses this.
fn assigned(left: Diagnostics, span: Span, change: Changed) -> Diagnostics
    ensures { findings result ≡ spec.assigned (findings left) span (changed change) }
{
    let own = earlier(
        broken_if(change.own_misfit, Rule::Operands, span),
        change.unconverted,
    );
    if change.reads_left {
        Diagnostics {
            first: own,
            access: left.access,
            later: left.later,
        }
    } else {
        Diagnostics::breaking(own)
    }
}

/// What breaks in an assignment.
pub fn assignment<'s, 'a>(context: Context<'s, 'a>, x: &'a Assignment) -> Diagnostics
    ensures { findings result ≡ violations (pieces.assignment (around context.entry) (view.assignment x.now)) }
{
    let left = expression(context, &x.left);
    let change = change(context, left.kind, &x.change);
    let own = assigned(left.violations, x.span, change);
    own.then(left.violations.then(change.violations))
}
