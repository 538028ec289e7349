//! The annotations of each place.

ghost use Rattle.std.specs.Prelude.{◌≡◌, ◌≤◌, ◌<◌, ◌==◌, ◌-◌, true};
ghost use Rattle.ebnf.specs.Derives.{next};
ghost use Rattle.c_syntax.specs.declared.token.Sign.TheVariants as signs;
ghost use Rattle.c_syntax.specs.Classes.{sign};
ghost use Rattle.c_syntax.specs.Language.{language};
ghost use Rattle.c_syntax.specs.Views as views;
ghost use Rattle.reader_expressions.specs.Reading.{Gives, lexemes, part, rule_at};
ghost use Rattle.reader_pieces.specs.Annotations as spec;
ghost use Rattle.reader_pieces.specs.Annotations.{view};
ghost use Rattle.reader_pieces.specs.Shapes.{least_of, shape_at};

use crate::forms::{of_ghost, of_loop, of_statement};
use crate::tree::{Annotation, Place};
use c_syntax::items::{Member, Parameter};
use c_syntax::token::{Keyword, Sign, Span, Token};
use reader_annotations::brackets::close_bracket;
use reader_assignments::calls::code;
use reader_expressions::reading::{Parsed, Reading};
use reader_expressions::tokens::{take, take_key, take_name};
use reader_expressions::types::gtype;
use reader_items::attributes::attribute_list;
use reader_items::clauses::clause;
use reader_items::members::member;
use reader_program::faults::first_place;
use std::alloc::Global;

/// Attributes of a struct.
#[tactic(auto, using(crate::proofs::Links::attributes_read))]
fn attributes<'a>(alloc: Global, room: u32, tokens: &'a [Token<'a>]) -> Reading<'a, Annotation>
    requires sign { (next language (lexemes tokens.now) == sign signs.Annotation) ≡ true }
    ensures gives { Gives view result (part room spec.marks (lexemes tokens.now)) }
{
    let span = first_place(tokens);
    let found = attribute_list(alloc, room, tokens)?;
    Ok(Parsed {
        value: Annotation::Attributes(span, found.value),
        height: found.height,
        rest: found.rest,
    })
}

/// A member, with the place of its `_(`.
fn of_member(span: Span, member: Member) -> Annotation
    ensures { view result ≡ spec.of_member span (views.member member) }
{
    match member {
        Member::Field(field) => Annotation::Field(span, field),
        Member::Invariant(invariant) => Annotation::Invariant(invariant),
    }
}

/// An invariant or a ghost field of a struct.
#[tactic(auto, using(crate::proofs::Links::member_read))]
fn member_form<'a>(alloc: Global, room: u32, tokens: &'a [Token<'a>]) -> Reading<'a, Annotation>
    requires room { room < 1000 }
    requires enough { 1 ≤ room }
    requires sign { (next language (lexemes tokens.now) == sign signs.Annotation) ≡ true }
    ensures gives { Gives view result (rule_at (room - 1) spec.member (lexemes tokens.now)) }
{
    let span = first_place(tokens);
    let found = member(alloc, room, tokens)?;
    Ok(Parsed {
        value: of_member(span, found.value),
        height: found.height,
        rest: found.rest,
    })
}

/// A ghost parameter.
#[tactic(auto, using(reader_assignments::proofs::Parts::rows))]
fn parameter<'a>(alloc: Global, room: u32, tokens: &'a [Token<'a>]) -> Reading<'a, Annotation>
    requires enough { 1 ≤ room }
    ensures gives { Gives view result (part room spec.ghost_parameter (lexemes tokens.now)) }
{
    let start = take(Sign::Annotation, tokens)?;
    let word = take_key(Keyword::Ghost, start.rest)?;
    let ty = gtype(alloc, room, word.rest)?;
    let name = take_name(alloc, 1, ty.rest)?;
    let end = take(Sign::Close, name.rest)?;
    let height = ty.height.max(name.height);
    let (_, declared) = ty.value;
    Ok(Parsed {
        value: Annotation::Parameter(
            start.value,
            Parameter {
                ty: declared,
                name: name.value,
            },
        ),
        height,
        rest: end.rest,
    })
}

/// A clause of a contract.
#[tactic(auto, unfolding(ebnf::specs::Reading::read))]
fn clause_form<'a>(alloc: Global, room: u32, tokens: &'a [Token<'a>]) -> Reading<'a, Annotation>
    requires room { room < 1000 }
    ensures gives { Gives view result (part room spec.promise (lexemes tokens.now)) }
{
    let found = clause(alloc, room, tokens)?;
    Ok(Parsed {
        value: Annotation::Clause(found.value),
        height: found.height,
        rest: found.rest,
    })
}

/// What stands where a statement does, one level of height down.
#[tactic(auto, unfolding(ebnf::specs::Reading::read_rule), using(reader_assignments::proofs::Parts::rows))]
fn statement_form<'a>(alloc: Global, room: u32, tokens: &'a [Token<'a>]) -> Reading<'a, Annotation>
    requires room { room < 1000 }
    ensures gives { Gives view result (rule_at room (spec.signed spec.of_statement) (lexemes tokens.now)) }
{
    let start = take(Sign::Annotation, tokens)?;
    let found = of_statement(alloc, start.value, room, start.rest)?;
    Ok(Parsed {
        value: found.value,
        height: found.height + 1,
        rest: found.rest,
    })
}

/// What stands in front of a loop's body.
#[tactic(auto, unfolding(ebnf::specs::Reading::read_rule), using(reader_assignments::proofs::Parts::rows))]
fn loop_form<'a>(alloc: Global, room: u32, tokens: &'a [Token<'a>]) -> Reading<'a, Annotation>
    requires room { room < 1000 }
    ensures gives { Gives view result (rule_at room (spec.signed spec.of_loop) (lexemes tokens.now)) }
{
    let start = take(Sign::Annotation, tokens)?;
    let found = of_loop(alloc, start.value, room, start.rest)?;
    Ok(Parsed {
        value: found.value,
        height: found.height + 1,
        rest: found.rest,
    })
}

/// A ghost argument.
#[tactic(auto, unfolding(ebnf::specs::Reading::read, ebnf::specs::Reading::read_rule))]
fn argument_form<'a>(alloc: Global, room: u32, tokens: &'a [Token<'a>]) -> Reading<'a, Annotation>
    requires room { room < 1000 }
    ensures gives { Gives view result (rule_at room (spec.signed spec.argument_form) (lexemes tokens.now)) }
{
    let start = take(Sign::Annotation, tokens)?;
    let word = take_key(Keyword::Ghost, start.rest)?;
    let argument = close_bracket(code(alloc, room, word.rest)?)?;
    Ok(Parsed {
        value: Annotation::Argument(start.value, argument.value),
        height: argument.height + 1,
        rest: argument.rest,
    })
}

/// What stands where a ghost statement does.
#[tactic(auto, unfolding(ebnf::specs::Reading::read_rule), using(reader_assignments::proofs::Parts::rows))]
fn ghost_form<'a>(alloc: Global, room: u32, tokens: &'a [Token<'a>]) -> Reading<'a, Annotation>
    requires room { room < 1000 }
    ensures gives { Gives view result (rule_at room (spec.signed spec.of_ghost) (lexemes tokens.now)) }
{
    let start = take(Sign::Annotation, tokens)?;
    let found = of_ghost(alloc, start.value, room, start.rest)?;
    Ok(Parsed {
        value: found.value,
        height: found.height + 1,
        rest: found.rest,
    })
}

/// How high an annotation of this place is at least.
#[tactic(auto, unfolding(ebnf::specs::Sets::low, ebnf::specs::Sets::low_rule))]
pub fn least(place: Place) -> u32
    ensures { result ≡ least_of (spec.annotation place) }
{
    match place {
        Place::Struct => 0,
        Place::Member | Place::Parameter => 1,
        _ => 2,
    }
}

/// An annotation of this place, where there is room for one.
#[tactic(auto, unfolding(ebnf::specs::Sets::low, ebnf::specs::Sets::low_rule))]
pub fn annotation_of<'a>(
    alloc: Global,
    place: Place,
    room: u32,
    tokens: &'a [Token<'a>],
) -> Reading<'a, Annotation>
    requires room { room < 1000 }
    requires enough { least_of (spec.annotation place) ≤ room }
    requires sign { (next language (lexemes tokens.now) == sign signs.Annotation) ≡ true }
    ensures gives { Gives view result (shape_at room (spec.annotation place) (lexemes tokens.now)) }
{
    match place {
        Place::Struct => attributes(alloc, room, tokens),
        Place::Member => member_form(alloc, room, tokens),
        Place::Parameter => parameter(alloc, room, tokens),
        Place::Contract => clause_form(alloc, room, tokens),
        Place::Statement => statement_form(alloc, room - 1, tokens),
        Place::Loop => loop_form(alloc, room - 1, tokens),
        Place::Argument => argument_form(alloc, room - 1, tokens),
        Place::Ghost => ghost_form(alloc, room - 1, tokens),
    }
}
