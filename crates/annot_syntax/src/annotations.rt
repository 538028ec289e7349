//! An annotation by itself.

ghost use Rattle.std.specs.Prelude.{◌≡◌, ℕ, ◌<◌, ◌≤◌, ◌==◌, true, List, drop, length, IfOk, IfErr};
ghost use Rattle.ebnf.specs.Derives.{next};
ghost use Rattle.ebnf.specs.Verdict.{HasEnd};
ghost use Rattle.c_syntax.specs.Classes as classes;
ghost use Rattle.c_syntax.specs.declared.token.Sign.TheVariants as signs;
ghost use Rattle.c_syntax.specs.Language.{language};
ghost use Rattle.reader_expressions.specs.Reading.{lexemes};
ghost use Rattle.annot_syntax.specs.Pieces as pieces;
ghost use Rattle.reader_pieces.specs.Annotations.{view};
ghost use Rattle.annot_syntax.specs.Annotations.{IsAnnotation, IsAnnotationFaultOrMemory, IsOnlyAnnotation};

use crate::expression::MOST_LEVELS;
use c_source::fault::SourceFault;
use c_syntax::token::{Sign, Token};
use reader_expressions::reading::ReadFault;
use reader_expressions::tokens::next_is;
use reader_pieces::places::{annotation_of, least};
use reader_pieces::tree::{Annotation, Place};
use reader_program::faults::{first_place, unexpected};
use std::alloc::Global;

/// Whether a `_(` stands at this place.
#[tactic(auto, using(crate::proofs::Fronts::from_on))]
pub fn is_annotation<'a>(tokens: &'a [Token<'a>], at: usize) -> bool
    requires { at ≤ length tokens.now }
    ensures { result ≡ (next language (drop at (lexemes tokens.now)) == classes.sign signs.Annotation) }
{
    let (_, here) = tokens.split_at(at);
    next_is(Sign::Annotation, here)
}

/// The annotation of this place at the front of the tokens from here on, with so many levels around it, up to and with its `)`,
/// and the place behind it. A `_(` stands here, and the last token is the end.
pub fn read_annotation<'a>(
    alloc: Global,
    tokens: &'a [Token<'a>],
    at: usize,
    above: u32,
    place: Place,
) -> Result<(Annotation, usize), SourceFault>
    requires end { HasEnd language (lexemes tokens.now) }
    requires at { at < length tokens.now }
    requires sign { (next language (drop at (lexemes tokens.now)) == classes.sign signs.Annotation) ≡ true }
    requires above { above ≤ 200 }
    ensures found { IfOk result (λ x. IsAnnotation place (pieces.room_within above) (drop at (lexemes tokens.now)) (view x.0) (drop x.1 (lexemes tokens.now))) }
    ensures fault { IfErr result (IsAnnotationFaultOrMemory place (pieces.room_within above) (drop at (lexemes tokens.now))) }
    // Where an annotation of this place stands there that is low enough, it is found.
    ensures only { IsOnlyAnnotation place (pieces.room_within above) (lexemes tokens.now) (drop at (lexemes tokens.now)) result }
{
    let (_, here) = tokens.split_at(at);
    let room = MOST_LEVELS - above;
    if room < least(place) {
        return Err(SourceFault::TooDeep(first_place(here)));
    }
    match annotation_of(alloc, place, room, here) {
        Ok(found) => {
            let following = tokens.len().saturating_sub(found.rest.len());
            Ok((found.value, following))
        }
        Err(ReadFault::Unexpected(rest)) => Err(unexpected(here, rest)),
        Err(ReadFault::TooDeep(rest)) => Err(SourceFault::TooDeep(first_place(rest))),
        Err(ReadFault::OutOfMemory) => Err(SourceFault::OutOfMemory),
    }
}
