//! Quantifiers right of `\in`, and what joins the parts of their bodies.

ghost use Rattle.std.specs.Prelude.{◌≡◌, false, MatchOption};
ghost use Rattle.ebnf.specs.Sets.{has, first, first_rule, low};
ghost use Rattle.ebnf.specs.Derives.{next};
ghost use Rattle.c_syntax.specs.Grammar as g;
ghost use Rattle.c_syntax.specs.Language.{language};
ghost use Rattle.reader_expressions.specs.Forms as forms;
ghost use Rattle.reader_expressions.specs.Joints as joints;
ghost use Rattle.reader_expressions.specs.Reading.{lexemes};

use crate::tokens::{next_is, next_is_spec};
use c_syntax::token::{Sign, SpecWord, Token};
use c_syntax::tree::Quantifier;

/// What joins the parts of such a body.
#[derive(Clone, Copy)]
pub enum Joint {
    In,
    And,
    Implies,
}

/// Whether this joint comes next.
#[tactic(auto, unfolding(ebnf::specs::Sets::first, ebnf::specs::Sets::is_empty))]
pub fn next_joins<'a>(joint: Joint, tokens: &'a [Token<'a>]) -> bool
    ensures { result ≡ has (first language (joints.following joint)) (next language (lexemes tokens.now)) }
{
    match joint {
        Joint::In => next_is_spec(SpecWord::In, tokens),
        Joint::And => next_is(Sign::And, tokens),
        Joint::Implies => next_is(Sign::Implies, tokens),
    }
}

/// How high what stands right of it is at least.
#[tactic(auto, unfolding(ebnf::specs::Sets::low))]
pub fn least_behind(joint: Joint) -> u32
    ensures { result ≡ low language (joints.following joint) }
{
    match joint {
        Joint::In => 2,
        Joint::And | Joint::Implies => 3,
    }
}

/// The quantifier that comes next.
#[tactic(auto, unfolding(ebnf::specs::Sets::first, ebnf::specs::Sets::first_rule, ebnf::specs::Sets::is_empty))]
pub fn quantifier_at<'a>(tokens: &'a [Token<'a>]) -> Option<Quantifier>
    ensures { MatchOption result (has (first_rule language g.set_quantifier) (next language (lexemes tokens.now)) ≡ false) (λ q. next language (lexemes tokens.now) ≡ forms.quantifier_class q) }
{
    if next_is_spec(SpecWord::Forall, tokens) {
        return Some(Quantifier::ForAll);
    }
    if next_is_spec(SpecWord::Exists, tokens) {
        return Some(Quantifier::Exists);
    }
    None
}
