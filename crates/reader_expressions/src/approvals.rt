//! Changes that the owner of an object has to approve.

ghost use Rattle.std.specs.Prelude.{◌≡◌, IfOk};
ghost use Rattle.c_syntax.specs.declared.token.SpecWord.TheVariants as words;
ghost use Rattle.c_syntax.specs.Classes.{spec};
ghost use Rattle.c_syntax.specs.Grammar as g;
ghost use Rattle.c_syntax.specs.Views.{exp};
ghost use Rattle.reader_expressions.specs.Forms as forms;
ghost use Rattle.reader_expressions.specs.Reading.{Gives, lexemes, one_token, part, rule_at};

use crate::reading::{Parsed, Reading};
use crate::tokens::{take, take_name, take_spec};
use c_syntax::expressions::Expr;
use c_syntax::token::{Sign, Span, SpecWord, Token};
use std::alloc::Global;

/// `\owner`, which counts as 2 high as every arrow behind a word.
fn owner<'a>(tokens: &'a [Token<'a>]) -> Reading<'a, Span>
    ensures gives { Gives (λ x. x) result (one_token (spec words.Owner) 2 (λ x. x.place) (lexemes tokens.now)) }
    ensures high { IfOk result (λ x. x.height ≡ 2) }
{
    let word = take_spec(SpecWord::Owner, tokens)?;
    Ok(Parsed {
        value: word.value,
        height: 2,
        rest: word.rest,
    })
}

/// `\this->\owner`
#[tactic(auto, unfolding(ebnf::specs::Reading::read))]
fn this_owner<'a>(tokens: &'a [Token<'a>]) -> Reading<'a, Span>
    ensures gives { Gives (λ x. x) result (part 0 g.this_owner (lexemes tokens.now)) }
    ensures high { IfOk result (λ x. x.height ≡ 2) }
{
    let object = take_spec(SpecWord::This, tokens)?;
    let arrow = take(Sign::Arrow, object.rest)?;
    let owner = owner(arrow.rest)?;
    Ok(Parsed {
        value: object.value,
        height: 2,
        rest: owner.rest,
    })
}

/// `\approves(\this->\owner, f)`
#[tactic(auto, unfolding(ebnf::specs::Reading::read, ebnf::specs::Reading::read_rule))]
pub fn approval<'a>(alloc: Global, tokens: &'a [Token<'a>]) -> Reading<'a, Expr>
    ensures gives { Gives exp result (rule_at 0 forms.approval (lexemes tokens.now)) }
    ensures high { IfOk result (λ x. x.height ≡ 3) }
{
    let word = take_spec(SpecWord::Approves, tokens)?;
    let open = take(Sign::Open, word.rest)?;
    let owner = this_owner(open.rest)?;
    let comma = take(Sign::Comma, owner.rest)?;
    let field = take_name(alloc, 1, comma.rest)?;
    let close = take(Sign::Close, field.rest)?;
    Ok(Parsed {
        value: Expr::Approves(word.value, field.value),
        height: 3,
        rest: close.rest,
    })
}
