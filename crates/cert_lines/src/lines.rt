//! Lines, each read from its words up to its first fault.

ghost use Rattle.std.specs.Prelude.{◌≡◌, ◌+◌, ◌-◌, ◌<◌, ◌≤◌, ◌∷◌, ◌==◌, [], IfOk, IfSome, bytes_eq, codes, length, true, Ok};
ghost use Rattle.cert_format.specs.declared.fault.LineFault.TheVariants.{BadLine as bad_line};
ghost use Rattle.cert_lines.specs.Grammar as grammar;
ghost use Rattle.cert_lines.specs.Grammar.{Gives, needs, words_left};
ghost use Rattle.cert_format.specs.Text as text;

use crate::names::{kind_in, rule_in};
use crate::words::{argument_in, first_word, literal_in, number_in};
use cert_format::certificate::{Owner, RuleName, Step};
use cert_format::fault::LineFault;
use cert_format::names::has_index;
use cert_format::stage::Counts;
use smallvec::SmallVec;
use std::alloc::{AllocError, Global};
use terms::numbers::Numbers;
use terms::term::{Args, Clause, Kind, Literal, Term};

/// The words of a line that aren't read yet; none at the line's end.
type Rest<'a> = Option<&'a [u8]>;

/// The greatest number of lemmas, and of conditions.
const MOST_DERIVATIONS: u32 = 20000;

const MOST_TERMS: u32 = 1048576;

const MOST_STEPS: u32 = 1048576;

const MOST_LITERALS: u32 = 4194304;

/// The next word.
fn next_word<'a>(rest: Rest<'a>) -> Result<(&'a [u8], Rest<'a>), LineFault>
    ensures reads { Gives (λ x. (x.0.now, words_left x.1)) result (grammar.first (words_left rest.entry)) }
{
    let Some(line) = rest else {
        return Err(LineFault::BadLine);
    };
    let (word, rest) = first_word(line);
    Ok((word, rest))
}

/// What isn't so is a fault of the line.
fn need(holds: bool) -> Result<(), LineFault>
    ensures reads { Gives (λ _. tt) result (needs holds bad_line) }
{
    if !holds {
        return Err(LineFault::BadLine);
    }
    Ok(())
}

/// No words are left.
fn end(rest: Rest) -> Result<(), LineFault>
    ensures reads { Gives (λ _. tt) result (grammar.ends (words_left rest.entry)) }
{
    match rest {
        None => Ok(()),
        Some(_) => Err(LineFault::BadLine),
    }
}

/// A fixed word.
#[tactic(auto, unfolding(crate::specs::Grammar::keyword))]
fn keyword<'a>(text: &[u8], rest: Rest<'a>) -> Result<Rest<'a>, LineFault>
    ensures reads { Gives (λ x. words_left x) result (grammar.keyword text.now (words_left rest.entry)) }
{
    let (word, rest) = next_word(rest)?;
    need(word == text)?;
    Ok(rest)
}

/// A number.
#[tactic(auto, unfolding(crate::specs::Grammar::number))]
fn number<'a>(rest: Rest<'a>) -> Result<(i128, Rest<'a>), LineFault>
    ensures reads { Gives (λ x. (x.0, words_left x.1)) result (grammar.number (words_left rest.entry)) }
{
    let (word, rest) = next_word(rest)?;
    let number = number_in(word).ok_or(LineFault::BadNumber)?;
    Ok((number, rest))
}

/// The number as a count.
fn counted(most: u32, number: i128) -> Result<u32, LineFault>
    ensures reads { Gives (λ n. n) result (grammar.counted most number) }
{
    if number < 0 {
        return Err(LineFault::BadNumber);
    }
    if number > i128::from(most) {
        return Err(LineFault::CountOver);
    }
    Ok(number as u32)
}

/// A count.
#[tactic(auto, unfolding(crate::specs::Grammar::count))]
fn count<'a>(most: u32, rest: Rest<'a>) -> Result<(u32, Rest<'a>), LineFault>
    ensures reads { Gives (λ x. (x.0, words_left x.1)) result (grammar.count most (words_left rest.entry)) }
{
    let (number, rest) = number(rest)?;
    let count = counted(most, number)?;
    Ok((count, rest))
}

/// A kind of term.
#[tactic(auto, unfolding(crate::specs::Grammar::kind))]
fn kind<'a>(rest: Rest<'a>) -> Result<(Kind, Rest<'a>), LineFault>
    ensures reads { Gives (λ x. (x.0, words_left x.1)) result (grammar.kind (words_left rest.entry)) }
{
    let (word, rest) = next_word(rest)?;
    let kind = kind_in(word).ok_or(LineFault::BadLine)?;
    Ok((kind, rest))
}

/// Whether the rule may stand there.
fn is_rule_of(owner: Owner, rule: RuleName) -> bool
    ensures { result ≡ text.is_rule_of owner rule }
{
    match (owner, rule) {
        (Owner::OfLemma(_), RuleName::Root) => false,
        (Owner::OfCondition(version), RuleName::Lemma) => version == 2,
        _ => true,
    }
}

/// A rule that may stand there.
#[tactic(auto, unfolding(crate::specs::Grammar::rule))]
fn rule<'a>(owner: Owner, rest: Rest<'a>) -> Result<(RuleName, Rest<'a>), LineFault>
    ensures reads { Gives (λ x. (x.0, words_left x.1)) result (grammar.rule owner (words_left rest.entry)) }
{
    let (word, rest) = next_word(rest)?;
    let rule = rule_in(word).ok_or(LineFault::BadLine)?;
    need(is_rule_of(owner, rule))?;
    Ok((rule, rest))
}

/// The index, where the kind has one.
#[tactic(auto, unfolding(crate::specs::Grammar::index))]
fn index<'a>(kind: Kind, rest: Rest<'a>) -> Result<(i128, Rest<'a>), LineFault>
    ensures reads { Gives (λ x. (x.0, words_left x.1)) result (grammar.index kind (words_left rest.entry)) }
{
    if !has_index(kind) {
        return Ok((0, rest));
    }
    let (index, rest) = number(rest)?;
    Ok((index, rest))
}

/// The words that are left, as arguments.
fn arguments(alloc: Global, rest: Rest) -> Result<Args, LineFault>
    ensures reads { Gives (λ a. a) result (grammar.arguments (words_left rest.entry)) }
{
    let mut found: SmallVec<u32, 4> = SmallVec::new(alloc);
    let mut rest = rest;
    while let Some(line) = rest {
        let (word, following) = first_word(line);
        let Some(argument) = argument_in(word) else {
            return Err(LineFault::BadNumber);
        };
        found.push(argument)?;
        rest = following;
    }
    made_of(alloc, found.as_slice())
}

fn made_of(alloc: Global, numbers: &[u32]) -> Result<Args, LineFault>
    ensures reads { Gives (λ a. a) result (Ok numbers.now) }
{
    match Args::new(alloc, numbers) {
        Ok(args) => Ok(args),
        Err(AllocError) => Err(LineFault::OutOfMemory),
    }
}

/// Whether the word is the sign that ends the numbers.
fn is_sign(word: &[u8]) -> bool
    ensures value { result ≡ bytes_eq word.now (codes "=") }
{
    word == b"=".as_slice()
}

/// Numbers, up to the sign `=`.
fn numbers<'a>(alloc: Global, rest: Rest<'a>) -> Result<(Vec<i128>, Rest<'a>), LineFault>
    ensures reads { Gives (λ x. (x.0.items, words_left x.1)) result (grammar.numbers (words_left rest.entry)) }
{
    let mut found = Vec::new(alloc);
    let mut rest = rest;
    while let Some(line) = rest {
        let (word, following) = first_word(line);
        if is_sign(word) {
            return Ok((found, following));
        }
        let Some(number) = number_in(word) else {
            return Err(LineFault::BadNumber);
        };
        found.push(number)?;
        rest = following;
    }
    Err(LineFault::BadLine)
}

/// The words that are left, as literals, of which so many may stand there.
fn literals(alloc: Global, most: u32, rest: Rest) -> Result<Vec<Literal>, LineFault>
    ensures reads { Gives (λ x. x.items) result (grammar.literals most (words_left rest.entry)) }
    ensures few { IfOk result (λ x. length x.items ≤ most) }
{
    let mut found = Vec::new(alloc);
    let mut left = most;
    let mut rest = rest;
    while let Some(line) = rest {
        let (word, following) = first_word(line);
        let Some(literal) = literal_in(word) else {
            return Err(LineFault::BadNumber);
        };
        if left == 0 {
            return Err(LineFault::BadLine);
        }
        left -= 1;
        found.push(literal)?;
        rest = following;
    }
    Ok(found)
}

/// Whether the rule is no lemma that isn't earlier.
fn cites_earlier(owner: Owner, rule: RuleName, rest: Rest) -> bool
    ensures { result ≡ grammar.cites_earlier owner rule (words_left rest.entry) }
{
    match (owner, rule) {
        (Owner::OfLemma(own), RuleName::Lemma) => is_earlier(own, rest),
        _ => true,
    }
}

/// Whether the next word, where it is a number, is below this one.
fn is_earlier(own: u32, rest: Rest) -> bool
    ensures { result ≡ grammar.is_earlier own (grammar.first_number (words_left rest.entry)) }
{
    let Some(line) = rest else {
        return true;
    };
    let (word, _) = first_word(line);
    match number_in(word) {
        Some(number) => number < i128::from(own),
        None => true,
    }
}

/// The version that the word names.
fn version_in(word: &[u8]) -> Option<u32>
    ensures { result ≡ grammar.version_in word.now }
{
    if word == b"1".as_slice() {
        return Some(1);
    }
    if word == b"2".as_slice() {
        return Some(2);
    }
    None
}

/// The version of the line `vcc-cert V`; else the line's first fault.
#[tactic(auto, unfolding(crate::specs::Grammar::version_line))]
pub fn version_line(line: &[u8]) -> Result<u32, LineFault>
    ensures reads { Gives (λ n. n) result (grammar.version_line (grammar.words_of line.now)) }
{
    let rest = keyword(b"vcc-cert", Some(line))?;
    let (word, rest) = next_word(rest)?;
    let version = version_in(word).ok_or(LineFault::BadLine)?;
    end(rest)?;
    Ok(version)
}

/// The number, at most 20,000, of the line `lemmas M` or `conditions N`, of which this is the name; else the line's
/// first fault.
#[tactic(auto, unfolding(crate::specs::Grammar::count_line))]
pub fn count_line(name: &[u8], line: &[u8]) -> Result<u32, LineFault>
    ensures reads { Gives (λ n. n) result (grammar.count_line name.now (grammar.words_of line.now)) }
{
    let rest = keyword(name, Some(line))?;
    let (number, rest) = count(MOST_DERIVATIONS, rest)?;
    end(rest)?;
    Ok(number)
}

fn owner_name(owner: Owner) -> &'static [u8]
    ensures { result.now ≡ text.owner_text owner }
{
    match owner {
        Owner::OfLemma(_) => b"lemma",
        Owner::OfCondition(_) => b"condition",
    }
}

fn least_steps(owner: Owner) -> u32
    ensures { result ≡ text.least_steps owner }
{
    match owner {
        Owner::OfLemma(_) => 1,
        Owner::OfCondition(_) => 0,
    }
}

/// The counts of the line `lemma T S L` or `condition T S L`, by its owner; else the line's first fault.
#[tactic(auto, unfolding(crate::specs::Grammar::head_line))]
pub fn head_line(owner: Owner, line: &[u8]) -> Result<Counts, LineFault>
    ensures reads { Gives (λ c. c) result (grammar.head_line owner (grammar.words_of line.now)) }
{
    let rest = keyword(owner_name(owner), Some(line))?;
    let (terms, rest) = count(MOST_TERMS, rest)?;
    let (steps, rest) = count(MOST_STEPS, rest)?;
    need(least_steps(owner) <= steps)?;
    let (literals, rest) = count(MOST_LITERALS, rest)?;
    end(rest)?;
    need(0 < steps || literals == 0)?;
    Ok(Counts {
        terms,
        steps,
        literals,
    })
}

/// The term of the line `t KIND NUMBERS`; else the line's first fault, or that memory runs out.
#[tactic(auto, unfolding(crate::specs::Grammar::term_line))]
pub fn term_line(alloc: Global, line: &[u8]) -> Result<Term, LineFault>
    ensures reads { Gives (λ t. t) result (grammar.term_line (grammar.words_of line.now)) }
{
    let rest = keyword(b"t", Some(line))?;
    let (kind, rest) = kind(rest)?;
    let (index, rest) = index(kind, rest)?;
    let args = arguments(alloc, rest)?;
    Ok(Term { kind, index, args })
}

/// The step of the line `s RULE NUMBERS = LITERALS`, where so many literals are left; else the line's first fault, or
/// that memory runs out.
#[tactic(auto, unfolding(crate::specs::Grammar::step_line))]
pub fn step_line(alloc: Global, owner: Owner, left: u32, line: &[u8]) -> Result<Step, LineFault>
    ensures reads { Gives (λ s. s) result (grammar.step_line owner left (grammar.words_of line.now)) }
    ensures few { IfOk result (λ s. length s.clause ≤ left) }
{
    let rest = keyword(b"s", Some(line))?;
    let (rule, rest) = rule(owner, rest)?;
    need(cites_earlier(owner, rule, rest))?;
    let (numbers, rest) = numbers(alloc, rest)?;
    let clause = literals(alloc, left, rest)?;
    Ok(Step {
        rule,
        numbers: Numbers::new(numbers),
        clause: Clause::new(clause),
    })
}

/// Whether the line is `end`; else its first fault.
#[tactic(auto, unfolding(crate::specs::Grammar::end_line))]
pub fn end_line(line: &[u8]) -> Result<(), LineFault>
    ensures reads { Gives (λ _. tt) result (grammar.end_line (grammar.words_of line.now)) }
{
    let rest = keyword(b"end", Some(line))?;
    end(rest)?;
    Ok(())
}
