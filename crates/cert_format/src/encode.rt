//! Writing lemmas and blocks.

ghost use Rattle.std.specs.Prelude.{◌≡◌, ◌≤◌, ◌+◌, ◌++◌, ◌∷◌, [], OnOk, OnErr, codes, decimal, length, map};
ghost use Rattle.std.specs.Fmt.{signed_decimal};
ghost use Rattle.cert_format.specs.Text as text;
ghost use Rattle.cert_format.specs.Text.{block_text, derivation_lines, lemma_text, line_text, literals_of, text_of, words_behind};

use crate::certificate::{Refutation, Step};
use crate::names::{has_index, kind_name, rule_name};
use itoa::Buffer;
use std::alloc::AllocError;
use terms::term::{Literal, Term};

/// A word behind a space.
fn write_word(word: &[u8], out: &mut Vec<u8>) -> Result<(), AllocError>
    ensures text { OnOk result (out.new.items ≡ out.old.items ++ 32 ∷ word.now) }
{
    out.extend_from_slice(b" ")?;
    out.extend_from_slice(word)?;
    Ok(())
}

fn write_number(number: i128, out: &mut Vec<u8>) -> Result<(), AllocError>
    ensures text { OnOk result (out.new.items ≡ out.old.items ++ 32 ∷ signed_decimal number) }
{
    let mut buffer = Buffer::new();
    write_word(buffer.format(number).as_bytes(), out)
}

fn write_count(count: usize, out: &mut Vec<u8>) -> Result<(), AllocError>
    ensures text { OnOk result (out.new.items ≡ out.old.items ++ 32 ∷ decimal count) }
{
    let mut buffer = Buffer::new();
    write_word(buffer.format(count).as_bytes(), out)
}

fn write_literal(literal: Literal, out: &mut Vec<u8>) -> Result<(), AllocError>
    ensures text { OnOk result (out.new.items ≡ out.old.items ++ 32 ∷ text.literal_text literal) }
{
    let sign = if literal.positive { b" +" } else { b" -" };
    let mut buffer = Buffer::new();
    out.extend_from_slice(sign)?;
    out.extend_from_slice(buffer.format(literal.term).as_bytes())?;
    Ok(())
}

fn write_numbers(numbers: &[i128], out: &mut Vec<u8>) -> Result<(), AllocError>
    ensures text { OnOk result (out.new.items ≡ out.old.items ++ words_behind (map signed_decimal numbers.now)) }
{
    for number in numbers {
        write_number(*number, out)?;
    }
    Ok(())
}

fn write_arguments(args: &[u32], out: &mut Vec<u8>) -> Result<(), AllocError>
    ensures text { OnOk result (out.new.items ≡ out.old.items ++ words_behind (map decimal args.now)) }
{
    for arg in args {
        write_count(*arg as usize, out)?;
    }
    Ok(())
}

fn write_literals(literals: &[Literal], out: &mut Vec<u8>) -> Result<(), AllocError>
    ensures text { OnOk result (out.new.items ≡ out.old.items ++ words_behind (map text.literal_text literals.now)) }
{
    for literal in literals {
        write_literal(*literal, out)?;
    }
    Ok(())
}

/// The line of a term.
fn write_term(term: &Term, out: &mut Vec<u8>) -> Result<(), AllocError>
    ensures text { OnOk result (out.new.items ≡ out.old.items ++ line_text (text.term_line term.now)) }
{
    out.extend_from_slice(b"t")?;
    write_word(kind_name(term.kind), out)?;
    write_index(term, out)?;
    write_arguments(term.args.numbers(), out)?;
    out.extend_from_slice(b"\n")?;
    Ok(())
}

/// The index, where the kind has one.
fn write_index(term: &Term, out: &mut Vec<u8>) -> Result<(), AllocError>
    ensures text { OnOk result (out.new.items ≡ out.old.items ++ words_behind (text.index_words term.now)) }
{
    if !has_index(term.kind) {
        return Ok(());
    }
    write_number(term.index, out)
}

/// The line of a step.
fn write_step(step: &Step, out: &mut Vec<u8>) -> Result<(), AllocError>
    ensures text { OnOk result (out.new.items ≡ out.old.items ++ line_text (text.step_line step.now)) }
{
    out.extend_from_slice(b"s")?;
    write_word(rule_name(step.rule), out)?;
    write_numbers(step.numbers.as_slice(), out)?;
    out.extend_from_slice(b" =")?;
    write_literals(step.clause.literals(), out)?;
    out.extend_from_slice(b"\n")?;
    Ok(())
}

fn write_terms(terms: &[Term], out: &mut Vec<u8>) -> Result<(), AllocError>
    ensures text { OnOk result (out.new.items ≡ out.old.items ++ text_of (map text.term_line terms.now)) }
{
    for term in terms {
        write_term(term, out)?;
    }
    Ok(())
}

fn write_steps(steps: &[Step], out: &mut Vec<u8>) -> Result<(), AllocError>
    ensures text { OnOk result (out.new.items ≡ out.old.items ++ text_of (map text.step_line steps.now)) }
{
    for step in steps {
        write_step(step, out)?;
    }
    Ok(())
}

/// How many literals the steps have.
fn literal_count(steps: &[Step]) -> usize
    requires { literals_of steps.now ≤ 4194304 }
    ensures { result ≡ literals_of steps.now }
{
    let mut count = 0;
    for step in steps {
        count += step.clause.literals().len();
    }
    count
}

/// The first line of a lemma or block.
fn write_head(name: &[u8], derivation: &Refutation, out: &mut Vec<u8>) -> Result<(), AllocError>
    requires { literals_of derivation.now.steps ≤ 4194304 }
    ensures text { OnOk result (out.new.items ≡ out.old.items ++ line_text (text.head_of name.now derivation.now)) }
{
    out.extend_from_slice(name)?;
    write_count(derivation.terms().len(), out)?;
    write_count(derivation.steps().len(), out)?;
    write_count(literal_count(derivation.steps()), out)?;
    out.extend_from_slice(b"\n")?;
    Ok(())
}

fn write_derivation(
    name: &[u8],
    derivation: &Refutation,
    out: &mut Vec<u8>,
) -> Result<(), AllocError>
    requires { literals_of derivation.now.steps ≤ 4194304 }
    ensures text { OnOk result (out.new.items ≡ out.old.items ++ text_of (derivation_lines name.now derivation.now)) }
{
    write_head(name, derivation, out)?;
    write_terms(derivation.terms(), out)?;
    write_steps(derivation.steps(), out)
}

/// Appends the text of a lemma or block; a refusal changes nothing.
fn append(name: &[u8], derivation: &Refutation, text: &mut Vec<u8>) -> Result<(), AllocError>
    requires { literals_of derivation.now.steps ≤ 4194304 }
    ensures text { OnOk result (text.new.items ≡ text.old.items ++ text_of (derivation_lines name.now derivation.now)) }
    ensures err { OnErr result (text.new.items ≡ text.old.items) }
{
    let mut lines = Vec::new(*text.allocator());
    write_derivation(name, derivation, &mut lines)?;
    text.extend_from_slice(&lines)
}

/// Appends the text of a condition's block, which has at most 4,194,304 literals; a refusal changes nothing.
pub fn encode_block(block: &Refutation, text: &mut Vec<u8>) -> Result<(), AllocError>
    requires { literals_of block.now.steps ≤ 4194304 }
    ensures text { OnOk result (text.new.items ≡ text.old.items ++ block_text block.now) }
    ensures err { OnErr result (text.new.items ≡ text.old.items) }
{
    append(b"condition", block, text)
}

/// Appends the text of a lemma, which has at most 4,194,304 literals; a refusal changes nothing.
pub fn encode_lemma(lemma: &Refutation, text: &mut Vec<u8>) -> Result<(), AllocError>
    requires { literals_of lemma.now.steps ≤ 4194304 }
    ensures text { OnOk result (text.new.items ≡ text.old.items ++ lemma_text lemma.now) }
    ensures err { OnErr result (text.new.items ≡ text.old.items) }
{
    append(b"lemma", lemma, text)
}
