//! The text of a certificate of version 2.

ghost use Rattle.std.specs.Prelude.{◌≡◌, ◌++◌, All, IfOk, OnOk, flat_map};
ghost use Rattle.cert_format.specs.Text.{IsCertificate, block_text, count_line, lemma_text, line_text, lines_of, seen};
ghost use Rattle.cert_format.specs.Text.{text_of as text_of_lines};
ghost use Rattle.upgrade_laws.specs.Laws.{FitIndices};
ghost use Rattle.vcc_io.specs.CertificateTexts.{HasFewLiterals, HasIndex};

use cert_format::certificate::{Certificate, Refutation};
use cert_format::encode::{encode_block, encode_lemma};
use itoa::Buffer;
use std::alloc::{AllocError, Global};
use terms::term::Term;

/// A term's index fits 128 bits.
fn fits_index(term: &Term)
    ensures { HasIndex term.now }
{
    let _index = term.index;
}

/// The indices of terms fit 128 bits.
fn have_indices(terms: &[Term])
    ensures { All HasIndex terms.now }
{
    for term in terms {
        fits_index(term);
    }
}

/// The indices of the terms of lemmas fit 128 bits.
pub fn fit_indices(lemmas: &[Refutation])
    ensures { FitIndices lemmas.now }
{
    for lemma in lemmas {
        have_indices(lemma.terms());
    }
}

/// Appends the line of a count.
#[tactic(auto, using(std::proofs::lemmas::List::append_assoc))]
fn write_count(name: &[u8], count: usize, text: &mut Vec<u8>) -> Result<(), AllocError>
    ensures { OnOk result (text.new.items ≡ text.old.items ++ line_text (count_line name.now count)) }
{
    let mut buffer = Buffer::new();
    text.extend_from_slice(name)?;
    text.extend_from_slice(b" ")?;
    text.extend_from_slice(buffer.format(count).as_bytes())?;
    text.extend_from_slice(b"\n")?;
    Ok(())
}

/// Appends the texts of the lemmas.
fn write_lemmas(lemmas: &[Refutation], text: &mut Vec<u8>) -> Result<(), AllocError>
    requires { All HasFewLiterals lemmas.now }
    ensures { OnOk result (text.new.items ≡ text.old.items ++ flat_map lemma_text lemmas.now) }
{
    for lemma in lemmas {
        encode_lemma(lemma, text)?;
    }
    Ok(())
}

/// Appends the texts of the blocks.
fn write_blocks(blocks: &[Refutation], text: &mut Vec<u8>) -> Result<(), AllocError>
    requires { All HasFewLiterals blocks.now }
    ensures { OnOk result (text.new.items ≡ text.old.items ++ flat_map block_text blocks.now) }
{
    for block in blocks {
        encode_block(block, text)?;
    }
    Ok(())
}

/// The text of a certificate of version 2.
pub fn certificate_text(alloc: Global, certificate: &Certificate) -> Result<Vec<u8>, AllocError>
    requires fits { IsCertificate (seen certificate.now) }
    requires version { certificate.now.version ≡ 2 }
    ensures { IfOk result (λ text. text.items ≡ text_of_lines (lines_of (seen certificate.now))) }
{
    let mut text = Vec::new(alloc);
    text.extend_from_slice(b"vcc-cert 2\n")?;
    write_count(b"lemmas", certificate.lemmas.len(), &mut text)?;
    write_lemmas(&certificate.lemmas, &mut text)?;
    write_count(b"conditions", certificate.blocks.len(), &mut text)?;
    write_blocks(&certificate.blocks, &mut text)?;
    text.extend_from_slice(b"end\n")?;
    Ok(text)
}
