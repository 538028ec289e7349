//! Writing the certificate, block by block.

ghost use Rattle.std.specs.Prelude.{◌≡◌, ◌+◌, ◌<◌, ◌≤◌, ◌∷◌, [], IsErrOf, IfOk, List, ℕ, Option, length};
ghost use Rattle.vcc_base.specs.Maps.{Map};
ghost use Rattle.cert_format.specs.Text.{block_text, literals_of};
ghost use Rattle.vcc_verify.specs.Texts.{block_of, empty_block, head_text};
ghost use Rattle.vcc_verify.specs.Writing.{After, Begins, Stands};
ghost use Rattle.vcc_search.specs.Searches.{HasFewLiterals};

use crate::fault::VerifyFault;
use cert_format::certificate::Refutation;
use cert_format::encode::encode_block;
use itoa::Buffer;
use std::alloc::{AllocError, Global};
use vcc_base::sink::SinkFault;
use vcc_base::store::{Store, StoreFault};
use vcc_base::whole::append_all;

/// The most bytes that a certificate may have in front of its last line.
pub const MOST_BYTES: usize = 67_108_860;

/// The line after the last block.
pub const LAST_LINE: &[u8] = b"end\n";

/// The lines in front of so many blocks.
#[tactic(auto, using(std::proofs::lemmas::List::append_assoc))]
fn head(alloc: Global, count: usize) -> Result<Vec<u8>, AllocError>
    ensures { IfOk result (λ text. text.items ≡ head_text count) }
{
    let mut text = Vec::new(alloc);
    let mut buffer = Buffer::new();
    text.extend_from_slice(b"vcc-cert 1\nconditions ")?;
    text.extend_from_slice(buffer.format(count).as_bytes())?;
    text.extend_from_slice(b"\n")?;
    Ok(text)
}

/// Makes the name hold the lines in front of so many blocks, and says how many bytes these are.
pub fn begin<S: Store>(
    alloc: Global,
    cert: &str,
    count: usize,
    store: &mut S,
) -> Result<usize, VerifyFault>
    requires { count ≤ 20000 }
    ensures begins { Begins result (S.contents store.old) (S.contents store.new) cert.now count }
    ensures failed { IsErrOf result (VerifyFault.Store StoreFault.Failed) →
        S.write_faults store.old < S.write_faults store.new }
    ensures no_sink { IsErrOf result (VerifyFault.Sink SinkFault.Failed) → ⊥ }
    ensures never_falls { S.write_faults store.old ≤ S.write_faults store.new }
    ensures reads_stay { S.read_faults store.new ≡ S.read_faults store.old }
{
    let text = head(alloc, count)?;
    store.create(cert)?;
    append_all(store, cert, text.as_slice())?;
    Ok(text.len())
}

/// The text of the block.
fn block_bytes(alloc: Global, block: &Refutation) -> Result<Vec<u8>, AllocError>
    requires { literals_of block.now.steps ≤ 4194304 }
    ensures { IfOk result (λ text. text.items ≡ block_text block.now) }
{
    let mut text = Vec::new(alloc);
    encode_block(block, &mut text)?;
    Ok(text)
}

/// Writes the block, unless the certificate would become too long, and says how many bytes there are then.
fn write_block<S: Store>(
    alloc: Global,
    cert: &str,
    block: &Refutation,
    written: usize,
    store: &mut S,
) -> Result<usize, VerifyFault>
    requires literals { literals_of block.now.steps ≤ 4194304 }
    requires room { written ≤ 67108860 }
    ensures after { (before : Option Map) (text : List ℕ) →
        Stands before (S.contents store.old) cert.now text written →
        After result before (S.contents store.new) cert.now text (block.now ∷ []) }
    ensures long { IfOk result (λ n. n ≡ written + length (block_text block.now)) }
    ensures room { IfOk result (λ n. n ≤ 67108860) }
    ensures failed { IsErrOf result (VerifyFault.Store StoreFault.Failed) →
        S.write_faults store.old < S.write_faults store.new }
    ensures no_sink { IsErrOf result (VerifyFault.Sink SinkFault.Failed) → ⊥ }
    ensures never_falls { S.write_faults store.old ≤ S.write_faults store.new }
    ensures reads_stay { S.read_faults store.new ≡ S.read_faults store.old }
{
    let text = block_bytes(alloc, block)?;
    if text.len() > MOST_BYTES - written {
        return Err(VerifyFault::CertBytes);
    }
    append_all(store, cert, text.as_slice())?;
    Ok(written + text.len())
}

/// A block without terms and steps.
fn no_steps(alloc: Global) -> Refutation
    ensures { result ≡ empty_block }
{
    Refutation::new(Vec::new(alloc), Vec::new(alloc))
}

/// The same with the finding's block, or an empty one where there is none.
pub fn write_finding<S: Store>(
    alloc: Global,
    cert: &str,
    finding: &Option<Refutation>,
    written: usize,
    store: &mut S,
) -> Result<usize, VerifyFault>
    requires literals { HasFewLiterals finding.now }
    requires room { written ≤ 67108860 }
    ensures after { (before : Option Map) (text : List ℕ) →
        Stands before (S.contents store.old) cert.now text written →
        After result before (S.contents store.new) cert.now text (block_of finding.now ∷ []) }
    ensures long { IfOk result (λ n. n ≡ written + length (block_text (block_of finding.now))) }
    ensures room { IfOk result (λ n. n ≤ 67108860) }
    ensures failed { IsErrOf result (VerifyFault.Store StoreFault.Failed) →
        S.write_faults store.old < S.write_faults store.new }
    ensures no_sink { IsErrOf result (VerifyFault.Sink SinkFault.Failed) → ⊥ }
    ensures never_falls { S.write_faults store.old ≤ S.write_faults store.new }
    ensures reads_stay { S.read_faults store.new ≡ S.read_faults store.old }
{
    match finding {
        Some(block) => write_block(alloc, cert, block, written, store),
        None => {
            let empty = no_steps(alloc);
            let answer = write_block(alloc, cert, &empty, written, store);
            answer
        }
    }
}
