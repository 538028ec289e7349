//! Reading a certificate in pieces.

ghost use Rattle.std.specs.Prelude.{◌≡◌, ◌+◌, ◌≤◌, ◌<◌, ◌^◌, ◌++◌, ◌∷◌, ◌==◌, [], length, option_to_list, IfSome, MatchOption, Some, None};
ghost use Rattle.cert_format.specs.declared.stage.Stage.TheVariants.{Ended};
ghost use Rattle.cert_lines.specs.Grammar.{IsWithinLine, words_of};
ghost use Rattle.cert_format.specs.Text.{seen};
ghost use Rattle.cert_reader.specs.Keeping as keeping;
ghost use Rattle.cert_reader.specs.Keeping.{Keeps, Leaves, SplitsLine, answer, fed, scan, start, with_bytes, with_line, without_block, without_lemma};

use crate::parser::Parser;
use cert_format::certificate::{Certificate, Refutation};
use cert_format::fault::{CertFault, LineFault};
use cert_format::stage::Stage;
use memchr::memchr;
use std::alloc::Global;
use std::marker::Model;

/// Reads a certificate in pieces, and hands out its lemmas and blocks one after the other. It keeps no bytes of whole
/// lines.
#[derive(Drop)]
pub struct BlockReader {
    parser: Parser,
    line: Vec<u8>,
    bytes: usize,
    fault: Option<CertFault>,
}

impl Model for BlockReader {
    ghost use Rattle.std.specs.Prelude.{◌+◌, ◌≤◌, length};
    ghost use Rattle.cert_reader.specs.Keeping.{Scan};

    ghost Value = { Scan };

    ghost view = { λ r. record { progress = r.parser; line = r.line.items; bytes = r.bytes; fault = r.fault } };

    ghost invariant = { λ r. (r.parser.lines + length r.line.items ≤ r.bytes) × (r.bytes ≤ 4294967294) };
}

impl BlockReader {
    pub fn new(alloc: Global) -> BlockReader
        ensures { result ≡ start }
    {
        BlockReader {
            parser: Parser::new(alloc),
            line: Vec::new(alloc),
            bytes: 0,
            fault: None,
        }
    }

    /// Takes the piece. CutShort doesn't come here. Behind a fault, want of memory included, nothing more is taken, and
    /// the fault is given again.
    pub fn feed(&mut self, piece: &[u8]) -> Result<(), CertFault>
        requires { self.old.bytes + length piece.now ≤ 4294967294 }
        ensures kept { Keeps result self.new (scan self.old piece.now) }
        ensures answer { result ≡ fed self.new.fault }
    {
        if let Some(fault) = self.fault {
            return Err(fault);
        }
        self.take_lines(piece)
    }

    fn take_lines(&mut self, piece: &[u8]) -> Result<(), CertFault>
        requires sound { self.old.fault ≡ None }
        requires fits { self.old.bytes + length piece.now ≤ 4294967294 }
        ensures kept { Keeps result self.new (scan self.old piece.now) }
        ensures answer { result ≡ fed self.new.fault }
    {
        let mut rest = piece;
        while let Some((front, following)) = split_line(rest) {
            self.end_line(front)?;
            rest = following;
        }
        self.keep(rest)
    }

    /// Takes the rest of the line that isn't whole yet.
    fn end_line(&mut self, front: &[u8]) -> Result<(), CertFault>
        requires sound { self.old.fault ≡ None }
        requires fits { self.old.bytes + length front.now < 4294967294 }
        ensures kept { Keeps result self.new (with_line self.old front.now) }
        ensures answer { result ≡ fed self.new.fault }
    {
        let number = self.parser.lines() + 1;
        let taken = take_whole(&mut self.parser, &mut self.line, front);
        self.bytes += front.len() + 1;
        match taken {
            Ok(()) => Ok(()),
            Err(fault) => {
                let fault = on_line(fault, number);
                self.fault = Some(fault);
                Err(fault)
            }
        }
    }

    /// Keeps the beginning of a line.
    fn keep(&mut self, front: &[u8]) -> Result<(), CertFault>
        requires sound { self.old.fault ≡ None }
        requires fits { self.old.bytes + length front.now ≤ 4294967294 }
        ensures kept { Keeps result self.new (with_bytes self.old front.now) }
        ensures answer { result ≡ fed self.new.fault }
    {
        match self.line.extend_from_slice(front) {
            Ok(()) => {
                self.bytes += front.len();
                Ok(())
            }
            Err(_) => {
                self.fault = Some(CertFault::OutOfMemory);
                Err(CertFault::OutOfMemory)
            }
        }
    }

    /// How many bytes were taken, up to the first fault.
    pub fn bytes(&self) -> usize
        ensures bytes { result ≡ self.now.bytes }
        ensures few { result ≤ 4294967294 }
    {
        self.bytes
    }

    /// The number in the line `conditions`, once that line was read.
    pub fn count(&self) -> Option<u64>
        ensures { result ≡ self.now.progress.count }
    {
        self.parser.count()
    }

    /// The next lemma, if a whole one is left that wasn't handed out.
    pub fn next_lemma(&mut self) -> Option<Refutation>
        ensures lemma { self.old.progress.lemmas ≡ option_to_list result ++ self.new.progress.lemmas }
        ensures kept { self.new ≡ without_lemma self.old }
    {
        self.parser.next_lemma()
    }

    /// The next block, if a whole one is left that wasn't handed out.
    pub fn next_block(&mut self) -> Option<Refutation>
        ensures block { self.old.progress.blocks ≡ option_to_list result ++ self.new.progress.blocks }
        ensures kept { self.new ≡ without_block self.old }
    {
        self.parser.next_block()
    }

    /// The answer, if the text ends here.
    pub(crate) fn answer(&self) -> Result<(), CertFault>
        ensures { result ≡ answer self.now }
    {
        if let Some(fault) = self.fault {
            return Err(fault);
        }
        let number = self.parser.lines() + 1;
        missing(self.parser.stage(), self.line.as_slice(), number)
    }

    /// Whether the bytes that were fed are a certificate's text; else the first fault.
    pub fn finish(self) -> Result<(), CertFault>
        ensures { result ≡ answer self }
    {
        self.answer()
    }

    /// What was read and not handed out.
    pub(crate) fn into_certificate(self) -> Certificate
        ensures { seen result ≡ keeping.proofs_of self.progress }
    {
        self.parser.into_certificate()
    }
}

/// The first whole line, without its LF, and what stands behind it.
fn split_line(bytes: &[u8]) -> Option<(&[u8], &[u8])>
    ensures cases { MatchOption result (IsWithinLine bytes.now) (λ x. SplitsLine bytes.now x.0.now x.1.now) }
    ensures shorter { IfSome result (λ x. length bytes.now ≡ length x.0.now + 1 + length x.1.now) }
{
    let at = memchr(b'\n', bytes)?;
    Some((&bytes[..at], &bytes[at + 1..]))
}

/// Takes the line that ends with these bytes, of which the others were kept.
fn take_whole(parser: &mut Parser, line: &mut Vec<u8>, front: &[u8]) -> Result<(), LineFault>
    requires { parser.old.lines + 1 < 2 ^ 32 }
    ensures takes { Leaves parser.old parser.new (keeping.take_bytes parser.old (line.old.items ++ front.now)) result }
    ensures lines { parser.new.lines ≤ parser.old.lines + 1 }
    ensures line { line.new.items ≡ [] }
{
    if line.is_empty() {
        return parser.take_line(front);
    }
    let taken = take_joined(parser, line, front);
    line.clear();
    taken
}

fn take_joined(parser: &mut Parser, line: &mut Vec<u8>, front: &[u8]) -> Result<(), LineFault>
    requires { parser.old.lines + 1 < 2 ^ 32 }
    ensures takes { Leaves parser.old parser.new (keeping.take_bytes parser.old (line.old.items ++ front.now)) result }
    ensures lines { parser.new.lines ≤ parser.old.lines + 1 }
{
    match line.extend_from_slice(front) {
        Ok(()) => parser.take_line(line.as_slice()),
        Err(_) => Err(LineFault::OutOfMemory),
    }
}

fn on_line(fault: LineFault, line: u32) -> CertFault
    ensures { result ≡ keeping.on_line fault line }
{
    match fault {
        LineFault::BadLine => CertFault::BadLine(line),
        LineFault::BadNumber => CertFault::BadNumber(line),
        LineFault::CountOver => CertFault::CountOver(line),
        LineFault::Trailing => CertFault::Trailing(line),
        LineFault::OutOfMemory => CertFault::OutOfMemory,
    }
}

/// What is wrong where the text ends.
fn missing(stage: Stage, rest: &[u8], line: u32) -> Result<(), CertFault>
    ensures { result ≡ keeping.missing stage rest.now line }
{
    match stage {
        Stage::Ended => trailing(rest, line),
        _ => Err(CertFault::CutShort(line)),
    }
}

fn trailing(rest: &[u8], line: u32) -> Result<(), CertFault>
    ensures { result ≡ keeping.missing Ended rest.now line }
{
    match rest {
        [] => Ok(()),
        _ => Err(CertFault::Trailing(line)),
    }
}
