//! The certificate of a check, judged as it is read.

ghost use Rattle.std.specs.Prelude.{◌≡◌, ◌+◌, ◌<◌, ◌≤◌, ◌∷◌, ◌++◌, [], ℕ, List, length, IfErr, IfOk, MatchBool, MatchResult, Some, None, Ok, Err};
ghost use Rattle.method.specs.Labels as spec;
ghost use Rattle.cert_format.specs.Derivations.{Derivation};
ghost use Rattle.cert_reader.specs.Keeping.{Keeps, Scan, decoded};
ghost use Rattle.block_layout.specs.Space.{IsTheory};
ghost use Rattle.block_layout.specs.declared.space.Theory.{Theory};
ghost use Rattle.condition_meaning.specs.Languages.{language_of};
ghost use Rattle.check_labels.specs.Labels.{labels_of};
ghost use Rattle.vcc_base.specs.Maps.{Map};
ghost use Rattle.vcc_judge.specs.declared.trial.Trial.{Trial};
ghost use Rattle.vcc_judge.specs.Shows.{IsSomeReady};
ghost use Rattle.vcc_io.specs.Certificates.{IsCertificateStop, IsFirstFault, IsNoCertificate};
ghost use Rattle.vcc_io.specs.Faults.{IsReadFault};
ghost use Rattle.vcc_io.specs.Held.{IsUnread};
ghost use Rattle.vcc_io.specs.Pieces.{HasBegun, HasBegunSome, HasCount, HasTaken, HasTried, HasTriedName, HasTriedSome, HoldsTrial};
ghost use Rattle.vcc_io.specs.Pieces.{IsOutcomeOf, IsUnderWay, TakesBlock, TookAll, Tries, TriesText};
ghost use Rattle.vcc_base.specs.declared.limit.Limit.TheVariants.{CertBytes};

use crate::pieces::{empty_piece, read_piece};
use crate::refusal::{LineFault, Refusal};
use block_layout::space::Theory;
use cert_format::certificate::Refutation;
use cert_format::fault::CertFault;
use cert_reader::reader::BlockReader;
use check_labels::labels::ProgramLabel;
use std::alloc::{AllocError, Global};
use vcc_base::limit::Limit;
use vcc_base::store::Store;
use vcc_judge::trial::Trial;
use vcc_judge::verdict::{JudgeFault, Verdict};

/// The refusal of a certificate with this fault.
pub(crate) fn refusal_of<'a>(fault: CertFault) -> Refusal<'a>
    ensures { (bytes : List ℕ) → IsFirstFault fault (decoded bytes) → IsNoCertificate bytes result }
{
    match fault {
        CertFault::BadLine(line) => Refusal::BadCertificate(line, LineFault::BadLine),
        CertFault::BadNumber(line) => Refusal::BadCertificate(line, LineFault::BadNumber),
        CertFault::CutShort(line) => Refusal::BadCertificate(line, LineFault::CutShort),
        CertFault::Trailing(line) => Refusal::BadCertificate(line, LineFault::Trailing),
        CertFault::CountOver(line) => Refusal::BadCertificate(line, LineFault::CountOver),
        CertFault::OutOfMemory => Refusal::OutOfMemory,
    }
}

/// Whether the reader goes on behind this answer to a piece: it keeps a fault of the text for the end.
fn go_on(answer: Result<(), CertFault>) -> Result<(), AllocError>
    ensures { (new kept : Scan) → Keeps answer new kept → IfOk result (λ u. new ≡ kept) }
{
    match answer {
        Ok(()) => Ok(()),
        Err(CertFault::BadLine(_)) => Ok(()),
        Err(CertFault::BadNumber(_)) => Ok(()),
        Err(CertFault::CutShort(_)) => Ok(()),
        Err(CertFault::Trailing(_)) => Ok(()),
        Err(CertFault::CountOver(_)) => Ok(()),
        Err(CertFault::OutOfMemory) => Err(AllocError),
    }
}

/// A certificate that is read in pieces. Its lemmas are kept. They are judged when the number of its blocks was read, if it
/// is that of the conditions, and then each block as soon as it is whole. Nothing is kept of blocks.
#[derive(Drop)]
pub struct CertificateTrial {
    pub reader: BlockReader,
    pub lemmas: Vec<Refutation>,
    pub blocks: usize,
    pub trial: Option<Result<Trial, JudgeFault>>,
}

/// How many blocks a certificate has, and their verdict, if they are as many as the conditions.
#[derive(Drop)]
pub struct Outcome {
    pub blocks: usize,
    pub verdict: Option<Result<Verdict, JudgeFault>>,
}

/// The verdict of a trial at its end.
#[tactic(auto, using(crate::proofs::Sessions::fault_judged, crate::proofs::Sessions::none_judged))]
fn verdict_of(trial: Option<Result<Trial, JudgeFault>>) -> Option<Result<Verdict, JudgeFault>>
    ensures { (t : Theory) (s : Scan) (lemmas blocks : List Derivation) →
        s.progress.count ≡ Some (length blocks) → (trial ≡ None → HasCount t.program.now s → ⊥) →
        IsUnderWay t s lemmas blocks trial → IsOutcomeOf t.program.now lemmas blocks result }
{
    match trial {
        Some(Ok(trial)) => Some(trial.into_outcome()),
        Some(Err(fault)) => Some(Err(fault)),
        None => None,
    }
}

/// A trial that has judged these lemmas; only want of memory is an error.
#[tactic(auto, using(crate::proofs::Sessions::tries_none))]
fn begin_trial(
    alloc: Global,
    theory: Theory<'_>,
    lemmas: &[Refutation],
) -> Result<Result<Trial, JudgeFault>, AllocError>
    requires { IsTheory theory (language_of theory.program.now) }
    ensures { IfOk result (Tries theory.entry lemmas.now []) }
{
    match Trial::new(alloc, theory, lemmas) {
        Ok(trial) => Ok(Ok(trial)),
        Err(JudgeFault::Terms) => Ok(Err(JudgeFault::Terms)),
        Err(JudgeFault::Wide(wide)) => Ok(Err(JudgeFault::Wide(wide))),
        Err(JudgeFault::OutOfMemory) => Err(AllocError),
    }
}

impl CertificateTrial {
    /// Before the first piece.
    fn new(alloc: Global) -> CertificateTrial
        ensures tried { (t : Theory) → HasTried t [] result }
        ensures bytes { result.reader.bytes ≡ 0 }
    {
        let reader = BlockReader::new(alloc);
        let lemmas = Vec::new(alloc);
        CertificateTrial {
            reader,
            lemmas,
            blocks: 0,
            trial: None,
        }
    }

    /// The reader takes the piece.
    fn feed(&mut self, piece: &[u8]) -> Result<(), AllocError>
        requires { self.old.reader.bytes + length piece.now ≤ 4294967294 }
        ensures taken { (t : Theory) (bytes : List ℕ) → HasTried t bytes self.old →
            IfOk result (λ u. HasTaken t (bytes ++ piece.now) self.new) }
        ensures bytes { IfOk result (λ u. self.new.reader.bytes ≤ self.old.reader.bytes + length piece.now) }
    {
        let answer = self.reader.feed(piece);
        go_on(answer)
    }

    /// Keeps the whole lemmas.
    fn take_lemmas(&mut self) -> Result<(), AllocError>
        ensures taken { (t : Theory) (bytes : List ℕ) → HasTaken t bytes self.old →
            IfOk result (λ u. HasTaken t bytes self.new) }
        ensures none { IfOk result (λ u. self.new.reader.progress.lemmas ≡ []) }
        ensures bytes { self.new.reader.bytes ≡ self.old.reader.bytes }
    {
        'lemmas: while let Some(lemma) = self.reader.next_lemma() {
            self.lemmas.push(lemma)?;
        }
        Ok(())
    }

    /// Whether the certificate says that it has so many blocks.
    fn counts(&self, conditions: usize) -> bool
        ensures { MatchBool result (self.now.reader.progress.count ≡ Some conditions)
            (self.now.reader.progress.count ≡ Some conditions → ⊥) }
    {
        match self.reader.count() {
            Some(count) => count == conditions as u64,
            None => false,
        }
    }

    /// Judges the lemmas, once it is known that there are as many blocks as conditions.
    #[tactic(auto, using(crate::proofs::Sessions::judged_before, crate::proofs::Sessions::lemmas_judged))]
    fn judge_lemmas(
        &mut self,
        alloc: Global,
        theory: Theory<'_>,
        labels: &[ProgramLabel],
    ) -> Result<(), AllocError>
        requires theory { IsTheory theory (language_of theory.program.now) }
        requires labels { labels_of labels.now ≡ spec.program_labels theory.program.now }
        ensures begun { (bytes : List ℕ) → self.old.reader.progress.lemmas ≡ [] →
            HasTaken theory.entry bytes self.old → IfOk result (λ u. HasBegun theory.entry bytes self.new) }
        ensures bytes { self.new.reader.bytes ≡ self.old.reader.bytes }
    {
        if self.trial.is_some() {
            return Ok(());
        }
        if !self.counts(labels.len()) {
            return Ok(());
        }
        let trial = begin_trial(alloc, theory, &self.lemmas)?;
        self.trial = Some(trial);
        Ok(())
    }

    /// Takes a block that was handed out: it is counted, and judged where a trial is under way.
    #[tactic(auto, using(crate::proofs::Sessions::block_behind_fault, crate::proofs::Sessions::block_counted))]
    fn take_block(
        &mut self,
        theory: Theory<'_>,
        labels: &[ProgramLabel],
        block: &Refutation,
    ) -> Result<(), AllocError>
        requires ready { (trial : Trial) → self.old.trial ≡ Some (Ok trial) → IsSomeReady theory trial.room }
        requires labels { labels_of labels.now ≡ spec.program_labels theory.program.now }
        ensures took { (s : Scan) → IfOk result (λ u. TakesBlock theory.entry s block.now self.old self.new) }
        ensures reader { self.new.reader ≡ self.old.reader }
    {
        let Some(next) = self.blocks.checked_add(1) else {
            return Err(AllocError);
        };
        self.blocks = next;
        match &mut self.trial {
            Some(Ok(trial)) => trial.take_block(theory, labels, block),
            Some(Err(_)) => Ok(()),
            None => Ok(()),
        }
    }

    /// Takes the whole blocks.
    fn take_blocks(&mut self, theory: Theory<'_>, labels: &[ProgramLabel]) -> Result<(), AllocError>
        requires begun { HasBegunSome theory self.old }
        requires labels { labels_of labels.now ≡ spec.program_labels theory.program.now }
        ensures tried { (bytes : List ℕ) → HasBegun theory.entry bytes self.old →
            IfOk result (λ u. HasTried theory.entry bytes self.new) }
        ensures bytes { self.new.reader.bytes ≡ self.old.reader.bytes }
    {
        'whole: while let Some(block) = self.reader.next_block() {
            self.take_block(theory, labels, &block)?;
        }
        Ok(())
    }

    /// Takes the next piece. A fault of the text is kept for `finish`; only want of memory is an error.
    fn take(
        &mut self,
        alloc: Global,
        theory: Theory<'_>,
        labels: &[ProgramLabel],
        piece: &[u8],
    ) -> Result<(), AllocError>
        requires theory { IsTheory theory (language_of theory.program.now) }
        requires begun { HasTriedSome theory self.old }
        requires labels { labels_of labels.now ≡ spec.program_labels theory.program.now }
        requires fits { self.old.reader.bytes + length piece.now ≤ 4294967294 }
        ensures tried { (bytes : List ℕ) → HasTried theory.entry bytes self.old →
            IfOk result (λ u. HasTried theory.entry (bytes ++ piece.now) self.new) }
        ensures bytes { IfOk result (λ u. self.new.reader.bytes ≤ self.old.reader.bytes + length piece.now) }
    {
        self.feed(piece)?;
        self.take_lemmas()?;
        self.judge_lemmas(alloc, theory, labels)?;
        self.take_blocks(theory, labels)
    }

    /// The outcome of all blocks, where the bytes are a certificate's text.
    fn finish<'a>(self) -> Result<Outcome, Refusal<'a>>
        ensures { (t : Theory) (bytes : List ℕ) → HasTried t bytes self →
            MatchResult result (TriesText t.program.now bytes) (IsNoCertificate bytes) }
    {
        let CertificateTrial {
            reader,
            blocks,
            trial,
            ..
        } = self;
        match reader.finish() {
            Ok(()) => Ok(Outcome {
                blocks,
                verdict: verdict_of(trial),
            }),
            Err(fault) => Err(refusal_of(fault)),
        }
    }
}

/// Takes all bytes of the name, piece by piece.
fn take_pieces<'a, S: Store>(
    alloc: Global,
    store: &mut S,
    name: &'a str,
    theory: Theory<'_>,
    labels: &[ProgramLabel],
    piece: &mut [u8],
    certificate: &mut CertificateTrial,
) -> Result<(), Refusal<'a>>
    requires room { 0 < length piece.old }
    requires theory { IsTheory theory (language_of theory.program.now) }
    requires labels { labels_of labels.now ≡ spec.program_labels theory.program.now }
    requires first { HasTried theory [] certificate.old }
    requires bytes { certificate.old.reader.bytes ≡ 0 }
    ensures tried { IfOk result (λ u.
        HasTriedName theory.entry (S.contents store.old) name.entry.now certificate.new) }
    ensures stops { (m : Map) → S.contents store.old ≡ Some m →
        IfErr result (IsUnread m name.entry.now CertBytes) }
    ensures fault { IsReadFault result → S.read_faults store.old < S.read_faults store.new }
    ensures never_falls { S.read_faults store.old ≤ S.read_faults store.new }
    ensures kept { S.contents store.new ≡ S.contents store.old }
{
    let mut offset = 0;
    'pieces: loop {
        let count = match read_piece(store, name, Limit::CertBytes, offset, piece) {
            Ok(count) => count,
            Err(refusal) => return Err(refusal),
        };
        if count == 0 {
            return Ok(());
        }
        let Ok(()) = certificate.take(alloc, theory, labels, &piece[..count]) else {
            return Err(Refusal::OutOfMemory);
        };
        offset += count as u64;
    }
}

/// Reads the certificate with this name, judges its lemmas and its blocks as they come, and gives the outcome of all of
/// them. The whole of it is read before a fault of its text is answered.
pub fn try_certificate<'a, S: Store>(
    alloc: Global,
    store: &mut S,
    name: &'a str,
    theory: Theory<'_>,
    labels: &[ProgramLabel],
) -> Result<Outcome, Refusal<'a>>
    requires theory { IsTheory theory (language_of theory.program.now) }
    requires labels { labels_of labels.now ≡ spec.program_labels theory.program.now }
    ensures answer { (m : Map) → S.contents store.old ≡ Some m → MatchResult result
        (HoldsTrial m name.entry.now theory.entry.program.now) (IsCertificateStop m name.entry.now) }
    ensures took { IfOk result (λ o. (lemmas : List Derivation) × (blocks : List Derivation) ×
        TookAll theory.entry.program.now o lemmas blocks) }
    ensures fault { IsReadFault result → S.read_faults store.old < S.read_faults store.new }
    ensures never_falls { S.read_faults store.old ≤ S.read_faults store.new }
    ensures kept { S.contents store.new ≡ S.contents store.old }
{
    let Ok(mut piece) = empty_piece(alloc) else {
        return Err(Refusal::OutOfMemory);
    };
    let mut certificate = CertificateTrial::new(alloc);
    let room = piece.as_mut_slice();
    match take_pieces(alloc, store, name, theory, labels, room, &mut certificate) {
        Ok(()) => certificate.finish(),
        Err(refusal) => Err(refusal),
    }
}
