//! The lines of a certificate, one after the other.

ghost use Rattle.std.specs.Prelude.{◌≡◌, ◌+◌, ◌<◌, ◌≤◌, ◌^◌, ◌++◌, ◌∷◌, Some, None, OnOk, IfErr, drop, option_to_list};
ghost use Rattle.cert_format.specs.declared.fault.LineFault.TheVariants.{OutOfMemory};
ghost use Rattle.cert_lines.specs.Grammar.{words_of};
ghost use Rattle.cert_format.specs.Text.{seen};
ghost use Rattle.cert_reader.specs.Keeping as keeping;
ghost use Rattle.cert_reader.specs.Keeping.{Leaves, in_conditions, in_derivation, in_lemmas, next_line, take_step, take_term};

use cert_format::certificate::{Certificate, Owner, Refutation, Step};
use cert_format::fault::LineFault;
use cert_format::stage::{Counts, Stage};
use cert_lines::lines::{count_line, end_line, head_line, step_line, term_line, version_line};
use std::alloc::Global;
use std::collections::VecDeque;
use std::marker::Model;
use std::mem;
use terms::term::Term;

/// What the whole lines so far have given.
#[derive(Drop)]
pub(crate) struct Parser {
    alloc: Global,
    version: u32,
    lemma_count: u32,
    count: Option<u64>,
    stage: Stage,
    terms: Vec<Term>,
    steps: Vec<Step>,
    lemmas: VecDeque<Refutation>,
    blocks: VecDeque<Refutation>,
    lines: u32,
}

impl Model for Parser {
    ghost use Rattle.cert_reader.specs.Keeping.{Progress};

    ghost Value = { Progress };

    ghost view = { λ p. record {
      version = p.version;
      lemma_count = p.lemma_count;
      count = p.count;
      stage = p.stage;
      terms = p.terms.items;
      steps = p.steps.items;
      lemmas = p.lemmas.items;
      blocks = p.blocks.items;
      lines = p.lines;
    } };
}

impl Parser {
    pub(crate) fn new(alloc: Global) -> Parser
        ensures { result ≡ keeping.unread }
    {
        Parser {
            alloc,
            version: 0,
            lemma_count: 0,
            count: None,
            stage: Stage::Version,
            terms: Vec::new(alloc),
            steps: Vec::new(alloc),
            lemmas: VecDeque::new(alloc),
            blocks: VecDeque::new(alloc),
            lines: 0,
        }
    }

    pub(crate) fn lines(&self) -> u32
        ensures { result ≡ self.now.lines }
    {
        self.lines
    }

    /// What was read and not handed out.
    pub(crate) fn into_certificate(self) -> Certificate
        ensures { seen result ≡ keeping.proofs_of self }
    {
        Certificate {
            version: self.version,
            lemmas: self.lemmas.into_vec(),
            blocks: self.blocks.into_vec(),
        }
    }

    /// The number in the line `conditions`, once it was read.
    pub(crate) fn count(&self) -> Option<u64>
        ensures { result ≡ self.now.count }
    {
        self.count
    }

    pub(crate) fn stage(&self) -> Stage
        ensures { result ≡ self.now.stage }
    {
        self.stage
    }

    /// The first lemma of those that weren't handed out.
    pub(crate) fn next_lemma(&mut self) -> Option<Refutation>
        ensures lemma { self.old.lemmas ≡ option_to_list result ++ self.new.lemmas }
        ensures kept { self.new ≡ record self.old { lemmas = drop 1 self.old.lemmas } }
    {
        self.lemmas.pop_front()
    }

    /// The first block of those that weren't handed out.
    pub(crate) fn next_block(&mut self) -> Option<Refutation>
        ensures block { self.old.blocks ≡ option_to_list result ++ self.new.blocks }
        ensures kept { self.new ≡ record self.old { blocks = drop 1 self.old.blocks } }
    {
        self.blocks.pop_front()
    }

    /// The lemma or block is whole.
    fn complete(&mut self, owner: Owner, left: u32) -> Result<(), LineFault>
        ensures value { OnOk result (self.new ≡ keeping.completed self.old owner left) }
        ensures memory { IfErr result (λ e. e ≡ OutOfMemory) }
        ensures lines { self.new.lines ≡ self.old.lines }
    {
        let terms = mem::replace(&mut self.terms, Vec::new(self.alloc));
        let steps = mem::replace(&mut self.steps, Vec::new(self.alloc));
        let derivation = Refutation::new(terms, steps);
        match owner {
            Owner::OfLemma(_) => {
                self.lemmas.push_back(derivation)?;
                self.stage = Stage::Lemmas(left);
            }
            Owner::OfCondition(_) => {
                self.blocks.push_back(derivation)?;
                self.stage = Stage::Conditions(left);
            }
        }
        Ok(())
    }

    /// Lines of it are still to come, or it is whole.
    fn go_on(&mut self, owner: Owner, left: u32, counts: Counts) -> Result<(), LineFault>
        ensures value { OnOk result (self.new ≡ keeping.continued self.old owner left counts) }
        ensures memory { IfErr result (λ e. e ≡ OutOfMemory) }
        ensures lines { self.new.lines ≡ self.old.lines }
    {
        if counts.terms == 0 && counts.steps == 0 {
            return self.complete(owner, left);
        }
        self.stage = Stage::InDerivation(owner, left, counts);
        Ok(())
    }

    #[tactic(auto, unfolding(crate::specs::Keeping::take_version))]
    fn take_version(&mut self, line: &[u8]) -> Result<(), LineFault>
        ensures takes { Leaves self.old self.new (keeping.take_version self.old (words_of line.now)) result }
        ensures lines { self.new.lines ≡ self.old.lines }
    {
        let version = version_line(line)?;
        self.version = version;
        self.stage = after_version(version);
        Ok(())
    }

    #[tactic(auto, unfolding(crate::specs::Keeping::take_lemma_count))]
    fn take_lemma_count(&mut self, line: &[u8]) -> Result<(), LineFault>
        ensures takes { Leaves self.old self.new (keeping.take_lemma_count self.old (words_of line.now)) result }
        ensures lines { self.new.lines ≡ self.old.lines }
    {
        let count = count_line(b"lemmas", line)?;
        self.lemma_count = count;
        self.stage = Stage::Lemmas(count);
        Ok(())
    }

    #[tactic(auto, unfolding(crate::specs::Keeping::take_condition_count))]
    fn take_condition_count(&mut self, line: &[u8]) -> Result<(), LineFault>
        ensures takes { Leaves self.old self.new (keeping.take_condition_count self.old (words_of line.now)) result }
        ensures lines { self.new.lines ≡ self.old.lines }
    {
        let count = count_line(b"conditions", line)?;
        self.count = Some(u64::from(count));
        self.stage = Stage::Conditions(count);
        Ok(())
    }

    #[tactic(auto, unfolding(crate::specs::Keeping::take_head))]
    fn take_head(&mut self, owner: Owner, left: u32, line: &[u8]) -> Result<(), LineFault>
        ensures takes { Leaves self.old self.new (keeping.take_head self.old owner left (words_of line.now)) result }
        ensures lines { self.new.lines ≡ self.old.lines }
    {
        let counts = head_line(owner, line)?;
        self.go_on(owner, left, counts)?;
        Ok(())
    }

    #[tactic(auto, unfolding(crate::specs::Keeping::take_term))]
    fn take_term(
        &mut self,
        owner: Owner,
        left: u32,
        counts: Counts,
        line: &[u8],
    ) -> Result<(), LineFault>
        requires { 0 < counts.terms }
        ensures takes { Leaves self.old self.new (take_term self.old owner left counts (words_of line.now)) result }
        ensures lines { self.new.lines ≡ self.old.lines }
    {
        let term = term_line(self.alloc, line)?;
        self.terms.push(term)?;
        let counts = Counts {
            terms: counts.terms - 1,
            steps: counts.steps,
            literals: counts.literals,
        };
        self.go_on(owner, left, counts)?;
        Ok(())
    }

    #[tactic(auto, unfolding(crate::specs::Keeping::take_step))]
    fn take_step(
        &mut self,
        owner: Owner,
        left: u32,
        counts: Counts,
        line: &[u8],
    ) -> Result<(), LineFault>
        ensures takes { Leaves self.old self.new (take_step self.old owner left counts (words_of line.now)) result }
        ensures lines { self.new.lines ≡ self.old.lines }
    {
        let step = step_line(self.alloc, owner, counts.literals, line)?;
        let literals = step.clause.literals().len() as u32;
        if !(1 < counts.steps || literals == counts.literals) {
            return Err(LineFault::BadLine);
        }
        self.steps.push(step)?;
        let counts = Counts {
            terms: 0,
            steps: counts.steps.saturating_sub(1),
            literals: counts.literals - literals,
        };
        self.go_on(owner, left, counts)?;
        Ok(())
    }

    #[tactic(auto, unfolding(crate::specs::Keeping::take_end))]
    fn take_end(&mut self, line: &[u8]) -> Result<(), LineFault>
        ensures takes { Leaves self.old self.new (keeping.take_end self.old (words_of line.now)) result }
        ensures lines { self.new.lines ≡ self.old.lines }
    {
        end_line(line)?;
        self.stage = Stage::Ended;
        Ok(())
    }

    /// The line that has to come.
    fn next_line(&mut self, line: &[u8]) -> Result<(), LineFault>
        ensures takes { Leaves self.old self.new (next_line self.old self.old.stage (words_of line.now)) result }
        ensures lines { self.new.lines ≡ self.old.lines }
    {
        match self.stage {
            Stage::Version => self.take_version(line),
            Stage::LemmaCount => self.take_lemma_count(line),
            Stage::Lemmas(left) => self.in_lemmas(left, line),
            Stage::InDerivation(owner, left, counts) => self.in_derivation(
                owner, left, counts, line,
            ),
            Stage::Conditions(left) => self.in_conditions(left, line),
            Stage::Ended => Err(LineFault::Trailing),
        }
    }

    fn in_lemmas(&mut self, left: u32, line: &[u8]) -> Result<(), LineFault>
        ensures takes { Leaves self.old self.new (in_lemmas self.old left (words_of line.now)) result }
        ensures lines { self.new.lines ≡ self.old.lines }
    {
        if left == 0 {
            return self.take_condition_count(line);
        }
        let number = self.lemma_count.saturating_sub(left);
        self.take_head(Owner::OfLemma(number), left - 1, line)
    }

    fn in_derivation(
        &mut self,
        owner: Owner,
        left: u32,
        counts: Counts,
        line: &[u8],
    ) -> Result<(), LineFault>
        ensures takes { Leaves self.old self.new (in_derivation self.old owner left counts (words_of line.now)) result }
        ensures lines { self.new.lines ≡ self.old.lines }
    {
        if counts.terms == 0 {
            return self.take_step(owner, left, counts, line);
        }
        self.take_term(owner, left, counts, line)
    }

    fn in_conditions(&mut self, left: u32, line: &[u8]) -> Result<(), LineFault>
        ensures takes { Leaves self.old self.new (in_conditions self.old left (words_of line.now)) result }
        ensures lines { self.new.lines ≡ self.old.lines }
    {
        if left == 0 {
            return self.take_end(line);
        }
        let version = self.version;
        self.take_head(Owner::OfCondition(version), left - 1, line)
    }

    /// Takes the next line, without its LF.
    #[tactic(auto, unfolding(crate::specs::Keeping::take_line))]
    pub(crate) fn take_line(&mut self, line: &[u8]) -> Result<(), LineFault>
        requires { self.old.lines + 1 < 2 ^ 32 }
        ensures takes { Leaves self.old self.new (keeping.take_line self.old (words_of line.now)) result }
        ensures lines { self.new.lines ≤ self.old.lines + 1 }
    {
        self.next_line(line)?;
        self.lines += 1;
        Ok(())
    }
}

/// How the stage goes on behind the first line.
fn after_version(version: u32) -> Stage
    ensures { result ≡ keeping.after_version version }
{
    if version == 2 {
        return Stage::LemmaCount;
    }
    Stage::Lemmas(0)
}
