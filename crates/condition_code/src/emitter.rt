//! The conditions of a path, one by one.

ghost use Rattle.std.specs.Prelude.{◌≡◌, ◌∷◌, ◌++◌, [], IfOk, List, length, reverse};
ghost use Rattle.terms.specs.declared.term.Term.{Term};
ghost use Rattle.terms.specs.Formula.{Formula};
ghost use Rattle.conditions.specs.Paths.{Path, conditions};
ghost use Rattle.condition_formulas.specs.Standing.{StandAll, StandsAs, Later};
ghost use Rattle.conditions.specs.Formulas.{all_of, imp};
ghost use Rattle.condition_code.specs.Steps.{FormulaStep, known_before, marks_around, steps_of};
ghost use Rattle.condition_code.specs.Walks.{IsStep, StandSteps};
ghost use Rattle.condition_code.specs.Emitters.{Answers, Holds, Passes};
ghost use Rattle.condition_code.specs.declared.walk.Step.{Step};

use crate::walk::Step;
use condition_formulas::formulas::imp;
use condition_formulas::lists::all_of;
use std::alloc::{AllocError, Global};
use term_graph::graph::Graph;

/// Where the conditions of a path are given one by one: the place on the path, the facts there, and how many of them
/// there were where each way that is gone was entered.
#[derive(Drop)]
pub struct Emitter {
    pub at: usize,
    pub known: Vec<u32>,
    pub marks: Vec<usize>,
}

impl Emitter {
    /// At the start of a path, with no facts.
    pub fn new(alloc: Global) -> Emitter
        ensures { (ts : List Term) (path : List Step) (q : Path) → StandSteps ts path (steps_of q) → Holds ts result path (conditions [] q) }
    {
        Emitter {
            at: 0,
            known: Vec::new(alloc),
            marks: Vec::new(alloc),
        }
    }

    /// How many facts there are.
    fn facts(&self) -> usize
        ensures { result ≡ length self.now.known.items }
    {
        self.known.len()
    }

    /// The condition of a check behind the facts here; the check is a fact then.
    fn condition(&mut self, graph: &mut Graph, formula: u32) -> Result<u32, AllocError>
        ensures stands { (known : List Formula) (f : Formula) → StandAll graph.old self.old.known.items known → StandsAs graph.old formula f → IfOk result (λ id. StandsAs graph.new id (imp (all_of known) f)) }
        ensures later { Later graph.old graph.new }
        ensures known { IfOk result (λ id. self.new.known.items ≡ self.old.known.items ++ formula ∷ []) }
        ensures marks { self.new.marks ≡ self.old.marks }
        ensures at { self.new.at ≡ self.old.at }
    {
        let all = all_of(graph, &self.known)?;
        let condition = imp(graph, all, formula)?;
        self.known.push(formula)?;
        Ok(condition)
    }

    /// A way ends, and its facts with it.
    fn leave(&mut self)
        ensures known { self.new.known.items ≡ known_before (reverse self.old.marks.items) self.old.known.items }
        ensures marks { reverse self.new.marks.items ≡ marks_around (reverse self.old.marks.items) }
        ensures at { self.new.at ≡ self.old.at }
    {
        if let Some(known) = self.marks.pop() {
            self.known.truncate(known);
        }
    }

    /// One step further: its condition, if it has one.
    fn take(&mut self, graph: &mut Graph, step: Step) -> Result<Option<u32>, AllocError>
        ensures passes { (known : List Formula) (d : FormulaStep) → StandAll graph.old self.old.known.items known → IsStep graph.old step d → IfOk result (λ o. Passes graph.new self.old.marks.items self.new.known.items self.new.marks.items known d o) }
        ensures later { Later graph.old graph.new }
        ensures at { self.new.at ≡ self.old.at }
    {
        match step {
            Step::Check(formula) => {
                let condition = self.condition(graph, formula)?;
                Ok(Some(condition))
            }
            Step::Fact(formula) => {
                self.known.push(formula)?;
                Ok(None)
            }
            Step::Standalone(formula) => Ok(Some(formula)),
            Step::Enter => {
                let count = self.facts();
                self.marks.push(count)?;
                Ok(None)
            }
            Step::Leave => {
                self.leave();
                Ok(None)
            }
        }
    }

    /// The next condition of the path, as a formula of the graph; none behind the last.
    pub fn next(&mut self, graph: &mut Graph, path: &[Step]) -> Result<Option<u32>, AllocError>
        ensures next { (fs : List Formula) → Holds graph.old self.old path.now fs → IfOk result (λ o. Answers graph.new self.new path.now o fs) }
        ensures later { Later graph.old graph.new }
    {
        while self.at < path.len() {
            let step = path[self.at];
            self.at += 1;
            if let Some(condition) = self.take(graph, step)? {
                return Ok(Some(condition));
            }
        }
        Ok(None)
    }
}
