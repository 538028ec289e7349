//! What a walk of code writes.

ghost use Rattle.std.specs.Prelude.{◌≡◌, ◌++◌, [], IfOk, List, length, map};
ghost use Rattle.terms.specs.declared.term.Term.{Term};
ghost use Rattle.terms.specs.Formula.{Formula};
ghost use Rattle.conditions.specs.Paths.{Path, Done, Check, Fact, Standalone, guarded};
ghost use Rattle.condition_formulas.specs.Standing.{StandsAs, StandAll, Later};
ghost use Rattle.condition_code.specs.Steps.{FormulaStep, all_checks, facts_of, guard_step};
ghost use Rattle.condition_code.specs.Walks.{Goes, IsStep, Marks, StandSteps, Went};
ghost use Rattle.condition_code.specs.declared.walk.Step.{Step};
ghost use Rattle.condition_code.specs.declared.walk.Step.TheVariants.{Check as Check', Fact as Fact', Enter, Leave};

use condition_formulas::formulas::imp;
use std::alloc::{AllocError, Global};
use term_graph::graph::Graph;

/// A step of a path, by the number of its formula. Between `Enter` and `Leave` stand those of a way that code may take,
/// whose facts end with it.
#[derive(Clone, Copy, Debug)]
pub enum Step {
    Check(u32),
    Fact(u32),
    Standalone(u32),
    Enter,
    Leave,
}

/// What a walk of code writes: formulas, and the path so far.
#[derive(Drop)]
pub struct Walk {
    pub alloc: Global,
    pub graph: Graph,
    pub path: Vec<Step>,
}

/// The path, and these checks behind it.
fn add_checks(path: &mut Vec<Step>, formulas: &[u32]) -> Result<(), AllocError>
    ensures { IfOk result (λ u. path.new.items ≡ path.old.items ++ map Check' formulas.now) }
{
    for formula in formulas {
        path.push(Step::Check(*formula))?;
    }
    Ok(())
}

/// The path, and these facts behind it.
fn add_facts(path: &mut Vec<Step>, formulas: &[u32]) -> Result<(), AllocError>
    ensures { IfOk result (λ u. path.new.items ≡ path.old.items ++ map Fact' formulas.now) }
{
    for formula in formulas {
        path.push(Step::Fact(*formula))?;
    }
    Ok(())
}

/// The step, made only where the test holds.
fn guarded_step(graph: &mut Graph, test: u32, step: Step) -> Result<Step, AllocError>
    ensures stands { (f : Formula) (d : FormulaStep) → StandsAs graph.old test f → IsStep graph.old step d → IfOk result (λ c. IsStep graph.new c (guard_step f d)) }
    ensures later { Later graph.old graph.new }
{
    match step {
        Step::Check(formula) => {
            let guarded = imp(graph, test, formula)?;
            Ok(Step::Check(guarded))
        }
        Step::Fact(formula) => Ok(Step::Fact(formula)),
        Step::Standalone(formula) => Ok(Step::Standalone(formula)),
        Step::Enter => Ok(Step::Enter),
        Step::Leave => Ok(Step::Leave),
    }
}

/// The steps, each check made only where the test holds.
fn guarded_steps(
    alloc: Global,
    graph: &mut Graph,
    test: u32,
    steps: &[Step],
) -> Result<Vec<Step>, AllocError>
    ensures stands { (f : Formula) (ds : List FormulaStep) → StandsAs graph.old test f → StandSteps graph.old steps.now ds → IfOk result (λ cs. StandSteps graph.new cs.items (map (guard_step f) ds)) }
    ensures later { Later graph.old graph.new }
{
    let mut guarded = Vec::new(alloc);
    for step in steps {
        let one = guarded_step(graph, test, *step)?;
        guarded.push(one)?;
    }
    Ok(guarded)
}

impl Walk {
    /// An empty path, over no formulas.
    pub fn new(alloc: Global) -> Walk
        ensures graph { result.graph ≡ [] }
        ensures path { result.path.items ≡ [] }
    {
        Walk {
            alloc,
            graph: Graph::new(alloc),
            path: Vec::new(alloc),
        }
    }

    /// How many steps the path has.
    pub fn place(&self) -> usize
        ensures { result ≡ length self.now.path.items }
    {
        self.path.len()
    }

    /// The formula is checked, and is a fact from there on.
    pub fn check(&mut self, formula: u32) -> Result<(), AllocError>
        ensures { (f : Formula) → StandsAs self.old.graph formula f → IfOk result (λ u. Went self.old self.new (Check f Done)) }
    {
        self.path.push(Step::Check(formula))?;
        Ok(())
    }

    /// Each is checked, in their order.
    pub fn check_each(&mut self, formulas: &[u32]) -> Result<(), AllocError>
        ensures { (fs : List Formula) → StandAll self.old.graph formulas.now fs → IfOk result (λ u. Went self.old self.new (all_checks fs)) }
    {
        add_checks(&mut self.path, formulas)?;
        Ok(())
    }

    /// The formula is a fact.
    pub fn fact(&mut self, formula: u32) -> Result<(), AllocError>
        ensures { (f : Formula) → StandsAs self.old.graph formula f → IfOk result (λ u. Went self.old self.new (Fact f Done)) }
    {
        self.path.push(Step::Fact(formula))?;
        Ok(())
    }

    /// Each is a fact, in their order.
    pub fn all_facts(&mut self, formulas: &[u32]) -> Result<(), AllocError>
        ensures { (fs : List Formula) → StandAll self.old.graph formulas.now fs → IfOk result (λ u. Went self.old self.new (facts_of fs)) }
    {
        add_facts(&mut self.path, formulas)?;
        Ok(())
    }

    /// The formula is checked by itself, without the facts before it.
    pub fn standalone(&mut self, formula: u32) -> Result<(), AllocError>
        ensures { (f : Formula) → StandsAs self.old.graph formula f → IfOk result (λ u. Went self.old self.new (Standalone f Done)) }
    {
        self.path.push(Step::Standalone(formula))?;
        Ok(())
    }

    /// Here a way begins that code may take.
    pub fn enter(&mut self) -> Result<(), AllocError>
        ensures { IfOk result (λ u. Marks Enter self.old self.new) }
    {
        self.path.push(Step::Enter)?;
        Ok(())
    }

    /// Here it ends, and its facts with it.
    pub fn leave(&mut self) -> Result<(), AllocError>
        ensures { IfOk result (λ u. Marks Leave self.old self.new) }
    {
        self.path.push(Step::Leave)?;
        Ok(())
    }

    /// Each check from this place of the path on is made only where the test holds.
    pub fn guard(&mut self, from: usize, test: u32) -> Result<(), AllocError>
        ensures { (first : List Term) (before : List Step) (f : Formula) (q : Path) → StandsAs self.old.graph test f → length before ≡ from → Goes first self.old.graph before self.old.path.items q → IfOk result (λ u. Goes first self.new.graph before self.new.path.items (guarded f q)) }
    {
        if from >= self.place() {
            return Ok(());
        }
        let guarded = guarded_steps(self.alloc, &mut self.graph, test, &self.path[from..])?;
        self.path.truncate(from);
        self.path.extend_from_slice(&guarded)?;
        Ok(())
    }
}
