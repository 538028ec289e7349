//! What is known on a path.

ghost use Rattle.std.specs.Prelude.{◌≡◌, ◌++◌, IfOk, List, length};
ghost use Rattle.terms.specs.declared.term.Term.{Term};
ghost use Rattle.conditions.specs.Paths.{Path, facts};
ghost use Rattle.condition_formulas.specs.Standing.{StandAll};
ghost use Rattle.condition_code.specs.Walks.{Goes};
ghost use Rattle.condition_code.specs.declared.walk.Step.{Step};
ghost use Rattle.condition_branches.specs.Facts.{depth_behind, fact_at, facts_left};

use condition_code::walk::Step;
use std::alloc::{AllocError, Global};

/// In how many ways that are gone the next step stands, where this one stands in so many.
fn depth_behind(depth: usize, step: Step) -> Result<usize, AllocError>
    ensures { IfOk result (λ d. d ≡ depth_behind depth step) }
{
    match step {
        Step::Check(_) => Ok(depth),
        Step::Fact(_) => Ok(depth),
        Step::Standalone(_) => Ok(depth),
        Step::Enter => match depth.checked_add(1) {
            Some(deeper) => Ok(deeper),
            None => Err(AllocError),
        },
        Step::Leave => Ok(depth.saturating_sub(1)),
    }
}

/// Adds the step's fact, if it has one and stands in no way that is gone.
fn add_fact(ids: &mut Vec<u32>, depth: usize, step: Step) -> Result<(), AllocError>
    ensures { IfOk result (λ _. ids.new.items ≡ ids.old.items ++ fact_at depth step) }
{
    if depth > 0 {
        return Ok(());
    }
    match step {
        Step::Check(formula) => {
            ids.push(formula)?;
            Ok(())
        }
        Step::Fact(formula) => {
            ids.push(formula)?;
            Ok(())
        }
        Step::Standalone(_) => Ok(()),
        Step::Enter => Ok(()),
        Step::Leave => Ok(()),
    }
}

/// The facts that the steps leave, without those of ways that are gone.
fn facts_left(alloc: Global, steps: &[Step]) -> Result<Vec<u32>, AllocError>
    ensures { IfOk result (λ ids. ids.items ≡ facts_left 0 steps.now) }
{
    let mut ids = Vec::new(alloc);
    let mut depth: usize = 0;
    for step in steps {
        add_fact(&mut ids, depth, *step)?;
        let deeper = depth_behind(depth, *step)?;
        depth = deeper;
    }
    Ok(ids)
}

/// The facts of the path from this place on, without those of ways that are gone.
pub fn facts_since(alloc: Global, path: &[Step], from: usize) -> Result<Vec<u32>, AllocError>
    ensures { (first now : List Term) (before : List Step) (q : Path) →
        length before ≡ from → Goes first now before path.now q →
        IfOk result (λ ids. StandAll now ids.items (facts q)) }
{
    if from > path.len() {
        return Ok(Vec::new(alloc));
    }
    let ids = facts_left(alloc, &path[from..])?;
    Ok(ids)
}
