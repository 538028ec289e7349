//! The instance of an axiom's part, by its numbers.

ghost use Rattle.std.specs.Prelude.{IfOk};
ghost use Rattle.condition_formulas.specs.Standing.{Later};
ghost use Rattle.rule_instances.specs.Instances.{Runs, Instantiates};

use crate::block::Block;
use crate::making::last;
use crate::numbers::Numbers;
use crate::walk::State;
use axiom_steps::axioms::steps_of;
use axiom_steps::steps::Step;
use std::alloc::{AllocError, Global};
use term_graph::graph::Graph;

/// The node that the steps make of the numbers, none where these don't fit or some are left over.
fn run(
    alloc: Global,
    block: &Block<'_>,
    graph: &mut Graph,
    numbers: &mut Numbers<'_>,
    steps: &[Step],
) -> Result<Option<u32>, AllocError>
    ensures exact { IfOk result (Runs block.now steps.now graph.old graph.new numbers.old) }
    ensures later { Later graph.old graph.new }
{
    let mut state = State::new(alloc);
    for step in steps {
        let went = state.apply(alloc, block, graph, numbers, *step)?;
        if !went {
            return Ok(None);
        }
    }
    if numbers.len() > 0 {
        return Ok(None);
    }
    Ok(last(&state.terms, 1))
}

/// The instance of the axiom with this number, of its part with this one, for these arguments: the node that is its
/// formula, made where it isn't there. None where there is no such part, or the arguments don't fit it: too few or too
/// many, a negative one, a name that the block lacks, a term of another sort, or a test that fails.
pub fn instance(
    alloc: Global,
    block: &Block<'_>,
    graph: &mut Graph,
    number: i128,
    part: i128,
    args: &[i128],
) -> Result<Option<u32>, AllocError>
    ensures exact { IfOk result (Instantiates block.now graph.old graph.new number part args.now) }
    ensures later { Later graph.old graph.new }
{
    let steps = steps_of(number, part);
    let id = run(alloc, block, graph, &mut Numbers::new(args), steps)?;
    Ok(id)
}
