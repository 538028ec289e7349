//! The conclusions of one block.

ghost use Rattle.std.specs.Prelude.{◌≡◌, ◌<◌, ◌++◌, List, Some, length, slice_get, IfOk, OnOk};
ghost use Rattle.terms.specs.Formula.{Formula};
ghost use Rattle.term_meaning.specs.Meaning.{Language as Meant};
ghost use Rattle.condition_formulas.specs.Standing.{Later, StandAll, StandsAs};
ghost use Rattle.term_language.specs.Languages.{IsLanguage};
ghost use Rattle.block_layout.specs.Space.{IsSorted, IsTheory, Keeps, StaysSorted};
ghost use Rattle.certificate_upgrade.specs.Conclusions.{Conclusion as Concluded, block_trees, conclusion, step_conclusions, steps_conclusions};
ghost use Rattle.certificate_upgrade.specs.Held.{AreConclusions, AreMarks, Marks, block_conclusions, step_trees};

use crate::arguments::{arg_marks, arg_nodes, args_of};
use crate::conclusions::conclusion;
use crate::trees::{own_terms, put_block};
use block_layout::space::{Space, Theory};
use cert_format::certificate::{Refutation, Step};
use certificate_upgrade::conclusion::{Conclusion, Conclusions};
use graph_numbering::numbering::number;
use graph_numbering::places::Places;
use std::alloc::{AllocError, Global};
use term_graph::graph::Graph;
use term_language::language::Language;
use terms::numbers::Numbers;

fn root_at(roots: &[u32], i: usize) -> u32
    requires { i < length roots.now }
    ensures { slice_get roots.now i ≡ Some result }
{
    roots[i]
}

/// The numbers in the target of the formulas that these nodes of the graph stand for.
fn number_all(
    alloc: Global,
    graph: &Graph,
    roots: &[u32],
    target: &mut Graph,
    places: &mut Places,
) -> Result<Vec<u32>, AllocError>
    ensures stands { (fs : List Formula) → StandAll graph.now roots.now fs →
        IfOk result (λ ids. StandAll target.new ids.items fs) }
    ensures later { Later target.old target.new }
{
    let mut ids = Vec::new(alloc);
    for i in 0..roots.len() {
        let id = number(graph, root_at(roots, i), target, places)?;
        ids.push(id)?;
    }
    Ok(ids)
}

/// The same numbers.
fn copy_of(alloc: Global, numbers: &[i128]) -> Result<Numbers, AllocError>
    ensures { IfOk result (λ copy. copy ≡ numbers.now) }
{
    let copy = Vec::from_slice(alloc, numbers)?;
    Ok(Numbers::new(copy))
}

/// Adds what the step concludes, the formula that the node of the space stands for, and gives its node among the
/// conclusions' trees.
fn add_conclusion(
    alloc: Global,
    language: &Language,
    names: &[u32],
    step: &Step,
    node: u32,
    space: &Space,
    places: &mut Places,
    held: &mut Conclusions,
) -> Result<u32, AllocError>
    ensures list { (l : Meant) (trees : List Formula) (f : Formula) (cs : List Concluded) → IsLanguage language.now l →
        StandAll space.now.graph names.now trees → StandsAs space.now.graph node f → AreConclusions l held.old cs →
        OnOk result (AreConclusions l held.new (cs ++ step_conclusions l trees step.now (Some f))) }
    ensures stands { (f : Formula) → StandsAs space.now.graph node f →
        IfOk result (λ id. StandsAs held.new.graph id f) }
    ensures later { Later held.old.graph held.new.graph }
{
    let taken = step.numbers.as_slice();
    let arguments = args_of(alloc, taken)?;
    let marks = arg_marks(alloc, &language.columns, taken, &arguments)?;
    let nodes = arg_nodes(alloc, names, &marks, &arguments)?;
    let numbers = copy_of(alloc, taken)?;
    let tree = number(&space.graph, node, &mut held.graph, places)?;
    let args = number_all(alloc, &space.graph, &nodes, &mut held.graph, places)?;
    held.list.push(Conclusion {
        tree,
        numbers,
        marks,
        args,
    })?;
    Ok(tree)
}

/// Adds what the step concludes, if it does, and gives its node among the conclusions' trees.
fn conclude_step(
    alloc: Global,
    theory: Theory<'_>,
    names: &[u32],
    step: &Step,
    space: &mut Space,
    places: &mut Places,
    held: &mut Conclusions,
) -> Result<Option<u32>, AllocError>
    ensures list { (l : Meant) (trees : List Formula) (cs : List Concluded) → IsTheory theory.entry l →
        IsSorted l space.old → StandAll space.old.graph names.now trees → AreConclusions l held.old cs →
        OnOk result (AreConclusions l held.new
        (cs ++ step_conclusions l trees step.now (conclusion l trees step.now))) }
    ensures mark { (l : Meant) (trees : List Formula) → IsTheory theory.entry l → IsSorted l space.old →
        StandAll space.old.graph names.now trees →
        IfOk result (λ id. Marks held.new.graph id (conclusion l trees step.now)) }
    ensures later { Later held.old.graph held.new.graph }
    ensures kept { Keeps theory.entry.language.now space.old space.new }
    ensures sorted { OnOk result (StaysSorted theory.entry.language.now space.old space.new) }
{
    let concluded = conclusion(alloc, theory, names, step, space)?;
    let Some(node) = concluded else {
        return Ok(None);
    };
    let tree = add_conclusion(
        alloc,
        theory.language,
        names,
        step,
        node,
        space,
        places,
        held,
    )?;
    Ok(Some(tree))
}

fn step_at(steps: &[Step], i: usize) -> &Step
    requires { i < length steps.now }
    ensures { slice_get steps.now i ≡ Some result.now }
{
    &steps[i]
}

/// Adds what the steps conclude over the terms that the names name in the space, and gives the tree that each of them
/// concludes, if it does, by its node among the conclusions' trees.
fn conclude_steps(
    alloc: Global,
    theory: Theory<'_>,
    names: &[u32],
    steps: &[Step],
    space: &mut Space,
    places: &mut Places,
    held: &mut Conclusions,
) -> Result<Vec<Option<u32>>, AllocError>
    ensures list { (l : Meant) (trees : List Formula) (cs : List Concluded) → IsTheory theory.entry l →
        IsSorted l space.old → StandAll space.old.graph names.now trees → AreConclusions l held.old cs →
        OnOk result (AreConclusions l held.new (cs ++ steps_conclusions l trees steps.now)) }
    ensures marks { (l : Meant) (trees : List Formula) → IsTheory theory.entry l → IsSorted l space.old →
        StandAll space.old.graph names.now trees →
        IfOk result (λ marks. AreMarks held.new.graph marks.items (step_trees l trees steps.now)) }
    ensures later { Later held.old.graph held.new.graph }
{
    let mut marks = Vec::new(alloc);
    for i in 0..steps.len() {
        let mark = conclude_step(alloc, theory, names, step_at(steps, i), space, places, held)?;
        marks.push(mark)?;
    }
    Ok(marks)
}

/// Adds what the steps of the block conclude by axioms, over the condition that the node of the graph stands for, and
/// gives the tree that each step concludes, if it does, by its node among the conclusions' trees.
///
/// # Errors
/// Where memory is refused.
pub fn add_conclusions(
    alloc: Global,
    theory: Theory<'_>,
    graph: &Graph,
    condition: u32,
    block: &Refutation,
    held: &mut Conclusions,
) -> Result<Vec<Option<u32>>, AllocError>
    ensures list { (l : Meant) (f : Formula) (cs : List Concluded) → IsTheory theory.entry l →
        StandsAs graph.now condition f → AreConclusions l held.old cs →
        IfOk result (λ marks. AreConclusions l held.new (cs ++ block_conclusions l f block.now)) }
    ensures marks { (l : Meant) (f : Formula) → IsTheory theory.entry l → StandsAs graph.now condition f →
        IfOk result (λ marks. AreMarks held.new.graph marks.items
        (step_trees l (block_trees l f block.now) block.now.steps)) }
    ensures later { Later held.old.graph held.new.graph }
{
    let mut places = Places::new(alloc);
    let own = own_terms(alloc, graph, condition, &mut places)?;
    let mut space = Space::new(alloc);
    let names = put_block(alloc, theory.language, &own, block.terms(), &mut space)?;
    let marks = conclude_steps(
        alloc,
        theory,
        &names,
        block.steps(),
        &mut space,
        &mut places,
        held,
    )?;
    Ok(marks)
}
