//! What the steps of a certificate's blocks conclude, each block over its condition.

ghost use Rattle.std.specs.Prelude.{◌≡◌, ◌++◌, ◌∷◌, [], List, length, IfOk};
ghost use Rattle.terms.specs.Formula.{Formula};
ghost use Rattle.term_meaning.specs.Meaning.{Language as Meant};
ghost use Rattle.condition_formulas.specs.Standing.{StandsAs};
ghost use Rattle.condition_meaning.specs.Languages.{language_of};
ghost use Rattle.cert_format.specs.Derivations.{Derivation};
ghost use Rattle.block_layout.specs.Space.{IsTheory};
ghost use Rattle.certificate_upgrade.specs.Upgrade.{formulas_of};
ghost use Rattle.vcc_upgrade.specs.Surveys.{IsSurvey};

use block_layout::space::Theory;
use cert_format::certificate::Refutation;
use certificate_upgrade::conclusion::Conclusions;
use std::alloc::{AllocError, Global};
use term_graph::graph::Graph;
use upgrade_blocks::blocks::add_conclusions;
use vcc_judge::sequence::Conditions;

/// The tree that each step of a block concludes, if it does, by its node.
#[derive(Drop)]
pub struct StepTrees {
    pub nodes: Vec<Option<u32>>,
}

/// What the steps of blocks conclude, and the trees of each block that has a condition.
#[derive(Drop)]
pub struct Survey {
    pub conclusions: Conclusions,
    pub blocks: Vec<StepTrees>,
}

/// No conclusions.
fn no_conclusions(alloc: Global) -> Conclusions
    ensures graph { result.graph ≡ [] }
    ensures list { result.list.items ≡ [] }
{
    Conclusions {
        graph: Graph::new(alloc),
        list: Vec::new(alloc),
    }
}

impl Survey {
    /// That of no blocks.
    fn new(alloc: Global) -> Survey
        ensures { (l : Meant) → IsSurvey l result [] [] }
    {
        let conclusions = no_conclusions(alloc);
        Survey {
            conclusions,
            blocks: Vec::new(alloc),
        }
    }

    /// Adds the block, over the condition that the node of the graph stands for.
    fn add_block(
        &mut self,
        alloc: Global,
        theory: Theory<'_>,
        graph: &Graph,
        condition: u32,
        block: &Refutation,
    ) -> Result<(), AllocError>
        ensures { (l : Meant) (f : Formula) (fs : List Formula) (blocks : List Derivation) → IsTheory theory.entry l →
            StandsAs graph.now condition f → length fs ≡ length blocks → IsSurvey l self.old fs blocks →
            IfOk result (λ u. IsSurvey l self.new (fs ++ f ∷ []) (blocks ++ block.now ∷ [])) }
    {
        let nodes = add_conclusions(
            alloc,
            theory,
            graph,
            condition,
            block,
            &mut self.conclusions,
        )?;
        self.blocks.push(StepTrees { nodes })?;
        Ok(())
    }
}

/// The survey of the blocks, each over the condition of the program at its place. What the steps of a block without a
/// condition conclude isn't looked at.
///
/// # Errors
/// Where memory is refused.
pub fn survey_blocks(
    alloc: Global,
    theory: Theory<'_>,
    blocks: &[Refutation],
) -> Result<Survey, AllocError>
    requires { IsTheory theory (language_of theory.program.now) }
    ensures { IfOk result (λ survey. IsSurvey (language_of theory.entry.program.now) survey
        (formulas_of theory.entry.program.now) blocks.now) }
{
    let mut conditions = Conditions::new(alloc);
    let mut survey = Survey::new(alloc);
    for block in blocks {
        let given = conditions.give(theory.program)?;
        let Some(condition) = given else {
            return Ok(survey);
        };
        survey.add_block(alloc, theory, conditions.graph(), condition, block)?;
    }
    Ok(survey)
}
