//! The graph that blocks are laid out in.

ghost use Rattle.term_graph.specs.Graph.{IsGraph};
ghost use Rattle.std.specs.Prelude.{◌≡◌, ℕ, ◌≤◌, ◌<◌, ◌↔◌, List, IsTrue, false, [], length, take, slice_get, IfOk, OnOk, Option};
ghost use Rattle.terms.specs.Formula.{Formula, Formulas, Node, Stands, AllStand};
ghost use Rattle.term_meaning.specs.Meaning.{Language as Meant, sort_in};
ghost use Rattle.axiom_steps.specs.Steps.{instance_at};
ghost use Rattle.condition_formulas.specs.Standing.{StandsAs, StandAll};
ghost use Rattle.block_layout.specs.Space.{Keeps, Sorts, IsSorted, KnowsSorts, IsTheory};
ghost use Rattle.block_layout.specs.Trees.{has_sort};
ghost use Rattle.block_layout.specs.Layout.{IsNode, is_truth};
ghost use Rattle.block_layout.specs.Loading.{IsPastLimit, IsWithinLimit};

use method::program::Program;
use rule_instances::block::Block;
use rule_instances::instances::instance;
use std::alloc::{AllocError, Global};
use term_graph::graph::Graph;
use term_language::language::Language;
use term_pool::Mark;
use term_sorts::table::SortTable;
use terms::sort::Sort;
use terms::term::Kind;

/// The most nodes that a graph may have in which a condition is judged.
pub const MOST_NODES: usize = 1_048_576;

/// The program whose conditions are judged, and the formulas of its annotations.
#[derive(Clone, Copy)]
pub struct Theory<'a> {
    pub program: &'a Program,
    pub language: &'a Language,
}

/// A graph, and the sorts of its nodes.
#[derive(Drop)]
pub struct Space {
    pub graph: Graph,
    pub sorts: SortTable,
}

impl Space {
    ghost use Rattle.std.specs.Prelude.{◌≡◌, ℕ, ◌≤◌, ◌<◌, ◌↔◌, List, IsTrue, false, [], length, take, slice_get, IfOk, OnOk, Option};
    ghost use Rattle.term_graph.specs.Graph.{IsGraph};
    ghost use Rattle.terms.specs.Formula.{Formula, Formulas, Node, Stands, AllStand};
    ghost use Rattle.term_meaning.specs.Meaning.{Language as Meant, sort_in};
    ghost use Rattle.axiom_steps.specs.Steps.{instance_at};
    ghost use Rattle.condition_formulas.specs.Standing.{StandsAs, StandAll};
    ghost use Rattle.block_layout.specs.Space.{Keeps, Sorts, IsSorted, KnowsSorts, IsTheory};
    ghost use Rattle.block_layout.specs.Trees.{has_sort};
    ghost use Rattle.block_layout.specs.Layout.{IsNode, is_truth};
    ghost use Rattle.block_layout.specs.Loading.{IsPastLimit, IsWithinLimit};

    /// No nodes.
    pub fn new(alloc: Global) -> Space
        ensures graph { result.graph ≡ [] }
        ensures sorts { result.sorts ≡ [] }
    {
        Space {
            graph: Graph::new(alloc),
            sorts: SortTable::new(alloc),
        }
    }

    /// Whether the graph has more nodes than it may.
    pub fn is_past_limit(&self) -> bool
        ensures past { IsTrue result → IsPastLimit self.now }
        ensures within { result ≡ false → IsWithinLimit self.now }
    {
        self.graph.len() > MOST_NODES
    }

    /// Gives each node its sort.
    ///
    /// # Errors
    /// Where memory is refused.
    #[tactic(auto, using(crate::proofs::Spaces::completed, crate::proofs::Spaces::continued))]
    pub fn sort_all(&mut self, alloc: Global, language: &Language) -> Result<(), AllocError>
        ensures graph { self.new.graph ≡ self.old.graph }
        ensures kept { Keeps language.now self.old self.new }
        ensures sorted { OnOk result (Sorts language.now self.old self.new) }
    {
        self.sorts.extend(alloc, &self.graph, &language.columns)
    }

    /// The number of the node with this kind, index and arguments, old or new.
    ///
    /// # Errors
    /// Where memory is refused.
    pub fn add(
        &mut self,
        alloc: Global,
        language: &Language,
        kind: Kind,
        index: i128,
        args: &[u32],
    ) -> Result<u32, AllocError>
        ensures stands { IfOk result (λ id. (fs : Formulas) → AllStand self.old.graph args.now fs → Stands self.new.graph id (Node kind index fs)) }
        ensures kept { Keeps language.now self.old self.new }
        ensures sorted { OnOk result (Sorts language.now self.old self.new) }
    {
        let id = self.graph.add(kind, index, args)?;
        self.sort_all(alloc, language)?;
        Ok(id)
    }

    /// The sort of a node, where it has one.
    #[tactic(auto, using(crate::proofs::Sorted::sort_at, crate::proofs::Sorted::no_sort))]
    fn sort_of(&self, id: u32) -> Option<Sort>
        ensures { (l : Meant) (f : Formula) → IsSorted l self.now → StandsAs self.now.graph id f → result ≡ sort_in l f }
    {
        let sorts = self.sorts.as_slice();
        if id as usize >= sorts.len() {
            return None;
        }
        sorts[id as usize]
    }

    /// Whether the node has a sort.
    pub fn has_sort(&self, id: u32) -> bool
        ensures { (l : Meant) (f : Formula) → IsSorted l self.now → StandsAs self.now.graph id f → result ≡ has_sort l f }
    {
        match self.sort_of(id) {
            Some(_) => true,
            None => false,
        }
    }

    /// Whether the node is a truth value.
    pub fn is_truth(&self, id: u32) -> bool
        ensures { (l : Meant) (f : Formula) → IsSorted l self.now → StandsAs self.now.graph id f → result ≡ is_truth l f }
    {
        match self.sort_of(id) {
            Some(Sort::Bool) => true,
            _ => false,
        }
    }

    /// The node of an instance of an axiom, whose args name nodes by these names; none where there is none.
    ///
    /// # Errors
    /// Where memory is refused.
    pub fn add_instance(
        &mut self,
        alloc: Global,
        theory: Theory<'_>,
        names: &[u32],
        number: i128,
        part: i128,
        args: &[i128],
    ) -> Result<Option<u32>, AllocError>
        ensures exact { (l : Meant) (trees : List Formula) → IsTheory theory.entry l → IsSorted l self.old → StandAll self.old.graph names.now trees → IfOk result (IsNode self.new.graph (instance_at l (slice_get trees) number part args.now)) }
        ensures kept { Keeps theory.entry.language.now self.old self.new }
        ensures sorted { OnOk result (Sorts theory.entry.language.now self.old self.new) }
    {
        let block = Block {
            program: theory.program,
            language: theory.language,
            sorts: self.sorts.as_slice(),
            names,
        };
        let id = instance(alloc, &block, &mut self.graph, number, part, args)?;
        self.sort_all(alloc, theory.language)?;
        Ok(id)
    }

    /// What each space keeps, for proofs.
    pub fn known(&self)
        ensures { IsGraph self.now.graph }
    {
        self.graph.known();
    }

    /// How many nodes there are, to come back to.
    pub fn mark(&self) -> Mark
        ensures { result.length ≡ length self.now.graph }
    {
        self.graph.mark()
    }

    /// Gives up the nodes that are new since the mark.
    pub fn release(&mut self, mark: Mark)
        requires { mark.length ≤ length self.old.graph }
        ensures graph { self.new.graph ≡ take mark.length self.old.graph }
        ensures sorts { (l : Meant) → KnowsSorts l self.old → KnowsSorts l self.new }
    {
        self.graph.known();
        self.sorts.truncate(mark.len());
        self.graph.release(mark);
    }
}
