//! Formulas as a graph.

ghost use Rattle.std.specs.Prelude.{◌≡◌, ℕ, ◌<◌, ◌≤◌, ◌^◌, [], length, take, IfOk, OnErr, All, slice_get, Some};

use crate::nodes::Nodes;
use std::alloc::{AllocError, Global};
use std::marker::Model;
use term_pool::Mark;
use terms::term::{Args, Kind, Term};

/// Formulas as a graph: nodes, each above its arguments, in which no node stands twice.
#[derive(Debug, Drop)]
pub struct Graph {
    nodes: Nodes,
    alloc: Global,
}

impl Model for Graph {
    ghost use Rattle.std.specs.Prelude.{List};
    ghost use Rattle.terms.specs.declared.term.Term.{Term};

    ghost Value = { List Term };

    ghost view = { λ g. g.nodes.terms };
}

impl Graph {
    ghost use Rattle.std.specs.Prelude.{◌≡◌, ℕ, ◌<◌, ◌≤◌, ◌^◌, [], length, take, IfOk, OnErr, All, slice_get, Some};
    ghost use Rattle.term_graph.specs.Graph.{IsGraph, those_below, Later};
    ghost use Rattle.terms.specs.Formula.{Formulas, Node, Stands, AllStand, Interns, term};

    /// No nodes.
    pub fn new(alloc: Global) -> Graph
        ensures { result ≡ [] }
    {
        Graph {
            nodes: Nodes::new(alloc),
            alloc,
        }
    }

    pub fn len(&self) -> usize
        ensures len { result ≡ length self.now }
        ensures bound { length self.now < 2 ^ 32 }
    {
        self.nodes.len()
    }

    /// What each graph keeps, for proofs.
    pub fn known(&self)
        ensures { IsGraph self.now }
    {
        self.nodes.known();
    }

    /// Makes room for so many more nodes.
    pub fn reserve(&mut self, nodes: usize) -> Result<(), AllocError>
        ensures { self.new ≡ self.old }
    {
        self.nodes.reserve(nodes)
    }

    pub fn node(&self, id: u32) -> &Term
        requires { id < length self.now }
        ensures node { slice_get self.now id ≡ Some result.now }
        ensures below { All (λ a. a < id) result.now.args }
    {
        self.nodes.node(id)
    }

    /// The number of the node with this kind, index and arguments, old or new. Arguments that are no nodes' numbers are
    /// left out.
    #[tactic(auto, using(crate::proofs::Stands::same_later))]
    pub fn add(&mut self, kind: Kind, index: i128, args: &[u32]) -> Result<u32, AllocError>
        ensures interned { IfOk result (λ id. Interns self.old (term kind index (those_below (length self.old) args.now)) self.new id) }
        ensures stands { IfOk result (λ id. (fs : Formulas) → AllStand self.old args.now fs → Stands self.new id (Node kind index fs)) }
        ensures later { Later self.old self.new }
        ensures err { OnErr result (self.new ≡ self.old) }
    {
        let args = self.args_below(args)?;
        self.intern(Term { kind, index, args })
    }

    /// The numbers that are those of nodes, as a node's arguments.
    #[tactic(auto, using(crate::proofs::Stands::below_all, crate::proofs::Stands::filtered_below))]
    fn args_below(&self, args: &[u32]) -> Result<Args, AllocError>
        ensures args { IfOk result (λ below. below ≡ those_below (length self.now) args.now) }
        ensures below { IfOk result (λ below. All (λ a. a < length self.now) below) }
    {
        let len = self.nodes.len();
        if args.iter().all(|a| (*a as usize) < len) {
            return Args::new(self.alloc, args);
        }
        let below: Vec<u32> = args
            .iter()
            .copied()
            .filter(|a| (*a as usize) < len)
            .collect(self.alloc)?;
        Args::new(self.alloc, &below)
    }

    /// The number of the equal node, old or new.
    #[tactic(auto, using(crate::proofs::Graphs::contained_at, std::proofs::lemmas::Option::slice_get_within))]
    fn intern(&mut self, node: Term) -> Result<u32, AllocError>
        requires { All (λ a. a < length self.old) node.args }
        ensures interned { IfOk result (λ id. Interns self.old node self.new id) }
        ensures err { OnErr result (self.new ≡ self.old) }
    {
        if let Some(id) = self.nodes.find(&node) {
            return Ok(id);
        }
        self.nodes.place(node)
    }

    /// How many nodes there are, to come back to.
    pub fn mark(&self) -> Mark
        ensures { result.length ≡ length self.now }
    {
        self.nodes.mark()
    }

    /// Gives up the nodes that are new since the mark.
    pub fn release(&mut self, mark: Mark)
        requires { mark.length ≤ length self.old }
        ensures { self.new ≡ take mark.length self.old }
    {
        self.nodes.release(mark);
    }
}
