//! The nodes of a graph, with what finds them.

ghost use Rattle.std.specs.Prelude.{◌≡◌, ℕ, ◌+◌, ◌<◌, ◌≤◌, ◌++◌, ◌∷◌, ◌^◌, [], length, take, IfOk, OnOk, OnErr, IsOk, All, Contains, slice_get, MatchOption, Some};

use crate::index::Index;
use std::alloc::{AllocError, Global};
use std::marker::Model;
use term_pool::{Mark, Pool};
use terms::term::Term;

/// The greatest number of nodes.
pub const NODES: usize = 4_294_967_295;

/// Nodes, each above its arguments, of which no two are equal; an index says where each one stands.
#[derive(Debug, Drop)]
pub struct Nodes {
    pool: Pool<Term>,
    index: Index,
}

impl Model for Nodes {
    ghost use Rattle.std.specs.Prelude.{◌-◌, length};
    ghost use Rattle.term_graph.specs.Graph.{HeldNodes};
    ghost use Rattle.term_graph.specs.Index.{IsIndexed};

    ghost Value = { HeldNodes };

    ghost view = { λ n. record { terms = n.pool.items; spare = length n.index.older.items - length n.pool.items } };

    ghost invariant = { λ n. IsIndexed n.pool n.index.newest.items n.index.older.items };
}

impl Nodes {
    ghost use Rattle.std.specs.Prelude.{◌≡◌, ℕ, ◌+◌, ◌<◌, ◌≤◌, ◌++◌, ◌∷◌, ◌^◌, [], length, take, IfOk, OnOk, OnErr, IsOk, All, Contains, slice_get, MatchOption, Some};
    ghost use Rattle.term_graph.specs.Graph.{IsGraph};
    ghost use Rattle.term_graph.specs.Index.{IsNumberOf};

    /// No nodes.
    pub fn new(alloc: Global) -> Nodes
        ensures { result.terms ≡ [] }
    {
        Nodes {
            pool: Pool::new(alloc),
            index: Index::new(alloc),
        }
    }

    pub fn len(&self) -> usize
        ensures len { result ≡ length self.now.terms }
        ensures bound { length self.now.terms < 2 ^ 32 }
    {
        self.pool.len()
    }

    /// What all nodes keep, for proofs.
    pub fn known(&self)
        ensures { IsGraph self.now.terms }
    {
        let _ = &self.pool;
    }

    /// Makes room for so many more nodes.
    pub fn reserve(&mut self, nodes: usize) -> Result<(), AllocError>
        ensures terms { self.new.terms ≡ self.old.terms }
        ensures spare { OnOk result (nodes ≤ self.new.spare) }
        ensures err { OnErr result (self.new ≡ self.old) }
        ensures room { nodes ≤ self.old.spare → IsOk result × (self.new ≡ self.old) }
    {
        let held = self.pool.len();
        if nodes <= self.index.places() - held {
            return Ok(());
        }
        let Some(places) = held.checked_add(nodes) else {
            return Err(AllocError);
        };
        self.pool.reserve(nodes)?;
        self.index.reserve(&self.pool, places)
    }

    pub fn node(&self, id: u32) -> &Term
        requires { id < length self.now.terms }
        ensures node { slice_get self.now.terms id ≡ Some result.now }
        ensures below { All (λ a. a < id) result.now.args }
    {
        self.pool.get(id as usize)
    }

    /// The number of the equal node, where there is one.
    pub fn find(&self, node: &Term) -> Option<u32>
        ensures { IsNumberOf self.now.terms node.now result }
    {
        self.index.find(&self.pool, node)
    }

    /// Places a new node behind the others.
    #[tactic(auto, using(crate::proofs::Graphs::graph_pushed))]
    pub fn place(&mut self, node: Term) -> Result<u32, AllocError>
        requires below { All (λ a. a < length self.old.terms) node.args }
        requires new { ¬ Contains self.old.terms node }
        ensures terms { IfOk result (λ id. (self.new.terms ≡ self.old.terms ++ node ∷ []) × (id ≡ length self.old.terms)) }
        ensures memory { 0 < self.old.spare → length self.old.terms < 4_294_967_295 → IsOk result }
        ensures spare { OnOk result (0 < self.old.spare → self.new.spare + 1 ≡ self.old.spare) }
        ensures err { OnErr result (self.new ≡ self.old) }
    {
        if self.pool.len() >= NODES {
            return Err(AllocError);
        }
        self.reserve(1)?;
        let id = self.pool.push(node);
        self.index.link(&self.pool, id);
        Ok(id as u32)
    }

    /// How many nodes there are, to come back to.
    pub fn mark(&self) -> Mark
        ensures { result.length ≡ length self.now.terms }
    {
        self.pool.mark()
    }

    /// Gives up the nodes that are new since the mark.
    #[tactic(auto, using(crate::proofs::Graphs::graph_taken))]
    pub fn release(&mut self, mark: Mark)
        requires { mark.length ≤ length self.old.terms }
        ensures terms { self.new.terms ≡ take mark.length self.old.terms }
        ensures spare { self.new.spare + mark.length ≡ self.old.spare + length self.old.terms }
    {
        self.index.unlink(&self.pool, mark.len());
        self.pool.release(mark);
    }
}
