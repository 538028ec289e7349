//! The terms that a search speaks of, and its steps.

use crate::steps::Steps;
use std::alloc::{AllocError, Global};
use term_graph::graph::Graph;
use terms::sort::{Columns, Sort, sort_of};
use terms::term::{Kind, Term};

/// The terms that a search speaks of, the sort of each, which a program's columns tell, and the steps of the search.
#[derive(Drop)]
pub struct Ledger<'a> {
    columns: &'a Columns,
    pub graph: Graph,
    pub sorts: Vec<Option<Sort>>,
    pub steps: Steps,
    pub alloc: Global,
}

impl<'a> Ledger<'a> {
    /// No terms and no steps.
    pub fn new(alloc: Global, columns: &'a Columns) -> Ledger<'a> {
        Ledger {
            columns,
            graph: Graph::new(alloc),
            sorts: Vec::new(alloc),
            steps: Steps::new(alloc),
            alloc,
        }
    }

    /// The node with this number, where there is one.
    pub fn node(&self, id: u32) -> Option<&Term> {
        if id as usize >= self.graph.len() {
            return None;
        }
        Some(self.graph.node(id))
    }

    /// The kind of a node; truth where there is none.
    pub fn kind(&self, id: u32) -> Kind {
        match self.node(id) {
            Some(node) => node.kind,
            None => Kind::True,
        }
    }

    /// The index of a node.
    pub fn index(&self, id: u32) -> i128 {
        match self.node(id) {
            Some(node) => node.index,
            None => 0,
        }
    }

    /// The arguments of a node.
    pub fn args(&self, id: u32) -> &[u32] {
        match self.node(id) {
            Some(node) => node.args.numbers(),
            None => &[],
        }
    }

    /// The argument of a node at a place; the node itself where it has none there.
    pub fn arg(&self, id: u32, place: usize) -> u32 {
        self.args(id).get(place).copied().unwrap_or(id)
    }

    /// The sort of a node, where it has one.
    pub fn sort(&self, id: u32) -> Option<Sort> {
        self.sorts.get(id as usize).copied().unwrap_or(None)
    }

    /// Whether the node is a truth value.
    pub fn is_truth(&self, id: u32) -> bool {
        self.sort(id) == Some(Sort::Bool)
    }

    /// Whether the node is an equation between integers.
    pub fn is_int_equation(&self, id: u32) -> bool {
        self.kind(id) == Kind::Eq && self.sort(self.arg(id, 0)) == Some(Sort::Int)
    }

    /// The node with this kind, index and arguments.
    pub fn add(&mut self, kind: Kind, index: i128, args: &[u32]) -> Result<u32, AllocError> {
        let id = self.graph.add(kind, index, args)?;
        self.sort_all()?;
        Ok(id)
    }

    /// Gives the nodes that are new their sorts.
    pub fn sort_all(&mut self) -> Result<(), AllocError> {
        for id in self.sorts.len()..self.graph.len() {
            let sort = self.sort_by_args(id as u32)?;
            self.sorts.push(sort)?;
        }
        Ok(())
    }

    /// The sort of a node, where its arguments fit it.
    fn sort_by_args(&self, id: u32) -> Result<Option<Sort>, AllocError> {
        let mut sorts = Vec::new(self.alloc);
        for arg in self.args(id) {
            let Some(sort) = self.sort(*arg) else {
                return Ok(None);
            };
            sorts.push(sort)?;
        }
        Ok(sort_of(
            self.kind(id),
            self.index(id),
            sorts.as_slice(),
            self.columns,
        ))
    }

    /// The equation of two terms.
    pub fn equation(&mut self, left: u32, right: u32) -> Result<u32, AllocError> {
        self.add(Kind::Eq, 0, &[left, right])
    }

    /// That a term is at most another.
    pub fn at_most(&mut self, left: u32, right: u32) -> Result<u32, AllocError> {
        self.add(Kind::Le, 0, &[left, right])
    }
}
