//! A table of the sorts of a graph's nodes.

ghost use Rattle.std.specs.Prelude.{◌≡◌, IfOk, option_map};
ghost use Rattle.term_sorts.specs.Sorting as spec;

use std::alloc::{AllocError, Global};
use std::marker::Model;
use term_graph::graph::Graph;
use terms::sort::{Columns, Sort, sort_of};
use terms::term::Term;

/// The sorts of the first nodes of a graph, by their numbers: none for a node whose arguments don't fit it.
#[derive(Drop)]
pub struct SortTable {
    sorts: Vec<Option<Sort>>,
}

impl Model for SortTable {
    ghost use Rattle.std.specs.Prelude.{List, Option};
    ghost use Rattle.terms.specs.declared.sort.Sort.{Sort};

    ghost Value = { List (Option Sort) };

    ghost view = { λ t. t.sorts.items };
}

impl SortTable {
    ghost use Rattle.std.specs.Prelude.{◌≡◌, [], take};
    ghost use Rattle.term_sorts.specs.Sorting.{Completes, Continues, StayFirst};

    /// The sorts of no nodes.
    pub fn new(alloc: Global) -> SortTable
        ensures { result ≡ [] }
    {
        SortTable {
            sorts: Vec::new(alloc),
        }
    }

    /// The sorts, by the nodes' numbers.
    pub fn as_slice(&self) -> &[Option<Sort>]
        ensures { result.now ≡ self.now }
    {
        self.sorts.as_slice()
    }

    /// Adds the sorts of the graph's other nodes, by the sorts of a program's columns and quantified formulas. Where
    /// memory is refused the table holds what it held and may hold more.
    pub fn extend(
        &mut self,
        alloc: Global,
        graph: &Graph,
        columns: &Columns,
    ) -> Result<(), AllocError>
        ensures all { Completes columns.now graph.now self.old self.new result }
        ensures first { Continues columns.now graph.now self.old self.new }
    {
        for id in self.sorts.len()..graph.len() {
            let sort = sort_of_node(alloc, graph.node(id as u32), &self.sorts, columns)?;
            self.sorts.push(sort)?;
        }
        Ok(())
    }

    /// Forgets the sorts of all but the first so many nodes, as where a graph is released.
    pub fn truncate(&mut self, nodes: usize)
        ensures same { self.new ≡ take nodes self.old }
        ensures sorts { StayFirst nodes self.old self.new }
    {
        self.sorts.truncate(nodes);
    }
}

/// The sort of a node, by the sorts of the nodes below it.
fn sort_of_node(
    alloc: Global,
    node: &Term,
    sorts: &[Option<Sort>],
    columns: &Columns,
) -> Result<Option<Sort>, AllocError>
    ensures { IfOk result (λ sort. sort ≡ spec.sort_of_node sorts.now node.now columns.now) }
{
    let all = sorts_at(alloc, sorts, node.args.numbers())?;
    let Some(args) = all else {
        return Ok(None);
    };
    Ok(sort_of(node.kind, node.index, &args, columns))
}

/// The sorts of these nodes, none where one has none.
fn sorts_at(
    alloc: Global,
    sorts: &[Option<Sort>],
    nodes: &[u32],
) -> Result<Option<Vec<Sort>>, AllocError>
    ensures { IfOk result (λ all. option_map (λ v. v.items) all ≡ spec.sorts_at sorts.now nodes.now) }
{
    let mut all = Vec::new(alloc);
    for node in nodes {
        let Some(sort) = sort_at(sorts, *node) else {
            return Ok(None);
        };
        all.push(sort)?;
    }
    Ok(Some(all))
}

/// The sort of the node, none where it has none.
fn sort_at(sorts: &[Option<Sort>], node: u32) -> Option<Sort>
    ensures { result ≡ spec.sort_at sorts.now node }
{
    let sort = sorts.get(node as usize)?;
    *sort
}
