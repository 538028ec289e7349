//! The walk that lays out a formula of a graph.

ghost use Rattle.std.specs.Prelude.{◌≡◌, ℕ, ◌<◌, ◌≤◌, ◌+◌, ◌++◌, ◌∷◌, [], length, slice_set, pos, All, OnOk, OnErr, IfOk, Some};
ghost use Rattle.terms.specs.declared.term.Kind.TheVariants.{Null};
ghost use Rattle.terms.specs.Formula.{Interns, term};
ghost use Rattle.graph_numbering.specs.Walk.{AreTerms, Grown};
ghost use Rattle.graph_numbering.specs.Stacks.{args_of, first_visit, front_from, last_term, first_numbers, Pushes, Descends, CanStep, Steps, LaysRoot, LaysOut};

use crate::layout::{Layout, layout_of};
use crate::places::Places;
use std::alloc::{AllocError, Global};
use term_graph::graph::Graph;
use terms::term::{Kind, Term};

/// A node whose first arguments are laid out, as many as `next` says.
#[derive(Clone, Copy, Debug)]
pub struct Visit {
    pub node: u32,
    pub next: usize,
}

/// The nodes that are begun, the innermost last, and the numbers of their arguments that are laid out.
#[derive(Debug, Drop)]
pub struct Stacks {
    visits: Vec<Visit>,
    numbers: Vec<u32>,
}

/// Formulas of a graph, with arguments in place of their constants where there are some.
#[derive(Drop)]
pub struct Source<'a> {
    pub graph: &'a Graph,
    pub args: Option<&'a [u32]>,
}

impl Source<'_> {
    /// Lays the node out behind the terms of a graph, or NULL for a number that is no node's. A refusal leaves it
    /// as it was.
    pub fn put(&self, root: u32, target: &mut Graph, places: &mut Places) -> Result<u32, AllocError>
        requires { AreTerms (args_of self.now) target.old }
        ensures laid { LaysOut self.now root target.old target.new result }
        ensures grown { Grown target.old target.new }
        ensures err { OnErr result (target.new ≡ target.old) }
    {
        if root as usize >= self.graph.len() {
            return intern_null(target);
        }
        let mark = target.mark();
        match self.lay_out(root, target, places) {
            Ok(id) => Ok(id),
            Err(want) => {
                target.release(mark);
                Err(want)
            }
        }
    }

    /// Lays the node out behind the terms of a graph.
    fn lay_out(&self, root: u32, target: &mut Graph, places: &mut Places) -> Result<u32, AllocError>
        requires root { root < length self.now.graph.now }
        requires args { AreTerms (args_of self.now) target.old }
        ensures laid { IfOk result (LaysRoot self.now root target.old target.new) }
        ensures grown { Grown target.old target.new }
    {
        places.begin(self.graph.len())?;
        let mut stacks = Stacks::new(places.allocator(), root)?;
        while let Some(visit) = stacks.visits.pop() {
            self.step(visit, &mut stacks, target, places)?;
        }
        Ok(stacks.numbers[0])
    }

    /// Goes on with a visit: to its next argument without a number, or to its end.
    fn step(
        &self,
        visit: Visit,
        stacks: &mut Stacks,
        target: &mut Graph,
        places: &mut Places,
    ) -> Result<(), AllocError>
        requires { CanStep self.now visit stacks.old places.old target.old }
        ensures step { Steps self.now visit stacks.old stacks.new places.old places.new target.old target.new result }
        ensures grown { Grown target.old target.new }
    {
        self.graph.known();
        let node = self.graph.node(visit.node);
        match layout_of(node, self.args) {
            Layout::Itself => {
                let args = node.args.numbers();
                let next = stacks.push_placed(args, visit.next, places)?;
                if next < args.len() {
                    let waiting = Visit {
                        node: visit.node,
                        next: next + 1,
                    };
                    stacks.descend(waiting, args[next])?;
                    return Ok(());
                }
                let id = stacks.intern(node, target)?;
                stacks.end(visit.node, id, places)?;
                Ok(())
            }
            Layout::Given(id) => {
                stacks.end(visit.node, id, places)?;
                Ok(())
            }
            Layout::Null => {
                let id = intern_null(target)?;
                stacks.end(visit.node, id, places)?;
                Ok(())
            }
        }
    }
}

impl Stacks {
    /// A walk that begins at the root.
    fn new(alloc: Global, root: u32) -> Result<Stacks, AllocError>
        ensures visits { IfOk result (λ stacks. stacks.visits.items ≡ first_visit root ∷ []) }
        ensures numbers { IfOk result (λ stacks. stacks.numbers.items ≡ []) }
    {
        let mut visits = Vec::new(alloc);
        visits.push(Visit {
            node: root,
            next: 0,
        })?;
        Ok(Stacks {
            visits,
            numbers: Vec::new(alloc),
        })
    }

    #[tactic(auto, using(crate::proofs::Fronts::front_turn, crate::proofs::Fronts::front_stop, crate::proofs::Fronts::front_end))]
    /// Pushes the numbers of the arguments from the first on up to one that has none, and gives the place of that one.
    fn push_placed(
        &mut self,
        args: &[u32],
        first: usize,
        places: &Places,
    ) -> Result<usize, AllocError>
        ensures numbers { OnOk result (Pushes self.old self.new (front_from places.now args.now first)) }
        ensures next { IfOk result (λ next. next ≡ first + length (front_from places.now args.now first)) }
        ensures visits { self.new.visits ≡ self.old.visits }
    {
        let mut next = first;
        while next < args.len() {
            let Some(id) = places.get(args[next]) else {
                return Ok(next);
            };
            self.numbers.push(id)?;
            next += 1;
        }
        Ok(next)
    }

    /// The node waits for its argument.
    fn descend(&mut self, waiting: Visit, argument: u32) -> Result<(), AllocError>
        ensures visits { OnOk result (Descends self.old self.new waiting argument) }
        ensures numbers { self.new.numbers ≡ self.old.numbers }
    {
        self.visits.push(waiting)?;
        self.visits.push(Visit {
            node: argument,
            next: 0,
        })?;
        Ok(())
    }

    /// The number of the node's term, whose arguments have the last numbers; these are taken away.
    fn intern(&mut self, node: &Term, target: &mut Graph) -> Result<u32, AllocError>
        requires count { length node.now.args ≤ length self.old.numbers.items }
        requires within { All (λ a. a < length target.old) self.old.numbers.items }
        ensures interned { IfOk result (Interns target.old (last_term node.now self.old) target.new) }
        ensures within { IfOk result (λ id. id < length target.new) }
        ensures numbers { OnOk result (self.new.numbers.items ≡ first_numbers node.now self.old) }
        ensures visits { self.new.visits ≡ self.old.visits }
        ensures grown { Grown target.old target.new }
    {
        let first = self.numbers.len() - node.args.numbers().len();
        let id = target.add(node.kind, node.index, &self.numbers[first..])?;
        self.numbers.truncate(first);
        Ok(id)
    }

    /// The node has a number, for which the one below it waits.
    fn end(&mut self, node: u32, id: u32, places: &mut Places) -> Result<(), AllocError>
        requires { node < length places.old }
        ensures numbers { OnOk result (Pushes self.old self.new (id ∷ [])) }
        ensures places { OnOk result (places.new ≡ slice_set places.old node (Some id)) }
        ensures visits { self.new.visits ≡ self.old.visits }
    {
        self.numbers.push(id)?;
        places.set(node, id);
        Ok(())
    }
}

/// The number of NULL.
fn intern_null(target: &mut Graph) -> Result<u32, AllocError>
    ensures interned { IfOk result (Interns target.old (term Null (pos 0) []) target.new) }
    ensures within { IfOk result (λ id. id < length target.new) }
    ensures grown { Grown target.old target.new }
    ensures err { OnErr result (target.new ≡ target.old) }
{
    target.add(Kind::Null, 0, &[])
}
