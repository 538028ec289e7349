//! The way from the numbers of an instance to its formula.

ghost use Rattle.std.specs.Prelude.{◌≡◌, ◌<◌, ◌^◌, ℤ, pos, List, IfOk, FitsSigned};
ghost use Rattle.std.specs.Int.{w128};
ghost use Rattle.terms.specs.declared.term.Term.{Term};
ghost use Rattle.condition_formulas.specs.Standing.{StandAll, Later};
ghost use Rattle.axiom_steps.specs.declared.steps.Step.TheVariants as s;
ghost use Rattle.axiom_steps.specs.declared.steps.Test.TheVariants as t;
ghost use Rattle.axiom_steps.specs.Steps as spec;
ghost use Rattle.rule_instances.specs.declared.block.Block.{Block};
ghost use Rattle.rule_instances.specs.Walking.{Matches, Reads, Walks, Makes, PutsFilled, Passes};

use crate::annotations::{Annotation, body_of, conjunct_of, holes_of, invariant_of};
use crate::block::Block;
use crate::changes::change_of;
use crate::clean::{is_clean, is_clean_read};
use crate::columns::{
    column_of, further_keys, has_fixed_set, is_approved_of, is_content, is_fixed, is_owned,
    is_struct, is_unclaimable, type_of,
};
use crate::making::{build, differ_each, last, last_of, replace, term_at};
use crate::numbers::Numbers;
use axiom_steps::steps::{Behind, Column, Index, Step, Test};
use condition_formulas::formulas::nat;
use condition_formulas::lists::{all_of, joined, listed};
use condition_formulas::symbolic::ranges;
use graph_numbering::numbering::fill;
use graph_numbering::places::Places;
use method::program::{DeclaredType, Program};
use std::alloc::{AllocError, Global};
use term_graph::graph::Graph;
use terms::sort::Sort;
use terms::term::Kind;

/// What was taken and made so far: terms and then formulas, the writes list, the keys of a column or the terms for the
/// holes of a quantified formula, a type, a column with its number, a field's type, and the formula of an annotation.
#[derive(Drop)]
pub struct State<'a> {
    pub terms: Vec<u32>,
    pub writes: Vec<u32>,
    pub keys: Vec<u32>,
    pub ty: u128,
    pub number: u128,
    pub column: Column,
    pub declared: DeclaredType,
    pub body: Option<Annotation<'a>>,
    pub places: Places,
}

/// The number with a sign.
fn signed(number: u128) -> i128
    ensures { number < 2 ^ 127 → result ≡ pos number }
{
    if number > i128::MAX as u128 {
        return 0;
    }
    number as i128
}

impl<'a> State<'a> {
    /// Nothing was taken.
    pub fn new(alloc: Global) -> State<'a>
        ensures { (ts : List Term) → Matches ts result spec.start }
    {
        State {
            terms: Vec::new(alloc),
            writes: Vec::new(alloc),
            keys: Vec::new(alloc),
            ty: 0,
            number: 0,
            column: Column::Modes,
            declared: DeclaredType::Object,
            body: None,
            places: Places::new(alloc),
        }
    }

    /// Takes a term of the sort.
    fn take(
        &mut self,
        block: &Block<'_>,
        numbers: &mut Numbers<'_>,
        sort: Sort,
    ) -> Result<bool, AllocError>
        ensures { IfOk result (Reads block.now (s.Take sort) self.old self.new numbers.old numbers.new) }
    {
        let Some(id) = block.take(numbers, sort) else {
            return Ok(false);
        };
        self.terms.push(id)?;
        Ok(true)
    }

    /// Takes a term.
    fn take_any(&mut self, block: &Block<'_>, numbers: &mut Numbers<'_>) -> Result<bool, AllocError>
        ensures { IfOk result (Reads block.now s.TakeAny self.old self.new numbers.old numbers.new) }
    {
        let Some(id) = block.take_any(numbers) else {
            return Ok(false);
        };
        self.terms.push(id)?;
        Ok(true)
    }

    /// Takes the writes list.
    fn take_writes(
        &mut self,
        alloc: Global,
        block: &Block<'_>,
        numbers: &mut Numbers<'_>,
    ) -> Result<bool, AllocError>
        ensures { IfOk result (Reads block.now s.TakeWrites self.old self.new numbers.old numbers.new) }
    {
        let ids = block.take_references(alloc, numbers)?;
        let Some(writes) = ids else {
            return Ok(false);
        };
        self.writes = writes;
        Ok(true)
    }

    /// Takes a type's number.
    fn take_type(&mut self, numbers: &mut Numbers<'_>) -> bool
        ensures { (block : Block) → Reads block s.TakeType self.old self.new numbers.old numbers.new result }
    {
        let Some(number) = numbers.natural() else {
            return false;
        };
        self.ty = number;
        true
    }

    /// Lays the term at this place on the others.
    fn repeat(&mut self, place: usize) -> Result<bool, AllocError>
        ensures { IfOk result (λ went. (ts : List Term) → Makes (s.Term place) ts ts self.old self.new went) }
    {
        let Some(id) = term_at(&self.terms, place) else {
            return Ok(false);
        };
        self.terms.push(id)?;
        Ok(true)
    }

    /// The index of a node.
    fn index(&self, index: Index) -> i128
        ensures is { (ts : List Term) (st : spec.State) → Matches ts self.now st → result ≡ spec.index_of index st }
        ensures fits { FitsSigned w128 result }
    {
        match index {
            Index::Fixed(z) => z,
            Index::OfType => signed(self.ty),
            Index::OfNumber => signed(self.number),
        }
    }

    /// The last arguments of a node.
    fn behind(&self, behind: Behind) -> &[u32]
        ensures { (ts : List Term) (st : spec.State) → Matches ts self.now st
            → StandAll ts result.now (spec.behind behind st) }
    {
        match behind {
            Behind::Nothing => &[],
            Behind::Keys => self.keys.as_slice(),
            Behind::Writes => self.writes.as_slice(),
        }
    }

    /// Puts a node of the last so many formulas, and of those behind them, in their place.
    fn build(
        &mut self,
        alloc: Global,
        graph: &mut Graph,
        kind: Kind,
        index: Index,
        count: usize,
        tail: Behind,
    ) -> Result<bool, AllocError>
        ensures went { IfOk result (Makes (s.Build kind index count tail) graph.old graph.new self.old self.new) }
        ensures later { Later graph.old graph.new }
    {
        let at = self.index(index);
        let behind = listed(alloc, self.behind(tail))?;
        build(alloc, graph, &mut self.terms, kind, at, count, &behind)?;
        Ok(true)
    }

    /// Says of the last formula that it is a value of the declared type.
    fn in_range(&mut self, alloc: Global, graph: &mut Graph) -> Result<bool, AllocError>
        ensures went { IfOk result (Makes s.InRange graph.old graph.new self.old self.new) }
        ensures later { Later graph.old graph.new }
    {
        let Some(x) = last(&self.terms, 1) else {
            return Ok(false);
        };
        let facts = ranges(alloc, graph, self.declared, x)?;
        let id = all_of(graph, &facts)?;
        replace(&mut self.terms, 1, id)?;
        Ok(true)
    }

    /// Joins the last formula with that the one before it is none of the writes list.
    fn not_written(&mut self, alloc: Global, graph: &mut Graph) -> Result<bool, AllocError>
        ensures went { IfOk result (Makes s.NotWritten graph.old graph.new self.old self.new) }
        ensures later { Later graph.old graph.new }
    {
        let Some(x) = last(&self.terms, 2) else {
            return Ok(false);
        };
        let Some(formula) = last(&self.terms, 1) else {
            return Ok(false);
        };
        let others = differ_each(alloc, graph, x, &self.writes)?;
        let all = joined(alloc, &[formula], &others)?;
        let id = all_of(graph, &all)?;
        replace(&mut self.terms, 2, id)?;
        Ok(true)
    }

    /// Takes a column, with terms for its further keys.
    fn take_column(
        &mut self,
        alloc: Global,
        block: &Block<'_>,
        numbers: &mut Numbers<'_>,
    ) -> Result<bool, AllocError>
        ensures { IfOk result (Reads block.now s.TakeColumn self.old self.new numbers.old numbers.new) }
    {
        let Some(number) = numbers.natural() else {
            return Ok(false);
        };
        let Some(column) = column_of(block.program, number) else {
            return Ok(false);
        };
        let sorts = further_keys(&block.language.columns.columns, number);
        let ids = block.take_all(alloc, numbers, sorts)?;
        let Some(keys) = ids else {
            return Ok(false);
        };
        self.number = number;
        self.column = column;
        self.keys = keys;
        Ok(true)
    }

    /// Takes the declared type of the column's field.
    fn take_field_type(&mut self, block: &Block<'_>) -> bool
        ensures { (numbers : List ℤ) → Reads block.now s.TakeFieldType self.old self.new numbers numbers result }
    {
        let Some(ty) = type_of(block.program, self.column) else {
            return false;
        };
        self.declared = ty;
        true
    }

    /// Takes a heap with an object opened or closed, and what it says of the object.
    fn take_change(
        &mut self,
        block: &Block<'_>,
        graph: &mut Graph,
        numbers: &mut Numbers<'_>,
    ) -> Result<bool, AllocError>
        ensures went { IfOk result (Walks block.now s.TakeChange graph.old graph.new self.old self.new numbers.old numbers.new) }
        ensures later { Later graph.old graph.new }
    {
        let Some(id) = block.take(numbers, Sort::Heap) else {
            return Ok(false);
        };
        let Some(change) = change_of(graph, id) else {
            return Ok(false);
        };
        let mode = nat(graph, change.mode as usize)?;
        self.terms
            .extend_from_slice(&[id, change.heap, change.object, change.owner, mode])?;
        Ok(true)
    }

    /// Takes a quantified formula, with terms for its holes.
    fn take_quantified(
        &mut self,
        alloc: Global,
        block: &Block<'a>,
        numbers: &mut Numbers<'_>,
    ) -> Result<bool, AllocError>
        ensures { IfOk result (Reads block.now s.TakeQuantified self.old self.new numbers.old numbers.new) }
    {
        let Some(number) = numbers.natural() else {
            return Ok(false);
        };
        let Some(body) = body_of(block.language, number) else {
            return Ok(false);
        };
        let sorts = holes_of(&block.language.columns.quantified, number);
        let ids = block.take_all(alloc, numbers, sorts)?;
        let Some(keys) = ids else {
            return Ok(false);
        };
        self.number = number;
        self.keys = keys;
        self.body = Some(body);
        Ok(true)
    }

    /// Takes the invariant of the type's objects.
    fn take_invariant(&mut self, block: &Block<'a>) -> bool
        ensures { (numbers : List ℤ) → Reads block.now s.TakeInvariant self.old self.new numbers numbers result }
    {
        let Some(body) = invariant_of(block.language, self.ty) else {
            return false;
        };
        self.body = Some(body);
        true
    }

    /// Takes the conjunct of the column's shape.
    fn take_conjunct(&mut self, block: &Block<'a>) -> bool
        ensures { (numbers : List ℤ) → Reads block.now s.TakeConjunct self.old self.new numbers numbers result }
    {
        let Some(body) = conjunct_of(block.language, self.column) else {
            return false;
        };
        self.body = Some(body);
        true
    }

    /// Puts the annotation's formula, with these terms for its constants, in place of the last so many formulas.
    fn put_filled(
        &mut self,
        graph: &mut Graph,
        count: usize,
        args: &[u32],
    ) -> Result<bool, AllocError>
        ensures filled { IfOk result (PutsFilled graph.old graph.new self.old self.new count args.now) }
        ensures later { Later graph.old graph.new }
    {
        let Some(body) = self.body else {
            return Ok(false);
        };
        let id = fill(body.graph, body.root, args, graph, &mut self.places)?;
        replace(&mut self.terms, count, id)?;
        Ok(true)
    }

    /// Puts the annotation's formula in place of the last so many formulas, with these and the keys for its constants.
    fn fill(&mut self, alloc: Global, graph: &mut Graph, count: usize) -> Result<bool, AllocError>
        ensures went { IfOk result (Makes (s.Fill count) graph.old graph.new self.old self.new) }
        ensures later { Later graph.old graph.new }
    {
        let args = joined(alloc, last_of(&self.terms, count), &self.keys)?;
        let went = self.put_filled(graph, count, &args)?;
        Ok(went)
    }

    /// The same, with the keys before the formulas.
    fn fill_behind(
        &mut self,
        alloc: Global,
        graph: &mut Graph,
        count: usize,
    ) -> Result<bool, AllocError>
        ensures went { IfOk result (Makes (s.FillBehind count) graph.old graph.new self.old self.new) }
        ensures later { Later graph.old graph.new }
    {
        let args = joined(alloc, &self.keys, last_of(&self.terms, count))?;
        let went = self.put_filled(graph, count, &args)?;
        Ok(went)
    }

    /// Whether the first term passes a test of heaps.
    fn is_first_clean(&self, program: &Program, graph: &Graph) -> bool
        ensures { Passes program.now t.CleanHeap graph.now self.now result }
    {
        let Some(heap) = term_at(&self.terms, 0) else {
            return false;
        };
        is_clean(program, graph, heap)
    }

    /// Whether the first term reads a set or a shape of a clean heap.
    fn is_first_clean_read(&self, program: &Program, graph: &Graph) -> bool
        ensures { Passes program.now t.CleanRead graph.now self.now result }
    {
        let Some(read) = term_at(&self.terms, 0) else {
            return false;
        };
        is_clean_read(program, graph, read)
    }

    /// Whether what was taken passes the test.
    fn passes(&self, program: &Program, graph: &Graph, test: Test) -> bool
        ensures { Passes program.now test graph.now self.now result }
    {
        match test {
            Test::CleanHeap => self.is_first_clean(program, graph),
            Test::CleanRead => self.is_first_clean_read(program, graph),
            Test::Unclaimable => is_unclaimable(program, self.ty),
            Test::HasFixedSet => has_fixed_set(program, self.ty),
            Test::IsStruct => is_struct(program, self.ty),
            Test::IsFixed => is_fixed(program, self.ty, self.column),
            Test::IsApproved => is_approved_of(program, self.ty, self.column),
            Test::IsContent => is_content(self.column),
            Test::IsNotOwned => !is_owned(self.column),
        }
    }

    /// Goes a step on: whether the numbers fit it.
    pub fn apply(
        &mut self,
        alloc: Global,
        block: &Block<'a>,
        graph: &mut Graph,
        numbers: &mut Numbers<'_>,
        step: Step,
    ) -> Result<bool, AllocError>
        ensures went { IfOk result (Walks block.now step graph.old graph.new self.old self.new numbers.old numbers.new) }
        ensures later { Later graph.old graph.new }
    {
        match step {
            Step::Take(sort) => self.take(block, numbers, sort),
            Step::TakeAny => self.take_any(block, numbers),
            Step::TakeWrites => self.take_writes(alloc, block, numbers),
            Step::TakeType => Ok(self.take_type(numbers)),
            Step::TakeColumn => self.take_column(alloc, block, numbers),
            Step::TakeChange => self.take_change(block, graph, numbers),
            Step::TakeFieldType => Ok(self.take_field_type(block)),
            Step::TakeQuantified => self.take_quantified(alloc, block, numbers),
            Step::TakeInvariant => Ok(self.take_invariant(block)),
            Step::TakeConjunct => Ok(self.take_conjunct(block)),
            Step::Check(test) => Ok(self.passes(block.program, graph, test)),
            Step::Term(place) => self.repeat(place),
            Step::Build(kind, index, count, tail) => self.build(
                alloc, graph, kind, index, count, tail,
            ),
            Step::NotWritten => self.not_written(alloc, graph),
            Step::InRange => self.in_range(alloc, graph),
            Step::Fill(count) => self.fill(alloc, graph, count),
            Step::FillBehind(count) => self.fill_behind(alloc, graph, count),
        }
    }
}
