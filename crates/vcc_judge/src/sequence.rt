//! The conditions of a program, one by one.

ghost use Rattle.std.specs.Prelude.{◌≡◌, ◌<◌, IfOk, List, [], length, slice_get, Some};
ghost use Rattle.terms.specs.Formula.{Formula};
ghost use Rattle.method.specs.declared.program.Program.{Program};
ghost use Rattle.conditions.specs.Conditions.{formulas, item_conditions};
ghost use Rattle.condition_code.specs.Emitters.{Answers};
ghost use Rattle.vcc_judge.specs.Remaining.{Remain, Remains, IsNext, formulas_from};

use condition_code::emitter::Emitter;
use condition_code::walk::{Step, Walk};
use condition_walk::items::add_item_path;
use method::program::{Item, Program};
use std::alloc::{AllocError, Global};
use term_graph::graph::Graph;

/// The conditions of an item that are still to be given: the graph that they stand in, the item's path, and the place
/// there.
#[derive(Drop)]
pub struct ItemConditions {
    pub graph: Graph,
    pub path: Vec<Step>,
    pub emitter: Emitter,
}

impl ItemConditions {
    /// Those of no item.
    fn none(alloc: Global) -> ItemConditions
        ensures { Remain result [] }
    {
        let emitter = Emitter::new(alloc);
        ItemConditions {
            graph: Graph::new(alloc),
            path: Vec::new(alloc),
            emitter,
        }
    }

    /// Those of the item.
    pub fn of(alloc: Global, program: &Program, item: Item) -> Result<ItemConditions, AllocError>
        ensures { IfOk result (λ c. Remain c (item_conditions program.now item)) }
    {
        let mut walk = Walk::new(alloc);
        add_item_path(&mut walk, program, item)?;
        let emitter = Emitter::new(alloc);
        Ok(ItemConditions {
            graph: walk.graph,
            path: walk.path,
            emitter,
        })
    }

    /// The next one, as a formula of the graph; none behind the last.
    pub fn give(&mut self) -> Result<Option<u32>, AllocError>
        ensures { (fs : List Formula) → Remain self.old fs →
            IfOk result (λ o. Answers self.new.graph self.new.emitter self.new.path.items o fs) }
    {
        let condition = self.emitter.next(&mut self.graph, &self.path)?;
        Ok(condition)
    }
}

/// The conditions of a program that are still to be given: those of an item, and all those of the items behind it, from
/// this place of the text on.
#[derive(Drop)]
pub struct Conditions {
    pub alloc: Global,
    pub current: ItemConditions,
    pub place: usize,
}

fn item_at(items: &[Item], place: usize) -> Item
    requires { place < length items.now }
    ensures { slice_get items.now place ≡ Some result }
{
    items[place]
}

impl Conditions {
    /// All conditions of a program.
    pub fn new(alloc: Global) -> Conditions
        ensures { (p : Program) → Remains p result (formulas p) }
    {
        Conditions {
            alloc,
            current: ItemConditions::none(alloc),
            place: 0,
        }
    }

    /// The graph that the last one given stands in.
    pub fn graph(&self) -> &Graph
        ensures { result.now ≡ self.now.current.graph }
    {
        &self.current.graph
    }

    /// Goes on to the item at the place.
    fn begin(&mut self, program: &Program, item: Item) -> Result<(), AllocError>
        ensures current { IfOk result (λ u. Remain self.new.current (item_conditions program.now item)) }
        ensures place { self.new.place ≡ self.old.place }
    {
        let current = ItemConditions::of(self.alloc, program, item)?;
        self.current = current;
        Ok(())
    }

    /// The first condition of the items from the place on; none where they have none.
    fn give_behind(&mut self, program: &Program) -> Result<Option<u32>, AllocError>
        ensures { IfOk result (λ o. IsNext program.now self.new o (formulas_from program.now self.old.place)) }
    {
        while self.place < program.items.len() {
            let item = item_at(&program.items, self.place);
            self.place += 1;
            self.begin(program, item)?;
            let condition = self.current.give()?;
            if let Some(condition) = condition {
                return Ok(Some(condition));
            }
        }
        Ok(None)
    }

    /// The next condition, a formula of the graph; none behind the last.
    pub fn give(&mut self, program: &Program) -> Result<Option<u32>, AllocError>
        ensures { (fs : List Formula) → Remains program.now self.old fs →
            IfOk result (λ o. IsNext program.now self.new o fs) }
    {
        let condition = self.current.give()?;
        if let Some(condition) = condition {
            return Ok(Some(condition));
        }
        let behind = self.give_behind(program)?;
        Ok(behind)
    }
}
