//! The conditions of items, one after the other.

ghost use Rattle.std.specs.Prelude.{◌≡◌, ◌+◌, ◌<◌, ◌≤◌, true, IfOk, IsErrOf, List, ℕ, Option, Some};
ghost use Rattle.std.specs.Prelude.{drop, is_none, length, slice_get};
ghost use Rattle.conditions.specs.Conditions.{item_conditions};
ghost use Rattle.method.specs.Labels as spec;
ghost use Rattle.condition_meaning.specs.Languages.{language_of};
ghost use Rattle.block_layout.specs.Space.{IsTheory};
ghost use Rattle.check_labels.specs.Labels.{labels_of};
ghost use Rattle.vcc_base.specs.Maps.{Map};
ghost use Rattle.vcc_base.specs.declared.store.StoreFault.TheVariants.{Failed};
ghost use Rattle.vcc_verify.specs.Writing.{Stands};
ghost use Rattle.vcc_verify.specs.Runs.{ConditionsRun, ItemsRun, at_start, first_after};

use crate::certificate::write_finding;
use crate::fault::VerifyFault;
use block_layout::space::Theory;
use cert_format::certificate::Refutation;
use check_labels::labels::ProgramLabel;
use graph_numbering::places::Places;
use ground_prover::proof::Budget;
use method::program::{Item, Program};
use std::alloc::Global;
use vcc_base::sink::{Sink, SinkFault};
use vcc_base::store::{Store, StoreFault};
use vcc_judge::sequence::ItemConditions;
use vcc_search::lines::put_item;
use vcc_search::search::search;

/// What came of conditions of an item: how many there are, the label of the first without a block, and how many bytes
/// the certificate has with their blocks.
#[derive(Clone, Copy, Debug)]
pub struct ItemEnd {
    pub conditions: usize,
    pub first: Option<ProgramLabel>,
    pub written: usize,
}

/// No condition is decided, and so many bytes are written.
fn start(written: usize) -> ItemEnd
    ensures { result ≡ at_start written }
{
    ItemEnd {
        conditions: 0,
        first: None,
        written,
    }
}

/// The first label, after one finding more, whose label this is.
fn first_of(
    first: Option<ProgramLabel>,
    finding: &Option<Refutation>,
    label: ProgramLabel,
) -> Option<ProgramLabel>
    ensures { result ≡ first_after first finding.now label }
{
    match first {
        Some(first) => Some(first),
        None => match finding {
            Some(_) => None,
            None => Some(label),
        },
    }
}

/// Searches the item's conditions and writes their blocks, up to the first fault. Their labels are the first of these.
pub fn write_item<S: Store>(
    alloc: Global,
    theory: Theory<'_>,
    item: Item,
    labels: &[ProgramLabel],
    budget: Budget,
    cert: &str,
    written: usize,
    store: &mut S,
) -> Result<ItemEnd, VerifyFault>
    requires theory { IsTheory theory (language_of theory.program.now) }
    requires labels { length (item_conditions theory.program.now item) ≤ length labels.now }
    requires room { written ≤ 67108860 }
    ensures run { (before : Option Map) (text : List ℕ) →
        Stands before (S.contents store.old) cert.now text written →
        ConditionsRun (language_of theory.entry.program.now) (item_conditions theory.entry.program.now item)
        (labels_of labels.now) (at_start written) before (S.contents store.new) cert.now text result }
    ensures room { IfOk result (λ end. end.written ≤ 67108860) }
    ensures failed { IsErrOf result (VerifyFault.Store Failed) → S.write_faults store.old < S.write_faults store.new }
    ensures no_sink { IsErrOf result (VerifyFault.Sink SinkFault.Failed) → ⊥ }
    ensures never_falls { S.write_faults store.old ≤ S.write_faults store.new }
    ensures reads_stay { S.read_faults store.new ≡ S.read_faults store.old }
{
    let mut conditions = ItemConditions::of(alloc, theory.program, item)?;
    let mut places = Places::new(alloc);
    let mut end = start(written);
    for label in labels {
        let given = conditions.give()?;
        let Some(condition) = given else {
            return Ok(end);
        };
        let graph = &conditions.graph;
        let finding = search(alloc, theory, graph, condition, budget, &mut places)?;
        let bytes = write_finding(alloc, cert, &finding, end.written, store)?;
        end.conditions += 1;
        end.first = first_of(end.first, &finding, *label);
        end.written = bytes;
    }
    Ok(end)
}

fn item_at(program: &Program, i: usize) -> Item
    requires { i < length program.now.items.items }
    ensures { slice_get program.now.items.items i ≡ Some result }
{
    program.items[i]
}

/// Whether each condition has a block: no label is that of the first without.
fn is_closed(first: Option<ProgramLabel>) -> bool
    ensures { result ≡ is_none first }
{
    match first {
        None => true,
        Some(_) => false,
    }
}

/// The labels from this place on.
#[tactic(auto, using(std::proofs::lemmas::List::take_rest))]
fn labels_from(labels: &[ProgramLabel], place: usize) -> &[ProgramLabel]
    requires { place ≤ length labels.now }
    ensures { result.now ≡ drop place labels.now }
{
    &labels[place..]
}

/// Searches the conditions of all items, writes their blocks, and prints an item's line after its last block, up to the
/// first fault; whether each condition has a block.
pub fn write_items<S: Store, O: Sink>(
    alloc: Global,
    theory: Theory<'_>,
    labels: &[ProgramLabel],
    budget: Budget,
    cert: &str,
    written: usize,
    store: &mut S,
    out: &mut O,
) -> Result<bool, VerifyFault>
    requires theory { IsTheory theory (language_of theory.program.now) }
    requires labels { labels_of labels.now ≡ spec.program_labels theory.program.now }
    requires room { written ≤ 67108860 }
    ensures run { (before : Option Map) (text : List ℕ) →
        Stands before (S.contents store.old) cert.now text written →
        ItemsRun theory.entry.program.now theory.entry.program.now.items.items true before (S.contents store.new)
        cert.now text (O.written out.old) (O.written out.new) result }
    ensures store_failed { IsErrOf result (VerifyFault.Store StoreFault.Failed) →
        S.write_faults store.old < S.write_faults store.new }
    ensures sink_failed { IsErrOf result (VerifyFault.Sink SinkFault.Failed) → O.faults out.old < O.faults out.new }
    ensures store_never_falls { S.write_faults store.old ≤ S.write_faults store.new }
    ensures sink_never_falls { O.faults out.old ≤ O.faults out.new }
    ensures reads_stay { S.read_faults store.new ≡ S.read_faults store.old }
{
    let mut place = 0;
    let mut all = true;
    let mut bytes = written;
    for i in 0..theory.program.items.len() {
        let item = item_at(theory.program, i);
        let rest = labels_from(labels, place);
        let end = write_item(alloc, theory, item, rest, budget, cert, bytes, store)?;
        put_item(out, theory.program, item, end.first)?;
        place += end.conditions;
        all &= is_closed(end.first);
        bytes = end.written;
    }
    Ok(all)
}
