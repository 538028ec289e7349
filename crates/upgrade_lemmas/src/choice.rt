//! Which conclusions become lemmas.

ghost use Rattle.std.specs.Prelude.{◌≡◌, ◌≤◌, ◌++◌, List, length, IfOk, OnOk};
ghost use Rattle.term_meaning.specs.Meaning.{Language as Meant};
ghost use Rattle.certificate_upgrade.specs.Conclusions.{Conclusion as Concluded};
ghost use Rattle.certificate_upgrade.specs.Held.{AreConclusions, AllStandFor};
ghost use Rattle.certificate_upgrade.specs.Lemmas.{lemma_conclusions};
ghost use Rattle.upgrade_lemmas.specs.Chosen as spec;
ghost use Rattle.upgrade_lemmas.specs.Chosen.{referents};

use crate::tables::set;
use certificate_upgrade::conclusion::{Conclusion, Conclusions};
use std::alloc::{AllocError, Global};

/// How often a node is concluded.
#[derive(Clone, Copy)]
pub enum Count {
    /// not at all
    Zero,
    /// once
    One,
    /// more than once
    More,
}

/// How many lemmas there are at most.
const MOST: usize = 20_000;

fn is_more(count: Count) -> bool
    ensures { result ≡ spec.is_more count }
{
    matches!(count, Count::More)
}

fn one_more(count: Count) -> Count
    ensures { result ≡ spec.one_more count }
{
    match count {
        Count::Zero => Count::One,
        Count::One | Count::More => Count::More,
    }
}

fn count_at(counts: &[Count], node: u32) -> Count
    ensures { result ≡ spec.count_at counts.now node }
{
    let place = node as usize;
    if place >= counts.len() {
        return Count::Zero;
    }
    counts[place]
}

/// How often each of so many nodes is concluded.
fn count_nodes(alloc: Global, list: &[Conclusion], nodes: usize) -> Result<Vec<Count>, AllocError>
    ensures { IfOk result (λ counts. spec.AreCounts nodes list.now counts.items) }
{
    let mut counts = vec![in alloc; Count::Zero; nodes]?;
    for conclusion in list {
        let more = one_more(count_at(&counts, conclusion.tree));
        set(&mut counts, conclusion.tree, more);
    }
    Ok(counts)
}

/// Adds the conclusion, if its node has more than one and this is the first.
fn add_first<'a>(
    chosen: &mut Vec<&'a Conclusion>,
    counts: &mut [Count],
    conclusion: &'a Conclusion,
) -> Result<(), AllocError>
    ensures chosen { OnOk result (referents chosen.new.items ≡ referents chosen.old.items ++
        spec.first_of counts.old conclusion.now) }
    ensures counts { OnOk result (counts.new ≡ spec.without_node counts.old conclusion.now) }
{
    if !is_more(count_at(counts, conclusion.tree)) {
        return Ok(());
    }
    chosen.push(conclusion)?;
    set(counts, conclusion.tree, Count::Zero);
    Ok(())
}

/// The first conclusion of each node that has more than one.
fn firsts<'a>(
    alloc: Global,
    list: &'a [Conclusion],
    counts: &mut [Count],
) -> Result<Vec<&'a Conclusion>, AllocError>
    ensures { IfOk result (λ chosen. referents chosen.items ≡ spec.firsts counts.old list.now) }
{
    let mut chosen: Vec<&'a Conclusion> = Vec::new(alloc);
    for conclusion in list {
        add_first(&mut chosen, counts, conclusion)?;
    }
    Ok(chosen)
}

/// The conclusions that become lemmas: of each tree that at least two conclude the first, 20,000 at most.
pub fn choose<'a>(alloc: Global, held: &'a Conclusions) -> Result<Vec<&'a Conclusion>, AllocError>
    ensures chosen { (l : Meant) (cs : List Concluded) → AreConclusions l held.now cs →
        IfOk result (λ chosen. AllStandFor l held.now.graph (referents chosen.items) (lemma_conclusions cs)) }
    ensures few { IfOk result (λ chosen. length chosen.items ≤ 20000) }
{
    held.graph.known();
    let list = held.list.as_slice();
    let mut counts = count_nodes(alloc, list, held.graph.len())?;
    let mut chosen = firsts(alloc, list, &mut counts)?;
    chosen.truncate(MOST);
    Ok(chosen)
}
