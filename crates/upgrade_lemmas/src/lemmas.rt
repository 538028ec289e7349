//! The lemmas that are made of conclusions.

ghost use Rattle.std.specs.Prelude.{List, IfOk};
ghost use Rattle.term_meaning.specs.Meaning.{Language as Meant};
ghost use Rattle.certificate_upgrade.specs.Conclusions.{Conclusion as Concluded};
ghost use Rattle.certificate_upgrade.specs.Held.{AreConclusions};
ghost use Rattle.upgrade_lemmas.specs.Made.{AreMade};

use crate::choice::choose;
use crate::making::lemmas_of;
use crate::places::places_of;
use cert_format::certificate::Refutation;
use certificate_upgrade::conclusion::Conclusions;
use std::alloc::{AllocError, Global};

/// The lemmas of an upgrade, and the place among them of each tree of the conclusions' graph that is one's.
#[derive(Drop)]
pub struct Lemmas {
    pub list: Vec<Refutation>,
    pub places: Vec<Option<u32>>,
}

/// Makes the lemmas: of what at least two steps conclude, in the order in which it first is concluded, 20,000 at most.
///
/// # Errors
/// Where memory is refused.
pub fn make_lemmas(alloc: Global, held: &Conclusions) -> Result<Lemmas, AllocError>
    ensures { (l : Meant) (cs : List Concluded) → AreConclusions l held.now cs →
        IfOk result (AreMade l held.now.graph cs) }
{
    held.graph.known();
    let nodes = held.graph.len();
    let chosen = choose(alloc, held)?;
    let firsts = chosen.as_slice();
    let list = lemmas_of(alloc, &held.graph, firsts)?;
    let places = places_of(alloc, nodes, firsts)?;
    Ok(Lemmas { list, places })
}
