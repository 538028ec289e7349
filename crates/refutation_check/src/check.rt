//! A condition, checked by its block of a certificate.

ghost use Rattle.std.specs.Prelude.{◌≡◌, length};
ghost use Rattle.term_meaning.specs.Meaning.{Language};
ghost use Rattle.block_layout.specs.Loading.{has_steps as has_steps_of};
ghost use Rattle.block_layout.specs.Space.{IsTheory, IsSomeTheory, KnowsSorts, Keeps};
ghost use Rattle.refutation_check.specs.Judging.{IsUnloaded, IsEnding};
ghost use Rattle.refutation_check.specs.Judging.{IsWhole, IsSomeLoaded, Judges};
ghost use Rattle.refutation_check.specs.Follows.{Answers, TellsFollows, TellsValid};

use crate::answer::{Answer, CheckFault};
use crate::held::Lemmas;
use crate::steps::{ends_empty, first_failure};
use block_layout::load::load;
use block_layout::loaded::{Loaded, Stop};
use block_layout::space::{Space, Theory};
use cert_format::certificate::Refutation;
use std::alloc::Global;
use term_graph::graph::Graph;
use vcc_rules::rule::Scratch;

/// Whether the loading came as far as to steps.
fn has_steps(stop: Option<Stop>) -> bool
    ensures { result ≡ has_steps_of stop }
{
    let Some(stop) = stop else {
        return true;
    };
    match stop {
        Stop::BadTerm(_) => false,
        Stop::Limit => false,
        Stop::LimitAt(_) => true,
        Stop::UnnamedAt(_) => true,
    }
}

/// The answer where the terms were not all loaded.
fn unloaded(stop: Option<Stop>) -> Result<Answer, CheckFault>
    ensures { IsUnloaded stop result }
{
    let Some(stop) = stop else {
        return Err(CheckFault::Limit);
    };
    match stop {
        Stop::BadTerm(k) => Ok(Answer::BadTerm(k)),
        Stop::Limit => Err(CheckFault::Limit),
        Stop::LimitAt(_) => Err(CheckFault::Limit),
        Stop::UnnamedAt(_) => Err(CheckFault::Limit),
    }
}

/// The answer where all steps are given, and loading came to an end.
#[tactic(auto, using(crate::proofs::Verdicts::whole_empty, crate::proofs::Verdicts::whole_other))]
fn whole(loaded: &Loaded) -> Result<Answer, CheckFault>
    ensures { IsWhole loaded.now.clauses.list.items (length loaded.now.steps.items) result }
{
    let clauses = &loaded.clauses;
    if ends_empty(&clauses.list) {
        return Ok(Answer::Follows);
    }
    Ok(Answer::FailsAt(loaded.steps.len()))
}

/// The answer where all steps that were loaded are given.
fn ending(loaded: &Loaded) -> Result<Answer, CheckFault>
    ensures { IsEnding loaded.now loaded.now.stop result }
{
    let Some(stop) = loaded.stop else {
        return whole(loaded);
    };
    match stop {
        Stop::LimitAt(_) => Err(CheckFault::Limit),
        Stop::UnnamedAt(s) => Ok(Answer::FailsAt(s)),
        Stop::BadTerm(_) => whole(loaded),
        Stop::Limit => whole(loaded),
    }
}

/// What a loaded block shows of its condition, by the lemmas. It takes no memory.
///
/// # Errors
/// `Limit`, where loading ended since the graph has more nodes than it may; `Wide`, where a number leaves 128 bits.
#[tactic(auto, using(crate::proofs::Verdicts::judges_unloaded, crate::proofs::Verdicts::judges_wide, crate::proofs::Verdicts::judges_failure, crate::proofs::Verdicts::judges_ending, crate::proofs::Verdicts::within, crate::proofs::Verdicts::steps_long))]
pub fn check_loaded(
    space: &Space,
    lemmas: &Lemmas,
    loaded: &Loaded,
    scratch: &mut Scratch,
) -> Result<Answer, CheckFault>
    requires loaded { IsSomeLoaded space.now loaded.now }
    requires room { scratch.old ≡ length space.now.graph }
    ensures { Judges space.now lemmas.now.clauses.items loaded.now result }
{
    if !has_steps(loaded.stop) {
        return unloaded(loaded.stop);
    }
    let failure = first_failure(space, lemmas, loaded, scratch);
    match failure {
        Err(wide) => Err(CheckFault::Wide(wide)),
        Ok(Some(s)) => Ok(Answer::FailsAt(s)),
        Ok(None) => ending(loaded),
    }
}

/// What a block shows of its condition, whose own terms are put into the space, behind what is there.
#[tactic(auto, using(crate::proofs::Verdicts::out_of_memory))]
fn judge(
    alloc: Global,
    theory: Theory<'_>,
    lemmas: &Lemmas,
    own: &Graph,
    root: u32,
    block: &Refutation,
    space: &mut Space,
) -> Result<Answer, CheckFault>
    requires theory { IsSomeTheory theory space.old }
    ensures answer { Answers theory.entry space.old lemmas.now own.now root block.now result }
    ensures kept { Keeps theory.entry.language.now space.old space.new }
{
    let loaded = load(alloc, theory, own, root, block, space)?;
    let mut scratch = Scratch::new(alloc);
    scratch.reserve(space.graph.len())?;
    check_loaded(space, lemmas, &loaded, &mut scratch)
}

/// What a block shows of its condition, by the lemmas, which are held over the nodes of the space. The own terms are the
/// condition's, numbered children before parents, left to right, equal ones once, and `root` is its number there. The
/// space is as before at every exit, but for its sorts, which may be those of fewer nodes.
///
/// # Errors
/// `Limit`, where more than 1,048,576 nodes stand in the space; `Wide`, where a number leaves 128 bits; `OutOfMemory`,
/// where memory is refused.
pub fn check_one(
    alloc: Global,
    theory: Theory<'_>,
    lemmas: &Lemmas,
    own: &Graph,
    root: u32,
    block: &Refutation,
    space: &mut Space,
) -> Result<Answer, CheckFault>
    requires theory { IsSomeTheory theory space.old }
    ensures answer { Answers theory.entry space.old lemmas.now own.now root block.now result }
    ensures follows { TellsFollows theory.entry space.old lemmas.now own.now root block.now result }
    ensures valid { TellsValid theory.entry space.old lemmas.now own.now root block.now result }
    ensures released { space.new.graph ≡ space.old.graph }
    ensures sorts { (l : Language) → IsTheory theory.entry l → KnowsSorts l space.old → KnowsSorts l space.new }
{
    space.known();
    let mark = space.mark();
    let answer = judge(alloc, theory, lemmas, own, root, block, space);
    space.known();
    space.release(mark);
    answer
}
