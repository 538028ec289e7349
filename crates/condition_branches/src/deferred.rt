//! What ways put off until the block's end.

ghost use Rattle.std.specs.Prelude.{◌++◌, IfOk, List};
ghost use Rattle.terms.specs.declared.term.Term.{Term};
ghost use Rattle.terms.specs.Formula.{Formula};
ghost use Rattle.conditions.specs.Code as spec;
ghost use Rattle.conditions.specs.Actions as actions;
ghost use Rattle.conditions.specs.Formulas.{not'};
ghost use Rattle.condition_formulas.specs.Standing.{StandsAs};
ghost use Rattle.condition_code.specs.States.{AreDeferred, AreDeferredClaims, IsDeferred, IsDeferredClaim, IsState};
ghost use Rattle.condition_branches.specs.Guards.{guarded_claim, guarded_object};
ghost use Rattle.condition_branches.specs.Joins.{IsJoined};

use crate::variables::Joined;
use condition_code::state::{DeferredClaim, DeferredObject, State};
use condition_formulas::lists::joined;
use std::alloc::{AllocError, Global};

/// The object behind one more test.
fn guarded_object(
    alloc: Global,
    test: u32,
    object: DeferredObject,
) -> Result<DeferredObject, AllocError>
    ensures { (ts : List Term) (f : Formula) (d : spec.DeferredObject) →
        StandsAs ts test f → IsDeferred ts object d →
        IfOk result (λ r. IsDeferred ts r (guarded_object f d)) }
{
    let guards = joined(alloc, &[test], &object.guards)?;
    Ok(DeferredObject {
        guards,
        which: object.which,
    })
}

/// The claim behind one more test.
fn guarded_claim(
    alloc: Global,
    test: u32,
    claim: DeferredClaim,
) -> Result<DeferredClaim, AllocError>
    ensures { (ts : List Term) (f : Formula) (d : spec.DeferredClaim) →
        StandsAs ts test f → IsDeferredClaim ts claim d →
        IfOk result (λ r. IsDeferredClaim ts r (guarded_claim f d)) }
{
    let guards = joined(alloc, &[test], &claim.guards)?;
    Ok(DeferredClaim {
        guards,
        which: claim.which,
        entries: claim.entries,
    })
}

/// Adds the objects, each behind one more test.
fn add_changed(
    alloc: Global,
    changed: &mut Vec<DeferredObject>,
    test: u32,
    objects: Vec<DeferredObject>,
) -> Result<(), AllocError>
    ensures { (ts : List Term) (f : Formula) (ds es : List spec.DeferredObject) →
        StandsAs ts test f → AreDeferred ts changed.old.items ds → AreDeferred ts objects.items es →
        IfOk result (λ _. AreDeferred ts changed.new.items (ds ++ actions.guard_changed f es)) }
{
    for object in objects {
        let guarded = guarded_object(alloc, test, object)?;
        changed.push(guarded)?;
    }
    Ok(())
}

/// Adds the claims, each behind one more test.
fn add_made(
    alloc: Global,
    made: &mut Vec<DeferredClaim>,
    test: u32,
    claims: Vec<DeferredClaim>,
) -> Result<(), AllocError>
    ensures { (ts : List Term) (f : Formula) (ds es : List spec.DeferredClaim) →
        StandsAs ts test f → AreDeferredClaims ts made.old.items ds → AreDeferredClaims ts claims.items es →
        IfOk result (λ _. AreDeferredClaims ts made.new.items (ds ++ actions.guard_made f es)) }
{
    for claim in claims {
        let guarded = guarded_claim(alloc, test, claim)?;
        made.push(guarded)?;
    }
    Ok(())
}

/// The objects before the branch, and those of both ways.
fn all_changed(
    alloc: Global,
    before: Vec<DeferredObject>,
    test: u32,
    first: Vec<DeferredObject>,
    fails: u32,
    second: Vec<DeferredObject>,
) -> Result<Vec<DeferredObject>, AllocError>
    ensures { (ts : List Term) (b : Formula) (ds es gs : List spec.DeferredObject) →
        StandsAs ts test b → StandsAs ts fails (not' b) →
        AreDeferred ts before.items ds → AreDeferred ts first.items es → AreDeferred ts second.items gs →
        IfOk result (λ all. AreDeferred ts all.items
        (ds ++ actions.guard_changed b es ++ actions.guard_changed (not' b) gs)) }
{
    let mut all = before;
    add_changed(alloc, &mut all, test, first)?;
    add_changed(alloc, &mut all, fails, second)?;
    Ok(all)
}

/// The claims before the branch, and those of both ways.
fn all_made(
    alloc: Global,
    before: Vec<DeferredClaim>,
    test: u32,
    first: Vec<DeferredClaim>,
    fails: u32,
    second: Vec<DeferredClaim>,
) -> Result<Vec<DeferredClaim>, AllocError>
    ensures { (ts : List Term) (b : Formula) (ds es gs : List spec.DeferredClaim) →
        StandsAs ts test b → StandsAs ts fails (not' b) →
        AreDeferredClaims ts before.items ds → AreDeferredClaims ts first.items es →
        AreDeferredClaims ts second.items gs →
        IfOk result (λ all. AreDeferredClaims ts all.items
        (ds ++ actions.guard_made b es ++ actions.guard_made (not' b) gs)) }
{
    let mut all = before;
    add_made(alloc, &mut all, test, first)?;
    add_made(alloc, &mut all, fails, second)?;
    Ok(all)
}

/// The state behind both ways, with what each put off behind its test.
pub fn with_deferred(
    alloc: Global,
    st: State,
    test: u32,
    fails: u32,
    first: State,
    behind: Joined,
) -> Result<State, AllocError>
    ensures { (ts : List Term) (s x : spec.State) (b : Formula) (j : actions.Joined) →
        IsState ts st s → StandsAs ts test b → StandsAs ts fails (not' b) → IsState ts first x → IsJoined ts behind j →
        IfOk result (λ r. IsState ts r (actions.with_deferred s b x j.state j)) }
{
    let Joined { locals, state, .. } = behind;
    let changed = all_changed(alloc, st.changed, test, first.changed, fails, state.changed)?;
    let made = all_made(alloc, st.made, test, first.made, fails, state.made)?;
    Ok(State {
        heap: state.heap,
        locals,
        integers: state.integers,
        references: state.references,
        heaps: state.heaps,
        changed,
        made,
    })
}
