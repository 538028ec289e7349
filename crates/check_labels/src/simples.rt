//! The kinds of the checks that right sides and simple statements hold.

ghost use Rattle.std.specs.Prelude.{◌≡◌, ◌++◌, IfOk, Some, slice_get};
ghost use Rattle.method.specs.Labels as spec;
ghost use Rattle.method.specs.Labels.{simple_kinds};
ghost use Rattle.check_labels.specs.Kinds as own;

use crate::kinds::{
    add_all_kinds, add_each, add_interlocked_kinds, add_kinds, add_store_kinds, add_target_kinds,
    add_times,
};
use crate::tables::site_of;
use method::program::{
    CheckKind, ClaimSite, Claimed, Expr, OwnsChange, Program, RightSide, Simple,
};
use std::alloc::AllocError;

/// Adds what a claimed expression checks.
fn add_object_kinds(claimed: &Claimed, kinds: &mut Vec<CheckKind>) -> Result<(), AllocError>
    ensures { IfOk result (λ u. kinds.new.items ≡ kinds.old.items ++ own.object_kinds claimed.now) }
{
    match claimed {
        Claimed::ClaimedVariable(_) | Claimed::ClaimedNull => Ok(()),
        Claimed::ClaimedOther(e, _) => {
            add_kinds(e, kinds)?;
            Ok(())
        }
    }
}

/// Adds what the claimed expressions check.
#[tactic(auto, using(crate::proofs::Steps::claimed_first, std::proofs::lemmas::List::append_assoc))]
fn add_claimed_kinds(claimed: &[Claimed], kinds: &mut Vec<CheckKind>) -> Result<(), AllocError>
    ensures { IfOk result (λ u. kinds.new.items ≡ kinds.old.items ++ spec.claimed_kinds claimed.now) }
{
    for object in claimed {
        add_object_kinds(object, kinds)?;
    }
    Ok(())
}

/// Adds what a claim site checks, outside atomic blocks, of its conjuncts and of the objects' invariants.
fn add_property_kinds(
    inside: bool,
    site: &ClaimSite,
    kinds: &mut Vec<CheckKind>,
) -> Result<(), AllocError>
    ensures { IfOk result (λ u. kinds.new.items ≡ kinds.old.items ++ own.property_kinds inside site.now) }
{
    if inside {
        return Ok(());
    }
    add_times(CheckKind::MakeClaim, site.conjuncts.len(), kinds)?;
    add_times(CheckKind::Invariant, site.claimed.len(), kinds)?;
    Ok(())
}

/// Adds what a claim site checks.
#[tactic(auto, using(std::proofs::lemmas::List::append_assoc))]
fn add_site_kinds(
    inside: bool,
    site: &ClaimSite,
    kinds: &mut Vec<CheckKind>,
) -> Result<(), AllocError>
    ensures { IfOk result (λ u. kinds.new.items ≡ kinds.old.items ++ spec.site_kinds inside (Some site.now)) }
{
    add_claimed_kinds(&site.claimed, kinds)?;
    add_times(CheckKind::MakeClaim, site.claimed.len(), kinds)?;
    kinds.push(CheckKind::ClaimStable)?;
    add_property_kinds(inside, site, kinds)?;
    Ok(())
}

/// Adds what the claim site of this number checks.
fn add_new_claim_kinds(
    program: &Program,
    inside: bool,
    number: u32,
    kinds: &mut Vec<CheckKind>,
) -> Result<(), AllocError>
    ensures { IfOk result (λ u. kinds.new.items ≡ kinds.old.items ++
        spec.site_kinds inside (slice_get program.now.sites.items number)) }
{
    match site_of(program, number) {
        None => Ok(()),
        Some(site) => {
            add_site_kinds(inside, site, kinds)?;
            Ok(())
        }
    }
}

/// Adds what the right side checks.
pub fn add_right_kinds(
    program: &Program,
    inside: bool,
    right: &RightSide,
    kinds: &mut Vec<CheckKind>,
) -> Result<(), AllocError>
    ensures { IfOk result (λ u. kinds.new.items ≡ kinds.old.items ++ spec.right_kinds program.now inside right.now) }
{
    match right {
        RightSide::Compute(e) => {
            add_kinds(e, kinds)?;
            Ok(())
        }
        RightSide::Malloc(_) => Ok(()),
        RightSide::NewClaim(site) => {
            add_new_claim_kinds(program, inside, *site, kinds)?;
            Ok(())
        }
        RightSide::Interlocked(object, _, operation, afterwards) => {
            add_interlocked_kinds(object, operation, afterwards, kinds)?;
            Ok(())
        }
    }
}

/// The kind of check that lets an object pass into or out of an owned set.
fn passing_kind(inside: bool) -> CheckKind
    ensures { result ≡ own.passing_kind inside }
{
    if inside {
        return CheckKind::Owns;
    }
    CheckKind::Writes
}

/// Adds what passing the members into or out of an owned set checks.
fn add_member_kinds(
    inside: bool,
    members: &[Expr],
    kinds: &mut Vec<CheckKind>,
) -> Result<(), AllocError>
    ensures { IfOk result (λ u. kinds.new.items ≡ kinds.old.items ++ spec.member_kinds inside members.now) }
{
    let kind = passing_kind(inside);
    for _member in members {
        add_each(&[CheckKind::Write, kind], kinds)?;
    }
    Ok(())
}

/// Adds what the change of an owned set checks.
fn add_change_kinds(
    inside: bool,
    change: OwnsChange,
    members: &[Expr],
    kinds: &mut Vec<CheckKind>,
) -> Result<(), AllocError>
    ensures { IfOk result (λ u. kinds.new.items ≡ kinds.old.items ++ spec.change_kinds inside change members.now) }
{
    match change {
        OwnsChange::Assigned => {
            add_each(&[CheckKind::Write, CheckKind::Writes], kinds)?;
            Ok(())
        }
        OwnsChange::Added | OwnsChange::Removed => {
            add_member_kinds(inside, members, kinds)?;
            Ok(())
        }
    }
}

/// Adds what the end of a claim checks, outside atomic blocks, of its objects' invariants.
fn add_release_kinds(
    inside: bool,
    objects: &[Expr],
    kinds: &mut Vec<CheckKind>,
) -> Result<(), AllocError>
    ensures { IfOk result (λ u. kinds.new.items ≡ kinds.old.items ++ own.release_kinds inside objects.now) }
{
    if inside {
        return Ok(());
    }
    add_times(CheckKind::Invariant, objects.len(), kinds)?;
    Ok(())
}

/// Adds what the end of a claim checks.
#[tactic(auto, using(std::proofs::lemmas::List::append_assoc))]
fn add_end_kinds(
    inside: bool,
    claim: &Expr,
    objects: &[Expr],
    kinds: &mut Vec<CheckKind>,
) -> Result<(), AllocError>
    ensures { IfOk result (λ u. kinds.new.items ≡ kinds.old.items ++ own.end_kinds inside claim.now objects.now) }
{
    add_kinds(claim, kinds)?;
    add_all_kinds(objects, kinds)?;
    kinds.push(CheckKind::DestroyClaim)?;
    add_times(CheckKind::DestroyClaim, objects.len(), kinds)?;
    add_release_kinds(inside, objects, kinds)?;
    Ok(())
}

/// Adds what the statement checks.
#[tactic(auto, using(std::proofs::lemmas::List::append_assoc))]
pub fn add_simple_kinds(
    program: &Program,
    inside: bool,
    statement: &Simple,
    kinds: &mut Vec<CheckKind>,
) -> Result<(), AllocError>
    ensures { IfOk result (λ u. kinds.new.items ≡ kinds.old.items ++ simple_kinds program.now inside statement.now) }
{
    match statement {
        Simple::Assign(target, right) => {
            add_target_kinds(target, kinds)?;
            add_right_kinds(program, inside, right, kinds)?;
            add_store_kinds(target, kinds)?;
            Ok(())
        }
        Simple::ChangeOwned(change, owner, members) => {
            add_kinds(owner, kinds)?;
            add_all_kinds(members, kinds)?;
            add_change_kinds(inside, *change, members, kinds)?;
            Ok(())
        }
        Simple::EndClaim(_, claim, objects) => {
            add_end_kinds(inside, claim, objects, kinds)?;
            Ok(())
        }
    }
}
