//! Finite sets of references.

ghost use Rattle.std.specs.Prelude.{◌≡◌, ◌≤◌, ◌↔◌, List, [], OnOk, OnErr, IfOk, IfErr, IsTrue, length};
ghost use Rattle.object_types.specs.References.{ref_lt, same_ref};
ghost use Rattle.object_types.specs.Places.{is_ordered, place, IsAt, GoesAt};
ghost use Rattle.object_types.specs.Sets.{set_member};
ghost use Rattle.object_types.specs.declared.references.Ref.{Ref as Reference};

use crate::references::Ref;
use std::alloc::{AllocError, Global};
use std::marker::Model;

/// A set of references; contracts see its members in reference order.
#[derive(Drop)]
pub struct RefSet {
    members: Vec<Ref>,
}

impl Model for RefSet {
    ghost use Rattle.std.specs.Prelude.{◌≡◌, List, true};
    ghost use Rattle.object_types.specs.declared.references.Ref.{Ref as Reference};
    ghost use Rattle.object_types.specs.References.{ref_lt};
    ghost use Rattle.object_types.specs.Places.{is_ordered};

    ghost Value = { List Reference };

    ghost view = { λ a. a.members.items };

    ghost invariant = { λ a. is_ordered ref_lt a.members.items ≡ true };
}

impl RefSet {
    /// The set of no members.
    pub fn empty(alloc: Global) -> RefSet
        ensures { result ≡ [] }
    {
        RefSet {
            members: Vec::new(alloc),
        }
    }

    /// The members, in reference order.
    pub fn as_slice(&self) -> &[Ref]
        ensures { result.now ≡ self.now }
    {
        &self.members
    }

    /// How many members are before the reference.
    fn place(&self, reference: Ref) -> usize
        ensures place { result ≡ place (λ y. ref_lt y reference) self.now }
        ensures bound { result ≤ length self.now }
    {
        self.members.as_slice().partition_point(
            |member: &Ref| -> bool
                ensures { result ≡ ref_lt member.now reference }
            { member.is_before(reference) },
        )
    }

    /// Where the reference is, or else where it would stand.
    fn find(&self, reference: Ref) -> Result<usize, usize>
        ensures found { IfOk result (IsAt (λ y. y) ref_lt same_ref reference self.now) }
        ensures absent { IfErr result (GoesAt (λ y. y) ref_lt same_ref reference self.now) }
    {
        let place = self.place(reference);
        if place == self.members.len() {
            return Err(place);
        }
        if self.members[place].is_same(reference) {
            return Ok(place);
        }
        Err(place)
    }

    /// Makes the reference a member, or takes it out.
    pub fn set(&mut self, reference: Ref, holds: bool) -> Result<(), AllocError>
        ensures ok { OnOk result (self.new ≡ set_member reference holds self.old) }
        ensures err { OnErr result (self.new ≡ self.old) }
        ensures ordered { IsTrue (is_ordered ref_lt self.new) }
    {
        match self.find(reference) {
            Ok(place) => {
                if holds {
                    return Ok(());
                }
                self.members.remove(place);
                Ok(())
            }
            Err(place) => {
                if !holds {
                    return Ok(());
                }
                self.members.insert(place, reference)?;
                Ok(())
            }
        }
    }

    /// The same set once more.
    pub fn copy(&self) -> Result<RefSet, AllocError>
        ensures { IfOk result (λ s. s ≡ self.now) }
    {
        Ok(RefSet {
            members: Vec::from_slice(*self.members.allocator(), &self.members)?,
        })
    }
}

/// Whether the two sets are one.
pub fn same_members(left: &[Ref], right: &[Ref]) -> bool
    ensures { IsTrue result ↔ (left.now ≡ right.now) }
{
    left == right
}
