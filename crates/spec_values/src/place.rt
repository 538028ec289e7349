//! Where an expression is worked out.

ghost use Rattle.std.specs.Prelude.{◌≡◌, slice_index_or};
ghost use Rattle.object_types.specs.References.{null};
ghost use Rattle.method.specs.Tables.{local};
ghost use Rattle.method.specs.SpecValue.{old_scene, about, filling};
ghost use Rattle.spec_values.specs.Scenes.{members_of, scene_at};

use crate::values::local;
use method::program::{Hole, Program};
use object_types::heap::Heap;
use object_types::references::{NULL, Ref};
use object_types::values::Value;

/// The members that the quantifiers around are at, innermost first.
#[derive(Clone, Copy)]
pub enum Bound<'a> {
    Free,
    Within(Ref, &'a Bound<'a>),
}

impl Bound<'_> {
    /// The member that the quantifier is at, 0 being the innermost; NULL where there are not so many.
    pub fn member(&self, i: u32) -> Ref
        ensures { result ≡ slice_index_or (members_of self.now) i null }
    {
        match self {
            Bound::Free => NULL,
            Bound::Within(member, outer) => {
                if i == 0 {
                    return *member;
                }
                outer.member(i - 1)
            }
        }
    }
}

/// Where an expression is worked out.
#[derive(Clone, Copy)]
pub struct Place<'a> {
    pub program: &'a Program,
    pub before: &'a Heap,
    pub after: &'a Heap,
    /// `\me`
    pub thread: Ref,
    /// `\this`
    pub this: Ref,
    /// the variables of the function now
    pub locals: &'a [Value],
    /// its parameters at its entry
    pub entry: &'a [Value],
    /// parameters have their values at entry
    pub is_old: bool,
    /// `\result`
    pub result: Value,
    pub bound: &'a Bound<'a>,
    /// the claim that a `\claims` around speaks of
    pub subject: Ref,
}

impl<'a> Place<'a> {
    /// The value of a variable here.
    pub fn variable(&self, i: u32) -> Value
        ensures { result ≡ local (scene_at self.now).locals i }
    {
        if self.is_old && (i as usize) < self.entry.len() {
            return local(self.entry, i);
        }
        local(self.locals, i)
    }

    /// The value that fills a hole here.
    pub fn filling(&self, hole: Hole) -> Value
        ensures { result ≡ filling (scene_at self.now) hole }
    {
        match hole {
            Hole::OfVariable(i) => self.variable(i),
            Hole::OfBound(i) => Value::Ref(self.bound.member(i)),
            Hole::OfMe => Value::Ref(self.thread),
            Hole::OfThis => Value::Ref(self.this),
            Hole::OfResult => self.result,
        }
    }

    /// The same place on the earlier heap.
    pub fn old(&self) -> Place<'a>
        ensures scene { scene_at result ≡ old_scene (scene_at self.now) }
        ensures program { result.program ≡ self.now.program }
    {
        Place {
            after: self.before,
            is_old: true,
            ..*self
        }
    }

    /// The same place, within one more quantifier.
    pub fn within<'b>(&self, bound: &'b Bound<'b>) -> Place<'b>
    where
        'a: 'b,
        ensures scene { scene_at result ≡ record (scene_at self.now) { bound = members_of bound.now } }
        ensures program { result.program ≡ self.now.program }
    {
        Place { bound, ..*self }
    }

    /// The same place, where a claim is spoken of.
    pub fn about(&self, claim: Ref) -> Place<'a>
        ensures scene { scene_at result ≡ about claim (scene_at self.now) }
        ensures program { result.program ≡ self.now.program }
    {
        Place {
            subject: claim,
            ..*self
        }
    }
}
