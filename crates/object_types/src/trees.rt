//! Trees of records in reference order. Two trees share what they have in common, so a copy is one step, and a change
//! makes anew only the forks on the way to it.

ghost use Rattle.std.specs.Prelude.{◌≡◌, ◌∷◌, ◌++◌, IfOk};
ghost use Rattle.std.specs.Option.{option_copied};
ghost use Rattle.object_types.specs.Trees.{in_order, IsInOrder, stored_at, with_stored, first_from, newest_of};

use crate::records::Stored;
use crate::references::Ref;
use std::alloc::{AllocError, Global};
use std::rc::Rc;

/// Records in reference order.
#[cycle(tree)]
#[derive(Drop)]
pub enum Tree {
    Empty,
    Fork(Rc<Fork>),
}

/// A record, with those before it and those after it.
#[cycle(tree)]
#[derive(Drop)]
pub struct Fork {
    before: Tree,
    stored: Rc<Stored>,
    after: Tree,
    height: u32,
}

impl Tree {
    /// The tree once more, which shares all with this one.
    pub fn share(&self) -> Result<Tree, AllocError>
        ensures { IfOk result (λ t. in_order t ≡ in_order self.now) }
    {
        match self {
            Tree::Empty => Ok(Tree::Empty),
            Tree::Fork(fork) => {
                let same = fork.clone()?;
                Ok(Tree::Fork(same))
            }
        }
    }

    /// How many forks stand on one another, at most. Only speed depends on it.
    fn height(&self) -> u32 {
        match self {
            Tree::Empty => 0,
            Tree::Fork(fork) => fork.height,
        }
    }

    /// The record at the reference.
    pub fn find(&self, o: Ref) -> Option<&Stored>
        ensures { IsInOrder self.now → option_copied result ≡ stored_at o (in_order self.now) }
    {
        let Tree::Fork(shared) = self else {
            return None;
        };
        let fork = shared.as_ref();
        let own = fork.stored.as_ref();
        if o.is_before(own.reference) {
            return fork.before.find(o);
        }
        if own.reference.is_same(o) {
            return Some(own);
        }
        fork.after.find(o)
    }

    /// The tree with the record, in place of the one with its reference.
    pub fn put(&self, alloc: Global, stored: Rc<Stored>) -> Result<Tree, AllocError>
        ensures { IsInOrder self.now → IfOk result (λ t. in_order t ≡ with_stored stored.value (in_order self.now)) }
    {
        let Tree::Fork(shared) = self else {
            let single = join(alloc, Tree::Empty, stored, Tree::Empty)?;
            return Ok(single);
        };
        let fork = shared.as_ref();
        let own = fork.stored.as_ref();
        let reference = stored.as_ref().reference;
        if reference.is_before(own.reference) {
            let before = fork.before.put(alloc, stored)?;
            let whole = fork.with_before(alloc, before)?;
            return Ok(whole);
        }
        if reference.is_same(own.reference) {
            let whole = fork.with_own(alloc, stored)?;
            return Ok(whole);
        }
        let after = fork.after.put(alloc, stored)?;
        let whole = fork.with_after(alloc, after)?;
        Ok(whole)
    }

    /// The first reference from `from` on whose record isn't blank.
    pub fn first(&self, from: Ref) -> Option<Ref>
        ensures { IsInOrder self.now → result ≡ first_from from (in_order self.now) }
    {
        let Tree::Fork(shared) = self else {
            return None;
        };
        let fork = shared.as_ref();
        let own = fork.stored.as_ref();
        if own.reference.is_before(from) {
            return fork.after.first(from);
        }
        if let Some(earlier) = fork.before.first(from) {
            return Some(earlier);
        }
        if !own.is_blank() {
            return Some(own.reference);
        }
        fork.after.first(from)
    }

    /// The greatest serial of the type below the greatest of all whose record's mode isn't absent.
    pub fn newest(&self, ty: u32) -> Option<u32>
        ensures { IsInOrder self.now → result ≡ newest_of ty (in_order self.now) }
    {
        let Tree::Fork(shared) = self else {
            return None;
        };
        let fork = shared.as_ref();
        let own = fork.stored.as_ref();
        if own.reference.ty < ty {
            return fork.after.newest(ty);
        }
        if ty < own.reference.ty {
            return fork.before.newest(ty);
        }
        if let Some(later) = fork.after.newest(ty) {
            return Some(later);
        }
        if own.is_present(ty) {
            return Some(own.reference.serial);
        }
        fork.before.newest(ty)
    }
}

impl Fork {
    /// The fork with other records before its own.
    fn with_before(&self, alloc: Global, before: Tree) -> Result<Tree, AllocError>
        ensures { IfOk result (λ t. in_order t ≡ in_order before ++ self.now.stored.value ∷ in_order self.now.after) }
    {
        let own = self.stored.clone()?;
        let after = self.after.share()?;
        let whole = balance(alloc, before, own, after)?;
        Ok(whole)
    }

    /// The fork with another record in place of its own.
    fn with_own(&self, alloc: Global, own: Rc<Stored>) -> Result<Tree, AllocError>
        ensures { IfOk result (λ t. in_order t ≡ in_order self.now.before ++ own.value ∷ in_order self.now.after) }
    {
        let before = self.before.share()?;
        let after = self.after.share()?;
        let whole = join(alloc, before, own, after)?;
        Ok(whole)
    }

    /// The fork with other records after its own.
    fn with_after(&self, alloc: Global, after: Tree) -> Result<Tree, AllocError>
        ensures { IfOk result (λ t. in_order t ≡ in_order self.now.before ++ self.now.stored.value ∷ in_order after) }
    {
        let before = self.before.share()?;
        let own = self.stored.clone()?;
        let whole = balance(alloc, before, own, after)?;
        Ok(whole)
    }
}

/// The record between the two trees.
fn join(alloc: Global, before: Tree, own: Rc<Stored>, after: Tree) -> Result<Tree, AllocError>
    ensures { IfOk result (λ t. in_order t ≡ in_order before ++ own.value ∷ in_order after) }
{
    let height = before.height().max(after.height()).saturating_add(1);
    let fork = Rc::new(
        alloc,
        Fork {
            before,
            stored: own,
            after,
            height,
        },
    )?;
    Ok(Tree::Fork(fork))
}

/// The record between the two trees, with heights that differ by one at most where those of the two did by two.
fn balance(alloc: Global, before: Tree, own: Rc<Stored>, after: Tree) -> Result<Tree, AllocError>
    ensures { IfOk result (λ t. in_order t ≡ in_order before ++ own.value ∷ in_order after) }
{
    if before.height() > after.height().saturating_add(1) {
        let whole = lean_right(alloc, &before, own, after)?;
        return Ok(whole);
    }
    if after.height() > before.height().saturating_add(1) {
        let whole = lean_left(alloc, before, own, &after)?;
        return Ok(whole);
    }
    let whole = join(alloc, before, own, after)?;
    Ok(whole)
}

/// The record between the two trees, of which the first is too high.
fn lean_right(
    alloc: Global,
    before: &Tree,
    own: Rc<Stored>,
    after: Tree,
) -> Result<Tree, AllocError>
    ensures { IfOk result (λ t. in_order t ≡ in_order before.now ++ own.value ∷ in_order after) }
{
    let steady = outward_left(alloc, before)?;
    let whole = turn_right(alloc, &steady, own, after)?;
    Ok(whole)
}

/// The record between the two trees, of which the second is too high.
fn lean_left(alloc: Global, before: Tree, own: Rc<Stored>, after: &Tree) -> Result<Tree, AllocError>
    ensures { IfOk result (λ t. in_order t ≡ in_order before ++ own.value ∷ in_order after.now) }
{
    let steady = outward_right(alloc, after)?;
    let whole = turn_left(alloc, before, own, &steady)?;
    Ok(whole)
}

/// The tree with its left side at least as high as its right one.
fn outward_left(alloc: Global, tree: &Tree) -> Result<Tree, AllocError>
    ensures { IfOk result (λ t. in_order t ≡ in_order tree.now) }
{
    let Tree::Fork(top) = tree else {
        return Ok(Tree::Empty);
    };
    if top.before.height() >= top.after.height() {
        return tree.share();
    }
    let before = top.before.share()?;
    let own = top.stored.clone()?;
    let whole = turn_left(alloc, before, own, &top.after)?;
    Ok(whole)
}

/// The tree with its right side at least as high as its left one.
fn outward_right(alloc: Global, tree: &Tree) -> Result<Tree, AllocError>
    ensures { IfOk result (λ t. in_order t ≡ in_order tree.now) }
{
    let Tree::Fork(top) = tree else {
        return Ok(Tree::Empty);
    };
    if top.after.height() >= top.before.height() {
        return tree.share();
    }
    let own = top.stored.clone()?;
    let after = top.after.share()?;
    let whole = turn_right(alloc, &top.before, own, after)?;
    Ok(whole)
}

/// The record between the two trees, with the first one's top above it.
#[tactic(auto, using(crate::proofs::Splits::turned_right))]
fn turn_right(
    alloc: Global,
    before: &Tree,
    own: Rc<Stored>,
    after: Tree,
) -> Result<Tree, AllocError>
    ensures { IfOk result (λ t. in_order t ≡ in_order before.now ++ own.value ∷ in_order after) }
{
    let Tree::Fork(top) = before else {
        let whole = join(alloc, Tree::Empty, own, after)?;
        return Ok(whole);
    };
    let between = top.after.share()?;
    let low = join(alloc, between, own, after)?;
    let outer = top.before.share()?;
    let above = top.stored.clone()?;
    let whole = join(alloc, outer, above, low)?;
    Ok(whole)
}

/// The record between the two trees, with the second one's top above it.
#[tactic(auto, using(crate::proofs::Splits::turned_left))]
fn turn_left(alloc: Global, before: Tree, own: Rc<Stored>, after: &Tree) -> Result<Tree, AllocError>
    ensures { IfOk result (λ t. in_order t ≡ in_order before ++ own.value ∷ in_order after.now) }
{
    let Tree::Fork(top) = after else {
        let whole = join(alloc, before, own, Tree::Empty)?;
        return Ok(whole);
    };
    let between = top.before.share()?;
    let low = join(alloc, before, own, between)?;
    let above = top.stored.clone()?;
    let outer = top.after.share()?;
    let whole = join(alloc, low, above, outer)?;
    Ok(whole)
}
