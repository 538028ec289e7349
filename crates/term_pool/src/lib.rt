//! Values placed one after the other, and given up together.
#![tactic(auto)]

ghost use Rattle.std.specs.Prelude.{◌≡◌, ℕ, ◌+◌, ◌-◌, ◌*◌, ◌^◌, ◌<◌, ◌≤◌, ◌++◌, ◌∷◌, [], All, length, take, IfOk, IsOk, OnOk, OnErr, slice_get, Some, MatchOption, vec_len, vec_capacity};
ghost use Rattle.term_pool.specs.Chunks.{values, Fill};

use std::alloc::{AllocError, Global};
use std::marker::Model;

/// How many values a chunk holds.
const CHUNK: usize = 4096;

/// Values in the order in which they were placed. They stand in chunks, which are filled from the first on, and are never
/// moved. Contracts see the list, and how many more can be placed without taking memory.
#[derive(Debug, Drop)]
pub struct Pool<T> {
    chunks: Vec<Vec<T>>,
    len: usize,
    places: usize,
}

impl<T> Model for Pool<T> {
    ghost use Rattle.std.specs.Prelude.{◌-◌};
    ghost use Rattle.term_pool.specs.Region.{Region, region_code};
    ghost use Rattle.term_pool.specs.Chunks.{values, AreFilled};

    ghost Value = { Region T };

    ghost coded = { region_code T.code };

    ghost view = { λ p. record { items = values p.chunks.items; spare = p.places - p.len } };

    ghost invariant = { λ p. AreFilled p.chunks.items p.len p.places };
}

/// How many values stood in a pool.
#[derive(Clone, Copy, Debug, PartialEq, Eq)]
pub struct Mark {
    length: usize,
}

impl Mark {
    pub fn len(&self) -> usize
        ensures { result ≡ self.now.length }
    {
        self.length
    }
}

impl<T> Pool<T> {
    /// No values.
    pub fn new(alloc: Global) -> Pool<T>
        ensures { result.items ≡ [] }
    {
        Pool {
            chunks: Vec::new(alloc),
            len: 0,
            places: 0,
        }
    }

    #[tactic(auto, using(crate::proofs::Chunks::filled_length))]
    pub fn len(&self) -> usize
        ensures { result ≡ length self.now.items }
    {
        self.len
    }

    /// Places a value behind the others.
    #[tactic(auto, using(crate::proofs::Chunks::filled_length, crate::proofs::Chunks::filled_room))]
    pub fn push(&mut self, value: T) -> usize
        requires { 0 < self.old.spare }
        ensures items { self.new.items ≡ self.old.items ++ value ∷ [] }
        ensures spare { self.new.spare + 1 ≡ self.old.spare }
        ensures place { result ≡ length self.old.items }
    {
        let place = self.len;
        self.chunks[place / CHUNK].push_reserved(value);
        self.len += 1;
        place
    }

    pub fn get(&self, at: usize) -> &T
        requires { at < length self.now.items }
        ensures { slice_get self.now.items at ≡ Some result.now }
    {
        &self.chunks[at / CHUNK][at % CHUNK]
    }

    /// How many values there are, to come back to.
    #[tactic(auto, using(crate::proofs::Chunks::filled_length))]
    pub fn mark(&self) -> Mark
        ensures { result.length ≡ length self.now.items }
    {
        Mark { length: self.len }
    }
}

impl<T: Drop> Pool<T> {
    /// Makes room for `n` more values. Where there is room nothing changes.
    #[tactic(auto, using(crate::proofs::Chunks::filled_room, crate::proofs::Chunks::grown, crate::proofs::Chunks::filled_grown))]
    pub fn reserve(&mut self, n: usize) -> Result<(), AllocError>
        ensures items { self.new.items ≡ self.old.items }
        ensures spare { OnOk result (n ≤ self.new.spare) }
        ensures err { OnErr result (self.new ≡ self.old) }
        ensures room { n ≤ self.old.spare → IsOk result × (self.new ≡ self.old) }
    {
        let spare = self.places - self.len;
        if n <= spare {
            return Ok(());
        }
        let missing = (n - spare).div_ceil(CHUNK);
        let Some(places) = total_places(self.places, missing) else {
            return Err(AllocError);
        };
        let mut chunks = empty_chunks(*self.chunks.allocator(), missing)?;
        self.chunks.append(&mut chunks)?;
        self.places = places;
        Ok(())
    }

    /// Gives up the values that were placed since the mark.
    #[tactic(auto, using(crate::proofs::Chunks::filled_length, crate::proofs::Chunks::filled_room, crate::proofs::Chunks::released))]
    pub fn release(&mut self, mark: Mark)
        requires { mark.length ≤ length self.old.items }
        ensures items { self.new.items ≡ take mark.length self.old.items }
        ensures spare { self.new.spare + mark.length ≡ self.old.spare + length self.old.items }
    {
        cut(&mut self.chunks, mark.length);
        self.len = mark.length;
    }
}

/// How many places there are with so many chunks more, where that is a number.
fn total_places(places: usize, more: usize) -> Option<usize>
    ensures { MatchOption result (2 ^ 64 ≤ places + more * 4096) (λ n. n ≡ places + more * 4096) }
{
    places.checked_add(more.checked_mul(CHUNK)?)
}

/// So many chunks without a value, or none where memory is wanting.
#[tactic(auto, using(crate::proofs::Chunks::empty_pushed))]
fn empty_chunks<T: Drop>(alloc: Global, count: usize) -> Result<Vec<Vec<T>>, AllocError>
    ensures count { IfOk result (λ c. length c.items ≡ count) }
    ensures empty { IfOk result (λ c. Fill 0 c.items) }
{
    let mut chunks = Vec::with_capacity(alloc, count)?;
    for _ in 0..count {
        chunks.push_reserved(Vec::with_capacity(alloc, CHUNK)?);
    }
    Ok(chunks)
}

/// Keeps so many values, those of the first chunks.
fn cut<T: Drop>(chunks: &mut [Vec<T>], count: usize)
    requires { (n : ℕ) × Fill n chunks.old × (count ≤ n) }
    ensures values { values chunks.new ≡ take count (values chunks.old) }
    ensures fill { Fill count chunks.new }
    ensures chunks { length chunks.new ≡ length chunks.old }
{
    let mut left = count;
    for i in 0..chunks.len() {
        let kept = left.min(chunks[i].len());
        chunks[i].truncate(kept);
        left -= kept;
    }
}
