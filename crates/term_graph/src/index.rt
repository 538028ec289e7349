//! Where a node stands in a pool, by its hash.

ghost use Rattle.std.specs.Prelude.{◌≡◌, ℕ, ◌+◌, ◌%◌, ◌^◌, ◌<◌, ◌≤◌, [], length, OnOk, OnErr};
ghost use Rattle.term_graph.specs.Index as spec;
ghost use Rattle.term_graph.specs.Index.{IsIndex, IsNumberOf};

use std::alloc::{AllocError, Global};
use term_pool::Pool;
use terms::term::Term;

/// Buckets of nodes by their hash, each a chain from its newest node to older ones. A place holds one more than a node's
/// number, and 0 where there is none.
#[derive(Debug, Drop)]
pub struct Index {
    newest: Vec<u32>,
    older: Vec<u32>,
}

/// The factor of the hash.
const SPREAD: u64 = 0x9e37_79b9_7f4a_7c15;

fn mix(hash: u64, number: u64) -> u64
    ensures { result ≡ spec.mix hash number }
{
    hash.wrapping_mul(SPREAD).wrapping_add(number)
}

#[tactic(auto, unfolding(crate::specs::Index::hash))]
fn hash(node: &Term) -> u64
    ensures { result ≡ spec.hash node.now }
{
    let index = (node.index.unsigned_abs() % (1 << 64)) as u64;
    let numbers = node.args.numbers().iter();
    numbers.fold(mix(0, index), |hash, arg| mix(hash, u64::from(*arg)))
}

impl Index {
    /// No buckets.
    pub fn new(alloc: Global) -> Index
        ensures newest { result.newest.items ≡ [] }
        ensures older { result.older.items ≡ [] }
    {
        Index {
            newest: Vec::new(alloc),
            older: Vec::new(alloc),
        }
    }

    /// How many nodes have a place.
    pub fn places(&self) -> usize
        ensures { result ≡ length self.now.older.items }
    {
        self.older.len()
    }

    fn bucket(&self, node: &Term) -> usize
        requires { 0 < length self.now.newest.items }
        ensures bucket { result ≡ spec.hash node.now % length self.now.newest.items }
        ensures within { result < length self.now.newest.items }
    {
        (hash(node) % self.newest.len() as u64) as usize
    }

    /// The number of the equal node, where one stands in the pool.
    pub fn find(&self, pool: &Pool<Term>, node: &Term) -> Option<u32>
        requires { IsIndex pool.now.items (length pool.now.items) self.now.newest.items self.now.older.items }
        ensures { IsNumberOf pool.now.items node.now result }
    {
        if self.newest.is_empty() {
            return None;
        }
        let mut next = self.newest[self.bucket(node)];
        while next > 0 {
            let id = next - 1;
            if pool.get(id as usize).is(node) {
                return Some(id);
            }
            next = self.older[id as usize];
        }
        None
    }

    /// Puts the next node of the pool into its bucket.
    pub fn link(&mut self, pool: &Pool<Term>, id: usize)
        requires index { IsIndex pool.now.items id self.old.newest.items self.old.older.items }
        requires node { id < length pool.now.items }
        requires place { id < length self.old.older.items }
        requires small { length pool.now.items < 2 ^ 32 }
        ensures index { IsIndex pool.now.items (id + 1) self.new.newest.items self.new.older.items }
        ensures buckets { length self.new.newest.items ≡ length self.old.newest.items }
        ensures places { length self.new.older.items ≡ length self.old.older.items }
    {
        let bucket = self.bucket(pool.get(id));
        self.older[id] = self.newest[bucket];
        self.newest[bucket] = id as u32 + 1;
    }

    /// Takes the nodes from that number on out of their buckets.
    pub fn unlink(&mut self, pool: &Pool<Term>, first: usize)
        requires index { IsIndex pool.now.items (length pool.now.items) self.old.newest.items self.old.older.items }
        requires first { first ≤ length pool.now.items }
        ensures index { IsIndex pool.now.items first self.new.newest.items self.new.older.items }
        ensures places { length self.new.older.items ≡ length self.old.older.items }
    {
        for id in (first..pool.len()).rev() {
            let bucket = self.bucket(pool.get(id));
            self.newest[bucket] = self.older[id];
        }
    }

    /// Places for so many nodes.
    pub fn reserve(&mut self, pool: &Pool<Term>, places: usize) -> Result<(), AllocError>
        requires index { IsIndex pool.now.items (length pool.now.items) self.old.newest.items self.old.older.items }
        requires more { length self.old.older.items < places }
        requires small { length pool.now.items < 2 ^ 32 }
        ensures index { IsIndex pool.now.items (length pool.now.items) self.new.newest.items self.new.older.items }
        ensures ok { OnOk result (length self.new.older.items ≡ places) }
        ensures err { OnErr result (length self.new.older.items ≡ length self.old.older.items) }
    {
        let buckets = self.newest.len();
        if buckets < places {
            self.rehash(pool, places.max(buckets.saturating_mul(2)))?;
        }
        self.older.resize(places, 0)
    }

    /// Puts the nodes into so many buckets.
    fn rehash(&mut self, pool: &Pool<Term>, buckets: usize) -> Result<(), AllocError>
        requires index { IsIndex pool.now.items (length pool.now.items) self.old.newest.items self.old.older.items }
        requires some { 0 < buckets }
        requires small { length pool.now.items < 2 ^ 32 }
        ensures index { IsIndex pool.now.items (length pool.now.items) self.new.newest.items self.new.older.items }
        ensures places { length self.new.older.items ≡ length self.old.older.items }
        ensures some { OnOk result (0 < length self.new.newest.items) }
    {
        self.newest = vec![in *self.newest.allocator(); 0; buckets]?;
        for id in 0..pool.len() {
            self.link(pool, id);
        }
        Ok(())
    }
}
