//! A table of terms by what they look like.

use std::alloc::{AllocError, Global};

/// A term in the table, and the entry that came before it into its bucket.
#[derive(Clone, Copy)]
struct Entry {
    term: u32,
    hash: u64,
    older: Option<usize>,
}

/// Terms by a hash, the newest first. The last one may be taken out again.
#[derive(Drop)]
pub struct Signatures {
    entries: Vec<Entry>,
    newest: Vec<Option<usize>>,
}

/// The factor of the hash.
const SPREAD: u64 = 0x9e37_79b9_7f4a_7c15;
/// The least number of buckets.
const BUCKETS: usize = 1024;

/// A hash with one more number.
pub fn mix(hash: u64, number: u64) -> u64 {
    let product = (hash ^ number).wrapping_mul(SPREAD);
    product ^ (product >> 29)
}

impl Signatures {
    /// No terms.
    pub fn new(alloc: Global) -> Signatures {
        Signatures {
            entries: Vec::new(alloc),
            newest: Vec::new(alloc),
        }
    }

    /// The bucket of a hash.
    fn bucket(&self, hash: u64) -> usize {
        match hash.checked_rem(self.newest.len() as u64) {
            Some(bucket) => bucket as usize,
            None => 0,
        }
    }

    /// The newest entry with this hash or one like it.
    pub fn newest(&self, hash: u64) -> Option<usize> {
        self.newest.get(self.bucket(hash)).copied().unwrap_or(None)
    }

    /// The term of an entry, and the entry before it.
    pub fn entry(&self, number: usize) -> Option<(u32, Option<usize>)> {
        match self.entries.get(number) {
            Some(entry) => Some((entry.term, entry.older)),
            None => None,
        }
    }

    /// Puts a term into the table.
    pub fn push(&mut self, term: u32, hash: u64) -> Result<(), AllocError> {
        if self.entries.len() >= self.newest.len() {
            self.widen()?;
        }
        let number = self.entries.len();
        self.entries.push(Entry {
            term,
            hash,
            older: None,
        })?;
        self.link(number);
        Ok(())
    }

    /// Makes an entry the newest of its bucket.
    fn link(&mut self, number: usize) {
        let Some(entry) = self.entries.get(number).copied() else {
            return;
        };
        let bucket = self.bucket(entry.hash);
        let older = self.newest(entry.hash);
        if let Some(entry) = self.entries.get_mut(number) {
            entry.older = older;
        }
        if let Some(newest) = self.newest.get_mut(bucket) {
            *newest = Some(number);
        }
    }

    /// Doubles the buckets.
    fn widen(&mut self) -> Result<(), AllocError> {
        let buckets = self.newest.len().saturating_mul(2).max(BUCKETS);
        self.newest.clear();
        self.newest.resize(buckets, None)?;
        for number in 0..self.entries.len() {
            self.link(number);
        }
        Ok(())
    }

    /// Takes the last term out.
    pub fn pop(&mut self) {
        let Some(entry) = self.entries.pop() else {
            return;
        };
        let bucket = self.bucket(entry.hash);
        if let Some(newest) = self.newest.get_mut(bucket) {
            *newest = entry.older;
        }
    }
}
