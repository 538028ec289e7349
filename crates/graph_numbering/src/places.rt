//! Room for a walk.

ghost use Rattle.std.specs.Prelude.{◌≡◌, ℕ, ◌<◌, ◌≤◌, [], length, slice_set, OnOk, Option, None, Some};
ghost use Rattle.graph_numbering.specs.Places as spec;

use std::alloc::{AllocError, Global};
use std::marker::Model;

/// The number of a node, and the walk in which it was written.
#[derive(Clone, Copy, Debug)]
struct Place {
    walk: u64,
    number: u32,
}

/// Room for the walk: for each node of a graph its number in the target, once it has one. A new walk forgets all
/// numbers by its own number, not by a pass over all.
#[derive(Debug, Drop)]
pub struct Places {
    places: Vec<Place>,
    walk: u64,
}

impl Model for Places {
    ghost use Rattle.std.specs.Prelude.{◌<◌, ◌≤◌, ℕ, List, Option, All, map};
    ghost use Rattle.graph_numbering.specs.Places.{seen};

    ghost Value = { List (Option ℕ) };

    ghost view = { λ p. map (seen p.walk) p.places.items };

    ghost invariant = { λ p. (0 < p.walk) × All (λ c. c.walk ≤ p.walk) p.places.items };
}

impl Places {
    /// Room for no node.
    pub fn new(alloc: Global) -> Places
        ensures { result ≡ [] }
    {
        Places {
            places: Vec::new(alloc),
            walk: 1,
        }
    }

    /// Makes room for so many nodes.
    #[tactic(auto, using(crate::proofs::Seen::seen_grown))]
    pub fn reserve(&mut self, nodes: usize) -> Result<(), AllocError>
        ensures room { OnOk result (nodes ≤ length self.new) }
        ensures kept { (v : ℕ) → spec.place_of self.new v ≡ spec.place_of self.old v }
    {
        if self.places.len() >= nodes {
            return Ok(());
        }
        self.places.resize(nodes, Place { walk: 0, number: 0 })
    }

    /// Room for so many nodes, of which none has a number.
    pub(crate) fn begin(&mut self, nodes: usize) -> Result<(), AllocError>
        ensures room { OnOk result (nodes ≤ length self.new) }
        ensures none { OnOk result ((v : ℕ) → spec.place_of self.new v ≡ None) }
    {
        self.forget();
        self.reserve(nodes)
    }

    /// No node has a number.
    #[tactic(auto, using(crate::proofs::Seen::seen_none))]
    fn forget(&mut self)
        ensures { (v : ℕ) → spec.place_of self.new v ≡ None }
    {
        if self.walk == u64::MAX {
            self.places.clear();
            self.walk = 1;
            return;
        }
        self.walk += 1;
    }

    pub(crate) fn get(&self, node: u32) -> Option<u32>
        ensures { result ≡ spec.place_of self.now node }
    {
        let place = self.places.get(node as usize)?;
        if place.walk != self.walk {
            return None;
        }
        Some(place.number)
    }

    pub(crate) fn set(&mut self, node: u32, number: u32)
        requires { node < length self.old }
        ensures { self.new ≡ slice_set self.old node (Some number) }
    {
        self.places[node as usize] = Place {
            walk: self.walk,
            number,
        };
    }

    pub(crate) fn allocator(&self) -> Global {
        *self.places.allocator()
    }
}
