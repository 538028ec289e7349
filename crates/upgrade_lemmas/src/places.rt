//! The places of lemmas, by the nodes of their trees.

ghost use Rattle.std.specs.Prelude.{◌≡◌, ℕ, ◌<◌, ◌≤◌, length, IfOk};
ghost use Rattle.upgrade_lemmas.specs.Chosen.{referents, place_from, with_place};
ghost use Rattle.upgrade_lemmas.specs.Made as spec;

use crate::tables::set;
use certificate_upgrade::conclusion::Conclusion;
use std::alloc::{AllocError, Global};

/// The place that a node has in the table, if it has one.
pub fn place_at(places: &[Option<u32>], node: u32) -> Option<u32>
    ensures { result ≡ spec.place_at places.now node }
{
    let place = node as usize;
    if place >= places.len() {
        return None;
    }
    places[place]
}

/// The node has this place, if it had none.
fn add_place(places: &mut Vec<Option<u32>>, node: u32, place: u32)
    ensures { places.new.items ≡ with_place places.old.items node place }
{
    match place_at(places, node) {
        Some(_) => {}
        None => set(places, node, Some(place)),
    }
}

/// For each of so many nodes the place of its first conclusion.
pub fn places_of(
    alloc: Global,
    nodes: usize,
    chosen: &[&Conclusion],
) -> Result<Vec<Option<u32>>, AllocError>
    requires { length chosen.now ≤ 20000 }
    ensures { IfOk result (λ places. (id : ℕ) → id < nodes →
        spec.place_at places.items id ≡ place_from 0 id (referents chosen.now)) }
{
    let mut places = vec![in alloc; None; nodes]?;
    for (place, conclusion) in chosen.iter().enumerate() {
        add_place(&mut places, conclusion.tree, place as u32);
    }
    Ok(places)
}
