//! Laws of sets and heaps, as contracts of functions that do nothing.

ghost use Rattle.std.specs.Prelude.{◌≡◌, ◌&&◌, ◌||◌, ℕ, not, List};
ghost use Rattle.object_types.specs.declared.references.Ref.{Ref};
ghost use Rattle.object_types.specs.declared.records.Stored.{Stored};
ghost use Rattle.object_types.specs.References.{ref, same_ref};
ghost use Rattle.object_types.specs.Sets.{is_in, with_member, without_member};
ghost use Rattle.object_types.specs.Heap.{Heap, Record, IsFinite, fresh};
ghost use Rattle.object_types.specs.Content.{IsFresh};
ghost use Rattle.object_types.specs.Lookups.{heap_of};

/// Which members a set has behind a change.
pub fn set_laws()
    ensures with { (q r : Ref) (set : List Ref) → is_in q (with_member r set) ≡ (same_ref q r || is_in q set) }
    ensures without { (q r : Ref) (set : List Ref) → is_in q (without_member r set) ≡ (is_in q set && not (same_ref q r)) }
{}

/// The records of a heap determine its fresh serial, which is the one by its support; and a list of records is a finite heap.
pub fn fresh_laws()
    ensures unique { (get : Ref → Record) (ty a b : ℕ) → IsFresh get ty a → IsFresh get ty b → a ≡ b }
    ensures determined { (h : Heap) (ty serial : ℕ) → IsFinite h → IsFresh h.get ty serial → ref ty serial ≡ fresh h ty }
    ensures finite { (stored : List Stored) → IsFinite (heap_of stored) }
{}
