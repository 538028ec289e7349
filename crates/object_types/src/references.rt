//! References: how objects, threads and claims are named.

ghost use Rattle.std.specs.Prelude.{◌≡◌};
ghost use Rattle.object_types.specs.References.{null, same_ref, ref_lt};

/// A reference: a type's number and a serial. NULL is 0.0; threads have type 1, claims type 2, structs the types from 3 on.
#[derive(Clone, Copy, Debug, PartialEq, Eq)]
pub struct Ref {
    pub ty: u32,
    pub serial: u32,
}

/// The reference of no object.
pub const NULL: Ref = Ref { ty: 0, serial: 0 };

impl Ref {
    /// Whether the two are one reference.
    #[tactic(auto, unfolding(crate::specs::References::same_ref))]
    pub fn is_same(self, other: Ref) -> bool
        ensures { result ≡ same_ref self other }
    {
        self.ty == other.ty && self.serial == other.serial
    }

    /// Whether this is before the other in reference order.
    pub fn is_before(self, other: Ref) -> bool
        ensures { result ≡ ref_lt self other }
    {
        self.ty < other.ty || (self.ty == other.ty && self.serial < other.serial)
    }
}
