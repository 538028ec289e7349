//! Names that stood earlier.

ghost use Rattle.std.specs.Prelude.{◌≡◌, ℕ, ◌||◌, List, false, IfOk, OnOk};
ghost use Rattle.std.specs.Str.{bytes_eq};
ghost use Rattle.c_syntax.specs.Views.{id};
ghost use Rattle.typing_symbols.specs.Names.{has};

use c_syntax::expressions::Identifier;
use indexmap::IndexSet;
use std::alloc::{AllocError, Global};

/// Names that stood earlier.
#[derive(Drop)]
pub struct NameSet<'a> {
    names: IndexSet<&'a [u8]>,
}

impl<'a> NameSet<'a> {
    /// None.
    pub fn new(alloc: Global) -> NameSet<'a>
        ensures { (y : List ℕ) → has result y ≡ false }
    {
        NameSet {
            names: IndexSet::new(alloc),
        }
    }

    /// Whether the name stood earlier; from now on it did. After an error nothing is known but that these are names.
    pub fn note(&mut self, name: &'a Identifier) -> Result<bool, AllocError>
        ensures known { IfOk result (λ b. b ≡ has self.old (id name.now).name) }
        ensures grown { OnOk result ((y : List ℕ) → has self.new y ≡ (bytes_eq (id name.now).name y || has self.old y)) }
    {
        let is_new = self.names.insert(name.name.as_slice())?;
        Ok(!is_new)
    }
}
