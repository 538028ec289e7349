//! The variables of a function by their places.

ghost use Rattle.std.specs.Prelude.{◌≡◌, ℕ, List, map, position, IfOk};
ghost use Rattle.std.specs.Coded.{coded_option, coded_ℕ, Coded-set, Π_prop};
ghost use Rattle.c_syntax.specs.Views as view;
ghost use Rattle.typing_symbols.specs.Lookup.{at};
ghost use Rattle.typed_program.specs.Numbers.{place_of};
ghost use Rattle.std.specs.Str.{bytes_eq};
ghost use Rattle.elab_code.specs.Names.{has_text, texts};

use c_syntax::expressions::Identifier;
use indexmap::IndexMap;
use std::alloc::{AllocError, Global};
use typing_symbols::first::note;

/// The places of names, by their texts: of several with one text, the first.
fn places_of<'a>(
    alloc: Global,
    names: &[&'a Identifier],
) -> Result<IndexMap<&'a [u8], usize>, AllocError>
    ensures { IfOk result (λ m. (y : List ℕ) → at m y ≡ position (has_text y) names.now) }
{
    let mut places: IndexMap<&'a [u8], usize> = IndexMap::new(alloc);
    for (i, name) in names.iter().enumerate() {
        note(&mut places, name, i)?;
    }
    Ok(places)
}

/// The names of a function's variables, in order of declaration.
#[derive(Drop)]
pub struct Places<'a> {
    pub names: Vec<&'a Identifier>,
    places: IndexMap<&'a [u8], usize>,
    ghost first: { (y : List ℕ) → at places y ≡ position (has_text y) names.items } by { Π_prop (λ y. Coded-set (coded_option coded_ℕ) (at places y) (position (has_text y) names.items)) },
}

impl<'a> Places<'a> {
    /// Of these names.
    pub fn of(alloc: Global, names: Vec<&'a Identifier>) -> Result<Places<'a>, AllocError>
        ensures { IfOk result (λ p. p.names.items ≡ names.entry.items) }
    {
        let places = places_of(alloc, &names)?;
        Ok(Places { names, places })
    }

    /// The place of a variable by its name; 0 for a name that none has.
    pub fn place(&self, name: &Identifier) -> usize
        ensures { result ≡ place_of (λ n. bytes_eq n (view.id name.now).name) (texts self.now.names.items) }
    {
        match self.places.get(name.name.as_slice()) {
            Some(place) => *place,
            None => 0,
        }
    }
}
