//! The variables that are known at a place.

ghost use Rattle.std.specs.Prelude.{◌≡◌, ◌∷◌, ◌-◌, ◌≤◌, ◌<◌, [], ℕ, List, OnOk, length, reverse, drop, find, IsSome, if◌then◌else◌};
ghost use Rattle.std.specs.Coded.{coded_option, coded_ℕ, Coded-set, Π_prop};
ghost use Rattle.std.specs.Option.{option_map};
ghost use Rattle.std.specs.Str.{bytes_eq};
ghost use Rattle.c_syntax.specs.Views.{id};
ghost use Rattle.typing_spec.specs.Declarations.{same_name};
ghost use Rattle.typing_symbols.specs.Hidden.{innermost, IsHiding, IsHiding-prop};
ghost use Rattle.typing_symbols.specs.Lookup.{at};

use c_syntax::expressions::{Identifier, ValueType};
use indexmap::IndexMap;
use std::alloc::{AllocError, Global};

/// A variable that is known: a parameter, or one that was declared.
#[derive(Clone, Copy)]
pub struct Variable<'a> {
    pub name: &'a Identifier,
    pub ty: &'a ValueType,
    pub is_ghost: bool,
}

/// A variable, and the place of the one that it hides.
#[derive(Clone, Copy)]
struct Hiding<'a> {
    variable: Variable<'a>,
    hides: Option<usize>,
}

/// The variables that are known at a place, found by their names.
#[derive(Drop)]
pub struct Variables<'a> {
    /// the outermost first
    all: Vec<Hiding<'a>>,
    /// the place of the innermost with each name
    places: IndexMap<&'a [u8], usize>,
    ghost found: { (y : List ℕ) → at places y ≡ innermost y (reverse all.items) } by { Π_prop (λ y. Coded-set (coded_option coded_ℕ) (at places y) (innermost y (reverse all.items))) },
    ghost hidden: { IsHiding (reverse all.items) } by { IsHiding-prop (reverse all.items) },
}

/// Lets a forgotten variable's name stand for the one that it hid. It takes no memory: a name that is there keeps its slot.
fn uncover<'a>(places: &mut IndexMap<&'a [u8], usize>, last: Hiding<'a>)
    requires { IsSome (at places.old last.variable.name.now.name.items) }
    ensures { (y : List ℕ) → at places.new y ≡ (if bytes_eq last.entry.variable.name.now.name.items y then last.entry.hides else at places.old y) }
{
    let key = last.variable.name.name.as_slice();
    match last.hides {
        Some(place) => {
            places.insert(key, place).unwrap();
        }
        None => {
            places.swap_remove(key);
        }
    }
}

impl<'a> Variables<'a> {
    ghost use Rattle.typing_symbols.specs.Scopes.{variable, known};

    /// None.
    pub fn new(alloc: Global) -> Variables<'a>
        ensures { known result ≡ [] }
    {
        Variables {
            all: Vec::new(alloc),
            places: IndexMap::new(alloc),
        }
    }

    /// Adds one, the innermost from now on. After an error nothing is known of the variables, and the caller gives up.
    pub fn push(&mut self, one: Variable<'a>) -> Result<(), AllocError>
        ensures { OnOk result (known self.new ≡ variable one.entry ∷ known self.old) }
    {
        self.all.reserve(1)?;
        let place = self.all.len();
        let hides = self.places.insert(one.name.name.as_slice(), place)?;
        self.all.push_reserved(Hiding {
            variable: one,
            hides,
        });
        Ok(())
    }

    /// How many are known.
    pub fn count(&self) -> usize
        ensures { result ≡ length (known self.now) }
    {
        self.all.len()
    }

    /// Forgets the innermost, if there is one: its name stands for the one that it hid.
    fn forget(&mut self)
        ensures { known self.new ≡ drop 1 (known self.old) }
    {
        let Some(last) = self.all.pop() else {
            return;
        };
        uncover(&mut self.places, last);
    }

    /// Forgets all but the outermost so many.
    pub fn keep(&mut self, count: usize)
        requires { count ≤ length (known self.old) }
        ensures { known self.new ≡ drop (length (known self.old) - count) (known self.old) }
    {
        while self.count() > count {
            self.forget();
        }
    }

    /// The innermost variable with this name.
    pub fn find(&self, name: &Identifier) -> Option<Variable<'a>>
        ensures { option_map variable result ≡ find (λ v. same_name v.name (id name.now)) (known self.now) }
    {
        let place = *self.places.get(name.name.as_slice())?;
        Some(self.all[place].variable)
    }
}
