//! The numbers of an instance, one by one.

use std::marker::Model;

/// Numbers that are still to be taken.
#[derive(Drop)]
pub struct Numbers<'a> {
    left: &'a [i128],
}

impl<'a> Model for Numbers<'a> {
    ghost use Rattle.std.specs.Prelude.{List, ℤ};

    ghost Value = { List ℤ };

    ghost view = { λ n. n.left.now };
}

impl<'a> Numbers<'a> {
    ghost use Rattle.std.specs.Prelude.{◌≡◌, ◌∷◌, [], length, IfSome, IfNone, FitsSigned};
    ghost use Rattle.std.specs.Int.{w128};
    ghost use Rattle.axiom_instances.specs.Fitting.{number};
    ghost use Rattle.rule_instances.specs.Reading.{Refuses, TakesNumber};

    /// All of these.
    pub fn new(numbers: &'a [i128]) -> Numbers<'a>
        ensures { result ≡ numbers.now }
    {
        Numbers { left: numbers }
    }

    pub fn len(&self) -> usize
        ensures { result ≡ length self.now }
    {
        self.left.len()
    }

    /// The next number.
    fn next(&mut self) -> Option<i128>
        ensures some { IfSome result (λ z. self.old ≡ z ∷ self.new) }
        ensures none { IfNone result (self.old ≡ []) }
        ensures fits { IfSome result (λ z. FitsSigned w128 z) }
    {
        let (first, rest) = self.left.split_first()?;
        self.left = rest;
        Some(*first)
    }

    /// The next number, where it isn't negative.
    #[tactic(auto, using(crate::proofs::Reading::no_number, crate::proofs::Reading::negative))]
    pub fn natural(&mut self) -> Option<u128>
        ensures some { IfSome result (λ n. TakesNumber self.old self.new n) }
        ensures none { IfNone result (Refuses number self.old) }
    {
        let Some(z) = self.next() else {
            return None;
        };
        if z < 0 {
            return None;
        }
        Some(z.unsigned_abs())
    }
}
