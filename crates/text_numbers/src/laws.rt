//! The law, as the contract of a function that does nothing.

ghost use Rattle.text_numbers.specs.Laws.{NumbersLaw};

/// The quantified formulas of a source's program stand under their numbers.
pub fn numbers_law()
    ensures { NumbersLaw }
{}
