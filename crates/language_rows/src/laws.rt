//! The columns, quantified formulas and values of terms of worked programs, as contracts of functions that do nothing.

ghost use Rattle.language_rows.specs.Laws.{TextIsBag, TextIsShop, LockColumns, BagColumns, ShopColumns, LockFormulas, BagFormulas, ShopFormulas};
ghost use Rattle.language_rows.specs.Values.{TermsHaveValues};

/// The columns of the lock program, of one with claims and quantifiers and of one whose quantifiers stand within one
/// another, and their quantified formulas by their numbers, are those that were written down by hand.
pub fn language_is_this()
    ensures bag_text { TextIsBag }
    ensures shop_text { TextIsShop }
    ensures lock_columns { LockColumns }
    ensures bag_columns { BagColumns }
    ensures shop_columns { ShopColumns }
    ensures lock_formulas { LockFormulas }
    ensures bag_formulas { BagFormulas }
    ensures shop_formulas { ShopFormulas }
{}

/// Terms over a heap with two closed objects and a claim have the values that were written down by hand.
pub fn values_are_these()
    ensures values { TermsHaveValues }
{}
