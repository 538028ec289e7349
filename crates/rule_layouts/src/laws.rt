//! The laws, as the contracts of functions that do nothing.

ghost use Rattle.rule_layouts.specs.Laws.{LayoutsAgree, NeverFails, NeverOpen, NeverLeaves, DerivesOne};
ghost use Rattle.rule_layouts.specs.Laws.{TheoremsAreOne, JudgedAreTheorems, NumberedOnce, FollowsRefutes};

/// A block is judged alike in every layout.
pub fn layouts_agree()
    ensures { LayoutsAgree }
{}

/// A block that derives a clause has no step that fails, and no bad term.
pub fn never_fails()
    ensures { NeverFails }
{}

/// A block that refutes ends with the empty clause in every layout.
pub fn never_open()
    ensures { NeverOpen }
{}

/// A block that derives a clause has no number that leaves 128 bits.
pub fn never_leaves()
    ensures { NeverLeaves }
{}

/// A block derives one clause.
pub fn derives_one()
    ensures { DerivesOne }
{}

/// A certificate's lemmas have one list of theorems.
pub fn theorems_are_one()
    ensures { TheoremsAreOne }
{}

/// It is the list that they are judged to.
pub fn judged_are_theorems()
    ensures { JudgedAreTheorems }
{}

/// A formula is numbered in one way.
pub fn numbered_once()
    ensures { NumberedOnce }
{}

/// A block by which a condition follows refutes over each numbering of the condition.
pub fn follows_refutes()
    ensures { FollowsRefutes }
{}
