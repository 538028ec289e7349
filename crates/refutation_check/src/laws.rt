//! What a condition that follows is, and a lemma, each as the contract of a function that does nothing.

ghost use Rattle.refutation_check.specs.Follows.{FollowsIsValid, TheoremsAreValid};

/// A condition that follows by a block is true in every environment.
pub fn follows_is_valid()
    ensures { FollowsIsValid }
{}

/// So is the last clause of each lemma that follows.
pub fn theorems_are_valid()
    ensures { TheoremsAreValid }
{}
