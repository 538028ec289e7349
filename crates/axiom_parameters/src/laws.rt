//! The laws of arguments, as the contract of a function that does nothing.

ghost use Rattle.axiom_parameters.specs.Laws.{InstanceByTrees, ArgumentsHaveSorts};

/// An instance is the same over other numbers of the same trees, and these have sorts where it has one.
pub fn instances_by_trees()
    ensures same { InstanceByTrees }
    ensures sorted { ArgumentsHaveSorts }
{}
