//! The laws, as contracts of functions that do nothing.

ghost use Rattle.modular_law.specs.Respect.{ActionsLaw, AnyActionsLaw};

/// A program whose actions respect everybody, and whose functions are safe alone, is safe in every interleaving.
pub fn actions_law()
    ensures { ActionsLaw }
{}

/// The same where each malloc and each claim takes any absent reference of its type.
pub fn any_actions_law()
    ensures { AnyActionsLaw }
{}
