//! The laws, as contracts of functions that do nothing.

ghost use Rattle.text_laws.specs.Laws.{ContractsLaw, TextLaw};

/// The annotations of a source that breaks no typing rule have formulas.
pub fn text_law()
    ensures { TextLaw }
{}

/// So have the clauses of its contracts, which name parameters and the result alone.
pub fn contracts_law()
    ensures { ContractsLaw }
{}
