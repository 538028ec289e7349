//! The laws, as contracts of functions that do nothing.

ghost use Rattle.typed_conditions.specs.Laws.{ConversionsLaw, SourcesAreAnnotated, SourcesAreSafe};

/// In the typed program of a source no value is converted that nobody receives.
pub fn conversions_law()
    ensures { ConversionsLaw }
{}

/// A source that breaks no typing rule, and whose conditions are valid, is safe in every interleaving.
pub fn sources_are_safe()
    ensures { SourcesAreSafe }
{}

/// In the language of a source's program formulas say what annotations say.
pub fn sources_are_annotated()
    ensures { SourcesAreAnnotated }
{}
