//! The laws, as contracts of functions that do nothing.

ghost use Rattle.method.specs.Labels.{FaultsAreLabelled};
ghost use Rattle.method.specs.MachineLaws.{ThreadModularLaw, AnyReferencesLaw};
ghost use Rattle.safety_law.specs.LabelFacts.{LocalFaultsAreLabelled, SitesAreLabelled, SitesAreSingle, LabelsSuffice, LabelsAreNeeded, LabelsMeanSafe, LabelsMeanSafeAnyReferences};

/// A program whose types are admissible, and whose functions are safe alone, is safe in every interleaving.
pub fn thread_modular_law()
    ensures { ThreadModularLaw }
{}

/// The same where each malloc and each claim takes any absent reference of its type.
pub fn any_references_law()
    ensures { AnyReferencesLaw }
{}

/// An action's fault is that of the check with its number.
pub fn faults_are_labelled()
    ensures { FaultsAreLabelled }
{}

/// A local run's fault is that of a label of its function.
pub fn local_faults_are_labelled()
    ensures { LocalFaultsAreLabelled }
{}

/// Each label of a claim's stability is about a claim site.
pub fn sites_are_labelled()
    ensures { SitesAreLabelled }
{}

/// It is about one alone.
pub fn sites_are_single()
    ensures { SitesAreSingle }
{}

/// What the labels of a program say is all that safety asks of its types, its claim sites and its functions.
pub fn labels_suffice()
    ensures { LabelsSuffice }
{}

/// The labels say no more than that.
pub fn labels_are_needed()
    ensures { LabelsAreNeeded }
{}

/// A program whose labels hold is safe in every interleaving.
pub fn labels_mean_safe()
    ensures { LabelsMeanSafe }
{}

/// The same where each malloc and each claim takes any absent reference of its type.
pub fn labels_mean_safe_any_references()
    ensures { LabelsMeanSafeAnyReferences }
{}
