//! What bytes are read as: the tree of a source, or its first fault; and that there is one. The reader is `c_reader`.
#![tactic(auto)]

ghost use Rattle.c_source.specs.Laws.{NotBoth, OneFault, OneText};

pub mod fault;

/// Bytes have one tree, or one first fault, and not both.
pub fn source_laws()
    ensures one_text { OneText }
    ensures one_fault { OneFault }
    ensures not_both { NotBoth }
{}
