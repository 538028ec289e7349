//! The reader of whole sources: from bytes to the tree, or to the first fault.
#![tactic(auto)]

pub mod source;

pub use source::read_source;
