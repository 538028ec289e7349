//! The reader of annotations by themselves, each as the place has it where it stands.
#![tactic(auto)]

pub mod forms;
pub mod places;
pub mod tree;
pub mod words;
