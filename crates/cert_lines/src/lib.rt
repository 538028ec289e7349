//! The lines of a certificate's text: what each is read as, or its first fault.
#![tactic(auto)]

pub mod lines;
mod names;
mod words;
