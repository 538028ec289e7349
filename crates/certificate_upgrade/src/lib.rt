//! A certificate of version 1 written anew: what several conditions conclude by axioms stands once, as a lemma.
#![tactic(auto)]

pub mod conclusion;
