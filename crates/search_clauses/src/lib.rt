//! Clauses over the terms of a ledger, the literals that are taken to be true, and the steps that give the clauses.
#![tactic(auto)]

pub mod clauses;
pub mod ledger;
pub mod literals;
pub mod steps;
pub mod trail;
