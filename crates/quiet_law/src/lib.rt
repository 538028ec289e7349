//! Code that only reads doesn't see what other threads do, so lazy runs, where they do nothing before it, fail where local runs fail.
#![tactic(auto)]

pub mod laws;
