//! Ghost and concrete code of a source that breaks no typing rule are apart in its typed program.
#![tactic(auto)]

pub mod laws;
