//! What the commands of `vcc` read and print.
#![tactic(auto)]

pub mod certificate;
pub mod certificate_text;
pub mod first_version;
pub mod labels;
pub mod pieces;
pub mod program;
pub mod refusal;
pub mod report;
pub mod run;
pub mod verdict;
