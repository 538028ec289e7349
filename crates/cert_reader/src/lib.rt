//! Readers of a certificate's text: in pieces, or from all of its bytes.
#![tactic(auto)]

pub mod decode;
pub mod law;
mod parser;
pub mod reader;
