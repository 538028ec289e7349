//! The block of a certificate, laid out in a graph: its terms in the graph, and its steps over the graph's nodes.
#![tactic(auto)]

pub mod load;
pub mod loaded;
pub mod names;
pub mod space;
