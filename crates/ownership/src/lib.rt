//! Who may write what, the stable set, and the effects of wrap, unwrap and transfers on a heap.
#![tactic(auto)]

pub mod effects;
pub mod laws;
pub mod search;
pub mod stable;
pub mod status;
