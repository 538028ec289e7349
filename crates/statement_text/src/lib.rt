//! What the text of a statement says by itself: whether it reads the heap, what it sets and declares, where it ends.
#![tactic(auto)]

pub mod declaring;
pub mod ending;
pub mod reading;
pub mod setting;
