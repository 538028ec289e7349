//! What values of annotations, invariants, stable sets and effects come to on small heaps: rows by computation, worked by hand.
#![tactic(auto)]
