//! The reader of pieces of a source: an expression by itself, and an annotation by itself.
#![tactic(auto)]

pub mod annotations;
pub mod expression;

pub use annotations::{is_annotation, read_annotation};
pub use expression::read_expression;
pub use reader_pieces::tree::{Annotation, Place};
