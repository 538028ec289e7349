//! Values as references, numbers and truth values.

pub use spec_values::arithmetic::compare;
pub use spec_values::status::contains;
pub use spec_values::values::{is_true, local, number, referent, says};
