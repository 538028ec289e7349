//! What the rows of all tables are compared by, in one place: a comparison is proved at each place where it is written.

use std::fmt::Debug;
use std::process::Abort;

/// What was computed is what its row wants. The message shows both, so rows are compared with what they are computed of.
pub fn is<T: PartialEq + Debug>(rt: &impl Abort, got: &T, want: &T) {
    assert_eq!(rt; got, want);
}
