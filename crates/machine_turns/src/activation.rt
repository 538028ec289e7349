//! Functions that are being run.

use int_ranges::ctype::CType;
use machine_objects::progress::Place;
use machine_values::spot::Context;
use method::program::{Expr, Stmt};
use object_types::references::Ref;
use object_types::values::Value;

/// What is left of a function's code: a statement; the test of a `do`; the wrap of an unwrapping block, its object
/// worked out; the store of a call's value, its left side worked out.
#[derive(Clone, Copy)]
pub enum Remaining<'p> {
    Run(&'p Stmt),
    /// line, test, loop
    Test(u32, &'p Expr, &'p Stmt),
    /// line, type number, object
    WrapAgain(u32, u32, Ref),
    /// line, place, the value's conversion
    Receive(u32, Place, Option<CType>),
}

/// A function that is being run; what is left of its code stands with the next item last.
#[derive(Drop)]
pub struct Activation<'p> {
    pub context: Context,
    pub locals: Vec<Value>,
    pub code: Vec<Remaining<'p>>,
}
