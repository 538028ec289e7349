//! The typed programs of sources.

use c_reader::read_source;
use c_types::typing::type_program;
use method::program::Program;
use std::alloc::Global;

/// The typed program of a short source; none where it is refused, or memory is wanted.
pub fn program_of(alloc: Global, source: &str) -> Option<Program> {
    if source.len() > 1000 {
        return None;
    }
    let Ok(tree) = read_source(alloc, source.as_bytes()) else {
        return None;
    };
    match type_program(alloc, &tree) {
        Ok(program) => Some(program),
        Err(_) => None,
    }
}
