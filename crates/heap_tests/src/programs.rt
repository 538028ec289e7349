//! A program of one field.

use int_ranges::ctype::CType;
use method::program::{DeclaredType, FieldInfo, Program};
use std::alloc::{AllocError, Global};

/// The field, which is approved.
pub const APPROVED: u32 = 0;

/// The program.
pub fn program(alloc: Global) -> Result<Program, AllocError> {
    let mut fields = Vec::new(alloc);
    fields.push(FieldInfo {
        name: Vec::new(alloc),
        of: 3,
        ty: DeclaredType::Integer(CType::LongLong),
        is_volatile: true,
        is_ghost: false,
        is_approved: true,
    })?;
    Ok(Program {
        structs: Vec::new(alloc),
        fields,
        functions: Vec::new(alloc),
        sites: Vec::new(alloc),
        shapes: Vec::new(alloc),
        items: Vec::new(alloc),
        main: 0,
    })
}
