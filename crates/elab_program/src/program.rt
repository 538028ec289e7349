//! The typed program of a source's items.

ghost use Rattle.std.specs.Prelude.{◌≡◌, map, IfOk};
ghost use Rattle.c_syntax.specs.Views as view;
ghost use Rattle.typing_symbols.specs.Whole.{program};
ghost use Rattle.typed_program.specs.Tables as tables;
ghost use Rattle.typed_program.specs.Views as seen;

use crate::shapes::{shapes, site_table};
use crate::tables::{main_number, order, shape_table, start, structs_and_functions};
use c_syntax::items::Item;
use elab_clauses::fields::field_table;
use method::program::{Program, Shape};
use std::alloc::{AllocError, Global};
use typing_symbols::declarations::Declarations;

/// The tables of a program whose shapes are these.
fn program_with(
    alloc: Global,
    declarations: &Declarations<'_>,
    shapes: &[Shape],
) -> Result<Program, AllocError>
    requires { map seen.shape shapes.now ≡ tables.shapes (program declarations.now) }
    ensures { IfOk result (λ p. seen.program p ≡ tables.program (program declarations.now)) }
{
    let first = start(alloc, declarations)?;
    let both = structs_and_functions(alloc, declarations, shapes, first)?;
    let fields = field_table(alloc, declarations)?;
    let sites = site_table(alloc, declarations, shapes)?;
    let table = shape_table(alloc, shapes)?;
    let items = order(alloc, declarations)?;
    let main = main_number(alloc, declarations)?;
    Ok(Program {
        structs: both.structs,
        fields,
        functions: both.functions,
        sites,
        shapes: table,
        items,
        main,
    })
}

/// The tables of a program of these items.
pub fn typed_program(alloc: Global, items: &[Item]) -> Result<Program, AllocError>
    ensures { IfOk result (λ p. seen.program p ≡ tables.program (map view.item items.now)) }
{
    let declarations = Declarations::of(alloc, items)?;
    let all = shapes(alloc, &declarations)?;
    let program = program_with(alloc, &declarations, &all)?;
    Ok(program)
}
