//! Expressions as values: in the types that they are stored in, and in rows.

ghost use Rattle.std.specs.Prelude.{◌≡◌, IfOk};
ghost use Rattle.c_syntax.specs.Views as view;
ghost use Rattle.elab_code.specs.Views.{around as here};
ghost use Rattle.typed_program.specs.Codes as spec;
ghost use Rattle.typed_program.specs.Views as seen;

use c_syntax::expressions::{Expr as Tree, ValueType};
use elab_code::around::Around;
use elab_code::codes::{stored_in, typed_code};
use method::program::Expr;
use std::alloc::{AllocError, Global};

/// An expression in the declared type that it is stored in.
pub fn stored<'s, 'a>(
    alloc: Global,
    around: Around<'s, 'a>,
    ty: &ValueType,
    x: &'a Tree,
) -> Result<Expr, AllocError>
    ensures { IfOk result (λ v. seen.code v ≡ spec.stored (here around.entry) (view.ty ty.now) (view.exp x.now)) }
{
    let typed = typed_code(alloc, around, x)?;
    let code = stored_in(alloc, ty, typed)?;
    Ok(code)
}

/// An expression of code.
pub fn code<'s, 'a>(alloc: Global, around: Around<'s, 'a>, x: &'a Tree) -> Result<Expr, AllocError>
    ensures { IfOk result (λ v. seen.code v ≡ spec.code (here around.entry) (view.exp x.now)) }
{
    let typed = typed_code(alloc, around, x)?;
    Ok(typed.code)
}

/// Expressions of code in a row.
pub fn codes<'s, 'a>(
    alloc: Global,
    around: Around<'s, 'a>,
    xs: &'a [Tree],
) -> Result<Vec<Expr>, AllocError>
    ensures { IfOk result (λ v. seen.codes v.items ≡ spec.codes (here around.entry) (view.exps xs.now)) }
{
    let mut all = Vec::new(alloc);
    for x in xs {
        let value = code(alloc, around, x)?;
        all.push(value)?;
    }
    Ok(all)
}
