//! Objects that are listed or wrapped, and values that are returned.

ghost use Rattle.std.specs.Prelude.{◌≡◌, map, IfOk};
ghost use Rattle.std.specs.Option.{option_map};
ghost use Rattle.c_syntax.specs.Views as view;
ghost use Rattle.elab_code.specs.Views.{around as here};
ghost use Rattle.typing_expressions.specs.Views.{maybe_kind};
ghost use Rattle.typed_program.specs.Codes as codes;
ghost use Rattle.typed_program.specs.Numbers as numbers;
ghost use Rattle.typed_program.specs.Statements as spec;
ghost use Rattle.typed_program.specs.Trees as t;
ghost use Rattle.typed_program.specs.Views as seen;

use crate::counters::Counters;
use crate::places::kind_at;
use crate::rights::type_or;
use crate::values::{code, stored};
use c_syntax::expressions::{Expr as Tree, ValueType};
use elab_code::around::Around;
use elab_code::codes::typed_code;
use elab_code::numbers::struct_of_kind;
use method::program::{Action, Expr, Listed};
use std::alloc::{AllocError, Global};
use typing_expressions::kinds::Kind;

/// Whether a kind is that of claims.
fn is_claim(kind: Option<Kind<'_, '_>>) -> bool
    ensures { result ≡ spec.is_claim (maybe_kind kind.entry) }
{
    matches!(kind, Some(Kind::Claim))
}

/// An object that an atomic block lists.
pub fn listed<'s, 'a>(
    alloc: Global,
    around: Around<'s, 'a>,
    x: &'a Tree,
) -> Result<Listed, AllocError>
    ensures { IfOk result (λ v. seen.listed v ≡ spec.listed (here around.entry) (view.exp x.now)) }
{
    let typed = typed_code(alloc, around, x)?;
    Ok(Listed {
        object: typed.code,
        is_claim: is_claim(typed.kind),
    })
}

/// The objects that an atomic block lists.
pub fn all_listed<'s, 'a>(
    alloc: Global,
    around: Around<'s, 'a>,
    xs: &'a [Tree],
) -> Result<Vec<Listed>, AllocError>
    ensures { IfOk result (λ v. map seen.listed v.items ≡ map (spec.listed (here around.entry)) (view.exps xs.now)) }
{
    let mut all = Vec::new(alloc);
    for x in xs {
        let object = listed(alloc, around, x)?;
        all.push(object)?;
    }
    Ok(all)
}

/// The value of a return, in the type of the function's value.
pub fn returned<'s, 'a>(
    alloc: Global,
    around: Around<'s, 'a>,
    x: Option<&'a Tree>,
) -> Result<Option<Expr>, AllocError>
    ensures { IfOk result (λ v. option_map seen.code v ≡ spec.returned (here around.entry) (option_map (λ e. view.exp e.now) x.entry)) }
{
    let Some(x) = x else {
        return Ok(None);
    };
    let object = ValueType::Object;
    let value = stored(alloc, around, type_or(around.context.value, &object), x)?;
    Ok(Some(value))
}

/// The type number of the struct that an expression points to.
pub fn struct_at<'s, 'a>(around: Around<'s, 'a>, x: &'a Tree) -> Result<u32, AllocError>
    ensures { IfOk result (λ n. n ≡ numbers.struct_at (here around.entry) (view.exp x.now)) }
{
    let n = struct_of_kind(around.context.scope.declarations, kind_at(around, x))?;
    Ok(n)
}

/// An object that is wrapped, with the number of the formula about its members.
pub fn wrapped<'s, 'a>(
    alloc: Global,
    around: Around<'s, 'a>,
    before: Counters,
    x: &'a Tree,
) -> Result<Action, AllocError>
    ensures { IfOk result (λ v. seen.action v ≡ t.WrapObject (numbers.struct_at (here around.entry) (view.exp x.now)) before.formulas (codes.code (here around.entry) (view.exp x.now))) }
{
    let number = struct_at(around, x)?;
    let value = code(alloc, around, x)?;
    Ok(Action::WrapObject(number, before.formulas, value))
}
