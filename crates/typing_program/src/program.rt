//! Programs: their functions, structs and names, and whether there is a `main`.

ghost use Rattle.std.specs.List.{list_any};
ghost use Rattle.std.specs.Prelude.{◌≡◌, map, IfOk};
ghost use Rattle.c_syntax.specs.Views as view;
ghost use Rattle.typing_spec.specs.First as spec;
ghost use Rattle.typing_symbols.specs.Whole.{program};
ghost use Rattle.typing_expressions.specs.Views.{maybe_broken};
ghost use Rattle.typing_program.specs.Violation as broken;
ghost use Rattle.typing_program.specs.Names.{held};

use crate::functions::functions_break;
use crate::names::first_repeated;
use crate::structs::structs_break;
use c_syntax::expressions::Identifier;
use c_syntax::items::{Function, Item};
use c_syntax::token::Span;
use std::alloc::{AllocError, Global};
use typing_expressions::rule::Rule;
use typing_expressions::violations::{Violation, broken_if, earlier};
use typing_symbols::declarations::{Declarations, StructEntry};

/// The names of structs, in their order.
fn struct_names<'a>(
    alloc: Global,
    all: &[StructEntry<'a>],
) -> Result<Vec<&'a Identifier>, AllocError>
    ensures { IfOk result (λ v. held v.items ≡ map (λ s. s.name) (map (λ s. view.struct s.tree.now) all.now)) }
{
    let mut names: Vec<&'a Identifier> = Vec::new(alloc);
    for x in all {
        names.push(&x.tree.name)?;
    }
    Ok(names)
}

/// The names of functions, in their order.
fn function_names<'a>(
    alloc: Global,
    all: &[&'a Function],
) -> Result<Vec<&'a Identifier>, AllocError>
    ensures { IfOk result (λ v. held v.items ≡ map (λ f. f.name) (map (λ f. view.function f.now) all.now)) }
{
    let mut names: Vec<&'a Identifier> = Vec::new(alloc);
    for x in all {
        names.push(&x.name)?;
    }
    Ok(names)
}

/// Whether a function is `main`.
fn is_main(x: &Function) -> bool
    ensures { result ≡ broken.is_main (view.function x.now) }
{
    x.name.name.as_slice() == b"main".as_slice()
}

/// Whether one of the functions is `main`.
fn has_main(all: &[&Function]) -> bool
    ensures { result ≡ list_any broken.is_main (map (λ f. view.function f.now) all.now) }
{
    for x in all {
        if is_main(x) {
            return true;
        }
    }
    false
}

/// The first struct or function that is declared twice.
fn declared_twice<'a>(
    alloc: Global,
    structs: &[StructEntry<'a>],
    functions: &[&'a Function],
) -> Result<Option<Violation>, AllocError>
    ensures { IfOk result (λ b. maybe_broken b ≡ broken.names_first (map (λ s. view.struct s.tree.now) structs.now) (map (λ f. view.function f.now) functions.now)) }
{
    let struct_names = struct_names(alloc, structs)?;
    let struct_twice = first_repeated(alloc, &struct_names)?;
    let function_names = function_names(alloc, functions)?;
    let function_twice = first_repeated(alloc, &function_names)?;
    Ok(earlier(struct_twice, function_twice))
}

/// The first typing rule that these declarations break in their text, whose end is at this place.
fn declarations_break<'a>(
    alloc: Global,
    declarations: &Declarations<'a>,
    end: Span,
) -> Result<Option<Violation>, AllocError>
    ensures { IfOk result (λ b. maybe_broken b ≡ spec.first_broken (program declarations.now) end) }
{
    let structs = declarations.structs();
    let functions = declarations.functions();
    let names = declared_twice(alloc, structs, functions)?;
    let in_structs = structs_break(alloc, declarations, structs)?;
    let in_functions = functions_break(alloc, declarations, functions)?;
    let no_main = broken_if(!has_main(functions), Rule::NoMain, end);
    Ok(earlier(earlier(names, earlier(in_structs, in_functions)), no_main))
}

/// The first typing rule that these items break in the text, whose end is at this place; at one place the one with the
/// smallest number. None where no rule is broken.
pub fn first_broken(
    alloc: Global,
    items: &[Item],
    end: Span,
) -> Result<Option<Violation>, AllocError>
    ensures { IfOk result (λ b. maybe_broken b ≡ spec.first_broken (map view.item items.now) end) }
{
    let declarations = Declarations::of(alloc, items)?;
    let first = declarations_break(alloc, &declarations, end)?;
    Ok(first)
}
