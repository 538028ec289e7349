//! The language of a program.

ghost use Rattle.std.specs.Prelude.{IfOk};
ghost use Rattle.condition_meaning.specs.Languages.{language_of};
ghost use Rattle.term_language.specs.Languages.{IsLanguage};

use crate::conjuncts::conjuncts;
use crate::invariants::invariants;
use crate::numbered::{bodies_below, number_bound};
use method::program::Program;
use program_columns::columns::program_columns;
use program_quantifiers::functions::program_quantifiers;
use program_quantifiers::quantifiers::Quantifiers;
use std::alloc::{AllocError, Global};
use term_language::language::Language;
use terms::sort::Columns;

/// The language of a program: its annotations' formulas in one graph, and the sorts of its columns. Only want of
/// memory is an error.
pub fn program_language(alloc: Global, program: &Program) -> Result<Language, AllocError>
    ensures { IfOk result (λ code. IsLanguage code (language_of program.now)) }
{
    let columns = program_columns(alloc, program)?;
    let list = program_quantifiers(alloc, program)?;
    let Quantifiers {
        mut graph,
        formulas,
    } = list;
    let count = number_bound(&formulas);
    let quantified = bodies_below(alloc, &mut graph, &formulas, count)?;
    let invariants = invariants(alloc, &mut graph, program)?;
    let conjuncts = conjuncts(alloc, &mut graph, program)?;
    Ok(Language {
        graph,
        columns: Columns {
            columns,
            quantified: quantified.holes,
        },
        bodies: quantified.bodies,
        invariants,
        conjuncts,
    })
}
