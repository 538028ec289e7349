//! Copies of what a block holds.

ghost use Rattle.std.specs.Prelude.{◌≡◌, IfOk};

use cert_format::certificate::Step;
use std::alloc::{AllocError, Global};
use terms::numbers::Numbers;
use terms::term::{Clause, Term};

/// Equal terms.
pub fn copy_terms(alloc: Global, terms: &[Term]) -> Result<Vec<Term>, AllocError>
    ensures { IfOk result (λ all. all.items ≡ terms.now) }
{
    let mut all = Vec::new(alloc);
    for term in terms {
        let same = term.copy()?;
        all.push(same)?;
    }
    Ok(all)
}

/// An equal clause.
pub fn copy_clause(alloc: Global, clause: &Clause) -> Result<Clause, AllocError>
    ensures { IfOk result (λ same. same ≡ clause.now) }
{
    let literals = Vec::from_slice(alloc, clause.literals())?;
    Ok(Clause::new(literals))
}

/// An equal step.
pub fn copy_step(alloc: Global, step: &Step) -> Result<Step, AllocError>
    ensures { IfOk result (λ same. same ≡ step.now) }
{
    let numbers = Vec::from_slice(alloc, step.numbers.as_slice())?;
    let clause = copy_clause(alloc, &step.clause)?;
    Ok(Step {
        rule: step.rule,
        numbers: Numbers::new(numbers),
        clause,
    })
}
