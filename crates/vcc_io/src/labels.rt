//! The labels of a program, as far as their number is allowed.

ghost use Rattle.std.specs.Prelude.{◌≡◌, ◌<◌, ◌≤◌, length, IfOk, IfErr};
ghost use Rattle.method.specs.Labels as spec;
ghost use Rattle.check_labels.specs.Labels.{labels_of};
ghost use Rattle.vcc_base.specs.Limits.{number_of};
ghost use Rattle.vcc_io.specs.Source.{IsManyOrMemory};

use crate::refusal::Refusal;
use check_labels::labels::{ProgramLabel, program_labels};
use method::program::Program;
use std::alloc::Global;
use vcc_base::limit::Limit;

/// The labels of a program that has no more conditions than the limit allows.
pub fn few_labels<'a>(alloc: Global, program: &Program) -> Result<Vec<ProgramLabel>, Refusal<'a>>
    ensures labels { IfOk result (λ ls. labels_of ls.items ≡ spec.program_labels program.now) }
    ensures few { IfOk result (λ ls. length ls.items ≤ number_of Limit.Conditions) }
    ensures many { IfErr result (IsManyOrMemory program.now) }
{
    let Ok(labels) = program_labels(alloc, program) else {
        return Err(Refusal::OutOfMemory);
    };
    if labels.len() as u64 > Limit::Conditions.number() {
        return Err(Refusal::Limit(Limit::Conditions));
    }
    Ok(labels)
}
