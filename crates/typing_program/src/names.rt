//! Names that stand earlier too.

ghost use Rattle.std.specs.Prelude.{◌≡◌, IfOk};
ghost use Rattle.typing_expressions.specs.Views.{maybe_broken};
ghost use Rattle.typing_program.specs.Violation as spec;
ghost use Rattle.typing_program.specs.Names.{held};

use c_syntax::expressions::Identifier;
use std::alloc::{AllocError, Global};
use typing_expressions::rule::Rule;
use typing_expressions::violations::{Violation, broken_if, earlier};
use typing_symbols::name_set::NameSet;

/// The first in the text of these names that stand earlier among them too, as declared twice there.
pub fn first_repeated<'a>(
    alloc: Global,
    names: &[&'a Identifier],
) -> Result<Option<Violation>, AllocError>
    ensures { IfOk result (λ b. maybe_broken b ≡ spec.twice (held names.now)) }
{
    let mut name_set = NameSet::new(alloc);
    let mut so_far: Option<Violation> = None;
    for name in names {
        let is_repeated = name_set.note(name)?;
        so_far = earlier(
            so_far,
            broken_if(is_repeated, Rule::DeclaredTwice, name.span),
        );
    }
    Ok(so_far)
}
