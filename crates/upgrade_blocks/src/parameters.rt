//! What the parts of the axioms speak of.

ghost use Rattle.std.specs.Prelude.{◌≡◌, map};
ghost use Rattle.axiom_instances.specs.Axioms.{item_at};
ghost use Rattle.axiom_steps.specs.Steps.{natural};
ghost use Rattle.axiom_parameters.specs.Parameters as spec;
ghost use Rattle.upgrade_blocks.specs.Parameters.{IsPart, seen};

use crate::parameters::Parameter::{ColumnKeys, FormulaHoles, OneTerm, TermList, TypeNumber};

/// A parameter of an axiom's part.
#[derive(Clone, Copy)]
pub enum Parameter {
    /// a term, by its number
    OneTerm,
    /// how many terms there are, and their numbers
    TermList,
    /// a type, by its number
    TypeNumber,
    /// a column by its number, and terms for its further keys by theirs
    ColumnKeys,
    /// a quantified formula by its number, and terms for its holes by theirs
    FormulaHoles,
}

/// The axioms by their numbers, each with its parts by theirs, from 1 on: what each part speaks of, in its order.
const AXIOMS: &[&[&[Parameter]]] = &[
    &[&[FormulaHoles, OneTerm]],
    &[&[FormulaHoles]],
    &[&[], &[OneTerm], &[], &[OneTerm]],
    &[&[OneTerm, OneTerm], &[OneTerm]],
    &[&[OneTerm]],
    &[&[OneTerm, OneTerm], &[OneTerm], &[OneTerm, OneTerm]],
    &[&[OneTerm, OneTerm], &[OneTerm, OneTerm]],
    &[&[OneTerm, OneTerm]],
    &[&[OneTerm, OneTerm, OneTerm]],
    &[&[OneTerm, OneTerm, OneTerm]],
    &[&[OneTerm, OneTerm, TypeNumber]],
    &[&[OneTerm, OneTerm, ColumnKeys]],
    &[&[OneTerm, OneTerm]],
    &[
        &[OneTerm, OneTerm, OneTerm, TypeNumber],
        &[OneTerm, OneTerm, OneTerm, TypeNumber],
    ],
    &[&[OneTerm, OneTerm, ColumnKeys]],
    &[&[OneTerm, OneTerm, OneTerm]],
    &[&[OneTerm, OneTerm, OneTerm, OneTerm, ColumnKeys]],
    &[&[OneTerm, OneTerm, OneTerm, OneTerm]],
    &[&[OneTerm, OneTerm, OneTerm, OneTerm, TypeNumber, ColumnKeys]],
    &[&[OneTerm, OneTerm, OneTerm, OneTerm]],
    &[
        &[OneTerm, OneTerm, OneTerm, OneTerm, TermList],
        &[
            OneTerm, OneTerm, OneTerm, OneTerm, TermList, OneTerm, ColumnKeys,
        ],
        &[OneTerm, OneTerm, OneTerm, OneTerm, TermList, OneTerm],
        &[
            OneTerm, OneTerm, OneTerm, OneTerm, TermList, OneTerm, TypeNumber, ColumnKeys,
        ],
    ],
    &[
        &[OneTerm, OneTerm, OneTerm, OneTerm, TermList],
        &[OneTerm, OneTerm, OneTerm, OneTerm, TermList, OneTerm],
        &[
            OneTerm, OneTerm, OneTerm, OneTerm, TermList, OneTerm, TypeNumber,
        ],
        &[OneTerm, OneTerm, OneTerm, OneTerm, TermList],
        &[OneTerm, OneTerm, OneTerm],
    ],
    &[
        &[OneTerm, OneTerm],
        &[OneTerm, OneTerm],
        &[OneTerm, OneTerm, OneTerm],
        &[OneTerm, OneTerm, OneTerm],
        &[OneTerm, OneTerm, OneTerm, ColumnKeys],
        &[OneTerm, OneTerm, OneTerm, OneTerm],
        &[OneTerm, OneTerm, OneTerm, TypeNumber, ColumnKeys],
    ],
    &[
        &[OneTerm],
        &[OneTerm, OneTerm],
        &[OneTerm, OneTerm],
        &[OneTerm, OneTerm],
        &[OneTerm, OneTerm, ColumnKeys],
        &[OneTerm, OneTerm, OneTerm],
        &[OneTerm, OneTerm, OneTerm, OneTerm],
        &[OneTerm, OneTerm, OneTerm, ColumnKeys],
        &[OneTerm, OneTerm],
        &[OneTerm, OneTerm],
        &[OneTerm, OneTerm],
        &[OneTerm, OneTerm],
        &[OneTerm, OneTerm],
    ],
    &[&[OneTerm, OneTerm, OneTerm, OneTerm, TypeNumber, ColumnKeys]],
    &[&[
        OneTerm, OneTerm, OneTerm, OneTerm, TermList, OneTerm, TypeNumber, ColumnKeys,
    ]],
    &[&[OneTerm, OneTerm, OneTerm, OneTerm, TypeNumber, ColumnKeys]],
    &[&[OneTerm, OneTerm, OneTerm], &[OneTerm, OneTerm, OneTerm]],
    &[&[OneTerm, OneTerm], &[OneTerm, OneTerm]],
];

/// What stands in a list at this number, counted from 1 on.
fn item<T: Copy>(items: &[T], number: i128) -> Option<T>
    ensures { result ≡ item_at items.now (natural number) }
{
    if number < 1 || number > items.len() as i128 {
        return None;
    }
    items.get((number - 1) as usize).copied()
}

/// The parameters of the part of the axiom, none where there is no such part.
fn part_at(
    axioms: &'static [&'static [&'static [Parameter]]],
    number: i128,
    part: i128,
) -> &'static [Parameter]
    ensures { IsPart (map (λ parts. map (λ ps. map seen ps.now) parts.now) axioms.now) number part
        (map seen result.now) }
{
    let Some(parts) = item(axioms, number) else {
        return &[];
    };
    let Some(parameters) = item(parts, part) else {
        return &[];
    };
    parameters
}

/// The parameters of the part of the axiom, none where there is no such part.
pub fn parameters_of(number: i128, part: i128) -> &'static [Parameter]
    ensures { map seen result.now ≡ spec.parameters_of (natural number) (natural part) }
{
    part_at(AXIOMS, number, part)
}
