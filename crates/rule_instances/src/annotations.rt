//! The formulas of a program's annotations, by what names them.

ghost use Rattle.std.specs.Prelude.{◌≡◌, List, Some, map, slice_get};
ghost use Rattle.terms.specs.Formula.{Formula};
ghost use Rattle.terms.specs.declared.sort.Sort.{Sort};
ghost use Rattle.term_meaning.specs.Meaning as m;
ghost use Rattle.axiom_instances.specs.Axioms as spec;
ghost use Rattle.condition_formulas.specs.Standing.{StandAll};
ghost use Rattle.term_language.specs.Languages.{IsLanguage};
ghost use Rattle.rule_instances.specs.Annotations.{IsBody};
ghost use Rattle.rule_instances.specs.Columns.{seen};

use crate::block::number_at;
use axiom_steps::steps::Column;
use term_graph::graph::Graph;
use term_language::language::Language;
use terms::sort::{Sort, Sorts};

/// The type number of the first struct.
const FIRST_STRUCT: u128 = 3;

/// The formula of an annotation: a node of a language's graph.
#[derive(Clone, Copy)]
pub struct Annotation<'a> {
    pub graph: &'a Graph,
    pub root: u32,
}

/// The formula whose root stands at the place.
fn annotation_at<'a>(graph: &'a Graph, roots: &[u32], place: u128) -> Option<Annotation<'a>>
    ensures { (fs : List Formula) → StandAll graph.now roots.now fs → IsBody result (slice_get fs place) }
{
    let Some(root) = number_at(roots, place) else {
        return None;
    };
    Some(Annotation { graph, root })
}

/// The body of the quantified formula with this number.
pub fn body_of(language: &Language, number: u128) -> Option<Annotation<'_>>
    ensures { (l : m.Language) → IsLanguage language.now l
        → IsBody result (slice_get (map (λ (q : m.Quantified). q.body) l.quantified) number) }
{
    annotation_at(&language.graph, &language.bodies, number)
}

/// The sorts of the holes of a quantified formula, by the holes of all.
pub fn holes_of(quantified: &[Sorts], number: u128) -> &[Sort]
    ensures { (holes : List Sort) → slice_get quantified.now number ≡ Some holes → result.now ≡ holes }
{
    if number >= quantified.len() as u128 {
        return &[];
    }
    quantified[number as usize].as_slice()
}

/// The invariant of the objects of the struct with this type number.
pub fn invariant_of(language: &Language, ty: u128) -> Option<Annotation<'_>>
    ensures { (l : m.Language) → IsLanguage language.now l → IsBody result (m.invariant_of l ty) }
{
    if ty < FIRST_STRUCT {
        return None;
    }
    annotation_at(&language.graph, &language.invariants, ty - FIRST_STRUCT)
}

/// The conjunct of the shape that the column is of.
pub fn conjunct_of(language: &Language, column: Column) -> Option<Annotation<'_>>
    ensures { (l : m.Language) → IsLanguage language.now l → IsBody result (spec.conjunct_of l (seen column)) }
{
    match column {
        Column::Shape(shape) => {
            annotation_at(&language.graph, &language.conjuncts, shape as u128)
        }
        Column::Modes | Column::Owners | Column::Counts | Column::OwnedSets => None,
        Column::ClaimedSets | Column::Field(_) => None,
    }
}
