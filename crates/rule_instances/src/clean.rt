//! Clean heap terms: what axioms on modes and memberships ask for.

ghost use Rattle.std.specs.Prelude.{◌≡◌, ◌<◌, ◌&&◌, pos, int_le, List, IfSome, IfNone, option_map};
ghost use Rattle.terms.specs.Formula.{Formula};
ghost use Rattle.conditions.specs.Formulas.{row};
ghost use Rattle.term_meaning.specs.Meaning.{column_at};
ghost use Rattle.axiom_instances.specs.Terms as spec;
ghost use Rattle.condition_formulas.specs.Standing.{StandsAs, StandAll};
ghost use Rattle.rule_instances.specs.Clean.{IsBefore, IsOrigin, is_heap_constant};
ghost use Rattle.rule_instances.specs.Columns.{seen};

use crate::columns::column_of;
use crate::making::term_at;
use axiom_steps::steps::Column;
use method::program::Program;
use term_graph::graph::Graph;
use terms::term::{Kind, Term};

/// The column with this number.
fn column_at(program: &Program, number: i128) -> Option<Column>
    ensures { option_map seen result ≡ column_at program.now number }
{
    if number < 0 {
        return None;
    }
    column_of(program, number.unsigned_abs())
}

/// The column of a node that reads or stores.
fn column_of_node(program: &Program, node: &Term) -> Option<Column>
    ensures { option_map seen result ≡ column_at program.now node.now.index }
{
    column_at(program, node.index)
}

/// The greatest value of a column that has few.
fn limit_of(column: Column) -> Option<u8>
    ensures { option_map pos result ≡ spec.limit_of (seen column) }
{
    match column {
        Column::Modes => Some(3),
        Column::OwnedSets | Column::ClaimedSets | Column::Shape(_) => Some(1),
        Column::Owners | Column::Counts | Column::Field(_) => None,
    }
}

/// Whether the column holds 0 or 1 alone.
fn is_set_column(column: Option<Column>) -> bool
    ensures { result ≡ spec.is_set_column (option_map seen column) }
{
    let Some(column) = column else {
        return false;
    };
    match column {
        Column::OwnedSets | Column::ClaimedSets | Column::Shape(_) => true,
        Column::Modes | Column::Owners | Column::Counts | Column::Field(_) => false,
    }
}

/// Whether the node's index is one from 0 to the greatest.
fn is_up_to(greatest: u8, node: &Term) -> bool
    ensures { result ≡ (int_le (pos 0) node.now.index && int_le node.now.index (pos greatest)) }
{
    node.index >= 0 && node.index <= greatest as i128
}

/// Whether the node is a numeral from 0 to the greatest.
fn is_numeral_to(graph: &Graph, greatest: u8, id: u32) -> bool
    ensures { (f : Formula) → StandsAs graph.now id f → result ≡ spec.is_numeral_to (pos greatest) f }
{
    if id as usize >= graph.len() {
        return false;
    }
    let node = graph.node(id);
    match node.kind {
        Kind::Int => is_up_to(greatest, node),
        _ => false,
    }
}

/// Whether a clean heap may store the node in the column.
fn stores_cleanly(graph: &Graph, column: Option<Column>, id: u32) -> bool
    ensures { (f : Formula) → StandsAs graph.now id f → result ≡ spec.stores_cleanly (option_map seen column) f }
{
    let Some(column) = column else {
        return false;
    };
    let Some(greatest) = limit_of(column) else {
        return true;
    };
    is_numeral_to(graph, greatest, id)
}

/// Whether a clean heap may store the last of these nodes in the column.
fn stores_last(graph: &Graph, column: Option<Column>, args: &[u32]) -> bool
    ensures { (fs : List Formula) → StandAll graph.now args.now fs
        → result ≡ spec.last_is (spec.stores_cleanly (option_map seen column)) (row fs) }
{
    let Some((last, _)) = args.split_last() else {
        return false;
    };
    stores_cleanly(graph, column, *last)
}

/// The heap before, where the node changes one in a clean way.
fn heap_before(program: &Program, graph: &Graph, id: u32) -> Option<u32>
    ensures some { (f : Formula) → StandsAs graph.now id f → IfSome result (IsBefore program.now graph.now f) }
    ensures none { (f : Formula) → StandsAs graph.now id f → IfNone result (IsOrigin program.now f) }
    ensures below { IfSome result (λ before. before < id) }
{
    if id as usize >= graph.len() {
        return None;
    }
    let node = graph.node(id);
    match node.kind {
        Kind::Set => {
            let column = column_of_node(program, node);
            if !stores_last(graph, column, node.args.numbers()) {
                return None;
            }
            term_at(node.args.numbers(), 0)
        }
        Kind::Open | Kind::Close | Kind::Clear => term_at(node.args.numbers(), 0),
        _ => None,
    }
}

/// Whether the node is a constant for a heap.
fn is_heap_constant(graph: &Graph, id: u32) -> bool
    ensures { (f : Formula) → StandsAs graph.now id f → result ≡ is_heap_constant (spec.kind_of f) }
{
    if id as usize >= graph.len() {
        return false;
    }
    matches!(graph.node(id).kind, Kind::Ch)
}

/// Whether the node is a clean heap: a constant with numerals stored from 0 to 3 as modes, and from 0 to 1 in sets.
pub fn is_clean(program: &Program, graph: &Graph, id: u32) -> bool
    ensures { (f : Formula) → StandsAs graph.now id f → result ≡ spec.is_clean program.now f }
{
    let mut heap = id;
    while let Some(before) = heap_before(program, graph, heap) {
        heap = before;
    }
    is_heap_constant(graph, heap)
}

/// Whether the node reads a set or a shape of a clean heap.
pub fn is_clean_read(program: &Program, graph: &Graph, id: u32) -> bool
    ensures { (f : Formula) → StandsAs graph.now id f → result ≡ spec.is_clean_read program.now f }
{
    if id as usize >= graph.len() {
        return false;
    }
    let node = graph.node(id);
    match node.kind {
        Kind::Get => reads_clean_set(program, graph, node),
        _ => false,
    }
}

/// Whether a read is of a set or a shape, and of a clean heap.
fn reads_clean_set(program: &Program, graph: &Graph, node: &Term) -> bool
    ensures { (fs : List Formula) → StandAll graph.now node.now.args fs
        → result ≡ (spec.is_set_column (column_at program.now node.now.index) && spec.first_clean program.now (row fs)) }
{
    let column = column_of_node(program, node);
    if !is_set_column(column) {
        return false;
    }
    let Some(heap) = term_at(node.args.numbers(), 0) else {
        return false;
    };
    is_clean(program, graph, heap)
}
