//! The conditions of a source, and parts of them as texts.

use crate::programs::program_of;
use condition_code::emitter::Emitter;
use condition_code::walk::Walk;
use condition_walk::items::add_item_path;
use graph_numbering::numbering::number;
use graph_numbering::places::Places;
use method::program::{Item, Program};
use std::alloc::{AllocError, Global};
use std::fmt::Write;
use term_graph::graph::Graph;
use terms::term::{Kind, Term};

/// Adds the conditions of an item, each with its terms from 0 on.
fn add_conditions(
    alloc: Global,
    program: &Program,
    item: Item,
    conditions: &mut Vec<Graph>,
) -> Result<(), AllocError> {
    let mut walk = Walk::new(alloc);
    add_item_path(&mut walk, program, item)?;
    let mut emitter = Emitter::new(alloc);
    let mut places = Places::new(alloc);
    for _ in 0..=walk.path.len() {
        let Some(root) = emitter.next(&mut walk.graph, &walk.path)? else {
            break;
        };
        let mut terms = Graph::new(alloc);
        number(&walk.graph, root, &mut terms, &mut places)?;
        conditions.push(terms)?;
    }
    Ok(())
}

/// The conditions of a program.
fn of_program(alloc: Global, program: &Program) -> Result<Vec<Graph>, AllocError> {
    let mut conditions = Vec::new(alloc);
    for item in &program.items {
        add_conditions(alloc, program, *item, &mut conditions)?;
    }
    Ok(conditions)
}

/// The conditions of a short source; none where it has no program.
pub fn of_source(alloc: Global, source: &str) -> Result<Vec<Graph>, AllocError> {
    match program_of(alloc, source) {
        Some(program) => of_program(alloc, &program),
        None => Ok(Vec::new(alloc)),
    }
}

/// What stands between the two arguments of a kind.
const SIGNS: &[(Kind, &str)] = &[
    (Kind::Eq, " = "),
    (Kind::Le, " <= "),
    (Kind::And, " & "),
    (Kind::Or, " | "),
    (Kind::Imp, " -> "),
    (Kind::Add, " + "),
    (Kind::Sub, " - "),
    (Kind::Mul, " * "),
    (Kind::Div, " / "),
    (Kind::Mod, " % "),
];

/// What stands in front of a kind's index.
const NAMES: &[(Kind, &str)] = &[
    (Kind::Int, ""),
    (Kind::Ci, "i"),
    (Kind::Cr, "r"),
    (Kind::Ch, "h"),
    (Kind::Get, "get"),
    (Kind::Set, "set"),
    (Kind::All, "all"),
    (Kind::Cex, "cex"),
];

/// What the table has for the kind.
fn look_up(table: &[(Kind, &'static str)], kind: Kind) -> Option<&'static str> {
    for (it, text) in table {
        if *it == kind {
            return Some(*text);
        }
    }
    None
}

/// The arguments in brackets, with this text between them.
fn push_arguments(
    out: &mut String,
    between: &str,
    term: &Term,
    texts: &[String],
) -> Result<(), AllocError> {
    let mut front = "(";
    for number in term.args.numbers() {
        out.push_str(front)?;
        if let Some(text) = texts.get(*number as usize) {
            out.push_str(text.as_str())?;
        }
        front = between;
    }
    if !term.args.numbers().is_empty() {
        out.push_str(")")?;
    }
    Ok(())
}

/// A kind without a sign, and its index where it has one.
fn push_name(out: &mut String, term: &Term) -> Result<(), AllocError> {
    match look_up(NAMES, term.kind) {
        Some(name) => write!(out, "{name}{}", term.index),
        None => write!(out, "{:?}", term.kind),
    }
}

/// The text of a term, by the texts of those below it.
fn text_of(alloc: Global, term: &Term, texts: &[String]) -> Result<String, AllocError> {
    let mut out = String::new(alloc);
    let mut between = ", ";
    match look_up(SIGNS, term.kind) {
        Some(sign) => between = sign,
        None => push_name(&mut out, term)?,
    }
    push_arguments(&mut out, between, term, texts)?;
    Ok(out)
}

/// The texts of the terms, by number.
fn texts_of(alloc: Global, terms: &Graph) -> Result<Vec<String>, AllocError> {
    let mut texts = Vec::new(alloc);
    for id in 0..terms.len() {
        let text = text_of(alloc, terms.node(id as u32), &texts)?;
        texts.push(text)?;
    }
    Ok(texts)
}

/// A part of a condition: its facts from this number on, counted from 0, or what is checked behind them all.
pub enum Part {
    Facts(usize),
    Check,
}

/// The argument of a term with this number, if it is of the kind.
fn argument(terms: &Graph, id: u32, kind: Kind, place: usize) -> Option<u32> {
    if id as usize >= terms.len() || terms.node(id).kind != kind {
        return None;
    }
    match terms.node(id).args.numbers().get(place) {
        Some(number) => Some(*number),
        None => None,
    }
}

/// The facts from this number on.
fn facts_from(terms: &Graph, root: u32, first: usize) -> Option<u32> {
    let mut facts = argument(terms, root, Kind::Imp, 0)?;
    for _ in 0..first {
        facts = argument(terms, facts, Kind::And, 1)?;
    }
    Some(facts)
}

/// The number of the part's term.
fn number_of(terms: &Graph, part: &Part) -> Option<u32> {
    let last = terms.len().checked_sub(1)?;
    let root = last as u32;
    match part {
        Part::Facts(first) => facts_from(terms, root, *first),
        Part::Check => argument(terms, root, Kind::Imp, 1),
    }
}

/// The text of a part of the condition with this number; empty where there is none.
pub fn part_of(
    alloc: Global,
    conditions: &[Graph],
    number: usize,
    part: &Part,
) -> Result<String, AllocError> {
    let Some(terms) = conditions.get(number) else {
        return Ok(String::new(alloc));
    };
    let mut texts = texts_of(alloc, terms)?;
    match number_of(terms, part) {
        Some(id) if (id as usize) < texts.len() => Ok(texts.swap_remove(id as usize)),
        _ => Ok(String::new(alloc)),
    }
}
