//! The rules of propositional logic: `root`, `conn` and `chain`.

ghost use Rattle.std.specs.Prelude.{◌≡◌, ◌↔◌, IsTrue, ◌∷◌, [], MatchOption};
ghost use Rattle.vcc_rules.specs.Rows.{IsRoot, IsPart, IsClausal, IsNoChoice, IsChoice, IsChosen, IsConnective, Closes, yes as positive, no as negative};
ghost use Rattle.vcc_rules.specs.Branches.{IsBranch};
ghost use Rattle.vcc_rules.specs.Sound.{root_sound, connective_sound, chain_sound};

use crate::equality::{Equality, equality_at};
use crate::rule::{Clauses, Rule, Scratch};
use int_ranges::exact::Wide;
use term_graph::graph::Graph;
use terms::numbers::{Numbers, index_below};
use terms::term::{Kind, Literal, Term};

/// The condition is false. It takes no numbers.
pub struct Root;

impl Rule for Root {
    type Data = Numbers;

    ghost suits = { λ rule language terms. Unit {0} };

    ghost gives = { λ rule terms earlier below detail clause. IsRoot earlier.root detail clause };

    ghost leaves = { λ rule terms detail clause w. ⊥ };

    fn concludes(
        &self,
        _terms: &Graph,
        earlier: &Clauses,
        _below: usize,
        detail: &Numbers,
        clause: &[Literal],
        _scratch: &mut Scratch,
    ) -> Result<bool, Wide> {
        Ok(match (earlier.root, detail.as_slice(), clause) {
            (Some(root), [], [only]) => only.term == root && !only.positive,
            _ => false,
        })
    }

    ghost sound = { λ rule language terms earlier below detail clause suits. root_sound language terms earlier.root earlier.list.items below detail clause };
}

/// What a term says of its arguments: the part's number, from 1, and the term's; of a choice also the number of the
/// equality of the term and its branch.
pub struct Connective;

impl Rule for Connective {
    type Data = Numbers;

    ghost suits = { λ rule language terms. Unit {0} };

    ghost gives = { λ rule terms earlier below detail clause. IsConnective terms detail clause };

    ghost leaves = { λ rule terms detail clause w. ⊥ };

    fn concludes(
        &self,
        terms: &Graph,
        _earlier: &Clauses,
        _below: usize,
        detail: &Numbers,
        clause: &[Literal],
        _scratch: &mut Scratch,
    ) -> Result<bool, Wide> {
        Ok(match detail.as_slice() {
            [part, term] => is_clausal(terms, *part, *term, clause),
            [part, term, equation] => is_chosen(terms, *part, *term, *equation, clause),
            _ => false,
        })
    }

    ghost sound = { λ rule language terms earlier below detail clause suits. connective_sound language terms earlier.root earlier.list.items below detail clause };
}

#[tactic(auto, using(crate::proofs::Parts::part_below))]
fn is_clausal(terms: &Graph, part: i128, term: i128, clause: &[Literal]) -> bool
    ensures row { IsTrue result ↔ IsClausal terms.now (part ∷ term ∷ []) clause.now }
{
    match (index_below(part, 4), index_below(term, terms.len())) {
        (Some(part), Some(t)) => is_part(terms.node(t as u32), t as u32, part, clause),
        _ => false,
    }
}

fn is_part(node: &Term, t: u32, part: usize, clause: &[Literal]) -> bool
    ensures row { IsTrue result ↔ IsPart node.now t part clause.now }
{
    match (node.kind, node.args.numbers(), part) {
        (Kind::True, [], 1) => is_one(clause, yes(t)),
        (Kind::Not, [a], 1) => is_pair(clause, yes(t), yes(*a)),
        (Kind::Not, [a], 2) => is_pair(clause, no(t), no(*a)),
        (Kind::And, [a, _], 1) => is_pair(clause, no(t), yes(*a)),
        (Kind::And, [_, b], 2) => is_pair(clause, no(t), yes(*b)),
        (Kind::And, [a, b], 3) => is_triple(clause, yes(t), no(*a), no(*b)),
        (Kind::Or, [a, _], 1) => is_pair(clause, yes(t), no(*a)),
        (Kind::Or, [_, b], 2) => is_pair(clause, yes(t), no(*b)),
        (Kind::Or, [a, b], 3) => is_triple(clause, no(t), yes(*a), yes(*b)),
        (Kind::Imp, [a, _], 1) => is_pair(clause, yes(t), yes(*a)),
        (Kind::Imp, [_, b], 2) => is_pair(clause, yes(t), no(*b)),
        (Kind::Imp, [a, b], 3) => is_triple(clause, no(t), no(*a), yes(*b)),
        _ => false,
    }
}

/// A term that is a choice, with its test and its branches.
#[derive(Clone, Copy, Debug)]
pub struct Choice {
    pub term: u32,
    pub test: u32,
    pub first: u32,
    pub second: u32,
}

/// The choice that a step's number names.
fn choice_at(terms: &Graph, number: i128) -> Option<Choice>
    ensures { MatchOption result (IsNoChoice terms.now number) (IsChoice terms.now number) }
{
    let term = index_below(number, terms.len())? as u32;
    let node = terms.node(term);
    match (node.kind, node.args.numbers()) {
        (Kind::Ite, [test, first, second]) => Some(Choice {
            term,
            test: *test,
            first: *first,
            second: *second,
        }),
        _ => None,
    }
}

#[tactic(auto, using(crate::proofs::Choices::branch_chosen, crate::proofs::Choices::chosen_branch))]
fn is_chosen(terms: &Graph, part: i128, term: i128, equation: i128, clause: &[Literal]) -> bool
    ensures row { IsTrue result ↔ IsChosen terms.now (part ∷ term ∷ equation ∷ []) clause.now }
{
    match (choice_at(terms, term), equality_at(terms, equation)) {
        (Some(c), Some(e)) => is_branch(part, c, e, clause),
        _ => false,
    }
}

/// Whether the equality is that of a choice and the branch with this number, and the clause says when it holds.
fn is_branch(part: i128, c: Choice, e: Equality, clause: &[Literal]) -> bool
    ensures { IsTrue result ↔ IsBranch part c e clause.now }
{
    if e.left != c.term {
        return false;
    }
    match part {
        1 => e.right == c.first && is_pair(clause, no(c.test), yes(e.term)),
        2 => e.right == c.second && is_pair(clause, yes(c.test), yes(e.term)),
        _ => false,
    }
}

/// The literal that the term is true.
pub fn yes(term: u32) -> Literal
    ensures { result ≡ positive term }
{
    Literal {
        term,
        positive: true,
    }
}

/// The literal that the term is false.
pub fn no(term: u32) -> Literal
    ensures { result ≡ negative term }
{
    Literal {
        term,
        positive: false,
    }
}

/// Whether this is the only literal.
pub fn is_one(clause: &[Literal], a: Literal) -> bool
    ensures { IsTrue result ↔ (clause.now ≡ a ∷ []) }
{
    matches!(clause, [x] if *x == a)
}

/// Whether these are the literals, in this order.
pub fn is_pair(clause: &[Literal], a: Literal, b: Literal) -> bool
    ensures { IsTrue result ↔ (clause.now ≡ a ∷ b ∷ []) }
{
    matches!(clause, [x, y] if *x == a && *y == b)
}

/// Whether these are the literals, in this order.
pub fn is_triple(clause: &[Literal], a: Literal, b: Literal, c: Literal) -> bool
    ensures { IsTrue result ↔ (clause.now ≡ a ∷ b ∷ c ∷ []) }
{
    matches!(clause, [x, y, z] if *x == a && *y == b && *z == c)
}

/// Steps of which each leaves one literal open, and the last none.
pub struct Chain;

impl Rule for Chain {
    type Data = Numbers;

    ghost suits = { λ rule language terms. Unit {0} };

    ghost gives = { λ rule terms earlier below detail clause. Closes earlier.list.items below clause detail };

    ghost leaves = { λ rule terms detail clause w. ⊥ };

    fn concludes(
        &self,
        _terms: &Graph,
        earlier: &Clauses,
        below: usize,
        detail: &Numbers,
        clause: &[Literal],
        scratch: &mut Scratch,
    ) -> Result<bool, Wide> {
        Ok(scratch.closes(earlier.list.as_slice(), below, detail.as_slice(), clause))
    }

    ghost sound = { λ rule language terms earlier below detail clause suits. chain_sound language terms earlier.root earlier.list.items below detail clause };
}
