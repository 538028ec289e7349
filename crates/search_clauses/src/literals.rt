//! Literals.

use terms::term::Literal;

/// That the term is true.
pub fn yes(term: u32) -> Literal {
    Literal {
        term,
        positive: true,
    }
}

/// That the term is false.
pub fn no(term: u32) -> Literal {
    Literal {
        term,
        positive: false,
    }
}

/// What the literal denies.
pub fn negated(literal: Literal) -> Literal {
    Literal {
        term: literal.term,
        positive: !literal.positive,
    }
}

/// A place for each literal in tables by literals.
pub fn slot(literal: Literal) -> usize {
    (literal.term as usize)
        .saturating_mul(2)
        .saturating_add(usize::from(literal.positive))
}
