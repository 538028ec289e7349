//! What parts of a program break.

ghost use Rattle.std.specs.Prelude.{◌≡◌};
ghost use Rattle.typing_spec.specs.First as first;
ghost use Rattle.typing_expressions.specs.Violations as spec;
ghost use Rattle.typing_expressions.specs.Views.{rule, broken, maybe_broken, findings};

use crate::rule::Rule;
use c_syntax::token::Span;

/// A broken rule, and where.
#[derive(Clone, Copy, Debug, PartialEq, Eq)]
pub struct Violation {
    pub rule: Rule,
    pub span: Span,
}

impl Violation {
    /// Whether this one stands earlier in the text than the other, or at the same place with no greater number.
    pub fn is_not_later(self, other: Violation) -> bool
        ensures { result ≡ first.not_later (broken self) (broken other) }
    {
        if self.span.line != other.span.line {
            return self.span.line < other.span.line;
        }
        if self.span.column != other.span.column {
            return self.span.column < other.span.column;
        }
        self.rule.number() <= other.rule.number()
    }
}

/// The earlier of the two, if there is any.
pub fn earlier(left: Option<Violation>, right: Option<Violation>) -> Option<Violation>
    ensures { maybe_broken result ≡ first.earlier (maybe_broken left) (maybe_broken right) }
{
    match (left, right) {
        (None, right) => right,
        (left, None) => left,
        (Some(left), Some(right)) => {
            if left.is_not_later(right) {
                Some(left)
            } else {
                Some(right)
            }
        }
    }
}

/// The rule at the place, if it is broken there.
pub fn broken_if(is_broken: bool, broken_rule: Rule, span: Span) -> Option<Violation>
    ensures { maybe_broken result ≡ spec.broken_if is_broken (rule broken_rule) span }
{
    if is_broken {
        Some(Violation {
            rule: broken_rule,
            span,
        })
    } else {
        None
    }
}

/// What parts of a program break first; and for an atomic block around them, their first access to a volatile field, and what
/// their further accesses break first.
#[derive(Clone, Copy)]
pub struct Diagnostics {
    pub first: Option<Violation>,
    pub access: Option<Span>,
    pub later: Option<Violation>,
}

/// What such an access breaks where it isn't the first of its atomic block.
fn as_further(access: Option<Span>) -> Option<Violation>
    ensures { maybe_broken result ≡ spec.as_further access }
{
    match access {
        None => None,
        Some(span) => Some(Violation {
            rule: Rule::SecondAccess,
            span,
        }),
    }
}

impl Diagnostics {
    /// Nothing is broken or accessed.
    pub fn nothing() -> Diagnostics
        ensures { findings result ≡ spec.nothing }
    {
        Diagnostics {
            first: None,
            access: None,
            later: None,
        }
    }

    /// Nothing but this is broken, if it is, and nothing is accessed.
    pub fn breaking(first: Option<Violation>) -> Diagnostics
        ensures { findings result ≡ spec.breaking (maybe_broken first) }
    {
        Diagnostics {
            first,
            access: None,
            later: None,
        }
    }

    /// What further accesses break, of these parts and of others behind them.
    fn further(self, others: Diagnostics) -> Option<Violation>
        ensures { maybe_broken result ≡ spec.further_of self.access (maybe_broken self.later) (findings others) }
    {
        match self.access {
            None => others.later,
            Some(_) => earlier(self.later, earlier(as_further(others.access), others.later)),
        }
    }

    /// What these parts break, and others behind them.
    pub fn then(self, others: Diagnostics) -> Diagnostics
        ensures { findings result ≡ spec.joined (findings self) (findings others) }
    {
        let access = match self.access {
            None => others.access,
            Some(span) => Some(span),
        };
        Diagnostics {
            first: earlier(self.first, others.first),
            access,
            later: self.further(others),
        }
    }
}
