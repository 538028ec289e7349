//! Terms that are numbers.

ghost use Rattle.std.specs.Prelude.{ℤ, ◌<◌, length, MatchOption};
ghost use Rattle.term_bank.specs.Literal.{IsNumber};

use crate::bank::Bank;
use terms::term::Kind;

impl Bank {
    /// The number that a term is, where it is one.
    #[tactic(auto, using(crate::proofs::Literals::number_at, crate::proofs::Literals::kind_of, crate::proofs::Literals::args_of))]
    pub fn literal(&self, id: u32) -> Option<i128>
        requires { id < length self.now.terms }
        ensures { MatchOption result ((n : ℤ) → ¬ IsNumber self.now.terms id n) (IsNumber self.now.terms id) }
    {
        let node = self.node(id);
        match (node.kind, node.args.numbers()) {
            (Kind::Int, []) => Some(node.index),
            _ => None,
        }
    }
}
