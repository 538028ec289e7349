//! The names of kinds and rules.

ghost use Rattle.std.specs.Prelude.{◌≡◌};
ghost use Rattle.cert_format.specs.Text as text;

use crate::certificate::RuleName;
use terms::term::Kind;

/// The word for a kind of term.
pub fn kind_name(kind: Kind) -> &'static [u8]
    ensures { result.now ≡ text.kind_text kind }
{
    match kind {
        Kind::Int => b"int",
        Kind::Ci => b"ci",
        Kind::Add => b"add",
        Kind::Sub => b"sub",
        Kind::Mul => b"mul",
        Kind::Div => b"div",
        Kind::Mod => b"mod",
        Kind::Typ => b"typ",
        Kind::Get => b"get",
        Kind::Ite => b"ite",
        Kind::Null => b"null",
        Kind::Me => b"me",
        Kind::Cr => b"cr",
        Kind::Cex => b"cex",
        Kind::Ch => b"ch",
        Kind::Set => b"set",
        Kind::Open => b"open",
        Kind::Close => b"close",
        Kind::Clear => b"clear",
        Kind::True => b"true",
        Kind::Not => b"not",
        Kind::And => b"and",
        Kind::Or => b"or",
        Kind::Imp => b"imp",
        Kind::Eq => b"eq",
        Kind::Le => b"le",
        Kind::All => b"all",
        Kind::Good => b"good",
        Kind::Sys => b"sys",
        Kind::Inv => b"inv",
        Kind::Legal => b"legal",
        Kind::Kept => b"kept",
        Kind::Touched => b"touched",
        Kind::Rely => b"rely",
        Kind::Frame => b"frame",
        Kind::Stab => b"stab",
        Kind::Idle => b"idle",
    }
}

/// The word for a rule.
pub fn rule_name(rule: RuleName) -> &'static [u8]
    ensures { result.now ≡ text.rule_text rule }
{
    match rule {
        RuleName::Root => b"root",
        RuleName::Conn => b"conn",
        RuleName::Chain => b"chain",
        RuleName::Refl => b"refl",
        RuleName::Sym => b"sym",
        RuleName::Trans => b"trans",
        RuleName::Cong => b"cong",
        RuleName::Linear => b"linear",
        RuleName::Cut => b"cut",
        RuleName::Split => b"split",
        RuleName::Map => b"map",
        RuleName::Axiom => b"axiom",
        RuleName::Lemma => b"lemma",
    }
}

/// Whether an index stands behind the kind's name.
pub fn has_index(kind: Kind) -> bool
    ensures { result ≡ text.has_index kind }
{
    match kind {
        Kind::Int
        | Kind::Ci
        | Kind::Cr
        | Kind::Ch
        | Kind::Get
        | Kind::Set
        | Kind::All
        | Kind::Cex => true,
        _ => false,
    }
}
