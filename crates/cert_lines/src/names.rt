//! Kinds and rules by their names.

ghost use Rattle.std.specs.Prelude.{◌≡◌, bytes_eq, find};
ghost use Rattle.cert_format.specs.Text as text;
ghost use Rattle.cert_lines.specs.Grammar as grammar;

use cert_format::certificate::RuleName;
use cert_format::names::{kind_name, rule_name};
use terms::term::Kind;

/// Every kind of term, those first that are most frequent.
const KINDS: [Kind; 37] = [
    Kind::Get,
    Kind::Eq,
    Kind::Imp,
    Kind::And,
    Kind::Le,
    Kind::Not,
    Kind::Or,
    Kind::Set,
    Kind::Int,
    Kind::Ci,
    Kind::Add,
    Kind::Sub,
    Kind::Mul,
    Kind::Div,
    Kind::Mod,
    Kind::Typ,
    Kind::Ite,
    Kind::Null,
    Kind::Me,
    Kind::Cr,
    Kind::Cex,
    Kind::Ch,
    Kind::Open,
    Kind::Close,
    Kind::Clear,
    Kind::True,
    Kind::All,
    Kind::Good,
    Kind::Sys,
    Kind::Inv,
    Kind::Legal,
    Kind::Kept,
    Kind::Touched,
    Kind::Rely,
    Kind::Frame,
    Kind::Stab,
    Kind::Idle,
];

/// Every rule, those first that are most frequent.
const RULES: [RuleName; 13] = [
    RuleName::Chain,
    RuleName::Conn,
    RuleName::Axiom,
    RuleName::Root,
    RuleName::Refl,
    RuleName::Sym,
    RuleName::Trans,
    RuleName::Cong,
    RuleName::Linear,
    RuleName::Cut,
    RuleName::Split,
    RuleName::Map,
    RuleName::Lemma,
];

/// The kind of term with this name.
pub(crate) fn kind_in(word: &[u8]) -> Option<Kind>
    ensures { result ≡ grammar.kind_in word.now }
{
    find_kind(&KINDS, word)
}

fn find_kind(among: &[Kind], word: &[u8]) -> Option<Kind>
    ensures { result ≡ find (λ kind. bytes_eq (text.kind_text kind) word.now) among.now }
{
    for kind in among {
        if kind_name(*kind) == word {
            return Some(*kind);
        }
    }
    None
}

/// The rule with this name.
pub(crate) fn rule_in(word: &[u8]) -> Option<RuleName>
    ensures { result ≡ grammar.rule_in word.now }
{
    find_rule(&RULES, word)
}

fn find_rule(among: &[RuleName], word: &[u8]) -> Option<RuleName>
    ensures { result ≡ find (λ rule. bytes_eq (text.rule_text rule) word.now) among.now }
{
    for rule in among {
        if rule_name(*rule) == word {
            return Some(*rule);
        }
    }
    None
}
