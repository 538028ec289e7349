//! Certificates written anew, as the contract of a function that does nothing.

ghost use Rattle.upgrade_laws.specs.Rows.{BadTerm, NoConclusion, Nothing, OneTree, SameTrees, ThreeOfFour, TwoLemmas, TwoTrees};
ghost use Rattle.term_meaning.specs.Meaning.{Language};

/// Certificates become those that were written down by hand.
pub fn upgrades_are_these()
    ensures one { (l : Language) → OneTree l }
    ensures two { (l : Language) → TwoTrees l }
    ensures lemmas { (l : Language) → TwoLemmas l }
    ensures three { (l : Language) → ThreeOfFour l }
    ensures none { (l : Language) → NoConclusion l }
    ensures trees { (l : Language) → SameTrees l }
    ensures bad { (l : Language) → BadTerm l }
    ensures nothing { (l : Language) → Nothing l }
{}
