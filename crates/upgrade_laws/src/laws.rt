//! The laws of an upgrade, as the contracts of functions that do nothing.

ghost use Rattle.upgrade_laws.specs.Laws.{FirstVersions, LemmasFollow, SameBlocks, UpgradeIsCertificate, UpgradeKeeps};

/// Each lemma of an upgrade follows.
pub fn lemmas_follow()
    ensures { LemmasFollow }
{}

/// A condition follows by an upgrade exactly where it follows by the certificate, block for block.
pub fn upgrade_keeps()
    ensures first { FirstVersions }
    ensures blocks { SameBlocks }
    ensures follow { UpgradeKeeps }
{}

/// The upgrade of a certificate is one, where its lemmas' terms are few enough and their indices fit 128 bits.
pub fn upgrade_is_certificate()
    ensures { UpgradeIsCertificate }
{}
