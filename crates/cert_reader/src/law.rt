//! Laws of the text and of its readers.

ghost use Rattle.std.specs.Prelude.{◌≡◌, ◌↔◌, ◌++◌, [], ℕ, List, Ok};
ghost use Rattle.cert_reader.specs.Keeping.{MeetsFault, Scan, Use, all_blocks, all_lemmas, answer, decoded, pieces, scan, session, start};
ghost use Rattle.cert_format.specs.declared.fault.CertFault.{CertFault};
ghost use Rattle.cert_format.specs.Text.{IsCertText, Proofs};

/// What is decoded is the certificate whose text the bytes are; no certificate's text is a proper prefix of another's.
pub fn decoding_is_exact()
    ensures text { (bytes : List ℕ) (c : Proofs) → (decoded bytes ≡ Ok c) ↔ IsCertText bytes c }
    // No certificate's text begins with bytes in which a fault was met.
    ensures fault { (xs ys : List ℕ) (c : Proofs) (e : CertFault) → MeetsFault xs e → ¬ IsCertText (xs ++ ys) c }
    ensures prefix { (xs ys : List ℕ) (c d : Proofs) → IsCertText xs c → IsCertText (xs ++ ys) d → ys ≡ [] }
{}

/// It is no matter how the bytes are cut, nor when lemmas and blocks are handed out. Two pieces are one; the answer at
/// the end is that to the pieces put together; and what was handed out and what is left are the certificate's lemmas
/// and blocks.
pub fn cuts_are_no_matter()
    ensures pieces { (s : Scan) (xs ys : List ℕ) → scan s (xs ++ ys) ≡ scan (scan s xs) ys }
    ensures answer { (us : List Use) → answer (session us).reader ≡ answer (scan start (pieces us)) }
    ensures lemmas { (us : List Use) (c : Proofs) → decoded (pieces us) ≡ Ok c → all_lemmas (session us) ≡ c.lemmas }
    ensures blocks { (us : List Use) (c : Proofs) → decoded (pieces us) ≡ Ok c → all_blocks (session us) ≡ c.blocks }
{}
