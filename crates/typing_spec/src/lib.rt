//! What the typing rules of the language say: definitions, in `specs/`.
#![tactic(auto)]
