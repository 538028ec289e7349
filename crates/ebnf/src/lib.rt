//! Grammars in extended Backus-Naur form, what they derive, and reading by one token of lookahead: definitions and laws, in `specs/`.
#![tactic(auto)]
