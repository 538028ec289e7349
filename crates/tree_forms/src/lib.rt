//! The form in which a text's trees are, since the grammar builds them: a definition in `specs/`, and its law.
#![tactic(auto)]
