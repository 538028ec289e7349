//! Which parts of which axioms a term brings: number and part of each.

use terms::term::Kind;

/// The number of an axiom, and that of its part.
pub type Row = (u8, u8);

const NONE: &[Row] = &[];

const NULL: &[Row] = &[(3, 1)];

const ME: &[Row] = &[(3, 3)];

const ALL: &[Row] = &[(2, 1)];

const GOOD: &[Row] = &[(5, 1)];

const SYS: &[Row] = &[(6, 2)];

const RELY: &[Row] = &[(16, 1)];

const FRAME: &[Row] = &[(21, 1)];

const STAB: &[Row] = &[(22, 1)];

const LEGAL: &[Row] = &[(23, 1)];

const KEPT: &[Row] = &[(23, 2)];

const CHANGE: &[Row] = &[(24, 1)];

const QUOTIENT: &[Row] = &[(24, 10), (24, 11), (29, 1), (29, 2)];

/// Parts that take what the term gives, and nothing more.
pub fn alone(kind: Kind) -> &'static [Row] {
    match kind {
        Kind::Null => NULL,
        Kind::Me => ME,
        Kind::All => ALL,
        Kind::Good => GOOD,
        Kind::Sys => SYS,
        Kind::Rely => RELY,
        Kind::Frame => FRAME,
        Kind::Stab => STAB,
        Kind::Legal => LEGAL,
        Kind::Kept => KEPT,
        Kind::Open | Kind::Close => CHANGE,
        Kind::Div | Kind::Mod => QUOTIENT,
        _ => NONE,
    }
}

const ALL_AT: &[Row] = &[(1, 1)];

const GOOD_AT: &[Row] = &[(13, 1)];

const SYS_AT: &[Row] = &[(6, 1), (7, 1), (7, 2)];

const RELY_AT: &[Row] = &[(18, 1), (20, 1)];

const FRAME_AT: &[Row] = &[(21, 3)];

const IDLE_AT: &[Row] = &[(22, 5)];

const LEGAL_AT: &[Row] = &[(23, 3)];

const KEPT_AT: &[Row] = &[(23, 4)];

const TOUCHED_AT: &[Row] = &[(23, 6)];

const CHANGE_AT: &[Row] = &[(24, 2), (24, 3), (24, 4)];

/// Parts that take a reference more, which is read at one of the term's heaps.
pub fn at_reference(kind: Kind) -> &'static [Row] {
    match kind {
        Kind::All => ALL_AT,
        Kind::Good => GOOD_AT,
        Kind::Sys => SYS_AT,
        Kind::Rely => RELY_AT,
        Kind::Frame => FRAME_AT,
        Kind::Idle => IDLE_AT,
        Kind::Legal => LEGAL_AT,
        Kind::Kept => KEPT_AT,
        Kind::Touched => TOUCHED_AT,
        Kind::Open | Kind::Close => CHANGE_AT,
        _ => NONE,
    }
}

const OWNED: &[Row] = &[(9, 1), (28, 1)];

const CLAIMED: &[Row] = &[(10, 1), (28, 2)];

/// Parts on well-formed heaps that take the object of a set and a member.
pub fn at_member(column: i128) -> &'static [Row] {
    match column {
        3 => OWNED,
        4 => CLAIMED,
        _ => NONE,
    }
}

const FIELD: &[Row] = &[(12, 1)];

const CONJUNCT: &[Row] = &[(15, 1)];

const RELY_READ: &[Row] = &[(17, 1)];

const FRAME_READ: &[Row] = &[(21, 2)];

const CHANGE_READ: &[Row] = &[(24, 5)];

const CLEAR_READ: &[Row] = &[(24, 8)];

/// Parts that take a reference more and a column with its other keys, which are read at one of the term's heaps.
pub fn at_read(kind: Kind, column: i128, fields: i128) -> &'static [Row] {
    match kind {
        Kind::Sys if column >= 5 && column < fields => FIELD,
        Kind::Good if column >= fields => CONJUNCT,
        Kind::Rely => RELY_READ,
        Kind::Frame => FRAME_READ,
        Kind::Open | Kind::Close if column >= 2 => CHANGE_READ,
        Kind::Clear if column != 3 => CLEAR_READ,
        _ => NONE,
    }
}

const RELY_TYPED: &[Row] = &[(19, 1), (25, 1)];

const FRAME_TYPED: &[Row] = &[(21, 4), (26, 1)];

const STEP_TYPED: &[Row] = &[(23, 7)];

/// The same with a type of the reference.
pub fn at_typed_read(kind: Kind) -> &'static [Row] {
    match kind {
        Kind::Rely => RELY_TYPED,
        Kind::Frame => FRAME_TYPED,
        Kind::Legal | Kind::Kept => STEP_TYPED,
        _ => NONE,
    }
}
