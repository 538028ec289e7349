//! What the rows of the axioms are made of.

use terms::sort::Sort;
use terms::term::Kind;

/// A step on the way from the numbers of an instance to its formula. Terms and formulas lie in one row: first the
/// terms that were taken, then formulas, each made of the last ones before it.
#[derive(Clone, Copy)]
pub enum Step {
    /// a term of the sort, by the next number
    Take(Sort),
    /// a term, by the next number
    TakeAny,
    /// a list of references: how many, and their numbers
    TakeWrites,
    /// the next number is a type's
    TakeType,
    /// a column, by the next number, with terms for its further keys
    TakeColumn,
    /// a heap with an object opened or closed, the heap before, the object, the owner of its members, and its mode
    TakeChange,
    /// the declared type of the column's field
    TakeFieldType,
    /// a quantified formula, by the next number, with terms for its holes as keys
    TakeQuantified,
    /// the invariant of the type's objects
    TakeInvariant,
    /// the conjunct of the column's shape
    TakeConjunct,
    /// what was taken passes the test
    Check(Test),
    /// the term that stands at this place
    Term(usize),
    /// a node with this kind and index, of so many of the last formulas, and of those behind them
    Build(Kind, Index, usize, Behind),
    /// the last formula, and that the one before it is none of the writes list
    NotWritten,
    /// the last formula is a value of the declared type
    InRange,
    /// the annotation's formula, with so many of the last formulas for its constants, and the keys behind them
    Fill(usize),
    /// the same, with the formulas behind the keys
    FillBehind(usize),
}

/// A test of what was taken.
#[derive(Clone, Copy)]
pub enum Test {
    /// the first term is a clean heap
    CleanHeap,
    /// the first term reads a set or a shape of a clean heap
    CleanRead,
    /// the type is one of objects that can't be claimed
    Unclaimable,
    /// the type is one whose owned sets are fixed while its objects are closed
    HasFixedSet,
    /// the type is that of a struct's objects
    IsStruct,
    /// a closed object of the type keeps the column
    IsFixed,
    /// the column is an approved field of the type
    IsApproved,
    /// the column is neither mode nor owner
    IsContent,
    /// the column isn't that of owned sets
    IsNotOwned,
}

/// The index of a node.
#[derive(Clone, Copy)]
pub enum Index {
    Fixed(i128),
    /// that of the type which was taken
    OfType,
    /// that of the column which was taken
    OfNumber,
}

/// The last arguments of a node.
#[derive(Clone, Copy)]
pub enum Behind {
    Nothing,
    /// the further keys of the column
    Keys,
    /// the references of the writes list
    Writes,
}

/// A column of a program's heaps. A field and a shape have their numbers in the program's tables.
#[derive(Clone, Copy)]
pub enum Column {
    Modes,
    Owners,
    Counts,
    OwnedSets,
    ClaimedSets,
    Field(usize),
    Shape(usize),
}
