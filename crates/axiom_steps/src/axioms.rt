//! The rows of the axioms.

ghost use Rattle.std.specs.Prelude.{◌≡◌, map};
ghost use Rattle.axiom_instances.specs.Axioms.{item_at};
ghost use Rattle.axiom_steps.specs.Rows.{IsPart};
ghost use Rattle.axiom_steps.specs.Steps.{IsRow, natural};

use crate::steps::Behind::{Keys, Nothing, Writes};
use crate::steps::Index::{Fixed, OfNumber, OfType};
use crate::steps::Step;
use crate::steps::Step::{
    Build, Check, Fill, FillBehind, InRange, NotWritten, Take, TakeAny, TakeChange, TakeColumn,
    TakeConjunct, TakeFieldType, TakeInvariant, TakeQuantified, TakeType, TakeWrites, Term,
};
use crate::steps::Test::{
    CleanHeap, CleanRead, HasFixedSet, IsApproved, IsContent, IsFixed, IsNotOwned, IsStruct,
    Unclaimable,
};
use terms::sort::Sort;
use terms::term::Kind;

const ZERO: Step = Build(Kind::Int, Fixed(0), 0, Nothing);

const ONE: Step = Build(Kind::Int, Fixed(1), 0, Nothing);

const TWO: Step = Build(Kind::Int, Fixed(2), 0, Nothing);

const THREE: Step = Build(Kind::Int, Fixed(3), 0, Nothing);

const MINUS_ONE: Step = Build(Kind::Int, Fixed(-1), 0, Nothing);

const TYPE: Step = Build(Kind::Int, OfType, 0, Nothing);

const NULL: Step = Build(Kind::Null, Fixed(0), 0, Nothing);

const ME: Step = Build(Kind::Me, Fixed(0), 0, Nothing);

const TYP: Step = Build(Kind::Typ, Fixed(0), 1, Nothing);

const NOT: Step = Build(Kind::Not, Fixed(0), 1, Nothing);

const AND: Step = Build(Kind::And, Fixed(0), 2, Nothing);

const OR: Step = Build(Kind::Or, Fixed(0), 2, Nothing);

const IMP: Step = Build(Kind::Imp, Fixed(0), 2, Nothing);

const EQ: Step = Build(Kind::Eq, Fixed(0), 2, Nothing);

const LE: Step = Build(Kind::Le, Fixed(0), 2, Nothing);

const ADD: Step = Build(Kind::Add, Fixed(0), 2, Nothing);

const SUB: Step = Build(Kind::Sub, Fixed(0), 2, Nothing);

const MUL: Step = Build(Kind::Mul, Fixed(0), 2, Nothing);

const DIV: Step = Build(Kind::Div, Fixed(0), 2, Nothing);

const MOD: Step = Build(Kind::Mod, Fixed(0), 2, Nothing);

const GOOD: Step = Build(Kind::Good, Fixed(0), 1, Nothing);

const SYS: Step = Build(Kind::Sys, Fixed(0), 1, Nothing);

const INV: Step = Build(Kind::Inv, Fixed(0), 3, Nothing);

const LEGAL: Step = Build(Kind::Legal, Fixed(0), 2, Nothing);

const KEPT: Step = Build(Kind::Kept, Fixed(0), 2, Nothing);

const TOUCHED: Step = Build(Kind::Touched, Fixed(0), 3, Nothing);

const RELY: Step = Build(Kind::Rely, Fixed(0), 3, Nothing);

const STAB_ALONE: Step = Build(Kind::Stab, Fixed(0), 4, Nothing);

const IDLE: Step = Build(Kind::Idle, Fixed(0), 2, Nothing);

const CLEAR: Step = Build(Kind::Clear, Fixed(0), 2, Nothing);

const FRAME: Step = Build(Kind::Frame, Fixed(0), 4, Writes);

const STAB: Step = Build(Kind::Stab, Fixed(0), 4, Writes);

const MODE: Step = Build(Kind::Get, Fixed(0), 2, Nothing);

const OWNER: Step = Build(Kind::Get, Fixed(1), 2, Nothing);

const COUNT: Step = Build(Kind::Get, Fixed(2), 2, Nothing);

const OWNS: Step = Build(Kind::Get, Fixed(3), 3, Nothing);

const LISTS: Step = Build(Kind::Get, Fixed(4), 3, Nothing);

const READ: Step = Build(Kind::Get, OfNumber, 2, Keys);

const ALL: Step = Build(Kind::All, OfNumber, 0, Keys);

const CEX: Step = Build(Kind::Cex, OfNumber, 0, Keys);

const A: Step = Term(0);

const B: Step = Term(1);

const C: Step = Term(2);

const D: Step = Term(3);

const E: Step = Term(4);

const F: Step = Term(5);

const HEAP: Step = Take(Sort::Heap);

const REF: Step = Take(Sort::Ref);

const INT: Step = Take(Sort::Int);

const WRITES: Step = TakeWrites;

const TAKE_TYPE: Step = TakeType;

const COLUMN: Step = TakeColumn;

const ANY: Step = TakeAny;

const CHANGE: Step = TakeChange;

const FIELD_TYPE: Step = TakeFieldType;

const QUANTIFIED: Step = TakeQuantified;

const INVARIANT: Step = TakeInvariant;

const CONJUNCT: Step = TakeConjunct;

const FILLED: Step = Fill(1);

const FILLED_OF_STEP: Step = Fill(3);

const FILLED_BEHIND: Step = FillBehind(1);

const UNWRITTEN: Step = NotWritten;

const IN_RANGE: Step = InRange;

const CLEAN: Step = Check(CleanHeap);

const CLEAN_READ: Step = Check(CleanRead);

const UNCLAIMED: Step = Check(Unclaimable);

const FIXED_SET: Step = Check(HasFixedSet);

const STRUCT: Step = Check(IsStruct);

const FIXED: Step = Check(IsFixed);

const APPROVED: Step = Check(IsApproved);

const CONTENT: Step = Check(IsContent);

const NOT_OWNED: Step = Check(IsNotOwned);

/// The axioms by their numbers, each with its parts by theirs, from 1 on. A row first takes what its formula is made
/// of; A to F are the terms that were taken, and each other step works on the formulas before it.
const AXIOMS: &[&[&[Step]]] = &[
    &[
        // a quantified formula gives its body for each reference
        &[QUANTIFIED, REF, ALL, A, FILLED_BEHIND, IMP],
    ],
    &[
        // it holds where its body holds of the least reference at which it could fail
        &[QUANTIFIED, CEX, FILLED_BEHIND, ALL, IMP],
    ],
    &[
        // NULL has type 0
        &[NULL, TYP, ZERO, EQ],
        // nothing else has
        &[REF, A, TYP, ZERO, EQ, A, NULL, EQ, IMP],
        // the running thread has type 1
        &[ME, TYP, ONE, EQ],
        // types are numbers from 0
        &[REF, ZERO, A, TYP, LE],
    ],
    &[
        // modes are 0 to 3
        &[
            HEAP, REF, CLEAN, ZERO, A, B, MODE, LE, A, B, MODE, THREE, LE, AND,
        ],
        // a member is in a set or not, a conjunct is one of a claim's or not
        &[ANY, CLEAN_READ, A, ZERO, EQ, A, ONE, EQ, OR],
    ],
    &[
        // a good heap is well-formed
        &[HEAP, A, GOOD, A, SYS, IMP],
    ],
    &[
        // claim counts aren't negative
        &[HEAP, REF, A, SYS, ZERO, A, B, COUNT, LE, IMP],
        // NULL is absent
        &[HEAP, A, SYS, A, NULL, MODE, ZERO, EQ, IMP],
        // threads are absent: they are no objects
        &[
            HEAP, REF, A, SYS, B, TYP, ONE, EQ, AND, A, B, MODE, ZERO, EQ, IMP,
        ],
    ],
    &[
        // an open object is owned by a thread and isn't claimed
        &[
            HEAP, REF, A, SYS, A, B, MODE, ONE, EQ, AND, A, B, OWNER, TYP, ONE, EQ, A, B, COUNT,
            ZERO, EQ, AND, IMP,
        ],
        // what is absent or freed has no owner and isn't claimed
        &[
            HEAP, REF, A, SYS, A, B, MODE, ZERO, EQ, A, B, MODE, THREE, EQ, OR, AND, A, B, OWNER,
            NULL, EQ, A, B, COUNT, ZERO, EQ, AND, IMP,
        ],
    ],
    &[
        // a closed object is owned by a thread, or is a member of its closed owner
        &[
            HEAP, REF, A, SYS, A, B, MODE, TWO, EQ, AND, A, B, OWNER, TYP, ONE, EQ, A, A, B, OWNER,
            MODE, TWO, EQ, A, A, B, OWNER, B, OWNS, ONE, EQ, AND, OR, IMP,
        ],
    ],
    &[
        // the members of a closed object are closed, and owned by it
        &[
            HEAP, REF, REF, A, SYS, A, B, MODE, TWO, EQ, A, B, C, OWNS, ONE, EQ, AND, AND, A, C,
            MODE, TWO, EQ, A, C, OWNER, B, EQ, AND, IMP,
        ],
    ],
    &[
        // what a closed claim claims is closed and counts it; only claims claim
        &[
            HEAP, REF, REF, A, SYS, A, B, MODE, TWO, EQ, A, B, C, LISTS, ONE, EQ, AND, AND, B, TYP,
            TWO, EQ, A, C, MODE, TWO, EQ, ONE, A, C, COUNT, LE, AND, AND, IMP,
        ],
    ],
    &[
        // an object of a type that isn't claimable isn't claimed
        &[
            HEAP, REF, TAKE_TYPE, UNCLAIMED, A, SYS, B, TYP, TYPE, EQ, AND, A, B, COUNT, ZERO, EQ,
            IMP,
        ],
    ],
    &[
        // fields are values of their types
        &[
            HEAP, REF, COLUMN, FIELD_TYPE, A, SYS, A, B, READ, IN_RANGE, IMP,
        ],
    ],
    &[
        // in a good heap the invariant of a closed object holds
        &[
            HEAP, REF, A, GOOD, A, B, MODE, TWO, EQ, AND, B, A, A, INV, IMP,
        ],
    ],
    &[
        // the invariant of a struct's object gives what the annotation says
        &[
            HEAP,
            HEAP,
            REF,
            TAKE_TYPE,
            STRUCT,
            INVARIANT,
            C,
            TYP,
            TYPE,
            EQ,
            C,
            A,
            B,
            INV,
            C,
            A,
            B,
            FILLED_OF_STEP,
            IMP,
            IMP,
        ],
        // and follows from it
        &[
            HEAP,
            HEAP,
            REF,
            TAKE_TYPE,
            STRUCT,
            INVARIANT,
            C,
            TYP,
            TYPE,
            EQ,
            C,
            A,
            B,
            FILLED_OF_STEP,
            C,
            A,
            B,
            INV,
            IMP,
            IMP,
        ],
    ],
    &[
        // in a good heap the conjuncts of a closed claim hold
        &[
            HEAP, REF, COLUMN, CONJUNCT, A, GOOD, A, B, MODE, TWO, EQ, A, B, READ, ONE, EQ, AND,
            AND, A, FILLED, IMP,
        ],
    ],
    &[&[REF, HEAP, HEAP, A, B, C, RELY, B, GOOD, C, GOOD, AND, IMP]],
    &[
        // a thread's open object stays as it is
        &[
            REF, HEAP, HEAP, REF, COLUMN, A, B, C, RELY, B, D, MODE, ONE, EQ, B, D, OWNER, A, EQ,
            AND, AND, C, D, MODE, ONE, EQ, C, D, OWNER, A, EQ, C, D, READ, B, D, READ, EQ, AND,
            AND, IMP,
        ],
    ],
    &[
        // a thread's closed object stays closed and its own, and keeps its count
        &[
            REF, HEAP, HEAP, REF, A, B, C, RELY, B, D, MODE, TWO, EQ, B, D, OWNER, A, EQ, AND, AND,
            C, D, MODE, TWO, EQ, C, D, OWNER, A, EQ, C, D, COUNT, B, D, COUNT, EQ, AND, AND, IMP,
        ],
    ],
    &[
        // a member of the stable set stays one and keeps what is fixed
        &[
            REF, HEAP, HEAP, REF, TAKE_TYPE, COLUMN, FIXED, A, B, C, RELY, A, B, D, B, STAB_ALONE,
            D, TYP, TYPE, EQ, AND, AND, A, C, D, C, STAB_ALONE, C, D, READ, B, D, READ, EQ, AND,
            IMP,
        ],
    ],
    &[
        // what wasn't a thread's doesn't become its own
        &[
            REF, HEAP, HEAP, REF, A, B, C, RELY, C, D, OWNER, A, EQ, AND, B, D, OWNER, A, EQ, IMP,
        ],
    ],
    &[
        // the later heap of a frame is good
        &[
            REF, HEAP, HEAP, HEAP, WRITES, A, B, C, D, FRAME, C, GOOD, IMP,
        ],
        // an open object that the function may not write stays as it is
        &[
            REF, HEAP, HEAP, HEAP, WRITES, REF, COLUMN, A, B, C, D, FRAME, B, E, OWNER, A, EQ, E,
            D, E, OWNER, A, EQ, UNWRITTEN, AND, AND, B, E, MODE, ONE, EQ, AND, C, E, MODE, ONE, EQ,
            C, E, OWNER, A, EQ, C, E, READ, B, E, READ, EQ, AND, AND, IMP,
        ],
        // a closed one stays closed and its own, and keeps its count
        &[
            REF, HEAP, HEAP, HEAP, WRITES, REF, A, B, C, D, FRAME, B, E, OWNER, A, EQ, E, D, E,
            OWNER, A, EQ, UNWRITTEN, AND, AND, B, E, MODE, TWO, EQ, AND, C, E, MODE, TWO, EQ, C, E,
            OWNER, A, EQ, C, E, COUNT, B, E, COUNT, EQ, AND, AND, IMP,
        ],
        // a member of the stable set stays one and keeps what is fixed
        &[
            REF, HEAP, HEAP, HEAP, WRITES, REF, TAKE_TYPE, COLUMN, FIXED, A, B, C, D, FRAME, A, B,
            E, D, STAB, E, TYP, TYPE, EQ, AND, AND, A, C, E, D, STAB, C, E, READ, B, E, READ, EQ,
            AND, IMP,
        ],
    ],
    &[
        // a closed object that the function may not write is in the stable set
        &[
            REF, HEAP, REF, HEAP, WRITES, B, C, MODE, TWO, EQ, B, C, OWNER, A, EQ, C, D, C, OWNER,
            A, EQ, UNWRITTEN, AND, AND, A, B, C, D, STAB, IMP,
        ],
        // so is what a member claims
        &[
            HEAP, REF, REF, HEAP, WRITES, REF, A, GOOD, B, A, C, D, STAB, A, C, E, LISTS, ONE, EQ,
            AND, AND, B, A, E, D, STAB, IMP,
        ],
        // so is what a member owns, if its type isn't volatile_owns
        &[
            HEAP, REF, REF, HEAP, WRITES, REF, TAKE_TYPE, FIXED_SET, A, GOOD, B, A, C, D, STAB, C,
            TYP, TYPE, EQ, A, C, E, OWNS, ONE, EQ, AND, AND, AND, B, A, E, D, STAB, IMP,
        ],
        // members of the stable set are closed
        &[
            HEAP, REF, REF, HEAP, WRITES, A, GOOD, B, A, C, D, STAB, AND, A, C, MODE, TWO, EQ, IMP,
        ],
        // an idle thread owns nothing
        &[REF, HEAP, REF, A, B, IDLE, B, C, OWNER, A, EQ, NOT, IMP],
    ],
    &[
        // a legal step leaves a well-formed heap
        &[HEAP, HEAP, A, B, LEGAL, B, SYS, IMP],
        // so does a kept step
        &[HEAP, HEAP, A, B, KEPT, B, SYS, IMP],
        // over a legal step the invariant holds of each touched object that is closed before or after
        &[
            HEAP, HEAP, REF, A, B, LEGAL, C, A, B, TOUCHED, A, C, MODE, TWO, EQ, B, C, MODE, TWO,
            EQ, OR, AND, AND, C, A, B, INV, IMP,
        ],
        // over a kept step it holds of each object that is closed before or after
        &[
            HEAP, HEAP, REF, A, B, KEPT, A, C, MODE, TWO, EQ, B, C, MODE, TWO, EQ, OR, AND, C, A,
            B, INV, IMP,
        ],
        // what isn't touched keeps its content
        &[
            REF, HEAP, HEAP, COLUMN, CONTENT, A, B, C, TOUCHED, NOT, C, A, READ, B, A, READ, EQ,
            IMP,
        ],
        // what it owns keeps its count
        &[
            REF, HEAP, HEAP, REF, A, B, C, TOUCHED, NOT, B, D, OWNER, A, EQ, C, D, OWNER, A, EQ,
            OR, AND, C, D, COUNT, B, D, COUNT, EQ, IMP,
        ],
        // what is closed before and after a step keeps what is fixed
        &[
            HEAP, HEAP, REF, TAKE_TYPE, COLUMN, FIXED, A, B, LEGAL, A, B, KEPT, OR, A, C, MODE,
            TWO, EQ, B, C, MODE, TWO, EQ, C, TYP, TYPE, EQ, AND, AND, AND, B, C, READ, A, C, READ,
            EQ, IMP,
        ],
    ],
    &[
        // the object has its new mode
        &[CHANGE, A, C, MODE, E, EQ],
        // every other object has its mode
        &[CHANGE, REF, F, C, EQ, A, F, MODE, B, F, MODE, EQ, OR],
        // the members have the new owner
        &[CHANGE, REF, B, C, F, OWNS, ONE, EQ, A, F, OWNER, D, EQ, IMP],
        // all else has its owner
        &[
            CHANGE, REF, B, C, F, OWNS, ZERO, EQ, A, F, OWNER, B, F, OWNER, EQ, IMP,
        ],
        // content is as it was
        &[CHANGE, REF, COLUMN, CONTENT, A, F, READ, B, F, READ, EQ],
        // a cleared set has no members
        &[HEAP, REF, REF, A, B, CLEAR, B, C, OWNS, ZERO, EQ],
        // every other set is as it was
        &[
            REF, REF, HEAP, REF, A, B, EQ, C, B, CLEAR, A, D, OWNS, C, A, D, OWNS, EQ, OR,
        ],
        // every other column is as it was
        &[
            HEAP, REF, REF, COLUMN, NOT_OWNED, A, B, CLEAR, C, READ, A, C, READ, EQ,
        ],
        // quotient times divisor plus remainder is the dividend
        &[
            INT, INT, A, ZERO, EQ, NOT, B, A, B, A, DIV, MUL, B, A, MOD, ADD, EQ, IMP,
        ],
        // the remainder isn't negative where the dividend isn't
        &[
            INT, INT, ZERO, A, LE, B, ZERO, EQ, NOT, AND, ZERO, A, B, MOD, LE, IMP,
        ],
        // it isn't positive where the dividend isn't
        &[
            INT, INT, A, ZERO, LE, B, ZERO, EQ, NOT, AND, A, B, MOD, ZERO, LE, IMP,
        ],
        // it is less than a positive divisor, and more than its negative
        &[
            INT, INT, ONE, A, LE, B, A, MOD, A, ONE, SUB, LE, ONE, A, SUB, B, A, MOD, LE, AND, IMP,
        ],
        // it is less than the negative of a negative divisor, and more than the divisor
        &[
            INT, INT, A, MINUS_ONE, LE, B, A, MOD, MINUS_ONE, A, SUB, LE, A, ONE, ADD, B, A, MOD,
            LE, AND, IMP,
        ],
    ],
    &[
        // over a rely step, an approved field of a thread's closed object stays as it is
        &[
            REF, HEAP, HEAP, REF, TAKE_TYPE, COLUMN, APPROVED, A, B, C, RELY, B, D, MODE, TWO, EQ,
            B, D, OWNER, A, EQ, D, TYP, TYPE, EQ, AND, AND, AND, C, D, READ, B, D, READ, EQ, IMP,
        ],
    ],
    &[
        // within a frame, so does one of a closed object that the function may not write
        &[
            REF, HEAP, HEAP, HEAP, WRITES, REF, TAKE_TYPE, COLUMN, APPROVED, A, B, C, D, FRAME, B,
            E, OWNER, A, EQ, E, D, E, OWNER, A, EQ, UNWRITTEN, AND, AND, B, E, MODE, TWO, EQ, E,
            TYP, TYPE, EQ, AND, AND, C, E, READ, B, E, READ, EQ, IMP,
        ],
    ],
    &[
        // over a step that doesn't touch the owner, so does one of what it owns
        &[
            HEAP, HEAP, REF, REF, TAKE_TYPE, COLUMN, APPROVED, C, A, B, TOUCHED, NOT, D, TYP, TYPE,
            EQ, A, D, OWNER, C, EQ, B, D, OWNER, C, EQ, OR, AND, AND, B, D, READ, A, D, READ, EQ,
            IMP,
        ],
    ],
    &[
        // what is absent owns nothing
        &[
            HEAP, REF, REF, A, SYS, A, B, MODE, ZERO, EQ, AND, A, B, C, OWNS, ZERO, EQ, IMP,
        ],
        // and claims nothing
        &[
            HEAP, REF, REF, A, SYS, A, B, MODE, ZERO, EQ, AND, A, B, C, LISTS, ZERO, EQ, IMP,
        ],
    ],
    &[
        // a quotient by 0 is 0
        &[INT, INT, B, ZERO, EQ, A, B, DIV, ZERO, EQ, IMP],
        // a remainder by 0 is the dividend
        &[INT, INT, B, ZERO, EQ, A, B, MOD, A, EQ, IMP],
    ],
];

/// What stands in a list at this number, counted from 1 on.
fn item<T: Copy>(items: &[T], number: i128) -> Option<T>
    ensures { result ≡ item_at items.now (natural number) }
{
    if number < 1 || number > items.len() as i128 {
        return None;
    }
    items.get((number - 1) as usize).copied()
}

/// The steps of the part of the axiom, none where there is no such part.
fn part_at(
    axioms: &'static [&'static [&'static [Step]]],
    number: i128,
    part: i128,
) -> &'static [Step]
    ensures { IsPart (map (λ parts. map (λ steps. steps.now) parts.now) axioms.now) number part result.now }
{
    let Some(parts) = item(axioms, number) else {
        return &[];
    };
    let Some(steps) = item(parts, part) else {
        return &[];
    };
    steps
}

/// The steps of the part of the axiom, none where there is no such part.
pub fn steps_of(number: i128, part: i128) -> &'static [Step]
    ensures { IsRow result.now (natural number) (natural part) }
{
    part_at(AXIOMS, number, part)
}
