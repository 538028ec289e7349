//! Laws of values, as contracts of functions that do nothing.

ghost use Rattle.term_meaning.specs.Promises.{ValuationsExist, ValuationsDecide, ValuationsAgree, FrontsSuffice, TreesHaveValues, ValidityByNumber, ValuesHaveSorts, HeapsAreOne, UntouchedByColumns, RelationsAgree};

/// Each environment has a valuation of each list, up to double negation, so what a test answers may be shown from
/// one; and a term's value is that of the tree that it stands for.
pub fn valuations()
    ensures exist { ValuationsExist }
    ensures decide { ValuationsDecide }
    ensures agree { ValuationsAgree }
    ensures front { FrontsSuffice }
    ensures trees { TreesHaveValues }
    ensures by_number { ValidityByNumber }
    ensures sorted { ValuesHaveSorts }
{}

/// A raw heap says all of a heap of the program.
pub fn raw_heaps()
    ensures one { HeapsAreOne }
    ensures untouched { UntouchedByColumns }
{}

/// What a formula says of heaps is what the method says of them.
pub fn relations()
    ensures { RelationsAgree }
{}
