//! Whether text reads or changes the heap.

ghost use Rattle.std.specs.Prelude.{◌≡◌, slice_get};
ghost use Rattle.method.specs.Text as spec;
ghost use Rattle.method.specs.declared.program.Action.TheVariants.{Simply};
ghost use Rattle.method.specs.declared.program.Simple.TheVariants.{Assign};

use method::program::{Action, Clause, Expr, FunctionInfo, RightSide, Simple, Spec, Target};

/// Whether the expression holds a `->`.
pub fn reads(e: &Expr) -> bool
    ensures { result ≡ spec.reads e.now }
{
    match e {
        Expr::Number(_) | Expr::Null | Expr::Variable(_) => false,
        Expr::Field(_, _) => true,
        Expr::Not(a) => reads(a),
        Expr::Negate(a, _) => reads(a),
        Expr::Convert(a, _) => reads(a),
        Expr::Arithmetic(_, a, b, _) => reads(a) || reads(b),
        Expr::Compare(_, a, b) => reads(a) || reads(b),
        Expr::And(a, b) => reads(a) || reads(b),
        Expr::Or(a, b) => reads(a) || reads(b),
        Expr::Choose(a, b, c) => reads(a) || (reads(b) || reads(c)),
    }
}

/// Whether the expression, if there is one, holds a `->`.
pub fn option_reads(e: &Option<Expr>) -> bool
    ensures { result ≡ spec.option_reads e.now }
{
    match e {
        None => false,
        Some(e) => reads(e),
    }
}

/// Whether the annotation holds a `->`, a status, `\in`, a quantifier or a form that speaks of a heap.
pub fn spec_reads(e: &Spec) -> bool
    ensures { result ≡ spec.spec_reads e.now }
{
    match e {
        Spec::Number(_) | Spec::Truth(_) | Spec::Null | Spec::Variable(_) | Spec::Bound(_) => false,
        Spec::This | Spec::Me | Spec::Result => false,
        Spec::Not(a) => spec_reads(a),
        Spec::Negate(a) => spec_reads(a),
        Spec::Old(a) => spec_reads(a),
        Spec::Unchanged(a) => spec_reads(a),
        Spec::Arithmetic(_, a, b) => spec_reads(a) || spec_reads(b),
        Spec::Compare(_, a, b) => spec_reads(a) || spec_reads(b),
        Spec::And(a, b) => spec_reads(a) || spec_reads(b),
        Spec::Or(a, b) => spec_reads(a) || spec_reads(b),
        Spec::Implies(a, b) => spec_reads(a) || spec_reads(b),
        Spec::Iff(a, b) => spec_reads(a) || spec_reads(b),
        Spec::Choose(a, b, c) => spec_reads(a) || (spec_reads(b) || spec_reads(c)),
        Spec::Field(_, _) | Spec::Closed(_) | Spec::Owner(_) | Spec::ClaimCount(_) => true,
        Spec::Member(_, _) | Spec::Wrapped(_) | Spec::Wrapped0(_) | Spec::Mutable(_) => true,
        Spec::Fresh(_) | Spec::ClaimsObject(_, _) | Spec::ClaimsOnly(_, _, _) => true,
        Spec::Claims(_, _) | Spec::Lists(_) | Spec::Has(_) => true,
        Spec::ForAll(_, _, _, _) | Spec::Exists(_, _, _, _) => true,
    }
}

/// Whether one of the annotations does.
pub fn specs_read(es: &[Spec]) -> bool
    ensures { result ≡ spec.specs_read es.now }
{
    for e in es {
        if spec_reads(e) {
            return true;
        }
    }
    false
}

/// Whether one of the clauses does.
pub fn clauses_read(clauses: &[Clause]) -> bool
    ensures { result ≡ spec.clauses_read clauses.now }
{
    for clause in clauses {
        if spec_reads(&clause.spec) {
            return true;
        }
    }
    false
}

/// Whether the right side reads or changes the heap.
pub fn right_reads(right: &RightSide) -> bool
    ensures { result ≡ spec.right_reads right.now }
{
    match right {
        RightSide::Compute(e) => reads(e),
        RightSide::Malloc(_) | RightSide::NewClaim(_) | RightSide::Interlocked(_, _, _, _) => true,
    }
}

/// Whether the statement reads or changes the heap.
fn simple_reads(statement: &Simple) -> bool
    ensures { result ≡ spec.action_reads (Simply statement.now) }
{
    match statement {
        Simple::Assign(target, right) => assignment_reads(target, right),
        Simple::ChangeOwned(_, _, _) | Simple::EndClaim(_, _, _) => true,
    }
}

/// Whether the assignment reads or changes the heap.
fn assignment_reads(target: &Target, right: &RightSide) -> bool
    ensures { result ≡ spec.action_reads (Simply (Assign target.now right.now)) }
{
    match target {
        Target::Local(_) => right_reads(right),
        Target::FieldOf(_, _) => true,
    }
}

/// Whether the action reads or changes the heap.
pub fn action_reads(action: &Action) -> bool
    ensures { result ≡ spec.action_reads action.now }
{
    match action {
        Action::Simply(statement) => simple_reads(statement),
        Action::Declare(_) => false,
        Action::Define(_, right) => right_reads(right),
        Action::AssertSpec(e) => spec_reads(e),
        Action::WrapObject(_, _, _) | Action::UnwrapObject(_) | Action::FreeObject(_) => true,
        Action::SpawnThread(_, _) | Action::Atomic(_, _) => true,
    }
}

/// Whether the right side is an expression.
fn computes(right: &RightSide) -> bool
    ensures { result ≡ spec.computes right.now }
{
    match right {
        RightSide::Compute(_) => true,
        RightSide::Malloc(_) | RightSide::NewClaim(_) | RightSide::Interlocked(_, _, _, _) => false,
    }
}

/// Whether the function has the variable, and it isn't ghost.
fn is_concrete(function: &FunctionInfo, variable: u32) -> bool
    ensures { result ≡ spec.is_concrete (slice_get function.now.variables.items variable) }
{
    match function.variables.get(variable as usize) {
        None => false,
        Some(info) => !info.is_ghost,
    }
}

/// Whether the right side only sets a concrete variable to what it reads.
fn quietly_sets(function: &FunctionInfo, variable: u32, right: &RightSide) -> bool
    ensures { result ≡ spec.quietly_sets function.now variable right.now }
{
    computes(right) && is_concrete(function, variable)
}

/// Whether the assignment is quiet.
fn is_quiet_assignment(function: &FunctionInfo, target: &Target, right: &RightSide) -> bool
    ensures { result ≡ spec.is_quiet function.now (Simply (Assign target.now right.now)) }
{
    match target {
        Target::Local(i) => quietly_sets(function, *i, right),
        Target::FieldOf(_, _) => false,
    }
}

/// Whether the statement is quiet.
fn is_quiet_simple(function: &FunctionInfo, statement: &Simple) -> bool
    ensures { result ≡ spec.is_quiet function.now (Simply statement.now) }
{
    match statement {
        Simple::Assign(target, right) => is_quiet_assignment(function, target, right),
        Simple::ChangeOwned(_, _, _) | Simple::EndClaim(_, _, _) => false,
    }
}

/// Whether the action is a declaration of a concrete variable with its first value, or an assignment to one: other
/// threads change nothing of what it reads.
pub fn is_quiet(function: &FunctionInfo, action: &Action) -> bool
    ensures { result ≡ spec.is_quiet function.now action.now }
{
    match action {
        Action::Simply(statement) => is_quiet_simple(function, statement),
        Action::Define(i, right) => quietly_sets(function, *i, right),
        Action::Declare(_) | Action::AssertSpec(_) => false,
        Action::WrapObject(_, _, _) | Action::UnwrapObject(_) | Action::FreeObject(_) => false,
        Action::SpawnThread(_, _) | Action::Atomic(_, _) => false,
    }
}
