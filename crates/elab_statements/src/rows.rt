//! Statements in a row.

ghost use Rattle.std.specs.Prelude.{◌≡◌, IfOk, option_map};
ghost use Rattle.elab_assignments.specs.Views.{before};
ghost use Rattle.typed_program.specs.Views as view;
ghost use Rattle.elab_statements.specs.Forms.{done as acted, done_inner as changed};
ghost use Rattle.elab_statements.specs.Rows.{row, inner, nothing as none, single as one, appended, no_inner, single_inner, appended_inner};

use elab_assignments::counters::Counters;
use method::program::{Action, Inner, Simple, Stmt};
use std::alloc::{AllocError, Global};

/// Statements as they are typed, and what stands before the next one.
#[derive(Drop)]
pub struct Row {
    pub statements: Vec<Stmt>,
    pub next: Counters,
}

/// The same within an atomic block.
#[derive(Drop)]
pub struct InnerRow {
    pub statements: Vec<Inner>,
    pub next: Counters,
}

impl Row {
    /// No statement.
    pub fn nothing(alloc: Global, next: Counters) -> Row
        ensures { row result ≡ none (before next) }
    {
        Row {
            statements: Vec::new(alloc),
            next,
        }
    }

    /// One statement.
    pub fn single(alloc: Global, next: Counters, statement: Stmt) -> Result<Row, AllocError>
        ensures { IfOk result (λ r. row r ≡ one (before next) (view.stmt statement)) }
    {
        let mut statements = Vec::new(alloc);
        statements.push(statement)?;
        Ok(Row { statements, next })
    }

    /// An action, if there is one.
    pub fn done(
        alloc: Global,
        next: Counters,
        line: u32,
        action: Option<Action>,
    ) -> Result<Row, AllocError>
        ensures { IfOk result (λ r. row r ≡ acted (before next) line (option_map view.action action)) }
    {
        match action {
            Some(action) => Row::single(alloc, next, Stmt::Do(line, action)),
            None => Ok(Row::nothing(alloc, next)),
        }
    }

    /// With a statement behind it, behind which so much stands.
    #[tactic(auto, using(crate::proofs::Vectors::stmts_append))]
    pub fn followed_by(self, next: Counters, statement: Stmt) -> Result<Row, AllocError>
        ensures { IfOk result (λ r. row r ≡ appended (row self) (one (before next) (view.stmt statement))) }
    {
        let mut statements = self.statements;
        statements.push(statement)?;
        Ok(Row { statements, next })
    }

    /// With those of a row behind it.
    #[tactic(auto, using(crate::proofs::Vectors::stmts_append))]
    pub fn then(self, more: Row) -> Result<Row, AllocError>
        ensures { IfOk result (λ r. row r ≡ appended (row self) (row more)) }
    {
        let mut statements = self.statements;
        let next = more.next;
        let mut rest = more.statements;
        statements.append(&mut rest)?;
        Ok(Row { statements, next })
    }
}

impl InnerRow {
    /// No statement.
    pub fn nothing(alloc: Global, next: Counters) -> InnerRow
        ensures { inner result ≡ no_inner (before next) }
    {
        InnerRow {
            statements: Vec::new(alloc),
            next,
        }
    }

    /// One statement.
    pub fn single(alloc: Global, next: Counters, statement: Inner) -> Result<InnerRow, AllocError>
        ensures { IfOk result (λ r. inner r ≡ single_inner (before next) (view.inner statement)) }
    {
        let mut statements = Vec::new(alloc);
        statements.push(statement)?;
        Ok(InnerRow { statements, next })
    }

    /// A change, if there is one.
    pub fn done(
        alloc: Global,
        next: Counters,
        line: u32,
        change: Option<Simple>,
    ) -> Result<InnerRow, AllocError>
        ensures { IfOk result (λ r. inner r ≡ changed (before next) line (option_map view.simple change)) }
    {
        match change {
            Some(change) => InnerRow::single(alloc, next, Inner::Inside(line, change)),
            None => Ok(InnerRow::nothing(alloc, next)),
        }
    }

    /// With those of a row behind it.
    #[tactic(auto, using(crate::proofs::Vectors::inner_append))]
    pub fn then(self, more: InnerRow) -> Result<InnerRow, AllocError>
        ensures { IfOk result (λ r. inner r ≡ appended_inner (inner self) (inner more)) }
    {
        let mut statements = self.statements;
        let next = more.next;
        let mut rest = more.statements;
        statements.append(&mut rest)?;
        Ok(InnerRow { statements, next })
    }
}
