//! Whether text ends in a return.

ghost use Rattle.std.specs.Prelude.{◌≡◌};
ghost use Rattle.conditions.specs.Statements as spec;
ghost use Rattle.statement_text.specs.Rows.{one_returns};

use method::program::Stmt;

/// Whether the statement ends in a return, whatever way it goes; of a loop that may be left before its body that isn't
/// said.
#[cycle(statement)]
pub fn returns(statement: &Stmt) -> bool
    ensures { result ≡ spec.returns statement.now }
{
    match statement {
        Stmt::If(_, _, _, first, second) => any_returns(first) && any_returns(second),
        Stmt::DoWhile(_, _, body, _, _) => any_returns(body),
        Stmt::Unwrapping(_, _, _, _, body) => any_returns(body),
        Stmt::Return(_, _) => true,
        Stmt::Do(_, _) | Stmt::While(_, _, _, _) | Stmt::Call(_, _, _, _, _) => false,
    }
}

/// Whether one of the statements ends in a return, whatever way it goes.
#[cycle(statement)]
pub fn any_returns(statements: &[Stmt]) -> bool
    ensures { result ≡ one_returns statements.now }
{
    for statement in statements {
        if returns(statement) {
            return true;
        }
    }
    false
}
