//! What stands around statements.

ghost use Rattle.std.specs.Prelude.{◌≡◌, [], OnOk};
ghost use Rattle.c_syntax.specs.Views as view;
ghost use Rattle.typing_symbols.specs.Scopes.{known};
ghost use Rattle.typing_expressions.specs.Views.{context as seen, quantified};
ghost use Rattle.typing_statements.specs.Views.{fixed, within, as_ghost as ghostly, in_atomic_block, in_unwrapping_block, behind_ghost, following};

use c_syntax::expressions::{Identifier, ValueType};
use c_syntax::ghosts::GhostStmt;
use c_syntax::statements::Stmt;
use std::alloc::AllocError;
use typing_expressions::context::{Context, InProperty, Quantified, Scope, Text};
use typing_symbols::declarations::Declarations;
use typing_symbols::variables::{Variable, Variables};

/// What stands around a statement, but for the variables that are known.
#[derive(Clone, Copy)]
pub struct Surroundings<'s, 'a> {
    pub declarations: &'s Declarations<'a>,
    /// the type of the function's value
    pub value: Option<&'a ValueType>,
    pub text: Text,
    pub in_atomic: bool,
    pub in_unwrapping: bool,
}

impl<'s, 'a> Surroundings<'s, 'a> {
    /// With these variables, and none of a quantifier.
    pub fn context<'v>(
        self,
        variables: &'v Variables<'a>,
        none: &'v Quantified<'v, 'a>,
    ) -> Context<'v, 'a>
    where
        's: 'v,
        requires { quantified none.now ≡ [] }
        ensures { seen result ≡ within (fixed self.entry) (known variables.now) }
    {
        Context {
            scope: Scope {
                declarations: self.declarations,
                variables,
                quantified: none,
                this: None,
                result_type: None,
            },
            value: self.value,
            text: self.text,
            property: InProperty::Outside,
            in_old: false,
            in_atomic: self.in_atomic,
            in_unwrapping: self.in_unwrapping,
        }
    }

    /// In ghost code.
    pub fn as_ghost(mut self) -> Surroundings<'s, 'a>
        ensures { fixed result ≡ ghostly (fixed self.entry) }
    {
        self.text = Text::GhostCode;
        self
    }

    /// In an atomic block.
    pub fn inside_atomic(mut self) -> Surroundings<'s, 'a>
        ensures { fixed result ≡ in_atomic_block (fixed self.entry) }
    {
        self.in_atomic = true;
        self
    }

    /// In an unwrapping block.
    pub fn inside_unwrapping(mut self) -> Surroundings<'s, 'a>
        ensures { fixed result ≡ in_unwrapping_block (fixed self.entry) }
    {
        self.in_unwrapping = true;
        self
    }
}

/// Makes what a ghost statement declares known behind it.
pub fn know_ghost<'a>(variables: &mut Variables<'a>, x: &'a GhostStmt) -> Result<(), AllocError>
    ensures { OnOk result (known variables.new ≡ behind_ghost (view.ghost x.now) (known variables.old)) }
{
    match x {
        GhostStmt::Declare(_, ty, name, _) => variables.push(Variable {
            name,
            ty,
            is_ghost: true,
        }),
        _ => Ok(()),
    }
}

/// Makes what a statement declares known behind it.
pub fn know<'a>(variables: &mut Variables<'a>, x: &'a Stmt) -> Result<(), AllocError>
    ensures { OnOk result (known variables.new ≡ following (view.stm x.now) (known variables.old)) }
{
    match x {
        Stmt::Declare(_, ty, name, _) => variables.push(Variable {
            name,
            ty,
            is_ghost: false,
        }),
        Stmt::Ghost(_, inner) => know_ghost(variables, inner),
        _ => Ok(()),
    }
}
