//! What stands around the statements of a function.

ghost use Rattle.std.specs.Prelude.{◌≡◌, []};
ghost use Rattle.elab_code.specs.Views.{around as here};
ghost use Rattle.typing_symbols.specs.Scopes.{known};
ghost use Rattle.typing_expressions.specs.Views.{quantified};
ghost use Rattle.elab_sites.specs.Settings.{within};

use elab_code::around::Around;
use elab_code::places::Places;
use typing_expressions::context::{Context, InProperty, Quantified, Scope};
use typing_statements::scopes::Surroundings;
use typing_symbols::variables::Variables;

/// What stands around a function's statements, but for the variables that are known.
#[derive(Clone, Copy)]
pub struct Setting<'s, 'a> {
    pub surroundings: Surroundings<'s, 'a>,
    pub places: &'s Places<'a>,
    /// the number of the function
    pub function: u32,
}

impl<'s, 'a> Setting<'s, 'a> {
    /// Around a text where these variables are known, and none of a quantifier is.
    pub fn around<'v>(
        &self,
        variables: &'v Variables<'a>,
        none: &'v Quantified<'v, 'a>,
    ) -> Around<'v, 'a>
    where
        's: 'v,
        requires { quantified none.now ≡ [] }
        ensures { here result ≡ within self.now (known variables.now) }
    {
        let fixed = self.surroundings;
        let scope = Scope {
            declarations: fixed.declarations,
            variables,
            quantified: none,
            this: None,
            result_type: None,
        };
        Around {
            context: Context {
                scope,
                value: fixed.value,
                text: fixed.text,
                property: InProperty::Outside,
                in_old: false,
                in_atomic: fixed.in_atomic,
                in_unwrapping: fixed.in_unwrapping,
            },
            places: self.places,
        }
    }
}
