//! What the texts of a function say, in their order: annotations, and claims that are made.

ghost use Rattle.std.specs.Prelude.{◌≡◌, ◌++◌, Some, map, OnOk};
ghost use Rattle.std.specs.Option.{option_map};
ghost use Rattle.c_syntax.specs.Grammar.{ghosts_of, stms_of};
ghost use Rattle.c_syntax.specs.Views as view;
ghost use Rattle.elab_code.specs.Names.{texts};
ghost use Rattle.typing_symbols.specs.Scopes.{known};
ghost use Rattle.typed_program.specs.Sites as spec;
ghost use Rattle.typing_statements.specs.Views.{fixed};
ghost use Rattle.elab_sites.specs.Bodies.{tells, ghost_tells};
ghost use Rattle.elab_sites.specs.Settings.{within};
ghost use Rattle.elab_sites.specs.Views.{occurrence as told_seen, at};

use crate::bodies::{body, else_body, ghost_body, ghost_else_body};
use crate::growth::append;
use crate::settings::Setting;
use crate::sites::{Occurrence, make_site};
use c_syntax::expressions::Expr;
use c_syntax::ghosts::{GhostRight, GhostStmt};
use c_syntax::statements::{Invariant, Stmt};
use elab_annotations::annotations::annotation;
use elab_code::places::Places;
use std::alloc::{AllocError, Global};
use std::slice::from_ref;
use typing_expressions::context::Quantified;
use typing_statements::scopes::{Surroundings, know, know_ghost};
use typing_symbols::variables::Variables;

/// Adds what an annotation says.
fn says<'s, 'a>(
    alloc: Global,
    setting: &Setting<'s, 'a>,
    variables: &Variables<'a>,
    x: &'a Expr,
    so_far: &mut Vec<Occurrence>,
) -> Result<(), AllocError>
    ensures { OnOk result (map told_seen so_far.new.items ≡ map told_seen so_far.old.items ++
        spec.says (within setting.now (known variables.now)) (view.exp x.now)) }
{
    let none = Quantified::Nothing;
    let around = setting.around(variables, &none);
    let typed = annotation(alloc, around, 0, x)?;
    append(so_far, Occurrence::Says(typed.spec))?;
    Ok(())
}

/// Adds what a loop's invariants say.
fn invariants_say<'s, 'a>(
    alloc: Global,
    setting: &Setting<'s, 'a>,
    variables: &Variables<'a>,
    all: &'a [Invariant],
    so_far: &mut Vec<Occurrence>,
) -> Result<(), AllocError>
    ensures { OnOk result (map told_seen so_far.new.items ≡ map told_seen so_far.old.items ++
        spec.invariants_say (within setting.now (known variables.now)) (map view.invariant all.now)) }
{
    for x in all {
        says(alloc, setting, variables, &x.property, so_far)?;
    }
    Ok(())
}

/// Adds the claim that a right side makes, if it makes one.
fn makes<'s, 'a>(
    alloc: Global,
    setting: &Setting<'s, 'a>,
    variables: &Variables<'a>,
    line: u32,
    value: &'a GhostRight,
    so_far: &mut Vec<Occurrence>,
) -> Result<(), AllocError>
    ensures { OnOk result (map told_seen so_far.new.items ≡ map told_seen so_far.old.items ++
        spec.made (within setting.now (known variables.now)) setting.now.function
        line (Some (view.ghost_rhs value.now))) }
{
    match value {
        GhostRight::Value(_) => Ok(()),
        GhostRight::MakeClaim(_, objects, property) => {
            let none = Quantified::Nothing;
            let around = setting.around(variables, &none);
            let made = make_site(alloc, around, setting.function, line, objects, property)?;
            append(so_far, Occurrence::Makes(made))?;
            Ok(())
        }
    }
}

/// The same of a declaration's right side, if it has one.
fn may_make<'s, 'a>(
    alloc: Global,
    setting: &Setting<'s, 'a>,
    variables: &Variables<'a>,
    line: u32,
    first: &'a Option<GhostRight>,
    so_far: &mut Vec<Occurrence>,
) -> Result<(), AllocError>
    ensures { OnOk result (map told_seen so_far.new.items ≡ map told_seen so_far.old.items ++
        spec.made (within setting.now (known variables.now)) setting.now.function
        line (option_map view.ghost_rhs first.now)) }
{
    match first {
        Some(value) => makes(alloc, setting, variables, line, value, so_far),
        None => Ok(()),
    }
}

/// Adds what a ghost statement tells, without those that stand in it.
fn ghost_statement<'s, 'a>(
    alloc: Global,
    setting: &Setting<'s, 'a>,
    variables: &Variables<'a>,
    x: &'a GhostStmt,
    so_far: &mut Vec<Occurrence>,
) -> Result<(), AllocError>
    ensures { OnOk result (map told_seen so_far.new.items ≡ map told_seen so_far.old.items ++
        ghost_tells (within setting.now (known variables.now)) setting.now.function (view.ghost x.now)) }
{
    match x {
        GhostStmt::Declare(span, _, _, first) => {
            may_make(alloc, setting, variables, span.line, first, so_far)
        }
        GhostStmt::Assign(span, _, _, value) => {
            makes(alloc, setting, variables, span.line, value, so_far)
        }
        _ => Ok(()),
    }
}

/// Adds what ghost statements tell, each of which knows what those before it declare.
/// Where memory is wanted the caller gives up.
#[cycle(ghosts)]
fn ghost_statements<'s, 'a>(
    alloc: Global,
    setting: &Setting<'s, 'a>,
    variables: &mut Variables<'a>,
    all: &'a [GhostStmt],
    so_far: &mut Vec<Occurrence>,
) -> Result<(), AllocError>
    ensures occurrence { OnOk result (map told_seen so_far.new.items ≡ map told_seen so_far.old.items ++
        spec.ghosts_occurrences (within setting.now (known variables.old)) setting.now.function
        (ghosts_of (map view.ghost all.now))) }
    ensures kept { OnOk result (known variables.new ≡ known variables.old) }
{
    let count = variables.count();
    for x in all {
        ghost_statement(alloc, setting, variables, x, so_far)?;
        ghost_statements(alloc, setting, variables, ghost_body(x), so_far)?;
        ghost_statements(alloc, setting, variables, ghost_else_body(x), so_far)?;
        know_ghost(variables, x)?;
    }
    variables.keep(count);
    Ok(())
}

/// Adds what a statement tells, without those that stand in it.
fn statement<'s, 'a>(
    alloc: Global,
    setting: &Setting<'s, 'a>,
    variables: &mut Variables<'a>,
    x: &'a Stmt,
    so_far: &mut Vec<Occurrence>,
) -> Result<(), AllocError>
    ensures occurrence { OnOk result (map told_seen so_far.new.items ≡ map told_seen so_far.old.items ++
        tells (within setting.now (known variables.old)) setting.now.function (view.stm x.now)) }
    ensures kept { OnOk result (known variables.new ≡ known variables.old) }
{
    match x {
        Stmt::While(_, _, all, _) | Stmt::Do(_, all, _, _, _) | Stmt::For(_, _, _, _, all, _) => {
            invariants_say(alloc, setting, variables, all, so_far)
        }
        Stmt::Assert(_, property) => says(alloc, setting, variables, property, so_far),
        Stmt::Ghost(_, inner) => {
            ghost_statements(alloc, setting, variables, from_ref(inner), so_far)
        }
        _ => Ok(()),
    }
}

/// Adds what statements tell, each of which knows what those before it declare.
/// Where memory is wanted the caller gives up.
#[cycle(statements)]
fn statements<'s, 'a>(
    alloc: Global,
    setting: &Setting<'s, 'a>,
    variables: &mut Variables<'a>,
    all: &'a [Stmt],
    so_far: &mut Vec<Occurrence>,
) -> Result<(), AllocError>
    ensures occurrence { OnOk result (map told_seen so_far.new.items ≡ map told_seen so_far.old.items ++
        spec.all_occurrences (within setting.now (known variables.old)) setting.now.function
        (stms_of (map view.stm all.now))) }
    ensures kept { OnOk result (known variables.new ≡ known variables.old) }
{
    let count = variables.count();
    for x in all {
        statement(alloc, setting, variables, x, so_far)?;
        statements(alloc, setting, variables, body(x), so_far)?;
        statements(alloc, setting, variables, else_body(x), so_far)?;
        know(variables, x)?;
    }
    variables.keep(count);
    Ok(())
}

/// Adds what statements tell, each of which knows what those before it declare.
pub fn all_occurrences<'s, 'a>(
    alloc: Global,
    around: Surroundings<'s, 'a>,
    places: &'s Places<'a>,
    variables: &mut Variables<'a>,
    function: u32,
    all: &'a [Stmt],
    so_far: &mut Vec<Occurrence>,
) -> Result<(), AllocError>
    ensures occurrence { OnOk result (map told_seen so_far.new.items ≡ map told_seen so_far.old.items ++ spec.all_occurrences (at (fixed around.entry) (known variables.old) (texts places.now.names.items)) function (stms_of (map view.stm all.now))) }
    ensures kept { OnOk result (known variables.new ≡ known variables.old) }
{
    let setting = Setting {
        surroundings: around,
        places,
        function,
    };
    statements(alloc, &setting, variables, all, so_far)
}
