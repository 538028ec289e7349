//! What a claim site may find: any values of the variables that it names, and of its claimed expressions.

ghost use Rattle.std.specs.Prelude.{◌≡◌, IfOk, length};
ghost use Rattle.terms.specs.Formula.{Formula};
ghost use Rattle.method.specs.Tables.{type_of_variable};
ghost use Rattle.conditions.specs.Admissible as admissible;
ghost use Rattle.conditions.specs.Code as spec;
ghost use Rattle.conditions.specs.Formulas as formulas;
ghost use Rattle.conditions.specs.Paths.{Done, Fact};
ghost use Rattle.condition_formulas.specs.Standing.{StandsAs, Later};
ghost use Rattle.condition_code.specs.States.{IsState};
ghost use Rattle.condition_code.specs.Walks.{Ran, Went};
ghost use Rattle.condition_claims.specs.Pieces.{any_local, null_listed, one_listed, other_listed, site_state, variable_listed};

use condition_code::forms::local;
use condition_code::state::{State, new_reference, new_value};
use condition_code::walk::Walk;
use condition_formulas::columns::lists;
use condition_formulas::formulas::{eq, heap, nat, null, reference};
use condition_formulas::symbolic::{Symbolic, term};
use condition_stores::stores::put_local;
use method::program::{ClaimSite, Claimed, DeclaredType, FunctionInfo};
use std::alloc::{AllocError, Global};
use term_graph::graph::Graph;

/// The declared type of a variable of the function.
fn type_of_variable(f: &FunctionInfo, variable: u32) -> DeclaredType
    ensures { result ≡ type_of_variable f.now variable }
{
    match f.variables.get(variable as usize) {
        Some(info) => info.ty,
        None => DeclaredType::Object,
    }
}

/// How many variables the function has.
fn variable_count(f: &FunctionInfo) -> usize
    ensures { result ≡ length f.now.variables.items }
{
    f.variables.len()
}

/// The state before the constants of a claim site are made; those of a step are there.
fn no_constants(alloc: Global, graph: &mut Graph, f: &FunctionInfo) -> Result<State, AllocError>
    ensures stands { IfOk result (λ st. IsState graph.new st (admissible.no_constants f.now)) }
    ensures later { Later graph.old graph.new }
{
    let before = heap(graph, 0)?;
    let zero = nat(graph, 0)?;
    let mut locals = Vec::new(alloc);
    locals.resize(variable_count(f), Symbolic::Number(zero))?;
    Ok(State {
        heap: before,
        locals,
        integers: 0,
        references: 1,
        heaps: 2,
        changed: Vec::new(alloc),
        made: Vec::new(alloc),
    })
}

/// The variable has any value of its type.
fn any_local(walk: &mut Walk, f: &FunctionInfo, i: u32, st: State) -> Result<State, AllocError>
    ensures { (s : spec.State) → IsState walk.old.graph st s →
        IfOk result (λ r. Ran IsState walk.old walk.new r (any_local f.now i s)) }
{
    let ty = type_of_variable(f, i);
    let v = new_value(walk, ty, st)?;
    Ok(put_local(i, v))
}

/// The variables of these numbers have any values of their types.
fn any_locals(
    walk: &mut Walk,
    f: &FunctionInfo,
    variables: &[u32],
    st: State,
) -> Result<State, AllocError>
    ensures { (s : spec.State) → IsState walk.old.graph st s →
        IfOk result (λ r. Ran IsState walk.old walk.new r (admissible.any_locals f.now variables.now s)) }
{
    let mut state = st;
    for i in variables {
        state = any_local(walk, f, *i, state)?;
    }
    Ok(state)
}

/// It is a fact that the claim lists the object.
fn list(walk: &mut Walk, o: u32) -> Result<(), AllocError>
    ensures { (x : Formula) → StandsAs walk.old.graph o x →
        IfOk result (λ u. Went walk.old walk.new (Fact (formulas.lists admissible.earlier admissible.object x) Done)) }
{
    let before = heap(&mut walk.graph, 0)?;
    let claim = reference(&mut walk.graph, 0)?;
    let listing = lists(&mut walk.graph, before, claim, o)?;
    walk.fact(listing)?;
    Ok(())
}

/// The variable's object is listed.
fn list_variable(walk: &mut Walk, i: u32, st: State) -> Result<State, AllocError>
    ensures { (s : spec.State) → IsState walk.old.graph st s →
        IfOk result (λ r. Ran IsState walk.old walk.new r (variable_listed i s)) }
{
    let value = local(walk, &st, i)?;
    let o = term(&mut walk.graph, value)?;
    list(walk, o)?;
    Ok(st)
}

/// NULL is listed, as a constant.
fn list_null(walk: &mut Walk, st: State) -> Result<State, AllocError>
    ensures { (s : spec.State) → IsState walk.old.graph st s →
        IfOk result (λ r. Ran IsState walk.old walk.new r (null_listed s)) }
{
    let v = new_reference(&mut walk.graph, st)?;
    let o = term(&mut walk.graph, v.value)?;
    let nothing = null(&mut walk.graph)?;
    let none = eq(&mut walk.graph, o, nothing)?;
    walk.fact(none)?;
    list(walk, o)?;
    Ok(v.state)
}

/// Any value of the type is listed.
fn list_other(walk: &mut Walk, ty: DeclaredType, st: State) -> Result<State, AllocError>
    ensures { (s : spec.State) → IsState walk.old.graph st s →
        IfOk result (λ r. Ran IsState walk.old walk.new r (other_listed ty s)) }
{
    let v = new_value(walk, ty, st)?;
    let o = term(&mut walk.graph, v.value)?;
    list(walk, o)?;
    Ok(v.state)
}

/// The claimed object is listed.
fn list_one(walk: &mut Walk, claimed: &Claimed, st: State) -> Result<State, AllocError>
    ensures { (s : spec.State) → IsState walk.old.graph st s →
        IfOk result (λ r. Ran IsState walk.old walk.new r (one_listed claimed.now s)) }
{
    match claimed {
        Claimed::ClaimedVariable(i) => list_variable(walk, *i, st),
        Claimed::ClaimedNull => list_null(walk, st),
        Claimed::ClaimedOther(_, ty) => list_other(walk, *ty, st),
    }
}

/// Each claimed object is listed.
fn list_all(walk: &mut Walk, all: &[Claimed], st: State) -> Result<State, AllocError>
    ensures { (s : spec.State) → IsState walk.old.graph st s →
        IfOk result (λ r. Ran IsState walk.old walk.new r (admissible.all_listed all.now s)) }
{
    let mut state = st;
    for claimed in all {
        state = list_one(walk, claimed, state)?;
    }
    Ok(state)
}

/// Any values of the site's variables and of its claimed objects, which are listed.
pub fn site_state(walk: &mut Walk, f: &FunctionInfo, site: &ClaimSite) -> Result<State, AllocError>
    ensures { IfOk result (λ r. Ran IsState walk.old walk.new r (site_state f.now site.now)) }
{
    let st = no_constants(walk.alloc, &mut walk.graph, f)?;
    let named = any_locals(walk, f, &site.variables, st)?;
    let listing = list_all(walk, &site.claimed, named)?;
    Ok(listing)
}
