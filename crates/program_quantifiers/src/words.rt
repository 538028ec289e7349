//! The words of a function's annotations and of a type's, by their sorts alone.

ghost use Rattle.std.specs.Prelude.{◌≡◌, IfOk, List, take};
ghost use Rattle.terms.specs.declared.term.Term.{Term};
ghost use Rattle.conditions.specs.Formulas.{null};
ghost use Rattle.conditions.specs.Quantified as spec;
ghost use Rattle.condition_formulas.specs.Standing.{StandsAs, Later};
ghost use Rattle.condition_formulas.specs.Symbolics.{IsSymbolic, AreSymbolic};
ghost use Rattle.annotation_scenes.specs.Scenes.{IsScene, IsFormal};
ghost use Rattle.program_quantifiers.specs.Words.{any_variables};

use annotation_scenes::formal::FormalScene;
use annotation_scenes::scene::Scene;
use condition_formulas::formulas::null;
use condition_formulas::symbolic::{Symbolic, symbolic_of_type};
use method::program::{DeclaredType, FunctionInfo, VariableInfo};
use std::alloc::{AllocError, Global};
use term_graph::graph::Graph;

/// Values of the variables' sorts; `nothing` is NULL.
fn any_variables(
    alloc: Global,
    nothing: u32,
    variables: &[VariableInfo],
) -> Result<Vec<Symbolic>, AllocError>
    ensures { (ts : List Term) → StandsAs ts nothing null →
        IfOk result (λ vs. AreSymbolic ts vs.items (any_variables variables.now)) }
{
    let mut values = Vec::new(alloc);
    for variable in variables {
        values.push(symbolic_of_type(variable.ty, nothing))?;
    }
    Ok(values)
}

/// A value of the result's sort; `nothing` is NULL.
#[tactic(auto, using(condition_formulas::proofs::Symbolics::is_number))]
fn any_result(nothing: u32, result_type: Option<DeclaredType>) -> Symbolic
    ensures { (ts : List Term) → StandsAs ts nothing null → IsSymbolic ts result (spec.any_result result_type) }
{
    match result_type {
        Some(ty) => symbolic_of_type(ty, nothing),
        None => Symbolic::Number(nothing),
    }
}

/// The function's parameters.
#[tactic(auto, using(std::proofs::lemmas::List::take_all))]
fn parameters(f: &FunctionInfo) -> &[VariableInfo]
    ensures { result.now ≡ take f.now.parameters f.now.variables.items }
{
    let count = f.parameters as usize;
    if count >= f.variables.len() {
        return &f.variables;
    }
    &f.variables[..count]
}

/// The words of a function's annotations.
pub fn function_words(
    alloc: Global,
    graph: &mut Graph,
    f: &FunctionInfo,
) -> Result<FormalScene, AllocError>
    ensures stands { IfOk result (λ words. IsFormal graph.new words (spec.function_words f.now)) }
    ensures later { Later graph.old graph.new }
{
    let nothing = null(graph)?;
    let locals = any_variables(alloc, nothing, &f.variables)?;
    let entry = any_variables(alloc, nothing, parameters(f))?;
    let bound = Vec::new(alloc);
    Ok(FormalScene {
        before: nothing,
        after: nothing,
        past: false,
        me: nothing,
        this: nothing,
        locals,
        entry,
        result: any_result(nothing, f.result),
        bound,
        subject: nothing,
    })
}

/// The words of a type's invariants.
pub fn struct_words(graph: &mut Graph) -> Result<Scene<'static>, AllocError>
    ensures stands { IfOk result (λ words. IsScene graph.new words spec.struct_words) }
    ensures later { Later graph.old graph.new }
{
    let nothing = null(graph)?;
    Ok(Scene {
        before: nothing,
        after: nothing,
        past: false,
        me: nothing,
        this: nothing,
        locals: &[],
        entry: &[],
        result: Symbolic::Number(nothing),
        bound: &[],
        subject: nothing,
    })
}
