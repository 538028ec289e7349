//! The quantified formulas of functions, of structs and of a whole program.

ghost use Rattle.std.specs.Prelude.{IfOk, OnOk};
ghost use Rattle.conditions.specs.Quantified as spec;
ghost use Rattle.annotation_scenes.specs.Scenes.{IsScene};
ghost use Rattle.program_quantifiers.specs.Quantifiers.{Adds, AreQuantified};
ghost use Rattle.program_quantifiers.specs.Programs.{functions_quantifiers, structs_quantifiers};

use crate::annotations::{add_annotations, add_clauses};
use crate::quantifiers::Quantifiers;
use crate::statements::add_statements;
use crate::words::{function_words, struct_words};
use annotation_scenes::scene::Scene;
use method::program::{FunctionInfo, Program, StructInfo};
use std::alloc::{AllocError, Global};
use term_graph::graph::Graph;

/// Adds the formulas of a function, whose words the scene holds: those of its contract, then those of its text.
fn add_text(
    alloc: Global,
    list: &mut Quantifiers,
    program: &Program,
    f: &FunctionInfo,
    scene: &Scene<'_>,
) -> Result<(), AllocError>
    ensures { IsScene list.old.graph scene.now (spec.function_words f.now) →
        OnOk result (Adds list.old list.new (spec.function_quantifiers program.now f.now)) }
{
    add_clauses(alloc, list, program, &f.requires_, scene)?;
    add_clauses(alloc, list, program, &f.ensures_, scene)?;
    add_annotations(alloc, list, program, &f.writes, scene)?;
    add_statements(alloc, list, program, f, scene, &f.body)
}

/// Adds the formulas of a function.
fn add_function(
    alloc: Global,
    list: &mut Quantifiers,
    program: &Program,
    f: &FunctionInfo,
) -> Result<(), AllocError>
    ensures { OnOk result (Adds list.old list.new (spec.function_quantifiers program.now f.now)) }
{
    let words = function_words(alloc, &mut list.graph, f)?;
    let scene = words.scene();
    add_text(alloc, list, program, f, &scene)
}

/// Adds the formulas of functions.
fn add_functions(
    alloc: Global,
    list: &mut Quantifiers,
    program: &Program,
    functions: &[FunctionInfo],
) -> Result<(), AllocError>
    ensures { OnOk result (Adds list.old list.new (functions_quantifiers program.now functions.now)) }
{
    for f in functions {
        add_function(alloc, list, program, f)?;
    }
    Ok(())
}

/// Adds the formulas of a struct's invariants.
fn add_struct(
    alloc: Global,
    list: &mut Quantifiers,
    program: &Program,
    info: &StructInfo,
) -> Result<(), AllocError>
    ensures { OnOk result (Adds list.old list.new
        (spec.specs_quantifiers program.now info.now.invariants.items spec.struct_words)) }
{
    let words = struct_words(&mut list.graph)?;
    add_annotations(alloc, list, program, &info.invariants, &words)
}

/// Adds the formulas of structs.
fn add_structs(
    alloc: Global,
    list: &mut Quantifiers,
    program: &Program,
    structs: &[StructInfo],
) -> Result<(), AllocError>
    ensures { OnOk result (Adds list.old list.new (structs_quantifiers program.now structs.now)) }
{
    for info in structs {
        add_struct(alloc, list, program, info)?;
    }
    Ok(())
}

/// The quantified formulas of a program, those of its structs before those of its functions; a clause that both
/// requires and ensures stands twice. Only want of memory is an error.
pub fn program_quantifiers(alloc: Global, program: &Program) -> Result<Quantifiers, AllocError>
    ensures { IfOk result (λ list. AreQuantified list.graph list.formulas.items
        (spec.program_quantifiers program.now)) }
{
    let graph = Graph::new(alloc);
    let formulas = Vec::new(alloc);
    let mut list = Quantifiers { graph, formulas };
    add_structs(alloc, &mut list, program, &program.structs)?;
    add_functions(alloc, &mut list, program, &program.functions)?;
    Ok(list)
}
