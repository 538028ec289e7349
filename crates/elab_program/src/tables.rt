//! The tables of structs and functions, and what is numbered in them.

ghost use Rattle.std.specs.Prelude.{◌≡◌, ◌+◌, ◌++◌, [], map, length, bytes_eq, codes, IfOk, OnOk};
ghost use Rattle.c_syntax.specs.Items as trees;
ghost use Rattle.c_syntax.specs.Views as view;
ghost use Rattle.typing_spec.specs.Declarations.{functions};
ghost use Rattle.typing_symbols.specs.Whole.{program};
ghost use Rattle.elab_program.specs.Views.{declared};
ghost use Rattle.elab_program.specs.Walks as spec;
ghost use Rattle.elab_assignments.specs.Views.{before as stands};
ghost use Rattle.typed_program.specs.Numbers.{place_of};
ghost use Rattle.typed_program.specs.Shapes.{table_shape as table_shape_of};
ghost use Rattle.typed_program.specs.Statements.{plus, some_formulas};
ghost use Rattle.typed_program.specs.Tables as tables;
ghost use Rattle.typed_program.specs.Views as seen;

use crate::declared::{Declared, all_declared};
use crate::functions::function_info;
use crate::shapes::next_function;
use c_syntax::expressions::Identifier;
use c_syntax::items::{Function, Member};
use c_syntax::token::Span;
use elab_assignments::counters::Counters;
use elab_clauses::contracts::behind_contract;
use elab_clauses::structs::{behind_member, struct_info};
use elab_code::numbers::function_number;
use elab_shapes::numbered::table_shape;
use elab_statements::counts::{behind_some, behind_statements};
use method::program::{FunctionInfo, Item, Shape, StructInfo};
use std::alloc::{AllocError, Global};
use typing_symbols::declarations::Declarations;

/// Structs and functions.
#[derive(Drop)]
pub struct Tables {
    pub structs: Vec<StructInfo>,
    pub functions: Vec<FunctionInfo>,
}

/// The number behind the formulas of a struct's members.
fn behind_members(first: u32, all: &[Member]) -> Result<u32, AllocError>
    ensures { IfOk result (λ n. n ≡ first + tables.struct_formulas (tables.invariants_of (map view.member all.now))) }
{
    let mut next = first;
    for x in all {
        next = behind_member(next, x)?;
    }
    Ok(next)
}

/// What stands behind a struct.
fn behind_struct(before: Counters, all: &[Member]) -> Result<Counters, AllocError>
    ensures { IfOk result (λ n. stands n ≡ plus (stands before) (some_formulas (tables.struct_formulas (tables.invariants_of (map view.member all.now))))) }
{
    let count = behind_members(0, all)?;
    behind_some(before, count)
}

/// What stands behind a function.
fn behind_body(before: Counters, x: &Function) -> Result<Counters, AllocError>
    ensures { IfOk result (λ n. stands n ≡ plus (stands before) (tables.in_item (trees.Function (view.function x.now)))) }
{
    let count = behind_contract(0, &x.contract)?;
    let inner = behind_some(before, count)?;
    let next = behind_statements(inner, &x.body)?;
    Ok(next)
}

/// What stands behind an item.
fn behind_item(before: Counters, x: Declared<'_, '_>) -> Result<Counters, AllocError>
    ensures { IfOk result (λ n. stands n ≡ plus (stands before) (tables.in_item (declared x.entry))) }
{
    match x {
        Declared::Struct(entry) => {
            let next = behind_struct(before, &entry.tree.members)?;
            Ok(next)
        }
        Declared::Function(function) => {
            let next = behind_body(before, function)?;
            Ok(next)
        }
    }
}

/// What stands behind items.
fn behind_items(before: Counters, all: &[Declared<'_, '_>]) -> Result<Counters, AllocError>
    ensures { IfOk result (λ n. stands n ≡ plus (stands before) (tables.all_items (map declared all.now))) }
{
    let mut next = before;
    for x in all {
        next = behind_item(next, *x)?;
    }
    Ok(next)
}

/// What stands before the first item: the formulas about `\destroy_claim` are numbered behind all others.
pub fn start(alloc: Global, declarations: &Declarations<'_>) -> Result<Counters, AllocError>
    ensures { IfOk result (λ n. stands n ≡ tables.start (program declarations.now)) }
{
    let all = all_declared(alloc, declarations)?;
    let last = behind_items(Counters::none(), &all)?;
    Ok(Counters {
        formulas: 0,
        ended: last.formulas,
        sites: 0,
    })
}

/// Adds a struct, if the item is one.
fn add_struct<'s, 'a>(
    alloc: Global,
    declarations: &'s Declarations<'a>,
    shapes: &[Shape],
    before: Counters,
    x: Declared<'s, 'a>,
    so_far: &mut Vec<StructInfo>,
) -> Result<(), AllocError>
    ensures { OnOk result (map seen.struct so_far.new.items ≡ map seen.struct so_far.old.items ++ spec.struct_of (map seen.shape shapes.now) (program declarations.now) (stands before) (declared x.entry)) }
{
    match x {
        Declared::Struct(entry) => {
            let one = struct_info(alloc, declarations, shapes, before.formulas, entry)?;
            so_far.push(one)?;
            Ok(())
        }
        Declared::Function(_) => Ok(()),
    }
}

/// Adds a function, if the item is one.
fn add_function<'s, 'a>(
    alloc: Global,
    declarations: &'s Declarations<'a>,
    shapes: &[Shape],
    before: Counters,
    x: Declared<'s, 'a>,
    so_far: &mut Vec<FunctionInfo>,
) -> Result<(), AllocError>
    ensures { OnOk result (map seen.function so_far.new.items ≡ map seen.function so_far.old.items ++ spec.function_of (map seen.shape shapes.now) (program declarations.now) (stands before) (declared x.entry)) }
{
    match x {
        Declared::Struct(_) => Ok(()),
        Declared::Function(function) => {
            let one = function_info(alloc, declarations, shapes, before, function)?;
            so_far.push(one)?;
            Ok(())
        }
    }
}

/// The structs among items before which so much stands.
fn struct_table<'s, 'a>(
    alloc: Global,
    declarations: &'s Declarations<'a>,
    shapes: &[Shape],
    first: Counters,
    all: &[Declared<'s, 'a>],
) -> Result<Vec<StructInfo>, AllocError>
    ensures { IfOk result (λ v. map seen.struct v.items ≡ spec.all_structs (map seen.shape shapes.now) (program declarations.now) (stands first) (map declared all.now)) }
{
    let mut so_far = Vec::new(alloc);
    let mut next = first;
    for x in all {
        add_struct(alloc, declarations, shapes, next, *x, &mut so_far)?;
        next = behind_item(next, *x)?;
    }
    Ok(so_far)
}

/// The functions among items before which so much stands.
fn function_table<'s, 'a>(
    alloc: Global,
    declarations: &'s Declarations<'a>,
    shapes: &[Shape],
    first: Counters,
    all: &[Declared<'s, 'a>],
) -> Result<Vec<FunctionInfo>, AllocError>
    ensures { IfOk result (λ v. map seen.function v.items ≡ spec.all_functions (map seen.shape shapes.now) (program declarations.now) (stands first) (map declared all.now)) }
{
    let mut so_far = Vec::new(alloc);
    let mut next = first;
    for x in all {
        add_function(alloc, declarations, shapes, next, *x, &mut so_far)?;
        next = behind_item(next, *x)?;
    }
    Ok(so_far)
}

/// The structs and the functions of a program before which so much stands.
pub fn structs_and_functions<'s, 'a>(
    alloc: Global,
    declarations: &'s Declarations<'a>,
    shapes: &[Shape],
    first: Counters,
) -> Result<Tables, AllocError>
    ensures structs { IfOk result (λ v. map seen.struct v.structs.items ≡ map (tables.numbered_struct (map seen.shape shapes.now)) (tables.struct_table (program declarations.now) (stands first) (program declarations.now))) }
    ensures functions { IfOk result (λ v. map seen.function v.functions.items ≡ map (λ f. tables.numbered_function (map seen.shape shapes.now) (tables.sorts_of f) f) (tables.function_table (program declarations.now) (stands first) (program declarations.now))) }
{
    let all = all_declared(alloc, declarations)?;
    let structs = struct_table(alloc, declarations, shapes, first, &all)?;
    let functions = function_table(alloc, declarations, shapes, first, &all)?;
    Ok(Tables { structs, functions })
}

/// The place of an item in its table, before which so many structs and functions stand.
fn item_place(structs: u32, functions: u32, x: Declared<'_, '_>) -> Item
    ensures { result ≡ spec.place_of_item structs functions (declared x.entry) }
{
    match x {
        Declared::Struct(_) => Item::Struct(structs),
        Declared::Function(_) => Item::Function(functions),
    }
}

/// How many structs stand behind an item.
fn behind_one_struct(structs: u32, x: Declared<'_, '_>) -> Result<u32, AllocError>
    ensures { IfOk result (λ n. n ≡ spec.structs_behind structs (declared x.entry)) }
{
    match x {
        Declared::Struct(_) => match structs.checked_add(1) {
            Some(next) => Ok(next),
            None => Err(AllocError),
        },
        Declared::Function(_) => Ok(structs),
    }
}

/// The places of items in their tables.
fn places(alloc: Global, all: &[Declared<'_, '_>]) -> Result<Vec<Item>, AllocError>
    ensures { IfOk result (λ v. v.items ≡ tables.order 0 0 (map declared all.now)) }
{
    let mut so_far = Vec::new(alloc);
    let mut structs = 0;
    let mut functions = 0;
    for x in all {
        so_far.push(item_place(structs, functions, *x))?;
        structs = behind_one_struct(structs, *x)?;
        functions = next_function(functions, *x)?;
    }
    Ok(so_far)
}

/// The structs and functions of a program among each other.
pub fn order(alloc: Global, declarations: &Declarations<'_>) -> Result<Vec<Item>, AllocError>
    ensures { IfOk result (λ v. v.items ≡ tables.order 0 0 (program declarations.now)) }
{
    let all = all_declared(alloc, declarations)?;
    let found = places(alloc, &all)?;
    Ok(found)
}

/// The number of the function main; 0 where there is none.
pub fn main_number(alloc: Global, declarations: &Declarations<'_>) -> Result<u32, AllocError>
    ensures { IfOk result (λ n. n ≡ place_of (λ f. bytes_eq f.name.name (codes "main")) (functions (program declarations.now))) }
{
    let name = Identifier {
        span: Span { line: 0, column: 0 },
        name: Vec::from_slice(alloc, b"main")?,
    };
    let number = function_number(declarations, &name)?;
    Ok(number)
}

/// The table of shapes.
pub fn shape_table(alloc: Global, shapes: &[Shape]) -> Result<Vec<Shape>, AllocError>
    ensures { IfOk result (λ v. map seen.shape v.items ≡ map (table_shape_of (map seen.shape shapes.now)) (map seen.shape shapes.now)) }
{
    let mut so_far = Vec::new(alloc);
    for x in shapes {
        let one = table_shape(alloc, shapes, x)?;
        so_far.push(one)?;
    }
    Ok(so_far)
}
