//! The path of a function: what is known at its entry, its body, and its end.

ghost use Rattle.std.specs.Prelude.{◌≡◌, ◌++◌, [], false, IfOk, List, map, take, drop};
ghost use Rattle.terms.specs.declared.term.Term.{Term};
ghost use Rattle.terms.specs.Formula.{Formula};
ghost use Rattle.conditions.specs.Actions as actions;
ghost use Rattle.conditions.specs.Code as spec;
ghost use Rattle.conditions.specs.Statements as statements;
ghost use Rattle.conditions.specs.Symbolic as symbolic;
ghost use Rattle.condition_formulas.specs.Standing.{StandsAs, StandAll, Later};
ghost use Rattle.condition_formulas.specs.Symbolics.{AreSymbolic, IsSymbolic};
ghost use Rattle.condition_code.specs.States.{IsSpot, IsState};
ghost use Rattle.condition_code.specs.Walks.{Ran};
ghost use Rattle.condition_walk.specs.Receiving.{AreArguments};

use crate::statements::statements;
use condition_code::state::{Spot, State, ValueAndState, new_heap, new_of};
use condition_code::walk::Walk;
use condition_control::contracts::{items_at, requires_at};
use condition_control::returns::body_end;
use condition_formulas::formulas::{nat, node, null};
use condition_formulas::lists::joined;
use condition_formulas::symbolic::{Symbolic, ranges, term};
use method::program::{DeclaredType, FunctionInfo, Program, VariableInfo};
use std::alloc::{AllocError, Global};
use term_graph::graph::Graph;
use terms::term::Kind;

/// The values of a function's parameters, and the state where their constants are made.
#[derive(Drop)]
pub struct Arguments {
    pub values: Vec<Symbolic>,
    pub state: State,
}

/// The function's parameters.
fn parameters(f: &FunctionInfo) -> &[VariableInfo]
    ensures { result.now ≡ take f.now.parameters f.now.variables.items }
{
    let count = f.parameters as usize;
    if count >= f.variables.len() {
        return &f.variables;
    }
    &f.variables[..count]
}

/// The function's other variables.
fn other_variables(f: &FunctionInfo) -> &[VariableInfo]
    ensures { result.now ≡ drop f.now.parameters f.now.variables.items }
{
    let count = f.parameters as usize;
    if count >= f.variables.len() {
        return &[];
    }
    &f.variables[count..]
}

/// The zero of a type.
fn zero_like(graph: &mut Graph, ty: DeclaredType) -> Result<Symbolic, AllocError>
    ensures stands { IfOk result (λ r. IsSymbolic graph.new r (statements.zero_like ty)) }
    ensures later { Later graph.old graph.new }
{
    match ty {
        DeclaredType::Integer(_) => {
            let zero = nat(graph, 0)?;
            Ok(Symbolic::Number(zero))
        }
        DeclaredType::Pointer(_) | DeclaredType::Object | DeclaredType::Claim => {
            let nothing = null(graph)?;
            Ok(Symbolic::Reference(nothing))
        }
    }
}

/// What variables are before they are declared.
fn zeros(
    alloc: Global,
    graph: &mut Graph,
    variables: &[VariableInfo],
) -> Result<Vec<Symbolic>, AllocError>
    ensures stands { IfOk result (λ vs. AreSymbolic graph.new vs.items (statements.zeros variables.now)) }
    ensures later { Later graph.old graph.new }
{
    let mut values = Vec::new(alloc);
    for variable in variables {
        let value = zero_like(graph, variable.ty)?;
        values.push(value)?;
    }
    Ok(values)
}

/// A constant for each variable.
fn new_values(
    alloc: Global,
    graph: &mut Graph,
    variables: &[VariableInfo],
    mut st: State,
) -> Result<Arguments, AllocError>
    ensures stands { (s : spec.State) → IsState graph.old st s →
        IfOk result (λ r. AreArguments graph.new r (statements.new_values variables.now s)) }
    ensures later { Later graph.old graph.new }
{
    let mut values = Vec::new(alloc);
    for variable in variables {
        let made = new_of(graph, variable.ty, st)?;
        let ValueAndState { value, state } = made;
        values.push(value)?;
        st = state;
    }
    Ok(Arguments { values, state: st })
}

/// That the value is one of its variable's type.
fn value_ranges(
    alloc: Global,
    graph: &mut Graph,
    ty: DeclaredType,
    value: Symbolic,
) -> Result<Vec<u32>, AllocError>
    ensures stands { (w : symbolic.Symbolic) → IsSymbolic graph.old value w →
        IfOk result (λ ids. StandAll graph.new ids.items (symbolic.ranges ty (symbolic.term w))) }
    ensures later { Later graph.old graph.new }
{
    let id = term(graph, value)?;
    let all = ranges(alloc, graph, ty, id)?;
    Ok(all)
}

/// That each value is one of its variable's type.
fn parameter_ranges(
    alloc: Global,
    graph: &mut Graph,
    variables: &[VariableInfo],
    args: &[Symbolic],
) -> Result<Vec<u32>, AllocError>
    ensures stands { (ws : List symbolic.Symbolic) → AreSymbolic graph.old args.now ws →
        IfOk result (λ ids. StandAll graph.new ids.items (statements.parameter_ranges variables.now ws)) }
    ensures later { Later graph.old graph.new }
{
    let mut all = Vec::new(alloc);
    for i in 0..variables.len() {
        if i >= args.len() {
            return Ok(all);
        }
        let within = value_ranges(alloc, graph, variables[i].ty, args[i])?;
        all.extend_from_slice(&within)?;
    }
    Ok(all)
}

/// What is known at entry, one by one.
fn entry_facts(
    alloc: Global,
    graph: &mut Graph,
    program: &Program,
    f: &FunctionInfo,
    args: &[Symbolic],
    heap: u32,
) -> Result<Vec<u32>, AllocError>
    ensures stands { (s : spec.State) (ws : List symbolic.Symbolic) →
        StandsAs graph.old heap s.heap → AreSymbolic graph.old args.now ws →
        IfOk result (λ ids. StandAll graph.new ids.items
        (statements.entry_facts program.now f.now
        (statements.outside_spot program.now f.now s.heap ws) s)) }
    ensures later { Later graph.old graph.new }
{
    let good = node(graph, Kind::Good, 0, &[heap])?;
    let typed = parameter_ranges(alloc, graph, parameters(f), args)?;
    let required = requires_at(alloc, graph, program, f, heap, args)?;
    let mut all = joined(alloc, &[good], &typed)?;
    all.extend_from_slice(&required)?;
    Ok(all)
}

/// A place outside atomic blocks, in a function with this heap and these arguments at its entry.
fn outside_spot<'s>(
    program: &'s Program,
    entry: u32,
    writes: &'s [u32],
    args: &'s [Symbolic],
) -> Spot<'s>
    ensures spot { (ts : List Term) (h : Formula) (fs : List Formula) (ws : List symbolic.Symbolic) →
        StandsAs ts entry h → StandAll ts writes.now fs → AreSymbolic ts args.now ws →
        IsSpot ts result (record { entry = h; writes = fs; args = ws; inside = false; listed = [] }) }
    ensures program { result.program.now ≡ program.now }
{
    Spot {
        program,
        entry,
        writes,
        args,
        inside: false,
        listed: &[],
    }
}

/// The statements of the function's body, and its end.
fn body(walk: &mut Walk, a: &Spot<'_>, f: &FunctionInfo, st: State) -> Result<State, AllocError>
    ensures { (b : spec.Spot) (s : spec.State) → IsSpot walk.old.graph a.now b → IsState walk.old.graph st s →
        IfOk result (λ r. Ran IsState walk.old walk.new r
        (statements.body a.now.program.now f.now b f.now.body.items s)) }
{
    let done = statements(walk, a, f, &f.body, st)?;
    let ended = body_end(walk, a, f, f.result, done)?;
    Ok(ended)
}

/// The body behind its entry.
fn enter(
    walk: &mut Walk,
    program: &Program,
    f: &FunctionInfo,
    args: &[Symbolic],
    st: State,
) -> Result<State, AllocError>
    ensures { (s : spec.State) (ws : List symbolic.Symbolic) →
        IsState walk.old.graph st s → AreSymbolic walk.old.graph args.now ws →
        IfOk result (λ r. Ran IsState walk.old walk.new r
        (statements.enter program.now f.now (statements.outside_spot program.now f.now s.heap ws) s)) }
{
    let facts = entry_facts(walk.alloc, &mut walk.graph, program, f, args, st.heap)?;
    walk.all_facts(&facts)?;
    let writes = items_at(walk.alloc, &mut walk.graph, program, f, st.heap, args)?;
    let a = outside_spot(program, st.heap, &writes, args);
    let ended = body(walk, &a, f, st)?;
    Ok(ended)
}

/// The state where variables behind these values are zeros.
fn with_zeros(
    alloc: Global,
    graph: &mut Graph,
    f: &FunctionInfo,
    args: &[Symbolic],
    mut st: State,
) -> Result<State, AllocError>
    ensures stands { (s : spec.State) (ws : List symbolic.Symbolic) →
        IsState graph.old st s → AreSymbolic graph.old args.now ws →
        IfOk result (λ r. IsState graph.new r (record s {
          locals = ws ++ statements.zeros (drop f.now.parameters f.now.variables.items);
        })) }
    ensures later { Later graph.old graph.new }
{
    let rest = zeros(alloc, graph, other_variables(f))?;
    let mut locals = Vec::new(alloc);
    locals.extend_from_slice(args)?;
    locals.extend_from_slice(&rest)?;
    st.locals = locals;
    Ok(st)
}

/// The state before anything is made, where the heap is any.
fn first_state(alloc: Global, graph: &mut Graph) -> Result<State, AllocError>
    ensures stands { IfOk result (λ r. IsState graph.new r (spec.new_heap statements.empty_state)) }
    ensures later { Later graph.old graph.new }
{
    let nothing = null(graph)?;
    let empty = State {
        heap: nothing,
        locals: Vec::new(alloc),
        integers: 0,
        references: 0,
        heaps: 0,
        changed: Vec::new(alloc),
        made: Vec::new(alloc),
    };
    new_heap(graph, empty)
}

/// The whole of a function.
pub fn run(walk: &mut Walk, program: &Program, f: &FunctionInfo) -> Result<State, AllocError>
    ensures { IfOk result (λ r. Ran IsState walk.old walk.new r (statements.run program.now f.now)) }
{
    let first = first_state(walk.alloc, &mut walk.graph)?;
    let arguments = new_values(walk.alloc, &mut walk.graph, parameters(f), first)?;
    let Arguments { values, state } = arguments;
    let start = with_zeros(walk.alloc, &mut walk.graph, f, &values, state)?;
    let ended = enter(walk, program, f, &values, start)?;
    Ok(ended)
}
