//! What a thread's turn gives, and the turns of statements that call nothing.

ghost use Rattle.std.specs.Prelude.{◌≡◌, List, [], IfOk};
ghost use Rattle.object_types.specs.declared.references.Ref.{Ref as Reference};
ghost use Rattle.method.specs.Expressions.{eval, eval_all};
ghost use Rattle.method.specs.Actions.{spot};
ghost use Rattle.method.specs.Machine.{WrapAgain as AWrap, Test as ATest, Run as Running};
ghost use Rattle.method.specs.declared.program.Stmt.TheVariants.{Do};
ghost use Rattle.machine_values.specs.Spots.{context_at, spot_at};
ghost use Rattle.machine_values.specs.Answers.{Yields};
ghost use Rattle.machine_values.specs.Items.{YieldsAll};
ghost use Rattle.machine_turns.specs.Frames.{left_of};
ghost use Rattle.machine_turns.specs.Turns.{IsMoved, IsActed, IsCalled, IsReturned, IsStoredTurn};
ghost use Rattle.machine_turns.specs.Turns.{IsStarting, OnValue, TurnsAs, TurnsAsOr};
ghost use Rattle.machine_turns.specs.RunsOut.{TakenRunsOut};
ghost use Rattle.machine_turns.specs.Turns.{taken, acting, choice, while_head, do_head, unwrapping};

use crate::activation::{Activation, Remaining};
use crate::checks::check_invariants;
use crate::code::{body_code, push_body};
use machine_actions::actions::act;
use machine_objects::objects::unwrap_object;
use machine_objects::progress::Progress;
use machine_ownership::wrapping::wrap_object;
use machine_values::eval::{eval, eval_all};
use machine_values::spot::{Context, Spot};
use machine_values::stop::Stop;
use machine_values::values::{is_true, referent};
use method::program::{Action, Expr, Program, Spec, Stmt};
use object_types::heap::Heap;
use object_types::references::Ref;
use object_types::values::Value;
use std::alloc::{AllocError, Global};

/// What becomes of the functions of a thread whose turn it was.
#[derive(Drop)]
pub enum Frames<'p> {
    /// the variables of the function that runs, if they change; in the place of the item that was taken, this code,
    /// the next item last
    Goes(Option<Vec<Value>>, Vec<Remaining<'p>>),
    /// this function is called; the store of its value, if it is wanted, stands behind the item that was taken
    Calls(Option<Remaining<'p>>, Activation<'p>),
    /// the function returns; where the caller stores its value, these are the caller's variables then
    Returns(Option<Vec<Value>>),
}

/// What a thread's turn gives.
#[derive(Drop)]
pub struct Turn<'p> {
    /// the heap; none where it is as it was
    pub heap: Option<Heap>,
    pub frames: Frames<'p>,
    /// the new threads' first functions
    pub started: Vec<Context>,
    pub line: u32,
}

/// Where a turn is taken: the function that runs, with its variables; the heap; a number above that of each thread.
#[derive(Clone, Copy)]
pub struct Here<'a, 'p> {
    pub program: &'p Program,
    pub context: &'a Context,
    pub locals: &'a [Value],
    pub heap: &'a Heap,
    pub next_thread: u32,
}

impl<'p> Turn<'p> {
    /// The heap and the variables are as they were, and this code stands behind the item that was taken.
    pub fn moved(alloc: Global, line: u32, code: Vec<Remaining<'p>>) -> Turn<'p>
        ensures { IsMoved result line code.entry }
    {
        Turn {
            heap: None,
            frames: Frames::Goes(None, code),
            started: Vec::new(alloc),
            line,
        }
    }

    /// An action was taken, and this code stands behind it.
    pub fn acted(line: u32, progress: Progress, code: Vec<Remaining<'p>>) -> Turn<'p>
        ensures { IsActed result line progress code.entry }
    {
        let Progress {
            heap,
            locals,
            started,
            ..
        } = progress;
        Turn {
            heap: Some(heap),
            frames: Frames::Goes(Some(locals), code),
            started,
            line,
        }
    }
}

impl<'p> Turn<'p> {
    /// This function is called, and this item put into the call's place.
    pub fn called(
        alloc: Global,
        line: u32,
        receipt: Option<Remaining<'p>>,
        entered: Activation<'p>,
    ) -> Turn<'p>
        ensures { IsCalled result line receipt.entry entered.entry }
    {
        Turn {
            heap: None,
            frames: Frames::Calls(receipt, entered),
            started: Vec::new(alloc),
            line,
        }
    }

    /// The function returns, and its caller stores nothing.
    pub fn returned(alloc: Global, line: u32) -> Turn<'p>
        ensures { IsReturned result line }
    {
        Turn {
            heap: None,
            frames: Frames::Returns(None),
            started: Vec::new(alloc),
            line,
        }
    }

    /// The function returns, and its caller's store made this progress.
    pub fn stored(line: u32, progress: Progress) -> Turn<'p>
        ensures { IsStoredTurn result line progress }
    {
        let Progress {
            heap,
            locals,
            started,
            ..
        } = progress;
        Turn {
            heap: Some(heap),
            frames: Frames::Returns(Some(locals)),
            started,
            line,
        }
    }
}

/// The place of a statement of this line in a function's run, with these choices.
pub fn spot<'a>(
    program: &'a Program,
    context: &'a Context,
    choices: &'a [Value],
    line: u32,
) -> Spot<'a>
    ensures spot { (x : List Reference) → spot_at x result ≡ spot (context_at x context.now) choices.now line }
    ensures program { result.program.now ≡ program.now }
    ensures line { result.line ≡ line }
{
    Spot {
        program,
        choices,
        context,
        line,
        inside: false,
        listed: &[],
    }
}

impl<'a, 'p> Here<'a, 'p> {
    /// The value of an expression of a statement of this line.
    pub fn value(&self, alloc: Global, line: u32, e: &Expr) -> Result<Value, Stop>
        ensures { OnValue self.now line (λ p s h l. Yields result (eval p s h l e.now 0)) }
    {
        let at = spot(self.program, self.context, &[], line);
        eval(alloc, &at, self.heap, self.locals, e)
    }

    /// The values of expressions of a statement of this line, from left to right.
    pub fn values(&self, alloc: Global, line: u32, es: &[Expr]) -> Result<Vec<Value>, Stop>
        ensures { OnValue self.now line (λ p s h l. YieldsAll result (eval_all p s h l es.now 0)) }
    {
        let at = spot(self.program, self.context, &[], line);
        eval_all(alloc, &at, self.heap, self.locals, es)
    }
}

/// The progress of an action that begins.
pub fn starting(alloc: Global, here: &Here<'_, '_>) -> Result<Progress, AllocError>
    ensures { IfOk result (λ g. IsStarting g here.now.heap.now here.now.locals.now here.now.next_thread) }
{
    let heap = here.heap.copy()?;
    let locals = Vec::from_slice(alloc, here.locals)?;
    Ok(Progress {
        heap,
        locals,
        next_thread: here.next_thread,
        changed: Vec::new(alloc),
        made: Vec::new(alloc),
        started: Vec::new(alloc),
    })
}

/// An action's turn.
pub fn action_turn<'p>(
    alloc: Global,
    here: &Here<'_, 'p>,
    choices: &[Value],
    line: u32,
    action: &Action,
) -> Result<Turn<'p>, Stop>
    ensures { TurnsAsOr result here.now
        (TakenRunsOut here.now.next_thread choices.now (Running (Do line action.now)))
        (acting here.now.next_thread choices.now line action.now) }
{
    let at = spot(here.program, here.context, choices, line);
    let mut progress = starting(alloc, here)?;
    act(alloc, &at, action, &mut progress)?;
    Ok(Turn::acted(line, progress, Vec::new(alloc)))
}

/// The turn of an `if`.
pub fn if_turn<'p>(
    alloc: Global,
    here: &Here<'_, 'p>,
    line: u32,
    test: &Expr,
    then_body: &'p [Stmt],
    else_body: &'p [Stmt],
) -> Result<Turn<'p>, Stop>
    ensures { TurnsAs result here.now (choice line test.now then_body.now else_body.now) }
{
    let v = here.value(alloc, line, test)?;
    if is_true(v) {
        return Ok(Turn::moved(alloc, line, body_code(alloc, then_body)?));
    }
    Ok(Turn::moved(alloc, line, body_code(alloc, else_body)?))
}

/// The turn at the head of a `while`, which comes back as itself behind its body.
pub fn while_turn<'p>(
    alloc: Global,
    here: &Here<'_, 'p>,
    line: u32,
    s: &'p Stmt,
    invariants: &[Spec],
    test: &Expr,
    body: &'p [Stmt],
) -> Result<Turn<'p>, Stop>
    ensures { TurnsAs result here.now (while_head line s.now invariants.now test.now body.now) }
{
    check_invariants(alloc, here, line, invariants)?;
    let v = here.value(alloc, line, test)?;
    let mut code = Vec::new(alloc);
    if !is_true(v) {
        return Ok(Turn::moved(alloc, line, code));
    }
    code.push(Remaining::Run(s))?;
    push_body(&mut code, body)?;
    Ok(Turn::moved(alloc, line, code))
}

/// The turn at the head of a `do`, whose test comes behind its body.
pub fn do_turn<'p>(
    alloc: Global,
    here: &Here<'_, 'p>,
    line: u32,
    invariants: &[Spec],
    body: &'p [Stmt],
    test: Remaining<'p>,
) -> Result<Turn<'p>, Stop>
    ensures { TurnsAs result here.now (do_head line invariants.now body.now (left_of test.entry)) }
{
    check_invariants(alloc, here, line, invariants)?;
    let mut code = Vec::new(alloc);
    code.push(test)?;
    push_body(&mut code, body)?;
    Ok(Turn::moved(alloc, line, code))
}

/// The turn at the test of a `do`.
pub fn test_turn<'p>(
    alloc: Global,
    here: &Here<'_, 'p>,
    line: u32,
    test: &Expr,
    s: &'p Stmt,
) -> Result<Turn<'p>, Stop>
    ensures { TurnsAs result here.now (taken here.now.next_thread [] (ATest line test.now s.now)) }
{
    let v = here.value(alloc, line, test)?;
    let mut code = Vec::new(alloc);
    if !is_true(v) {
        return Ok(Turn::moved(alloc, line, code));
    }
    code.push(Remaining::Run(s))?;
    Ok(Turn::moved(alloc, line, code))
}

/// The turn at the head of an unwrapping block, whose wrap comes behind its body.
pub fn unwrapping_turn<'p>(
    alloc: Global,
    here: &Here<'_, 'p>,
    line: u32,
    ty: u32,
    e: &Expr,
    body: &'p [Stmt],
) -> Result<Turn<'p>, Stop>
    ensures { TurnsAs result here.now (unwrapping here.now.next_thread line ty e.now body.now) }
{
    let at = spot(here.program, here.context, &[], line);
    let o = referent(here.value(alloc, line, e)?);
    let mut progress = starting(alloc, here)?;
    unwrap_object(&at, o, &mut progress)?;
    let mut code = Vec::new(alloc);
    code.push(Remaining::WrapAgain(line, ty, o))?;
    push_body(&mut code, body)?;
    Ok(Turn::acted(line, progress, code))
}

/// The turn at the wrap behind an unwrapping block.
pub fn wrap_turn<'p>(
    alloc: Global,
    here: &Here<'_, 'p>,
    line: u32,
    ty: u32,
    o: Ref,
) -> Result<Turn<'p>, Stop>
    ensures { TurnsAs result here.now (taken here.now.next_thread [] (AWrap line ty o)) }
{
    let at = spot(here.program, here.context, &[], line);
    let mut progress = starting(alloc, here)?;
    wrap_object(alloc, &at, ty, o, &mut progress)?;
    Ok(Turn::acted(line, progress, Vec::new(alloc)))
}
