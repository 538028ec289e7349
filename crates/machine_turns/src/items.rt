//! What the next item of a thread comes to.

ghost use Rattle.std.specs.Prelude.{◌≡◌, [], OnOk, IfErr};
ghost use Rattle.method.specs.Expressions.{Outcome};
ghost use Rattle.method.specs.Actions.{fitting, no_choices};
ghost use Rattle.method.specs.Machine.{Turn as ATurn, Run as Running};
ghost use Rattle.machine_values.specs.Answers.{Stops};
ghost use Rattle.machine_turns.specs.Frames.{left_of};
ghost use Rattle.machine_turns.specs.Turns.{ReturnsAsOr, ThreadTurns, taken};
ghost use Rattle.machine_turns.specs.RunsOut.{TakenRunsOut};

use crate::activation::{Activation, Remaining};
use crate::calls::call_turn;
use crate::returns::{end_turn, value_turn};
use crate::turn::{
    Here, Turn, action_turn, do_turn, if_turn, test_turn, unwrapping_turn, while_turn, wrap_turn,
};
use machine_values::stop::Stop;
use method::program::{Program, Stmt};
use object_types::heap::Heap;
use object_types::values::Value;
use std::alloc::Global;

/// Items that take no choices.
fn no_choices(choices: &[Value]) -> Result<(), Stop>
    ensures ok { OnOk result (choices.now ≡ []) }
    ensures err { IfErr result (λ stop. (o : Outcome ATurn) → Stops stop (fitting (no_choices choices.now) o)) }
{
    if !choices.is_empty() {
        return Err(Stop::Misfit);
    }
    Ok(())
}

/// The turn at a statement, with no choices.
fn plain_turn<'p>(
    alloc: Global,
    here: &Here<'_, 'p>,
    s: &'p Stmt,
    below: &[Activation<'p>],
) -> Result<Turn<'p>, Stop>
    ensures { ReturnsAsOr result here.now below.now
        (TakenRunsOut here.now.next_thread [] (Running s.now)) (taken here.now.next_thread [] (Running s.now)) }
{
    match s {
        Stmt::Do(line, action) => action_turn(alloc, here, &[], *line, action),
        Stmt::If(line, _, test, a, b) => if_turn(alloc, here, *line, test, a, b),
        Stmt::While(line, invariants, test, body) => {
            while_turn(alloc, here, *line, s, invariants, test, body)
        }
        Stmt::DoWhile(line, invariants, body, tested, test) => {
            do_turn(
                alloc,
                here,
                *line,
                invariants,
                body,
                Remaining::Test(*tested, test, s),
            )
        }
        Stmt::Unwrapping(line, ty, _, e, body) => unwrapping_turn(alloc, here, *line, *ty, e, body),
        Stmt::Call(line, to, ty, number, es) => call_turn(alloc, here, *line, to, *ty, *number, es),
        Stmt::Return(line, e) => value_turn(alloc, here, *line, e, below),
    }
}

/// The turn at a statement; an action alone takes choices.
fn stmt_turn<'p>(
    alloc: Global,
    here: &Here<'_, 'p>,
    choices: &[Value],
    s: &'p Stmt,
    below: &[Activation<'p>],
) -> Result<Turn<'p>, Stop>
    ensures { ReturnsAsOr result here.now below.now
        (TakenRunsOut here.now.next_thread choices.now (Running s.now))
        (taken here.now.next_thread choices.now (Running s.now)) }
{
    match s {
        Stmt::Do(line, action) => action_turn(alloc, here, choices, *line, action),
        _ => {
            no_choices(choices)?;
            plain_turn(alloc, here, s, below)
        }
    }
}

/// The turn at an item.
fn item_turn<'p>(
    alloc: Global,
    here: &Here<'_, 'p>,
    choices: &[Value],
    item: &Remaining<'p>,
    below: &[Activation<'p>],
) -> Result<Turn<'p>, Stop>
    ensures { ReturnsAsOr result here.now below.now
        (TakenRunsOut here.now.next_thread choices.now (left_of item.now))
        (taken here.now.next_thread choices.now (left_of item.now)) }
{
    match item {
        Remaining::Run(s) => stmt_turn(alloc, here, choices, s, below),
        Remaining::Test(line, test, s) => {
            no_choices(choices)?;
            test_turn(alloc, here, *line, test, s)
        }
        Remaining::WrapAgain(line, ty, o) => {
            no_choices(choices)?;
            wrap_turn(alloc, here, *line, *ty, *o)
        }
        Remaining::Receive(_, _, _) => Err(Stop::Misfit),
    }
}

/// What the next item of a thread comes to, where these of its functions are being run, the last called last.
pub fn turn<'p>(
    alloc: Global,
    program: &'p Program,
    heap: &Heap,
    next_thread: u32,
    choices: &[Value],
    frames: &[Activation<'p>],
) -> Result<Turn<'p>, Stop>
    ensures { ThreadTurns result program.now heap.now next_thread choices.now frames.now }
{
    let Some((frame, below)) = frames.split_last() else {
        return Err(Stop::Misfit);
    };
    let here = Here {
        program,
        context: &frame.context,
        locals: &frame.locals,
        heap,
        next_thread,
    };
    let Some((item, _)) = frame.code.split_last() else {
        no_choices(choices)?;
        return end_turn(alloc, &here, below);
    };
    item_turn(alloc, &here, choices, item, below)
}
