//! Putting a turn's change into the functions of a thread.

ghost use Rattle.std.specs.Prelude.{◌≡◌, ◌+◌, ◌≤◌, ◌++◌, OnOk, OnErr, vec_len, vec_capacity};
ghost use Rattle.machine_turns.specs.Frames.{frame_of, frames_of};
ghost use Rattle.ref_machine.specs.Settling.{Settled, advanced, replaced, restored};

use machine_turns::activation::{Activation, Remaining};
use machine_turns::turn::Frames;
use object_types::values::Value;
use std::alloc::AllocError;

/// Appends elements for which there is room.
pub fn append_reserved<T: Drop>(to: &mut Vec<T>, mut more: Vec<T>)
    requires { vec_len to.old + vec_len more ≤ vec_capacity to.old }
    ensures { to.new.items ≡ to.old.items ++ more.items }
{
    let _ = to.append(&mut more);
}

/// Takes the next item of the function, and puts this code in its place, the next item last.
fn advance<'p>(
    frame: &mut Activation<'p>,
    locals: Option<Vec<Value>>,
    code: Vec<Remaining<'p>>,
) -> Result<(), AllocError>
    ensures ok { OnOk result (frame_of frame.new ≡ advanced frame.old locals code.entry.items) }
    ensures err { OnErr result (frame_of frame.new ≡ frame_of frame.old) }
{
    frame.code.reserve(code.len())?;
    let _ = frame.code.pop();
    append_reserved(&mut frame.code, code);
    if let Some(locals) = locals {
        frame.locals = locals;
    }
    Ok(())
}

/// Takes the next item of the function, and puts this one in its place, if there is one.
fn replace_next<'p>(
    frame: &mut Activation<'p>,
    item: Option<Remaining<'p>>,
) -> Result<(), AllocError>
    ensures ok { OnOk result (frame_of frame.new ≡ replaced frame.old item.entry) }
    ensures err { OnErr result (frame_of frame.new ≡ frame_of frame.old) }
{
    frame.code.reserve(1)?;
    let _ = frame.code.pop();
    if let Some(item) = item {
        frame.code.push_reserved(item);
    }
    Ok(())
}

/// Takes the next item of the function; these are its variables then.
fn store(frame: &mut Activation<'_>, locals: Vec<Value>)
    ensures { frame_of frame.new ≡ restored frame.old locals.items }
{
    let _ = frame.code.pop();
    frame.locals = locals;
}

/// Puts the change into the functions; refused, it leaves them as they were.
pub fn settle<'p>(frames: &mut Vec<Activation<'p>>, change: Frames<'p>) -> Result<(), AllocError>
    ensures ok { OnOk result (Settled change.entry frames.old.items frames.new.items) }
    ensures err { OnErr result (frames_of frames.new.items ≡ frames_of frames.old.items) }
{
    match change {
        Frames::Goes(locals, code) => {
            let Some(mut frame) = frames.pop() else {
                return Ok(());
            };
            let outcome = advance(&mut frame, locals, code);
            frames.push_reserved(frame);
            outcome
        }
        Frames::Calls(receipt, entered) => {
            frames.reserve(1)?;
            let Some(mut frame) = frames.pop() else {
                return Ok(());
            };
            let outcome = replace_next(&mut frame, receipt);
            frames.push_reserved(frame);
            if let Err(fault) = outcome {
                return Err(fault);
            }
            frames.push_reserved(entered);
            Ok(())
        }
        Frames::Returns(stored) => {
            let Some(_) = frames.pop() else {
                return Ok(());
            };
            let Some(locals) = stored else {
                return Ok(());
            };
            let Some(mut caller) = frames.pop() else {
                return Ok(());
            };
            store(&mut caller, locals);
            frames.push_reserved(caller);
            Ok(())
        }
    }
}
