//! Reading a schedule's text.

ghost use Rattle.std.specs.Prelude.{◌≡◌, ◌<◌, ◌≤◌, ◌+◌, ◌^◌, IfOk};
ghost use Rattle.schedule_format.specs.Schedules.{Schedule as ASchedule};
ghost use Rattle.schedule_format.specs.Text.{IsScheduleText, IsOrMemory};
ghost use Rattle.schedule_format.specs.Lines.{lines_of, words_of};
ghost use Rattle.schedule_format.specs.Reading.{Gives, in_text, whole_line, nothing_at, events_at, schedule_of};
ghost use Rattle.schedule_format.specs.Reading as reading;

use crate::fault::ScheduleFault;
use crate::schedule::{Event, Schedule};
use crate::values::{GREATEST, values};
use crate::words::{Words, cut};
use decimal_text::number::{parse_count, parse_natural};
use object_types::values::Value;
use std::alloc::Global;

/// The greatest number of 128 bits.
const GREATEST_NUMBER: u128 = 170141183460469231731687303715884105727;

const MOST_EVENTS: u128 = 100_000;

/// The line that stands first, and the text behind it; `number` is the line's.
#[tactic(auto, using(crate::proofs::Pieces::lines))]
fn whole_line(number: u32, text: &[u8]) -> Result<(&[u8], &[u8]), ScheduleFault>
    ensures { Gives (λ x. (x.0.now, lines_of x.1.now)) result (whole_line number (lines_of text.now)) }
{
    match cut(b'\n', text) {
        Some((line, rest)) => Ok((line, rest)),
        None => Err(ScheduleFault::CutShort(number)),
    }
}

/// What stands behind the first line, which has to be this one.
#[tactic(auto, using(crate::proofs::Turns::fails_on))]
fn fixed_line<'a>(number: u32, wanted: &[u8], text: &'a [u8]) -> Result<&'a [u8], ScheduleFault>
    ensures { Gives (λ t. (tt, lines_of t.now)) result (in_text number (reading.same_line number wanted.now) text.now) }
{
    let (line, rest) = whole_line(number, text)?;
    if line != wanted {
        return Err(ScheduleFault::BadLine(number));
    }
    Ok(rest)
}

/// The values of the line `args VALUES`.
#[tactic(auto, using(crate::proofs::Turns::fails_on), unfolding(crate::specs::Reading::arguments))]
fn arguments_in(alloc: Global, number: u32, line: &[u8]) -> Result<Vec<Value>, ScheduleFault>
    ensures { Gives (λ v. v.items) result (reading.arguments number line.now) }
{
    let mut words = Words::new(line);
    words.take(number, b"args")?;
    values(alloc, number, words)
}

/// The arguments of main, and the text behind their line.
#[tactic(auto, using(crate::proofs::Turns::fails_on))]
fn arguments(alloc: Global, number: u32, text: &[u8]) -> Result<(Vec<Value>, &[u8]), ScheduleFault>
    ensures { Gives (λ x. (x.0.items, lines_of x.1.now)) result (in_text number (reading.arguments number) text.now) }
{
    let (line, rest) = whole_line(number, text)?;
    let arguments = arguments_in(alloc, number, line)?;
    Ok((arguments, rest))
}

/// The count of the line `events COUNT`.
#[tactic(auto, using(crate::proofs::Turns::fails_on), unfolding(crate::specs::Reading::count))]
fn count_in(number: u32, line: &[u8]) -> Result<u32, ScheduleFault>
    ensures value { Gives (λ k. k) result (reading.count number line.now) }
    ensures most { IfOk result (λ k. k ≤ 100000) }
{
    let mut words = Words::new(line);
    words.take(number, b"events")?;
    let word = words.one(number)?;
    let count = parse_natural(GREATEST_NUMBER, word).ok_or(ScheduleFault::BadNumber(number))?;
    if count > MOST_EVENTS {
        return Err(ScheduleFault::CountOver(number));
    }
    words.end(number)?;
    Ok(count as u32)
}

/// The number of events, and the text behind its line.
#[tactic(auto, using(crate::proofs::Turns::fails_on))]
fn count(number: u32, text: &[u8]) -> Result<(u32, &[u8]), ScheduleFault>
    ensures value { Gives (λ x. (x.0, lines_of x.1.now)) result (in_text number (reading.count number) text.now) }
    ensures most { IfOk result (λ x. x.0 ≤ 100000) }
{
    let (line, rest) = whole_line(number, text)?;
    let count = count_in(number, line)?;
    Ok((count, rest))
}

/// The event of the line `s THREAD VALUES`.
#[tactic(auto, using(crate::proofs::Turns::fails_on), unfolding(crate::specs::Reading::event))]
fn event_in(alloc: Global, number: u32, line: &[u8]) -> Result<Event, ScheduleFault>
    ensures { Gives (λ e. e) result (reading.event number line.now) }
{
    let mut words = Words::new(line);
    words.take(number, b"s")?;
    let word = words.one(number)?;
    let thread = parse_count(GREATEST, word).ok_or(ScheduleFault::BadNumber(number))?;
    let choices = values(alloc, number, words)?;
    Ok(Event::new(thread, choices))
}

/// An event, and the text behind its line.
#[tactic(auto, using(crate::proofs::Turns::fails_on))]
fn event(alloc: Global, number: u32, text: &[u8]) -> Result<(Event, &[u8]), ScheduleFault>
    ensures { Gives (λ x. (x.0, lines_of x.1.now)) result (in_text number (reading.event number) text.now) }
{
    let (line, rest) = whole_line(number, text)?;
    let event = event_in(alloc, number, line)?;
    Ok((event, rest))
}

/// So many events, the first in line `number`, and the text behind them.
fn events(
    alloc: Global,
    number: u32,
    count: u32,
    text: &[u8],
) -> Result<(Vec<Event>, &[u8]), ScheduleFault>
    requires { number + count < 2 ^ 32 }
    ensures { Gives (λ x. (x.0.items, lines_of x.1.now)) result (events_at number count (lines_of text.now)) }
{
    let mut found = Vec::new(alloc);
    let mut rest = text;
    for i in 0..count {
        let (event, following) = event(alloc, number + i, rest)?;
        found.push(event)?;
        rest = following;
    }
    Ok((found, rest))
}

/// The schedule that the bytes are the text of, or what is wrong with them first.
#[tactic(auto, using(crate::proofs::Turns::whole), unfolding(crate::specs::Reading::schedule_of))]
fn schedule(alloc: Global, bytes: &[u8]) -> Result<Schedule, ScheduleFault>
    ensures { Gives (λ s. s) result (schedule_of bytes.now) }
{
    let rest = fixed_line(1, b"vcc-schedule 1", bytes)?;
    let (arguments, rest) = arguments(alloc, 2, rest)?;
    let (count, rest) = count(3, rest)?;
    let (events, rest) = events(alloc, 4, count, rest)?;
    let rest = fixed_line(4 + count, b"end", rest)?;
    if !rest.is_empty() {
        return Err(ScheduleFault::Trailing(5 + count));
    }
    Ok(Schedule::new(arguments, events))
}

/// The schedule that the bytes are the text of, or what is wrong with them first, with its line.
pub fn read_schedule(alloc: Global, bytes: &[u8]) -> Result<Schedule, ScheduleFault>
    ensures reads { Gives (λ s. s) result (schedule_of bytes.now) }
    ensures text { IfOk result (λ s. IsScheduleText bytes.now s) }
    // No schedule but the one that is found, and where there is one no refusal.
    ensures only { (s : ASchedule) → IsScheduleText bytes.now s → IsOrMemory s result }
{
    schedule(alloc, bytes)
}
