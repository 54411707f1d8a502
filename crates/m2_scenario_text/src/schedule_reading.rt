//! A schedule's text.

ghost use Rattle.std.specs.Prelude.{◌≡◌, ◌≤◌, length};
ghost use Rattle.std.specs.Option.{is_some};
ghost use Rattle.m2_scenario_text.specs.declared.reading.TheConstants.{MOST_BYTES};
ghost use Rattle.m2_scenario_text.specs.Lines.{Takes, deed_by};
ghost use Rattle.m2_scenario_text.specs.ScheduleReading.{LineRead, Reads, by_verb, line_step, lines_from, text_read, with_read, words_line};
ghost use Rattle.m2_scenario_text.specs.Schedule.{draft_of, no_lines};
ghost use Rattle.m2_scenario.specs.Text.{pieces};

use crate::MOST_BYTES;
use crate::bad_schedule::BadSchedule;
use crate::lines::{deed, pair_line};
use crate::schedule::{Order, Schedule};
use crate::verb::Verb;
use m2_bytes::Items;
use m2_scenario::{Kind, LineFault, Words, check, cut, is_clean, prefix, words_in};
use std::alloc::Global;

/// A line by its verb and the words behind it.
fn by_verb(
    alloc: Global,
    draft: &mut Schedule,
    line: u32,
    verb: Verb,
    words: Words<'_>,
) -> Result<(), LineFault>
    ensures { Takes result (by_verb line (draft_of draft.old) verb words.entry) (draft_of draft.new) }
{
    match verb {
        Verb::Pair => pair_line(draft, words),
        _ => order(alloc, draft, line, verb, words),
    }
}

/// An instruction is added.
fn order(
    alloc: Global,
    draft: &mut Schedule,
    line: u32,
    verb: Verb,
    words: Words<'_>,
) -> Result<(), LineFault>
    ensures { Takes result (with_read line (draft_of draft.old) (deed_by (is_some draft.old.pair) verb words.entry)) (draft_of draft.new) }
{
    let what = deed(alloc, draft.pair.is_some(), verb, words)?;
    match draft.orders.push(Order { line, what }) {
        Ok(()) => Ok(()),
        Err(_) => Err(LineFault::NoMemory),
    }
}

#[tactic(auto, unfolding(crate::specs::ScheduleReading::words_line))]
fn words_line(
    alloc: Global,
    draft: &mut Schedule,
    line: u32,
    mut words: Words<'_>,
) -> Result<(), LineFault>
    ensures { Takes result (words_line line (draft_of draft.old) words.entry) (draft_of draft.new) }
{
    let Some(first) = words.next() else {
        return Ok(());
    };
    let Some(verb) = Verb::of(first) else {
        return Err(LineFault::Bad(Kind::Unknown));
    };
    by_verb(alloc, draft, line, verb, words)
}

#[tactic(auto, unfolding(crate::specs::ScheduleReading::line_step))]
fn line_step(alloc: Global, draft: &mut Schedule, line: u32, text: &[u8]) -> Result<(), LineFault>
    ensures { Takes result (line_step line (draft_of draft.old) text.now) (draft_of draft.new) }
{
    check(Kind::Unknown, is_clean(text))?;
    words_line(alloc, draft, line, words_in(text))
}

/// A line of the text, by its number.
fn numbered_line(
    alloc: Global,
    draft: &mut Schedule,
    number: u32,
    text: &[u8],
) -> Result<(), BadSchedule>
    ensures { LineRead result (line_step number (draft_of draft.old) text.now) number (draft_of draft.new) }
{
    match line_step(alloc, draft, number, text) {
        Ok(()) => Ok(()),
        Err(LineFault::Bad(kind)) => Err(BadSchedule::BadLine { line: number, kind }),
        Err(LineFault::NoMemory) => Err(BadSchedule::NoMemory),
    }
}

/// The schedule of a text, or its first bad line with the first kind that applies to it.
#[tactic(auto, unfolding(crate::specs::ScheduleReading::text_read))]
pub fn read_schedule(alloc: Global, bytes: &[u8]) -> Result<Schedule, BadSchedule>
    ensures { Reads result (text_read bytes.now) }
{
    let past = bytes.len() > MOST_BYTES;
    all_lines(alloc, prefix(bytes, MOST_BYTES), past)
}

/// The schedule that all lines make.
fn all_lines(alloc: Global, text: &[u8], past: bool) -> Result<Schedule, BadSchedule>
    requires { length text.now ≤ MOST_BYTES }
    ensures { Reads result (lines_from past 1 no_lines (pieces 10 text.now)) }
{
    let mut draft = Schedule {
        pair: None,
        orders: Items::empty(alloc),
    };
    let mut rest = text;
    let mut line = 1;
    'lines: while let Some((first, more)) = cut(rest, b'\n') {
        numbered_line(alloc, &mut draft, line, first)?;
        rest = more;
        line += 1;
    }
    if past {
        return Err(BadSchedule::BadLine {
            line,
            kind: Kind::Limit,
        });
    }
    numbered_line(alloc, &mut draft, line, rest)?;
    Ok(draft)
}
