//! A scenario's text.

ghost use Rattle.std.specs.Prelude.{◌≡◌, ◌≤◌, length, position, IfOk};
ghost use Rattle.m2_scenario.specs.Draft.{no_lines};
ghost use Rattle.m2_scenario_text.specs.Taking.{Takes};
ghost use Rattle.m2_scenario_text.specs.Reading.{by_first_word, words_line, clean, is_unprintable, unprintable, line_step, lines_from, Reads, DraftRead, LineRead};
ghost use Rattle.m2_scenario.specs.Text.{pieces};
ghost use Rattle.m2_scenario.specs.Valid.{IsValid};

use crate::bad_scenario::BadScenario;
use crate::first_word::FirstWord;
use crate::flaw::{Flaw, LineFlaw, Wanted, want_first};
use crate::form::Form;
use crate::link_line::link_line;
use crate::node_line::node_line;
use crate::plan_lines::{dial_line, down_line, post_line};
use crate::run_lines::{limit_line, off_line};
use crate::sim_lines::{cut_line, fault_line, flow_line, settle_line, turn_line};
use m2_scenario::{Draft, Scenario, Words, cut, is_clean, prefix, words_in};
use std::alloc::Global;

/// A scenario's text has at most so many bytes; [`read`] refuses the line in which the next stands.
pub const MOST_BYTES: usize = 4_194_304;

fn by_first_word(
    alloc: Global,
    draft: &mut Draft,
    about: FirstWord,
    words: Words<'_>,
) -> Result<(), LineFlaw>
    ensures { Takes result (by_first_word draft.old about words.entry) draft.new }
{
    match about {
        FirstWord::Node => node_line(alloc, draft, words),
        FirstWord::Link => link_line(draft, words),
        FirstWord::Post => post_line(alloc, draft, words),
        FirstWord::Dial => dial_line(draft, words),
        FirstWord::Down => down_line(draft, words),
        FirstWord::Cut => cut_line(draft, words),
        FirstWord::Turn => turn_line(draft, words),
        FirstWord::Flow => flow_line(draft, words),
        FirstWord::Fault => fault_line(draft, words),
        FirstWord::Settle => settle_line(draft, words),
        FirstWord::Off => off_line(draft, words),
        FirstWord::Limit => limit_line(draft, words),
    }
}

#[tactic(auto, unfolding(crate::specs::Reading::words_line))]
fn words_line(
    alloc: Global,
    form: Form,
    draft: &mut Draft,
    mut words: Words<'_>,
) -> Result<(), LineFlaw>
    ensures { Takes result (words_line form draft.old words.entry) draft.new }
{
    let Some(first) = words.next() else {
        return Ok(());
    };
    let Some(about) = FirstWord::of(first) else {
        return Err(LineFlaw::Bad(Flaw::at_first(Wanted::FormOfLine)));
    };
    want_first(form.line(), form.has(about))?;
    by_first_word(alloc, draft, about, words)
}

fn is_unprintable(b: u8) -> bool
    ensures { result ≡ is_unprintable b }
{
    b < 32 || 126 < b
}

// The first byte of a line that isn't printable, by how many stand before it.
fn first_unprintable(line: &[u8]) -> Option<usize>
    ensures { result ≡ position is_unprintable line.now }
{
    line.iter().position(|b| is_unprintable(*b))
}

// The same, or 0 where all are.
fn unprintable(line: &[u8]) -> usize
    ensures { result ≡ unprintable line.now }
{
    match first_unprintable(line) {
        Some(before) => before,
        None => 0,
    }
}

// Err unless a line has the bytes that it may have.
#[tactic(auto, unfolding(crate::specs::Reading::clean))]
fn clean(line: &[u8]) -> Result<(), Flaw>
    ensures { result ≡ clean line.now }
{
    if is_clean(line) {
        Ok(())
    } else {
        Err(Flaw::at_byte(unprintable(line), Wanted::PrintableByte))
    }
}

#[tactic(auto, unfolding(crate::specs::Reading::line_step))]
fn line_step(alloc: Global, form: Form, draft: &mut Draft, line: &[u8]) -> Result<(), LineFlaw>
    ensures { Takes result (line_step form draft.old line.now) draft.new }
{
    clean(line)?;
    words_line(alloc, form, draft, words_in(line))
}

// A line of the text, by its number.
fn numbered_line(
    alloc: Global,
    form: Form,
    draft: &mut Draft,
    number: u32,
    line: &[u8],
) -> Result<(), BadScenario>
    ensures { LineRead result (line_step form draft.old line.now) number draft.new }
{
    match line_step(alloc, form, draft, line) {
        Ok(()) => Ok(()),
        Err(LineFlaw::Bad(flaw)) => Err(BadScenario::BadLine { line: number, flaw }),
        Err(LineFlaw::NoMemory) => Err(BadScenario::NoMemory),
    }
}

/// The scenario of a text, for `run` or else for `sim`, or its first bad line with what is bad in it, by the first of
/// the kinds that apply to it.
#[tactic(auto, unfolding(crate::specs::Reading::text_read))]
pub fn read(alloc: Global, bytes: &[u8], run: bool) -> Result<Scenario, BadScenario>
    ensures reads { Reads run bytes.now result }
    ensures valid { IfOk result IsValid }
{
    let past = bytes.len() > MOST_BYTES;
    let draft = all_lines(alloc, prefix(bytes, MOST_BYTES), Form::of(run), past)?;
    Ok(draft.into_scenario())
}

// The draft that all lines make.
fn all_lines(alloc: Global, text: &[u8], form: Form, past: bool) -> Result<Draft, BadScenario>
    requires { length text.now ≤ MOST_BYTES }
    ensures { DraftRead result (lines_from form past 1 no_lines (pieces 10 text.now)) }
{
    let mut draft = Draft::empty(alloc);
    let mut rest = text;
    let mut line = 1;
    'lines: while let Some((first, more)) = cut(rest, b'\n') {
        numbered_line(alloc, form, &mut draft, line, first)?;
        rest = more;
        line += 1;
    }
    if past {
        return Err(BadScenario::BadLine {
            line,
            flaw: Flaw::at_byte(rest.len(), Wanted::SmallerFile),
        });
    }
    numbered_line(alloc, form, &mut draft, line, rest)?;
    Ok(draft)
}
