//! `cut`, and the lines of `sim` alone: `turn`, `flow`, `fault` and `settle`.

ghost use Rattle.std.specs.Prelude.{◌≡◌, ◌⊎◌, OnOk, length};
ghost use Rattle.m2_scenario_text.specs.Taking.{Takes};
ghost use Rattle.m2_scenario_text.specs.SimLines.{flow_of, fault_of, cut_line, turn_line, flow_line, fault_line, settle_line};

use crate::flaw::{Flaw, LineFlaw, Wanted, counted, number, want, want_first};
use crate::pair::{pair, place};
use m2_scenario::{Draft, Line, MOST_BYTES_BEFORE_CUT, MOST_CUTS, MOST_FAULTS, MOST_ROUNDS, Words};

/// One `settle` line has at most so many rounds.
pub const MOST_ROUNDS_OF_A_LINE: u64 = 10_000;

// The socket and the bytes of a flow: all of all sockets where no word is left.
#[tactic(auto, unfolding(crate::specs::SimLines::flow_of))]
fn flow_of(mut words: Words<'_>) -> Result<(u32, u64), Flaw>
    requires { (length words ≡ 0) ⊎ (length words ≡ 2) }
    ensures { result ≡ flow_of words.entry }
{
    if words.len() == 0 {
        return Ok((0, u64::MAX));
    }
    let socket = number(2, 1, 4294967295, words.take())? as u32;
    let most = number(3, 0, u64::MAX, words.take())?;
    Ok((socket, most))
}

// The socket of a fault: the newest where no word is left.
#[tactic(auto, unfolding(crate::specs::SimLines::fault_of))]
fn fault_of(mut words: Words<'_>) -> Result<u32, Flaw>
    ensures { result ≡ fault_of words.entry }
{
    match words.next() {
        None => Ok(0),
        Some(word) => Ok(number(2, 1, 4294967295, word)? as u32),
    }
}

#[tactic(auto, unfolding(crate::specs::SimLines::cut_line))]
pub(crate) fn cut_line(draft: &mut Draft, mut words: Words<'_>) -> Result<(), LineFlaw>
    ensures { Takes result (cut_line draft.old words.entry) draft.new }
{
    counted(3, 3, &words)?;
    let nodes = pair(draft, &mut words);
    let bytes = number(2, 0, u64::MAX, words.take())?;
    let (a, b) = nodes?;
    want(2, Wanted::EarlierCut, bytes <= MOST_BYTES_BEFORE_CUT)?;
    want_first(Wanted::FewerCuts, draft.counts().cuts < MOST_CUTS)?;
    draft.push_line(Line::Cut { a, b, bytes })?;
    Ok(())
}

#[tactic(auto, unfolding(crate::specs::SimLines::turn_line))]
pub(crate) fn turn_line(draft: &mut Draft, mut words: Words<'_>) -> Result<(), LineFlaw>
    ensures { Takes result (turn_line draft.old words.entry) draft.new }
{
    counted(1, 1, &words)?;
    let a = place(draft, 0, words.take())?;
    draft.push_line(Line::Turn { a })?;
    Ok(())
}

// Of two words all sockets flow, and all of their bytes.
#[tactic(auto, unfolding(crate::specs::SimLines::flow_line))]
pub(crate) fn flow_line(draft: &mut Draft, mut words: Words<'_>) -> Result<(), LineFlaw>
    ensures { Takes result (flow_line draft.old words.entry) draft.new }
{
    counted(2, 4, &words)?;
    want(3, Wanted::MoreWords, words.len() != 3)?;
    let nodes = pair(draft, &mut words);
    let (socket, most) = flow_of(words)?;
    let (a, b) = nodes?;
    draft.push_line(Line::Flow { a, b, socket, most })?;
    Ok(())
}

// Of two words the newest socket fails.
#[tactic(auto, unfolding(crate::specs::SimLines::fault_line))]
pub(crate) fn fault_line(draft: &mut Draft, mut words: Words<'_>) -> Result<(), LineFlaw>
    ensures { Takes result (fault_line draft.old words.entry) draft.new }
{
    counted(2, 3, &words)?;
    let nodes = pair(draft, &mut words);
    let socket = fault_of(words)?;
    let (a, b) = nodes?;
    want_first(Wanted::FewerFaults, draft.counts().faults < MOST_FAULTS)?;
    draft.push_line(Line::Fault { a, b, socket })?;
    Ok(())
}

#[tactic(auto, unfolding(crate::specs::SimLines::settle_line))]
pub(crate) fn settle_line(draft: &mut Draft, mut words: Words<'_>) -> Result<(), LineFlaw>
    ensures { Takes result (settle_line draft.old words.entry) draft.new }
{
    counted(1, 1, &words)?;
    let rounds = number(0, 1, MOST_ROUNDS_OF_A_LINE, words.take())? as u32;
    want(
        0,
        Wanted::FewerRounds,
        draft.counts().rounds as u64 + rounds as u64 <= MOST_ROUNDS as u64,
    )?;
    draft.push_line(Line::Settle { rounds })?;
    Ok(())
}
