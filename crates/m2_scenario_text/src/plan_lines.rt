//! The steps of a node's plan: `post`, `dial` and `down`.

ghost use Rattle.std.specs.Prelude.{◌≡◌, ◌≤◌, true, IfOk, OnOk, length, drop};
ghost use Rattle.m2_scenario.specs.Text.{word};
ghost use Rattle.m2_message.specs.Message.{content_of};
ghost use Rattle.m2_scenario_text.specs.Taking.{MessageRead, Takes};
ghost use Rattle.m2_scenario_text.specs.PlanLines.{planned_pair, nodes_alone, message_of, short_parts, post_line, dial_line, down_line};
ghost use Rattle.m2_scenario.specs.Valid.{are_short};
ghost use Rattle.m2_scenario_text.specs.Pair.{AreJoined};

use crate::flaw::{Flaw, LineFlaw, Wanted, bytes, counted, number, want, want_first};
use crate::pair::pair;
use m2_message::Message;
use m2_scenario::{Draft, Line, MOST_PART_BYTES, MOST_POSTS, Words, posted};
use std::alloc::Global;

/// The least priority that a post may have.
pub const LEAST_PRIORITY: u64 = 64;

/// The greatest priority that a post may have.
pub const MOST_PRIORITY: u64 = 255;

// The two joined nodes that the next two words name, of which the first is started.
#[tactic(auto, unfolding(crate::specs::PlanLines::planned_pair))]
fn planned_pair(draft: &Draft, words: &mut Words<'_>) -> Result<(u32, u32), Flaw>
    requires { 2 ≤ length words.old }
    ensures value { result ≡ planned_pair draft.now (word words.old 0) (word words.old 1) }
    ensures joined { IfOk result (AreJoined draft.now) }
    ensures rest { words.new ≡ drop 2 words.old }
{
    let (a, b) = pair(draft, words)?;
    want(0, Wanted::StartedNode, draft.nodes()[a as usize].started)?;
    Ok((a, b))
}

/// The message of a post's last five words, which stand behind the first one and so many others.
#[tactic(auto, unfolding(crate::specs::PlanLines::message_of))]
pub(crate) fn message_of(
    alloc: Global,
    behind: usize,
    mut words: Words<'_>,
) -> Result<Message, LineFlaw>
    requires count { length words ≡ 5 }
    requires place { behind ≤ 2 }
    ensures { MessageRead result (message_of behind words.entry) }
{
    let kind = number(behind, 0, 65535, words.take())? as u16;
    let priority = number(behind + 1, LEAST_PRIORITY, MOST_PRIORITY, words.take())? as u16;
    let front = bytes(alloc, behind + 2, words.take())?;
    let middle = bytes(alloc, behind + 3, words.take())?;
    let tail = bytes(alloc, behind + 4, words.take())?;
    Ok(posted(kind, priority, front, middle, tail)?)
}

/// Whether each part is short enough.
pub(crate) fn are_short(message: &Message) -> bool
    ensures { result ≡ are_short (content_of message.now) }
{
    message.front.len() <= MOST_PART_BYTES
        && message.middle.len() <= MOST_PART_BYTES
        && message.tail.len() <= MOST_PART_BYTES
}

// Err unless each part is short enough.
#[tactic(auto, unfolding(crate::specs::PlanLines::short_parts))]
fn short_parts(message: &Message) -> Result<(), Flaw>
    ensures value { result ≡ short_parts (content_of message.now) }
    ensures short { OnOk result (are_short (content_of message.now) ≡ true) }
{
    want(
        4,
        Wanted::ShorterPart,
        message.front.len() <= MOST_PART_BYTES,
    )?;
    want(
        5,
        Wanted::ShorterPart,
        message.middle.len() <= MOST_PART_BYTES,
    )?;
    want(
        6,
        Wanted::ShorterPart,
        message.tail.len() <= MOST_PART_BYTES,
    )
}

#[tactic(auto, unfolding(crate::specs::PlanLines::post_line))]
pub(crate) fn post_line(
    alloc: Global,
    draft: &mut Draft,
    mut words: Words<'_>,
) -> Result<(), LineFlaw>
    ensures { Takes result (post_line draft.old words.entry) draft.new }
{
    counted(7, 7, &words)?;
    let nodes = planned_pair(draft, &mut words);
    let message = message_of(alloc, 2, words)?;
    let (a, b) = nodes?;
    short_parts(&message)?;
    want_first(Wanted::FewerPosts, draft.counts().posts < MOST_POSTS)?;
    draft.push_line(Line::Post { a, b, message })?;
    Ok(())
}

// The nodes of a line that names two and nothing else: `dial A B` and `down A B`.
#[tactic(auto, unfolding(crate::specs::PlanLines::nodes_alone))]
fn nodes_alone(draft: &Draft, mut words: Words<'_>) -> Result<(u32, u32), Flaw>
    ensures value { result ≡ nodes_alone draft.now words.entry }
    ensures joined { IfOk result (AreJoined draft.now) }
{
    counted(2, 2, &words)?;
    planned_pair(draft, &mut words)
}

#[tactic(auto, unfolding(crate::specs::PlanLines::dial_line))]
pub(crate) fn dial_line(draft: &mut Draft, words: Words<'_>) -> Result<(), LineFlaw>
    ensures { Takes result (dial_line draft.old words.entry) draft.new }
{
    let (a, b) = nodes_alone(draft, words)?;
    draft.push_line(Line::Dial { a, b })?;
    Ok(())
}

#[tactic(auto, unfolding(crate::specs::PlanLines::down_line))]
pub(crate) fn down_line(draft: &mut Draft, words: Words<'_>) -> Result<(), LineFlaw>
    ensures { Takes result (down_line draft.old words.entry) draft.new }
{
    let (a, b) = nodes_alone(draft, words)?;
    draft.push_line(Line::Down { a, b })?;
    Ok(())
}
