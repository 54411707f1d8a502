//! The forms of lines.

ghost use Rattle.std.specs.Prelude.{◌≡◌, ◌≤◌, IfOk, length, drop};
ghost use Rattle.std.specs.Option.{is_some};
ghost use Rattle.m2_scenario.specs.Steps.{or_kind};
ghost use Rattle.m2_scenario.specs.declared.kind.Kind.TheVariants as kind;
ghost use Rattle.m2_scenario_text.specs.Flaw.{kind_alone};
ghost use Rattle.m2_scenario_text.specs.PlanLines.{message_of};
ghost use Rattle.m2_scenario_text.specs.Vocabulary.{policy_of};
ghost use Rattle.m2_scenario_text.specs.Lines.{DeedRead, IsTimed, MessageTaken, Takes, deed_by, facts_of, fault_deed, flow_deed, now_of, pair_line, post_deed, side_alone, side_at, side_of, tell_deed, wire_of};
ghost use Rattle.m2_scenario_text.specs.Schedule.{draft_of};
ghost use Rattle.m2_scenario.specs.Text.{word};

use crate::flaw::LineFlaw;
use crate::plan_lines::{are_short, message_of};
use crate::schedule::{Instruction, PairFacts, Schedule, SideName};
use crate::verb::Verb;
use crate::vocabulary::policy;
use m2_message::Message;
use m2_policy::{Policy, is_allowed};
use m2_scenario::{Kind, LineFault, Words, check, read_bytes, read_number};
use std::alloc::Global;

/// The most bytes that a throttle of a side lets in.
pub const MOST_THROTTLE: u64 = 402_653_184;

#[tactic(auto, unfolding(crate::specs::Lines::side_of))]
fn side(paired: bool, word: &[u8]) -> Result<SideName, Kind>
    ensures { result ≡ side_of paired word.now }
{
    check(Kind::NoNode, paired)?;
    if word == b"a".as_slice() {
        Ok(SideName::A)
    } else if word == b"b".as_slice() {
        Ok(SideName::B)
    } else {
        Err(Kind::NoNode)
    }
}

/// A moment in milliseconds, or a count of bytes.
fn now(word: &[u8]) -> Result<u64, Kind>
    ensures { result ≡ now_of word.now }
{
    read_number(Kind::Number, 0, u64::MAX, word)
}

fn wire(word: &[u8]) -> Result<u32, Kind>
    ensures { result ≡ wire_of word.now }
{
    Ok(read_number(Kind::Number, 1, 4_294_967_295, word)? as u32)
}

fn policy_named(word: &[u8]) -> Result<Policy, Kind>
    ensures { result ≡ or_kind kind.Policy (policy_of word.now) }
{
    match policy(word) {
        Some(policy) => Ok(policy),
        None => Err(Kind::Policy),
    }
}

#[tactic(auto, unfolding(crate::specs::Lines::facts_of))]
fn facts(mut words: Words<'_>) -> Result<PairFacts, Kind>
    requires { length words ≡ 3 }
    ensures { result ≡ facts_of words.entry }
{
    let first = words.take();
    let second = words.take();
    let throttle = read_number(Kind::Number, 1, MOST_THROTTLE, words.take())?;
    let of_a = policy_named(first)?;
    let of_b = policy_named(second)?;
    check(Kind::Policy, is_allowed(&of_a, &of_b))?;
    Ok(PairFacts {
        of_a,
        of_b,
        throttle,
    })
}

/// `pair POLICY POLICY THROTTLE`
#[tactic(auto, unfolding(crate::specs::Lines::pair_line))]
pub(crate) fn pair_line(draft: &mut Schedule, words: Words<'_>) -> Result<(), LineFault>
    ensures { Takes result (pair_line (draft_of draft.old) words.entry) (draft_of draft.new) }
{
    check(Kind::Words, words.len() == 3)?;
    let facts = facts(words)?;
    check(Kind::Taken, !draft.pair.is_some())?;
    draft.pair = Some(facts);
    Ok(())
}

/// The message of a post's last five words.
fn message(alloc: Global, words: Words<'_>) -> Result<Message, LineFault>
    requires { length words ≡ 5 }
    ensures { MessageTaken result (kind_alone (message_of 1 words.entry)) }
{
    match message_of(alloc, 1, words) {
        Ok(message) => Ok(message),
        Err(LineFlaw::Bad(flaw)) => Err(LineFault::Bad(flaw.kind())),
        Err(LineFlaw::NoMemory) => Err(LineFault::NoMemory),
    }
}

/// `post SIDE KIND PRIORITY FRONT MIDDLE DATA`
#[tactic(auto, unfolding(crate::specs::Lines::post_deed))]
fn post(alloc: Global, paired: bool, mut words: Words<'_>) -> Result<Instruction, LineFault>
    ensures { DeedRead result (post_deed paired words.entry) }
{
    check(Kind::Words, words.len() == 6)?;
    let first = words.take();
    let message = message(alloc, words)?;
    let side = side(paired, first)?;
    check(Kind::Limit, are_short(&message))?;
    Ok(Instruction::Post { side, message })
}

/// `dial SIDE` and `down SIDE`
#[tactic(auto, unfolding(crate::specs::Lines::side_alone))]
fn side_alone(paired: bool, mut words: Words<'_>) -> Result<SideName, Kind>
    ensures { result ≡ side_alone paired words.entry }
{
    check(Kind::Words, words.len() == 1)?;
    side(paired, words.take())
}

/// `connect SIDE NOW`, `step SIDE NOW`, `arrivals SIDE NOW` and `turn SIDE NOW`
#[tactic(auto, unfolding(crate::specs::Lines::side_at))]
fn side_at(paired: bool, mut words: Words<'_>) -> Result<(SideName, u64), Kind>
    ensures { result ≡ side_at paired words.entry }
{
    check(Kind::Words, words.len() == 2)?;
    let first = words.take();
    let now = now(words.take())?;
    let side = side(paired, first)?;
    Ok((side, now))
}

/// `flow SIDE WIRE MOST`
#[tactic(auto, unfolding(crate::specs::Lines::flow_deed))]
fn flow(paired: bool, mut words: Words<'_>) -> Result<Instruction, LineFault>
    ensures { DeedRead result (flow_deed paired words.entry) }
{
    check(Kind::Words, words.len() == 3)?;
    let first = words.take();
    let wire = wire(words.take())?;
    let most = now(words.take())?;
    let side = side(paired, first)?;
    Ok(Instruction::Flow { side, wire, most })
}

/// `fault SIDE WIRE`
#[tactic(auto, unfolding(crate::specs::Lines::fault_deed))]
fn fault(paired: bool, mut words: Words<'_>) -> Result<Instruction, LineFault>
    ensures { DeedRead result (fault_deed paired words.entry) }
{
    check(Kind::Words, words.len() == 2)?;
    let first = words.take();
    let wire = wire(words.take())?;
    let side = side(paired, first)?;
    Ok(Instruction::Fault { side, wire })
}

/// `tell SIDE WIRE BYTES`
#[tactic(auto, unfolding(crate::specs::Lines::tell_deed))]
fn tell(alloc: Global, paired: bool, mut words: Words<'_>) -> Result<Instruction, LineFault>
    ensures { DeedRead result (tell_deed paired words.entry) }
{
    check(Kind::Words, words.len() == 3)?;
    let first = words.take();
    let wire = wire(words.take())?;
    let bytes = read_bytes(alloc, words.take())?;
    let side = side(paired, first)?;
    Ok(Instruction::Tell { side, wire, bytes })
}

/// `connect`, `step`, `arrivals` or `turn`; no other comes here.
fn timed(verb: Verb, paired: bool, words: Words<'_>) -> Result<Instruction, LineFault>
    requires { IsTimed verb }
    ensures { DeedRead result (deed_by paired verb words.entry) }
{
    let (side, now) = side_at(paired, words)?;
    match verb {
        Verb::Connect => Ok(Instruction::Connect { side, now }),
        Verb::Step => Ok(Instruction::Step { side, now }),
        Verb::Arrivals => Ok(Instruction::Arrivals { side, now }),
        _ => Ok(Instruction::Turn { side, now }),
    }
}

/// An instruction by its verb and the words behind it.
pub(crate) fn deed(
    alloc: Global,
    paired: bool,
    verb: Verb,
    words: Words<'_>,
) -> Result<Instruction, LineFault>
    ensures { DeedRead result (deed_by paired verb words.entry) }
{
    match verb {
        Verb::Post => post(alloc, paired, words),
        Verb::Dial => Ok(Instruction::Dial {
            side: side_alone(paired, words)?,
        }),
        Verb::Down => Ok(Instruction::Down {
            side: side_alone(paired, words)?,
        }),
        Verb::Connect | Verb::Step | Verb::Arrivals | Verb::Turn => timed(verb, paired, words),
        Verb::Flow => flow(paired, words),
        Verb::Fault => fault(paired, words),
        Verb::Tell => tell(alloc, paired, words),
        Verb::Pair => Err(LineFault::Bad(Kind::Unknown)),
    }
}
