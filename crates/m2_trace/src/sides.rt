//! What a side knows, where it stands, and what was handed out, as lines.

ghost use Rattle.std.specs.Prelude.{◌≡◌, ◌++◌, codes, OnOk};
ghost use Rattle.std.specs.List.{flat_map};
ghost use Rattle.m2_dispatch.specs.Heard.{heard_of, heard_by};
ghost use Rattle.m2_message.specs.Message.{content_of};
ghost use Rattle.m2_trace.specs.Sides.{policy_words, identity_words, features_words, waits_words, address_line, node_line, start_lines, parts_words, post_words, step_words, step_line, phase_word, numbers_words, session_words, session_line, message_words, heard_words, heard_line};
ghost use Rattle.m2_trace.specs.Words.{key_words, number_word};

use crate::words::{put_address, put_bytes, put_flag, put_head, put_key, put_number};
use m2_bytes::{Blob, NoMemory};
use m2_dispatch::Logged;
use m2_journal::{NodeFacts, PlanStep};
use m2_message::Message;
use m2_policy::{Key, Policy};
use m2_session::{Phase, Session};

#[tactic(auto, unfolding(crate::specs::Sides::policy_words))]
fn put_policy(out: &mut Blob, p: &Policy) -> Result<(), NoMemory>
    ensures { OnOk result (out.new.bytes ≡ out.old.bytes ++ policy_words p.now) }
{
    put_flag(out, p.lossy)?;
    put_flag(out, p.server)?;
    put_flag(out, p.standby)?;
    put_flag(out, p.resetcheck)
}

#[tactic(auto, unfolding(crate::specs::Sides::address_line, crate::specs::Words::line))]
fn put_address_line(out: &mut Blob, side: &[u8], s: &Session) -> Result<(), NoMemory>
    ensures { OnOk result (out.new.bytes ≡ out.old.bytes ++ address_line side.now s.now) }
{
    put_head(out, side, b"address")?;
    put_address(out, &s.mine)?;
    put_policy(out, &s.policy)?;
    out.push_all(b"\n")
}

#[tactic(auto, unfolding(crate::specs::Sides::identity_words))]
fn put_identity(out: &mut Blob, f: &NodeFacts) -> Result<(), NoMemory>
    ensures { OnOk result (out.new.bytes ≡ out.old.bytes ++ identity_words f.now) }
{
    put_number(out, f.entity as u64)?;
    put_number(out, f.number as u64)?;
    put_number(out, f.salt as u64)
}

#[tactic(auto, unfolding(crate::specs::Sides::features_words))]
fn put_features(out: &mut Blob, f: &NodeFacts) -> Result<(), NoMemory>
    ensures { OnOk result (out.new.bytes ≡ out.old.bytes ++ features_words f.now) }
{
    put_number(out, f.supports)?;
    put_number(out, f.requires_)
}

#[tactic(auto, unfolding(crate::specs::Sides::waits_words))]
fn put_waits(out: &mut Blob, f: &NodeFacts) -> Result<(), NoMemory>
    ensures { OnOk result (out.new.bytes ≡ out.old.bytes ++ waits_words f.now) }
{
    put_number(out, f.first_wait)?;
    put_number(out, f.most_wait)
}

#[tactic(auto, unfolding(crate::specs::Sides::identity_words))]
fn put_node_words(out: &mut Blob, f: &NodeFacts) -> Result<(), NoMemory>
    ensures { OnOk result (out.new.bytes ≡ out.old.bytes ++ (identity_words f.now ++ features_words f.now ++ waits_words f.now)) }
{
    put_identity(out, f)?;
    put_features(out, f)?;
    put_waits(out, f)
}

/// Appends the line of what a node tells its records.
#[tactic(auto, unfolding(crate::specs::Sides::node_line, crate::specs::Words::line))]
pub fn put_node(out: &mut Blob, side: &[u8], f: &NodeFacts) -> Result<(), NoMemory>
    ensures { OnOk result (out.new.bytes ≡ out.old.bytes ++ node_line side.now f.now) }
{
    put_head(out, side, b"node")?;
    put_node_words(out, f)?;
    out.push_all(b"\n")
}

/// Appends what a side knows from its start: its address and policy, and what its node tells.
#[tactic(auto, unfolding(crate::specs::Sides::start_lines))]
pub fn put_start(out: &mut Blob, side: &[u8], s: &Session, f: &NodeFacts) -> Result<(), NoMemory>
    ensures { OnOk result (out.new.bytes ≡ out.old.bytes ++ start_lines side.now s.now f.now) }
{
    put_address_line(out, side, s)?;
    put_node(out, side, f)
}

#[tactic(auto, unfolding(crate::specs::Sides::parts_words))]
fn put_parts(out: &mut Blob, m: &Message) -> Result<(), NoMemory>
    ensures { OnOk result (out.new.bytes ≡ out.old.bytes ++ parts_words (content_of m.now)) }
{
    put_bytes(out, m.front.as_slice())?;
    put_bytes(out, m.middle.as_slice())?;
    put_bytes(out, m.tail.as_slice())
}

#[tactic(auto, unfolding(crate::specs::Sides::post_words))]
fn put_post(out: &mut Blob, m: &Message) -> Result<(), NoMemory>
    ensures { OnOk result (out.new.bytes ≡ out.old.bytes ++ post_words (content_of m.now)) }
{
    out.push_all(b" post")?;
    put_number(out, m.header.kind as u64)?;
    put_number(out, m.header.priority as u64)?;
    put_parts(out, m)
}

#[tactic(auto, unfolding(crate::specs::Sides::step_words))]
fn put_step_words(out: &mut Blob, step: &PlanStep) -> Result<(), NoMemory>
    ensures { OnOk result (out.new.bytes ≡ out.old.bytes ++ step_words step.now) }
{
    match step {
        PlanStep::Post(m) => put_post(out, m),
        PlanStep::Dial => out.push_all(b" dial"),
        PlanStep::Down => out.push_all(b" down"),
    }
}

#[tactic(auto, unfolding(crate::specs::Sides::step_line, crate::specs::Words::line))]
fn put_step(out: &mut Blob, side: &[u8], step: &PlanStep) -> Result<(), NoMemory>
    ensures { OnOk result (out.new.bytes ≡ out.old.bytes ++ step_line side.now step.now) }
{
    put_head(out, side, b"plan")?;
    put_step_words(out, step)?;
    out.push_all(b"\n")
}

/// Appends the steps of a plan, in order.
pub fn put_plan(out: &mut Blob, side: &[u8], plan: &[PlanStep]) -> Result<(), NoMemory>
    ensures { OnOk result (out.new.bytes ≡ out.old.bytes ++ flat_map (step_line side.now) plan.now) }
{
    for step in plan {
        put_step(out, side, step)?;
    }
    Ok(())
}

#[tactic(auto, unfolding(crate::specs::Sides::phase_word))]
fn put_phase(out: &mut Blob, phase: Phase) -> Result<(), NoMemory>
    ensures { OnOk result (out.new.bytes ≡ out.old.bytes ++ phase_word phase) }
{
    match phase {
        Phase::Absent => out.push_all(b" absent"),
        Phase::Connecting => out.push_all(b" connecting"),
        Phase::IdentSent => out.push_all(b" ident_sent"),
        Phase::ReconnectSent => out.push_all(b" reconnect_sent"),
        Phase::Ready => out.push_all(b" ready"),
        Phase::Standby => out.push_all(b" standby"),
        Phase::Wait => out.push_all(b" wait"),
    }
}

#[tactic(auto, unfolding(crate::specs::Sides::numbers_words))]
fn put_numbers(out: &mut Blob, s: &Session) -> Result<(), NoMemory>
    ensures { OnOk result (out.new.bytes ≡ out.old.bytes ++ numbers_words s.now) }
{
    put_number(out, s.peer_global)?;
    put_number(out, s.connect)?;
    put_flag(out, s.lost_ready)
}

/// Appends where a session stands, as [`put_session`] does in its line.
#[tactic(auto, unfolding(crate::specs::Sides::session_words))]
pub fn put_session_words(out: &mut Blob, s: &Session) -> Result<(), NoMemory>
    ensures { OnOk result (out.new.bytes ≡ out.old.bytes ++ session_words s.now) }
{
    put_phase(out, s.phase)?;
    put_number(out, s.client_cookie)?;
    put_number(out, s.server_cookie)?;
    put_numbers(out, s)
}

/// Appends the line of a session: its phase, both cookies, the peer's global number, the connect number, and
/// whether the socket was lost in Ready.
#[tactic(auto, unfolding(crate::specs::Sides::session_line, crate::specs::Words::line))]
pub fn put_session(out: &mut Blob, side: &[u8], s: &Session) -> Result<(), NoMemory>
    ensures { OnOk result (out.new.bytes ≡ out.old.bytes ++ session_line side.now s.now) }
{
    put_head(out, side, b"session")?;
    put_session_words(out, s)?;
    out.push_all(b"\n")
}

#[tactic(auto, unfolding(crate::specs::Sides::message_words))]
fn put_message(out: &mut Blob, key: &Key, number: u64, m: &Message) -> Result<(), NoMemory>
    ensures { OnOk result (out.new.bytes ≡ out.old.bytes ++ message_words key.now number (content_of m.now)) }
{
    put_number(out, number)?;
    put_key(out, key)?;
    put_number(out, m.header.kind as u64)?;
    put_parts(out, m)
}

#[tactic(auto, unfolding(crate::specs::Sides::heard_words))]
fn put_heard_words(out: &mut Blob, call: &Logged) -> Result<(), NoMemory>
    ensures { OnOk result (out.new.bytes ≡ out.old.bytes ++ heard_words (heard_of call.now)) }
{
    match call {
        Logged::Message {
            peer: _,
            key,
            number,
            life: _,
            message,
        } => {
            out.push_all(b" message")?;
            put_message(out, key, *number, message)
        }
        Logged::Reset { peer: _ } => out.push_all(b" reset"),
    }
}

#[tactic(auto, unfolding(crate::specs::Sides::heard_line, crate::specs::Words::line))]
fn put_heard(out: &mut Blob, side: &[u8], call: &Logged) -> Result<(), NoMemory>
    ensures { OnOk result (out.new.bytes ≡ out.old.bytes ++ heard_line side.now (heard_of call.now)) }
{
    put_head(out, side, b"handed")?;
    put_heard_words(out, call)?;
    out.push_all(b"\n")
}

/// Appends what was handed to a dispatcher, in order.
pub fn put_handed(out: &mut Blob, side: &[u8], log: &[Logged]) -> Result<(), NoMemory>
    ensures { OnOk result (out.new.bytes ≡ out.old.bytes ++ flat_map (heard_line side.now) (heard_by log.now)) }
{
    for call in log {
        put_heard(out, side, call)?;
    }
    Ok(())
}
