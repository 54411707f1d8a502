//! What a frame says to a side that has asked.

ghost use Rattle.std.specs.Prelude.{◌≡◌, ◌≢◌, false};
ghost use Rattle.m2_addr.specs.declared.addr.Addr.{Addr};
ghost use Rattle.m2_control.specs.declared.control.Control.TheVariants as control;
ghost use Rattle.m2_control.specs.declared.server_ident.ServerIdent.{ServerIdent};
ghost use Rattle.m2_control.specs.Control.{payload_of, takes_memory};
ghost use Rattle.m2_frame.specs.View.{parts_seen};
ghost use Rattle.m2_policy.specs.declared.policy.Policy.{Policy};
ghost use Rattle.m2_session.specs.declared.session.Phase.TheVariants as phase;
ghost use Rattle.m2_frame.specs.declared.tag.Tag.TheVariants as tag;
ghost use Rattle.m2_feed.specs.declared.answer_fault.AnswerFault.TheVariants as fault;
ghost use Rattle.m2_feed.specs.declared.heard.Heard.TheVariants as heard;
ghost use Rattle.m2_feed.specs.Heard.{IsBounded, heard_in, of_control, of_payload};

use crate::answer_fault::AnswerFault;
use crate::heard::Heard;
use m2_addr::Addr;
use m2_control::{Control, ServerFacts};
use m2_frame::{FrameView, Tag};
use m2_handshake::check_server_ident;
use m2_policy::Policy;
use m2_session::Phase;

/// What a frame says to a side in this phase, which dialled its peer at this address under this policy.
pub fn heard_in(frame: &FrameView<'_>, phase: Phase, peer: &Addr, policy: &Policy) -> Heard
    ensures exact { result ≡ heard_in peer.now policy.now phase (parts_seen frame.now) }
    ensures bounded { IsBounded result }
{
    match phase {
        Phase::IdentSent => answer_to_ident(frame, peer, policy),
        Phase::ReconnectSent => answer_to_reconnect(frame),
        _ => unexpected(frame.tag),
    }
}

/// A frame with another tag than those of the answers.
fn unexpected(tag: u8) -> Heard
    ensures value { result ≡ heard.Refused (fault.Unexpected tag) }
{
    Heard::Refused(AnswerFault::Unexpected { tag })
}

/// What a frame says to a side that has sent a CLIENT_IDENT.
fn answer_to_ident(frame: &FrameView<'_>, peer: &Addr, policy: &Policy) -> Heard
    ensures exact { result ≡ heard_in peer.now policy.now phase.IdentSent (parts_seen frame.now) }
    ensures bounded { IsBounded result }
{
    match Tag::of(frame.tag) {
        Some(Tag::ServerIdent) => in_ident(frame.first, peer, policy),
        Some(Tag::IdentMissingFeatures) => in_plain(Tag::IdentMissingFeatures, frame.first),
        Some(Tag::Wait) => in_plain(Tag::Wait, frame.first),
        _ => unexpected(frame.tag),
    }
}

/// What a frame says to a side that has sent a SESSION_RECONNECT.
fn answer_to_reconnect(frame: &FrameView<'_>) -> Heard
    ensures exact { (peer : Addr) (policy : Policy) → result ≡ heard_in peer policy phase.ReconnectSent (parts_seen frame.now) }
    ensures bounded { IsBounded result }
{
    match Tag::of(frame.tag) {
        Some(Tag::SessionReset) => in_plain(Tag::SessionReset, frame.first),
        Some(Tag::SessionRetry) => in_plain(Tag::SessionRetry, frame.first),
        Some(Tag::SessionRetryGlobal) => in_plain(Tag::SessionRetryGlobal, frame.first),
        Some(Tag::SessionReconnectOk) => in_plain(Tag::SessionReconnectOk, frame.first),
        Some(Tag::Wait) => in_plain(Tag::Wait, frame.first),
        _ => unexpected(frame.tag),
    }
}

/// What the payload of a SERVER_IDENT says.
fn in_ident(payload: &[u8], peer: &Addr, policy: &Policy) -> Heard
    ensures exact { result ≡ of_payload peer.now policy.now (payload_of tag.ServerIdent payload.now) }
    ensures bounded { IsBounded result }
{
    let facts = match ServerFacts::read(payload) {
        Ok(facts) => facts,
        Err(e) => return Heard::Refused(AnswerFault::Control(e)),
    };
    match check_server_ident(&facts, peer, policy) {
        Ok(()) => Heard::ServerIdent {
            cookie: facts.cookie,
            global: facts.global,
        },
        Err(e) => Heard::Refused(AnswerFault::Half(e)),
    }
}

/// What the payload of another answer says.
fn in_plain(tag: Tag, payload: &[u8]) -> Heard
    requires { takes_memory tag ≡ false }
    ensures exact { (peer : Addr) (policy : Policy) → result ≡ of_payload peer policy (payload_of tag payload.now) }
    ensures bounded { IsBounded result }
{
    match Control::read_plain(tag, payload) {
        Ok(c) => in_control(&c),
        Err(e) => Heard::Refused(AnswerFault::Control(e)),
    }
}

/// What a payload says that is no SERVER_IDENT.
fn in_control(c: &Control) -> Heard
    requires { (i : ServerIdent) → c.now ≢ control.ServerIdent i }
    ensures { (peer : Addr) (policy : Policy) → result ≡ of_control peer policy c.now }
{
    match c {
        Control::SessionReconnectOk(p) => Heard::ReconnectOk { seen: p.seen },
        Control::SessionRetry(p) => Heard::Retry { number: p.connect },
        Control::SessionRetryGlobal(p) => Heard::RetryGlobal { number: p.global },
        Control::Wait(_) => Heard::Wait,
        Control::SessionReset(p) => Heard::Reset { full: p.full },
        Control::IdentMissingFeatures(p) => {
            Heard::Refused(AnswerFault::MissingFeatures { bits: p.bits })
        }
        other => unexpected(other.tag()),
    }
}
