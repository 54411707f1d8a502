//! What a frame in place says.

ghost use Rattle.std.specs.Prelude.{◌≡◌, ◌+◌, ◌≤◌, true, false, length};
ghost use Rattle.std.specs.Int.{w64};
ghost use Rattle.m2_addr.specs.Vector.{main_of};
ghost use Rattle.m2_control.specs.Control.{payload_of, takes_memory};
ghost use Rattle.m2_control.specs.ServerFacts.{facts_of};
ghost use Rattle.m2_frame.specs.View.{parts_seen};
ghost use Rattle.m2_handshake.specs.Ident.{server_check};
ghost use Rattle.m2_message.specs.declared.header_text.TheConstants.{HEADER_BYTES};
ghost use Rattle.m2_message.specs.HeaderText.{field, header_in};
ghost use Rattle.m2_frame.specs.declared.tag.Tag.{Tag};
ghost use Rattle.m2_feed.specs.FrameHeard.{answer_cause, checked_cause, heard_ack, heard_as_answer, heard_control, heard_frame, heard_in_ready, heard_message, heard_numbers, heard_of_tag, heard_payload, ident_cause, may_come};

use crate::frame_heard::FrameHeard;
use crate::hearer::Hearer;
use crate::wire_fault::WireFault;
use byteorder::{ByteOrder, LittleEndian};
use m2_addr::Addr;
use m2_control::{Control, ServerFacts, ServerIdent};
use m2_frame::{FrameView, Tag};
use m2_handshake::check_server_ident;
use m2_message::{HEADER_BYTES, MessageFault};
use m2_session::Phase;

/// Where the number of a message stands in its header, and what it acknowledges.
const SEQ_AT: usize = 0;

const ACK_SEQ_AT: usize = 28;

/// What a whole frame at the front says.
pub fn hear(frame: &FrameView<'_>, hearer: &Hearer) -> FrameHeard
    ensures { result ≡ heard_frame hearer.now (parts_seen frame.now) }
{
    match Tag::of(frame.tag) {
        Some(tag) => {
            if may_come(tag, hearer.phase) {
                hear_tag(tag, frame.first, hearer)
            } else {
                FrameHeard::Fault(WireFault::Unexpected { tag: frame.tag })
            }
        }
        None => FrameHeard::Fault(WireFault::Unexpected { tag: frame.tag }),
    }
}

/// Whether a frame of this tag may come.
fn may_come(tag: Tag, phase: Phase) -> bool
    ensures { result ≡ may_come tag phase }
{
    match phase {
        Phase::IdentSent => {
            matches!(
                tag,
                Tag::ServerIdent | Tag::IdentMissingFeatures | Tag::Wait
            )
        }
        Phase::ReconnectSent => matches!(
            tag,
            Tag::SessionReset
                | Tag::SessionRetry
                | Tag::SessionRetryGlobal
                | Tag::SessionReconnectOk
                | Tag::Wait
        ),
        Phase::Ready => matches!(
            tag,
            Tag::Message | Tag::Keepalive | Tag::KeepaliveAck | Tag::Ack
        ),
        _ => false,
    }
}

/// What a frame says whose tag may come.
#[tactic(auto, using(crate::proofs::Tags::is_plain))]
fn hear_tag(tag: Tag, first: &[u8], hearer: &Hearer) -> FrameHeard
    requires { may_come tag hearer.now.phase ≡ true }
    ensures { result ≡ heard_of_tag hearer.now tag first.now }
{
    match tag {
        Tag::Message => hear_message(first, hearer),
        Tag::ServerIdent => hear_ident(first, hearer),
        plain => hear_plain(plain, first, hearer),
    }
}

/// What a message says, by its header.
fn hear_message(first: &[u8], hearer: &Hearer) -> FrameHeard
    ensures { result ≡ heard_message hearer.now first.now }
{
    if first.len() != HEADER_BYTES {
        return FrameHeard::Fault(WireFault::Message(MessageFault::BadHeader));
    }
    hear_numbers(u64_at(first, SEQ_AT), u64_at(first, ACK_SEQ_AT), hearer)
}

/// Eight bytes as a number.
fn u64_at(text: &[u8], at: usize) -> u64
    requires { at + 8 ≤ length text.now }
    ensures { result ≡ field w64 at text.now }
{
    LittleEndian::read_u64(&text[at..at + 8])
}

/// What a message says with this number, which acknowledges up to that one.
fn hear_numbers(seq: u64, ack_seq: u64, hearer: &Hearer) -> FrameHeard
    ensures { result ≡ heard_numbers hearer.now seq ack_seq }
{
    if seq > hearer.last && seq - 1 > hearer.last {
        return FrameHeard::Fault(WireFault::Gap {
            last: hearer.last,
            got: seq,
        });
    }
    let besides = if seq <= hearer.last {
        FrameHeard::Nothing
    } else {
        FrameHeard::Brings { number: seq }
    };
    hear_ack(ack_seq, besides, hearer)
}

/// What an acknowledgement says, of a frame that says this besides.
fn hear_ack(number: u64, besides: FrameHeard, hearer: &Hearer) -> FrameHeard
    ensures { result ≡ heard_ack hearer.now number besides }
{
    if number > hearer.written {
        return FrameHeard::Fault(WireFault::BadAck {
            written: hearer.written,
            got: number,
        });
    }
    if number > hearer.acknowledged {
        return FrameHeard::Acknowledges { number };
    }
    besides
}

/// What an ident says that wasn't taken when it was read.
fn hear_ident(payload: &[u8], hearer: &Hearer) -> FrameHeard
    requires { may_come Tag.ServerIdent hearer.now.phase ≡ true }
    ensures { result ≡ heard_payload hearer.now (payload_of Tag.ServerIdent payload.now) }
{
    match ServerFacts::read(payload) {
        Ok(facts) => FrameHeard::Fault(facts_cause(&facts, hearer)),
        Err(e) => FrameHeard::Fault(WireFault::Control(e)),
    }
}

/// What a payload says that is read without memory.
fn hear_plain(tag: Tag, payload: &[u8], hearer: &Hearer) -> FrameHeard
    requires { takes_memory tag ≡ false }
    ensures { result ≡ heard_payload hearer.now (payload_of tag payload.now) }
{
    match Control::read_plain(tag, payload) {
        Ok(control) => hear_control(&control, hearer),
        Err(e) => FrameHeard::Fault(WireFault::Control(e)),
    }
}

/// What a payload says that may come.
fn hear_control(control: &Control, hearer: &Hearer) -> FrameHeard
    ensures { result ≡ heard_control hearer.now control.now }
{
    match hearer.phase {
        Phase::Ready => hear_in_ready(control, hearer),
        _ => hear_as_answer(control, hearer),
    }
}

/// What a payload says in Ready.
fn hear_in_ready(control: &Control, hearer: &Hearer) -> FrameHeard
    ensures { result ≡ heard_in_ready hearer.now control.now }
{
    match control {
        Control::Ack(ack) => hear_ack(ack.seen, FrameHeard::Nothing, hearer),
        Control::Keepalive(stamp) => FrameHeard::Stamp(*stamp),
        Control::KeepaliveAck(_) => FrameHeard::Nothing,
        other => FrameHeard::Fault(WireFault::Unexpected { tag: other.tag() }),
    }
}

/// What an answer says that wasn't taken when it was read.
fn hear_as_answer(control: &Control, hearer: &Hearer) -> FrameHeard
    ensures { result ≡ heard_as_answer hearer.now control.now }
{
    match control {
        Control::SessionReset(reset) => FrameHeard::Resets { full: reset.full },
        other => FrameHeard::Fault(answer_cause(other, hearer)),
    }
}

/// Why an answer wasn't taken when it was read.
fn answer_cause(control: &Control, hearer: &Hearer) -> WireFault
    ensures { result ≡ answer_cause hearer.now control.now }
{
    match control {
        Control::ServerIdent(ident) => ident_cause(ident, hearer),
        Control::IdentMissingFeatures(missing) => WireFault::MissingFeatures { bits: missing.bits },
        Control::Wait(_) => WireFault::Waited,
        other => WireFault::Unexpected { tag: other.tag() },
    }
}

/// Why an ident wasn't taken when it was read.
fn ident_cause(ident: &ServerIdent, hearer: &Hearer) -> WireFault
    ensures { result ≡ ident_cause hearer.now ident.now (main_of ident.now.addrs) }
{
    match ident.addrs.main() {
        Ok(main) => facts_cause(&facts_of(ident, main), hearer),
        Err(_) => WireFault::Unexpected {
            tag: Tag::ServerIdent.number(),
        },
    }
}

/// The facts of an ident with this main address.
fn facts_of(ident: &ServerIdent, main: Addr) -> ServerFacts
    ensures { result ≡ facts_of ident.now main }
{
    ServerFacts {
        main,
        gid: ident.gid,
        global: ident.global,
        supported: ident.supported,
        required: ident.required,
        flags: ident.flags,
        cookie: ident.cookie,
    }
}

/// Why an ident with these facts wasn't taken when it was read.
fn facts_cause(facts: &ServerFacts, hearer: &Hearer) -> WireFault
    ensures { result ≡ checked_cause (server_check facts.now hearer.now.peer hearer.now.policy) }
{
    match check_server_ident(facts, &hearer.peer, &hearer.policy) {
        Ok(()) => WireFault::Unexpected {
            tag: Tag::ServerIdent.number(),
        },
        Err(e) => WireFault::Half(e),
    }
}
