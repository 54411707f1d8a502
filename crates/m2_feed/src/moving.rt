//! The parts of a feed's calls, over the fields that each of them is about.

ghost use Rattle.std.specs.Prelude.{◌≡◌, ℕ, ◌+◌, ◌^◌, ◌≤◌, ◌<◌, ◌&&◌, ◌↔◌, [], false, drop, length, IsTrue, OnOk};
ghost use Rattle.m2_fabric.specs.declared.end.EndRead.TheVariants as read;
ghost use Rattle.m2_handshake.specs.Texts.{Adds};
ghost use Rattle.m2_feed.specs.Calls.{HearsPiece, acknowledges, answer_text, greeting_left, is_empty, stamps_left, writing_left};
ghost use Rattle.m2_feed.specs.FeedNow.{CanHear, IsSound, KeepsSound, reading_of};

use crate::composing::put_control;
use crate::feed::MOST_READ;
use crate::outgoing::Outgoing;
use crate::reader::Reader;
use crate::writing::Writing;
use m2_bytes::{Blob, NoMemory};
use m2_control::{Control, Keepalive, KeepaliveAck};
use m2_fabric::{End, EndRead};
use std::alloc::Global;
use std::collections::VecDeque;

/// Whether each byte of one more read has a number.
fn has_numbers(base: u64, heard: u64) -> bool
    ensures { IsTrue result ↔ (base + heard + MOST_READ < 2 ^ 64) }
{
    let most = u64::MAX - MOST_READ as u64;
    base <= most && heard <= most - base
}

/// Makes room for what a read gives: a piece to read into, and room to hear it. A stream that would pass
/// 2^64 bytes is answered as want of memory.
pub(crate) fn room_for_read(
    base: u64,
    heard: u64,
    reader: &mut Reader,
    piece: &mut Vec<u8>,
) -> Result<(), NoMemory>
    requires sound { IsSound reader.old base heard }
    ensures same { reading_of reader.new ≡ reading_of reader.old }
    ensures keeps { KeepsSound reader.old reader.new }
    ensures piece { OnOk result (MOST_READ ≤ length piece.new.items) }
    ensures room { OnOk result (CanHear reader.new MOST_READ) }
{
    if !has_numbers(base, heard) {
        return Err(NoMemory);
    }
    if piece.len() < MOST_READ {
        piece.resize(MOST_READ, 0)?;
    }
    reader.reserve(base, heard)
}

/// Reads the end once into the piece, and hears what it gave.
pub(crate) fn read_into<E: End>(end: &mut E, reader: &mut Reader, piece: &mut [u8]) -> EndRead
    requires open { (E.seen end.old).log.closed ≡ false }
    requires piece { MOST_READ ≤ length piece.old }
    requires room { CanHear reader.old MOST_READ }
    ensures reads { HearsPiece result (E.seen end.old) (reading_of reader.old) (E.seen end.new) (reading_of reader.new) }
    ensures keeps { (base : ℕ) → IsSound reader.old base (length (E.seen end.old).log.got) → IsSound reader.new base (length (E.seen end.new).log.got) }
    ensures whole { (E.seen end.new).log.closed ≡ false }
    ensures none { result ≡ read.NoMemory → (E.seen end.new ≡ E.seen end.old) × (reading_of reader.new ≡ reading_of reader.old) }
{
    let (first, _) = piece.split_at_mut(MOST_READ);
    let answer = end.read(first);
    if let EndRead::Got(n) = answer {
        reader.feed(&first[..n]);
    }
    answer
}

/// Notes that so many bytes were put. Whether they were the last ones of a frame that acknowledges.
pub(crate) fn note_put(
    count: usize,
    out: &mut Outgoing,
    writing: &mut Writing,
    stamps: &mut VecDeque<Keepalive>,
) -> bool
    requires { count ≤ length out.old.bytes }
    ensures bytes { out.new.bytes ≡ drop count out.old.bytes }
    ensures writing { writing.new ≡ writing_left (is_empty (drop count out.old.bytes)) writing.old }
    ensures stamps { stamps.new.items ≡ stamps_left (is_empty (drop count out.old.bytes)) writing.old stamps.old.items }
    ensures acknowledged { result ≡ (is_empty (drop count out.old.bytes) && acknowledges writing.old) }
{
    out.advance(count);
    let before = *writing;
    if !out.is_empty() {
        *writing = before.begun();
        return false;
    }
    *writing = Writing::Nothing;
    if let Writing::KeepaliveAnswer { begun: _ } = before {
        let _answered = stamps.pop_front();
    }
    before.acknowledges()
}

/// Whose bytes are left where both sides have signed.
pub(crate) fn greeting_left(out: &Outgoing) -> Writing
    ensures { result ≡ greeting_left out.now.bytes }
{
    if out.is_empty() {
        Writing::Nothing
    } else {
        Writing::Named {
            acknowledges: false,
        }
    }
}

/// Appends the answer to the first keepalive.
pub(crate) fn put_answer(
    alloc: Global,
    stamps: &VecDeque<Keepalive>,
    payload: &mut Blob,
    out: &mut Outgoing,
) -> Result<(), NoMemory>
    requires some { 0 < length stamps.now.items }
    requires empty { payload.old.bytes ≡ [] }
    ensures adds { Adds result out.old out.new (answer_text stamps.now.items) }
    ensures empty { payload.new.bytes ≡ [] }
{
    let Some(stamp) = stamps.front() else {
        unreachable!()
    };
    let answer = Control::KeepaliveAck(KeepaliveAck {
        seconds: stamp.seconds,
        nanos: stamp.nanos,
    });
    put_control(alloc, &answer, payload, out)
}
