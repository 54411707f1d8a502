//! The parts of an incoming socket's calls, over the fields that each of them is about.

ghost use Rattle.std.specs.Prelude.{◌≡◌, ◌≤◌, ◌<◌, ◌++◌, ◌∷◌, [], false, length, take, OnOk};
ghost use Rattle.m2_fabric.specs.End.{Reads};
ghost use Rattle.m2_handshake.specs.Standing.{CanFeed};
ghost use Rattle.m2_trail.specs.Incoming.{fed_of, left_by};
ghost use Rattle.m2_trail.specs.Moving.{FitsCount, NotesRead, NotesWrite, PutsWithin};

use crate::incoming::MOST_READ;
use crate::trail::Trail;
use crate::unput::Unput;
use m2_bytes::NoMemory;
use m2_fabric::{End, EndRead, EndWrite};
use m2_handshake::Half;
use m2_journal::Entry;

/// Makes room for what a read gives, and for the entry of a close behind it.
pub(crate) fn room_for_read(half: &mut Half, trail: &mut Trail) -> Result<(), NoMemory>
    ensures half { half.new.standing ≡ half.old.standing }
    ensures trail { trail.new ≡ record trail.old { entries = record trail.old.entries { room = trail.new.entries.room } } }
    ensures grows { trail.old.entries.room ≤ trail.new.entries.room }
    ensures feed { OnOk result (CanFeed half.new MOST_READ) }
    ensures note { OnOk result (2 ≤ trail.new.entries.room) }
{
    trail.entries.reserve(2)?;
    half.reserve(MOST_READ)
}

/// Reads the end once into the piece, and feeds the half with what it gave.
pub(crate) fn read_into<E: End>(end: &mut E, half: &mut Half, piece: &mut [u8]) -> EndRead
    requires open { (E.seen end.old).log.closed ≡ false }
    requires some { 0 < length piece.old }
    requires most { length piece.old ≤ MOST_READ }
    requires room { CanFeed half.old MOST_READ }
    ensures reads { Reads result piece.new (E.seen end.old) (E.seen end.new) }
    ensures feeds { half.new.standing ≡ fed_of result piece.new half.old.standing }
{
    let answer = end.read(piece);
    if let EndRead::Got(n) = answer {
        match half.feed(&piece[..n]) {
            Ok(()) => {}
            Err(_) => unreachable!(),
        }
    }
    answer
}

/// Notes a read.
pub(crate) fn note_read(answer: EndRead, trail: &mut Trail)
    requires room { 2 ≤ trail.old.entries.room }
    requires fits { FitsCount answer }
    ensures { NotesRead answer trail.old trail.new }
{
    if let EndRead::Got(n) = answer {
        trail.entries.push_reserved(Entry::Read {
            socket: trail.socket,
            count: n as u32,
        });
    }
}

/// Notes a write, and passes what was put.
pub(crate) fn note_write(answer: EndWrite, unput: &mut Unput, trail: &mut Trail)
    requires room { 2 ≤ trail.old.entries.room }
    requires fits { PutsWithin answer unput.old }
    ensures notes { NotesWrite answer trail.old trail.new }
    ensures left { unput.new ≡ left_by answer unput.old }
{
    if let EndWrite::Put(n) = answer {
        unput.pass(n);
        trail.entries.push_reserved(Entry::Wrote {
            socket: trail.socket,
            count: n as u32,
        });
    }
}
