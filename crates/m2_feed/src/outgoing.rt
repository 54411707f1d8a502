//! The text that is to be put on a socket.

ghost use Rattle.std.specs.Prelude.{◌≡◌, ◌≤◌, [], length, drop, OnOk, IsOk};
ghost use Rattle.m2_bytes.specs.Blob.{Appends};
ghost use Rattle.m2_frame.specs.Frame.{parts, Fits};
ghost use Rattle.m2_frame.specs.Text.{text_of};
ghost use Rattle.m2_message.specs.Message.{IsSendable, content_of, with_numbers};
ghost use Rattle.m2_message.specs.MessageFrame.{parts_of};
ghost use Rattle.m2_feed.specs.Calls.{HalfWrites, SignsOnlyAs, is_empty};

use m2_bytes::{Blob, NoMemory};
use m2_frame::{Frame, encode};
use m2_handshake::{Half, HalfStep};
use m2_message::{Message, put_frame};
use std::alloc::Global;
use std::marker::Model;

/// Bytes that are put from their front and appended at their end. What is put isn't moved out byte for
/// byte: its memory is used again once all is put. Contracts see what isn't put, and the room.
#[derive(Debug, Drop)]
pub struct Outgoing {
    text: Blob,
    put: usize,
}

impl Model for Outgoing {
    ghost use Rattle.std.specs.Prelude.{◌≤◌, length, drop};
    ghost use Rattle.m2_bytes.specs.Blob.{Contents};

    ghost Value = { Contents };

    ghost view = { λ o. record { bytes = drop o.put o.text.bytes; room = o.text.room } };

    ghost invariant = { λ o. o.put ≤ length o.text.bytes };
}

impl Outgoing {
    /// No bytes. Takes no memory.
    pub(crate) fn empty(alloc: Global) -> Outgoing
        ensures { result.bytes ≡ [] }
    {
        Outgoing {
            text: Blob::empty(alloc),
            put: 0,
        }
    }

    /// These bytes, moved.
    pub(crate) fn of(text: Blob) -> Outgoing
        ensures { result.bytes ≡ text.bytes }
    {
        Outgoing { text, put: 0 }
    }

    /// What isn't put.
    pub(crate) fn as_slice(&self) -> &[u8]
        ensures { result.now ≡ self.now.bytes }
    {
        let (_, left) = self.text.as_slice().split_at(self.put);
        left
    }

    /// Whether all is put.
    pub(crate) fn is_empty(&self) -> bool
        ensures { result ≡ is_empty self.now.bytes }
    {
        match self.as_slice() {
            [] => true,
            _ => false,
        }
    }

    /// Makes room for `more` bytes.
    pub(crate) fn reserve(&mut self, more: usize) -> Result<(), NoMemory>
        ensures bytes { self.new.bytes ≡ self.old.bytes }
        ensures room { OnOk result (more ≤ self.new.room) }
    {
        self.text.reserve(more)
    }

    /// Puts the first `n` bytes.
    #[tactic(auto, using(crate::proofs::Texts::fits_left))]
    pub(crate) fn advance(&mut self, n: usize)
        requires { n ≤ length self.old.bytes }
        ensures { self.new.bytes ≡ drop n self.old.bytes }
    {
        let len = self.text.len();
        self.put += n;
        if self.put == len {
            self.text.clear();
            self.put = 0;
        }
    }

    /// Appends the text of a frame. It succeeds wherever that fits in the room.
    pub(crate) fn append(&mut self, frame: &Frame) -> Result<(), NoMemory>
        requires { Fits (parts frame.now) }
        ensures { Appends result self.old self.new (text_of (parts frame.now)) }
    {
        encode(frame, &mut self.text)
    }

    /// Appends the text of the frame of a message with these two numbers. It succeeds wherever that fits in
    /// the room.
    pub(crate) fn append_message(
        &mut self,
        m: &Message,
        number: u64,
        acked: u64,
    ) -> Result<(), NoMemory>
        requires { IsSendable m.now }
        ensures { Appends result self.old self.new (text_of (parts_of (with_numbers number acked (content_of m.now)))) }
    {
        put_frame(m, number, acked, &mut self.text)
    }

    /// The next answer of a half, which appends what it writes.
    #[tactic(auto, using(crate::proofs::Answering::half_writes, crate::proofs::Answering::still_within, crate::proofs::Answering::signs_only_as, crate::proofs::Answering::answers_shorter))]
    pub(crate) fn greet(&mut self, half: &mut Half) -> HalfStep
        ensures writes { HalfWrites result half.old.standing half.new.standing self.old.bytes self.new.bytes }
        ensures stage { SignsOnlyAs result half.old.standing half.new.standing }
        ensures shorter { length half.new.standing.rest ≤ length half.old.standing.rest }
    {
        half.next(&mut self.text)
    }
}
