//! Who reads the bytes of a socket.

ghost use Rattle.std.specs.Prelude.{◌≡◌, ◌+◌, ◌<◌, ◌≤◌, ◌^◌, ℕ, List, None, Some, true, false, length, IsTrue, IsSome, IsNone, IfSome, OnOk, ◌↔◌};
ghost use Rattle.m2_frame.specs.Decoder.{owed};
ghost use Rattle.m2_frame.specs.Frame.{Parts};
ghost use Rattle.m2_frame.specs.Reading.{whole};
ghost use Rattle.m2_frame.specs.View.{parts_seen};
ghost use Rattle.m2_handshake.specs.Asking.{is_ready};
ghost use Rattle.m2_handshake.specs.Standing.{HalfState};
ghost use Rattle.m2_feed.specs.declared.feed.TheConstants.{MOST_READ};
ghost use Rattle.m2_feed.specs.declared.reader.Reader.TheVariants as reader;
ghost use Rattle.m2_feed.specs.Calls.{GivesNext, HasFrame, IsFront, Owes, PassesFrame, Rests, heard, with_grant};
ghost use Rattle.m2_feed.specs.FeedNow.{CanHear, HearsSound, IsSound, KeepsSound, Signed, SignsNow, is_framing, reading_of};

use crate::feed::MOST_READ;
use m2_bytes::NoMemory;
use m2_frame::{Decoder, FrameView, Got};
use m2_handshake::Half;
use std::alloc::Global;

/// Who reads what comes.
#[derive(Debug, Drop)]
pub enum Reader {
    /// The half of the side that opened the socket, until both sides have signed.
    Shaking(Half),
    /// A decoder of frames.
    Framing(Decoder),
}

impl Reader {
    /// Makes room for the most bytes of one read, so that they can be fed, where each of them has a number.
    pub(crate) fn reserve(&mut self, base: u64, heard: u64) -> Result<(), NoMemory>
        requires sound { IsSound self.old base heard }
        requires counted { base + heard + MOST_READ < 2 ^ 64 }
        ensures same { reading_of self.new ≡ reading_of self.old }
        ensures keeps { KeepsSound self.old self.new }
        ensures room { OnOk result (CanHear self.new MOST_READ) }
    {
        match self {
            Reader::Shaking(half) => half.reserve(MOST_READ),
            Reader::Framing(decoder) => decoder.reserve(MOST_READ),
        }
    }

    /// Takes the bytes of a read, in the room that was made for them.
    pub(crate) fn feed(&mut self, piece: &[u8])
        requires room { CanHear self.old MOST_READ }
        requires few { length piece.now ≤ MOST_READ }
        ensures heard { reading_of self.new ≡ heard piece.now (reading_of self.old) }
        ensures keeps { HearsSound (length piece.now) self.old self.new }
    {
        let fed = match self {
            Reader::Shaking(half) => half.feed(piece),
            Reader::Framing(decoder) => decoder.feed(piece),
        };
        match fed {
            Ok(()) => {}
            Err(NoMemory) => unreachable!(),
        }
    }

    /// Whether nothing is to be done before more bytes come.
    pub(crate) fn rests(&self) -> bool
        ensures { IsTrue result ↔ Rests (reading_of self.now) }
    {
        match self {
            Reader::Shaking(half) => half.rests(),
            Reader::Framing(decoder) => decoder.rests(),
        }
    }

    /// Whether a decoder reads.
    pub(crate) fn is_framing(&self) -> bool
        ensures { result ≡ is_framing (reading_of self.now) }
    {
        match self {
            Reader::Shaking(_) => false,
            Reader::Framing(_) => true,
        }
    }

    /// A half that has signed becomes a decoder of what it had left unread. How many bytes that has
    /// passed. Takes no memory.
    pub(crate) fn sign(&mut self, alloc: Global) -> u64
        requires { SignsNow self.old }
        ensures { Signed result self.old self.new }
    {
        let signed = std::mem::replace(self, Reader::Framing(Decoder::new(alloc)));
        match signed {
            Reader::Shaking(half) => {
                let decoder = half.finish();
                let passed = decoder.place();
                *self = Reader::Framing(decoder);
                passed
            }
            Reader::Framing(_) => unreachable!(),
        }
    }

    /// One answer of the decoder.
    #[tactic(auto, using(crate::proofs::Fronts::answers_keep))]
    pub(crate) fn next(&mut self) -> Got
        requires { is_framing (reading_of self.old) ≡ true }
        ensures gives { GivesNext result (reading_of self.old) (reading_of self.new) }
        ensures keeps { KeepsSound self.old self.new }
    {
        match self {
            Reader::Shaking(_) => unreachable!(),
            Reader::Framing(decoder) => decoder.next(),
        }
    }

    /// Grants the size that is asked for.
    pub(crate) fn grant(&mut self)
        requires { (n : ℕ) × Owes (reading_of self.old) n }
        ensures grants { reading_of self.new ≡ with_grant (reading_of self.old) }
        ensures keeps { KeepsSound self.old self.new }
    {
        match self {
            Reader::Shaking(_) => unreachable!(),
            Reader::Framing(decoder) => decoder.grant(),
        }
    }

    /// The frame at the front, in place.
    #[tactic(auto, using(crate::proofs::Fronts::not_front))]
    pub(crate) fn look(&self) -> Option<FrameView<'_>>
        ensures some { IfSome result (λ f. (len : ℕ) × IsFront (reading_of self.now) (whole (parts_seen f)) len) }
        ensures none { IsNone result → (f : Parts) (len : ℕ) → ¬ IsFront (reading_of self.now) (whole f) len }
    {
        match self {
            Reader::Shaking(_) => None,
            Reader::Framing(decoder) => decoder.look(),
        }
    }

    /// Passes the frame at the front.
    #[tactic(auto, using(crate::proofs::Fronts::passes_frame, crate::proofs::Fronts::frame_keeps))]
    pub(crate) fn pass(&mut self)
        requires { HasFrame (reading_of self.old) }
        ensures passes { PassesFrame (reading_of self.old) (reading_of self.new) }
        ensures keeps { KeepsSound self.old self.new }
    {
        match self {
            Reader::Shaking(_) => unreachable!(),
            Reader::Framing(decoder) => decoder.pass(),
        }
    }
}
