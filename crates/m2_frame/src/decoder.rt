//! A decoder of frames from a stream that comes in any pieces.

ghost use Rattle.std.specs.Prelude.{◌≡◌, ◌+◌, ◌^◌, ◌<◌, ◌≤◌, ◌↔◌, [], true, false, length, IsTrue, IsSome, IsNone, IfSome, IsOk, OnOk, OnErr, None};

use crate::finding::Finding;
use crate::got::Got;
use crate::judging::{find_on, len_of_text, size_asked, view_of};
use crate::preamble::Preamble;
use crate::view::FrameView;
use bytes::BytesMut;
use m2_bytes::NoMemory;
use std::alloc::Global;
use std::marker::Model;

/// Reads frames from a stream that comes in any pieces. Contracts see how many bytes were answered as
/// frames, the bytes since, whether the size that the frame at their front asked for is granted, and
/// the room: how many more bytes fit before memory is taken.
///
/// Feed it the pieces in order with [`feed`](Decoder::feed), and ask with [`next`](Decoder::next)
/// until it answers [`Got::NotYet`]. Its answers are those of the stream, however it was cut: the
/// frames in order, then `NotYet` where the rest is a start, or the first fault, from then on. After
/// the preamble of each MESSAGE it answers [`Got::Size`] until [`grant`](Decoder::grant).
///
/// Makers: [`new`](Decoder::new). Readers: [`rests`](Decoder::rests), [`look`](Decoder::look),
/// [`place`](Decoder::place). Input: [`reserve`](Decoder::reserve), [`feed`](Decoder::feed). Output:
/// [`next`](Decoder::next), [`grant`](Decoder::grant), [`pass`](Decoder::pass). After `reserve` a `feed`
/// of so many bytes can't fail, and of the output `next` alone takes memory, for a whole frame.
///
/// A byte is copied when it is fed, and once more into its frame. A text is judged as its bytes come,
/// and each of its parts once: by the call that brought its last byte, granted its size, or passed the
/// text before it.
#[derive(Debug, Drop)]
pub struct Decoder {
    buffer: BytesMut,
    place: u64,
    granted: bool,
    finding: Finding,
}

impl Model for Decoder {
    ghost use Rattle.std.specs.Prelude.{◌+◌, ◌<◌, ◌^◌, length};
    ghost use Rattle.m2_frame.specs.Position.{Position};

    ghost Value = { Position };

    ghost use Rattle.m2_frame.specs.Holds.{Holds};

    ghost view = { λ d. record { place = d.place; rest = d.buffer.items; granted = d.granted; room = d.buffer.spare } };

    ghost invariant = { λ d. Holds d.finding (record { place = d.place; rest = d.buffer.items; granted = d.granted; room = d.buffer.spare }) };
}

impl Decoder {
    ghost use Rattle.m2_frame.specs.Position.{Position};
    ghost use Rattle.m2_frame.specs.declared.epilogue.Late.TheVariants.{Complete};
    ghost use Rattle.m2_frame.specs.Decoder.{Answers, IsAtFront, IsAtStart, IsSameButRoom, Passes, fed, owed, passed};
    ghost use Rattle.m2_frame.specs.Frame.{Parts};
    ghost use Rattle.m2_frame.specs.Judging.{IsWholeText};
    ghost use Rattle.m2_frame.specs.Reading.{whole, start, judge};
    ghost use Rattle.m2_frame.specs.View.{parts_seen};

    /// A decoder at the start of a stream. Takes no memory.
    pub fn new(alloc: Global) -> Decoder
        ensures { result ≡ record { place = 0; rest = []; granted = false; room = 0 } }
    {
        Decoder {
            buffer: BytesMut::new(alloc),
            place: 0,
            granted: false,
            finding: Finding::Nothing,
        }
    }

    /// Makes room for `more` bytes, so that feeding them can't fail for want of memory.
    pub fn reserve(&mut self, more: usize) -> Result<(), NoMemory>
        ensures same { IsSameButRoom self.old self.new }
        ensures room { OnOk result (more ≤ self.new.room) }
        ensures grows { self.old.room ≤ self.new.room }
        ensures succeeds { more ≤ self.old.room → IsOk result }
    {
        self.buffer.reserve(more)?;
        Ok(())
    }

    /// Takes the next piece of the stream. A stream that would pass 2^64 bytes is answered as want of
    /// memory.
    pub fn feed(&mut self, piece: &[u8]) -> Result<(), NoMemory>
        ensures ok { OnOk result (IsSameButRoom (fed self.old piece.now) self.new) }
        ensures err { OnErr result (IsSameButRoom self.old self.new) }
        ensures room { self.old.room ≤ self.new.room + length piece.now }
        ensures succeeds { length piece.now ≤ self.old.room
            → self.old.place + length self.old.rest + length piece.now < 2 ^ 64 → IsOk result }
    {
        let left = u64::MAX - self.place - self.buffer.len() as u64;
        if piece.len() as u64 > left {
            return Err(NoMemory);
        }
        self.buffer.extend_from_slice(piece)?;
        self.finding = find_on(self.finding, self.granted, self.buffer.as_slice());
        Ok(())
    }

    /// The next answer of the stream.
    pub fn next(&mut self) -> Got
        ensures { Answers self.old result self.new }
    {
        match self.finding {
            Finding::Nothing | Finding::Sized(_) | Finding::Sealed(_) => Got::NotYet,
            Finding::Asking(p) => Got::Size(size_asked(&p)),
            Finding::Whole(p) => self.next_frame(p),
            Finding::Aborted(p) => {
                self.pass_text(len_of_text(&p));
                Got::Aborted { tag: p.tag }
            }
            Finding::Faulty(f) => Got::Fault(f),
        }
    }

    /// Grants the size that [`next`](Decoder::next) asks for.
    pub fn grant(&mut self)
        requires { IsSome (owed self.old) }
        ensures { self.new ≡ record self.old { granted = true } }
    {
        self.granted = true;
        self.finding = find_on(self.finding, true, self.buffer.as_slice());
    }

    /// Whether [`next`](Decoder::next) would answer `NotYet`. It judges nothing.
    pub fn rests(&self) -> bool
        ensures { IsTrue result ↔ IsAtStart self.now }
    {
        matches!(
            self.finding,
            Finding::Sized(_) | Finding::Sealed(_) | Finding::Nothing
        )
    }

    /// Whether what is left is the start of a frame, or nothing, whatever size is owed.
    pub fn starts(&self) -> bool
        ensures { IsTrue result ↔ (judge self.now.rest ≡ start) }
    {
        let rest = self.buffer.as_slice();
        matches!(
            find_on(self.finding, true, rest),
            Finding::Nothing | Finding::Sized(_) | Finding::Sealed(_)
        )
    }

    /// The frame that [`next`](Decoder::next) would answer, in place; none where it would answer no
    /// frame. It takes no memory and judges nothing.
    pub fn look(&self) -> Option<FrameView<'_>>
        ensures some { IfSome result (λ f. IsAtFront self.now (parts_seen f)) }
        ensures none { IsNone result → (f : Parts) → ¬ IsAtFront self.now f }
    {
        match self.finding {
            Finding::Whole(p) => Some(view_of(&p, self.buffer.as_slice())),
            _ => None,
        }
    }

    /// Passes the frame at the front, of which nothing is copied. It takes no memory.
    pub fn pass(&mut self)
        requires { (f : Parts) × IsAtFront self.old f }
        ensures { (f : Parts) → IsAtFront self.old f → Passes self.old (whole f) self.new }
    {
        match self.finding {
            Finding::Whole(p) => self.pass_text(len_of_text(&p)),
            _ => unreachable!(),
        }
    }

    /// How many bytes of the stream are whole frames that were answered or passed.
    pub fn place(&self) -> u64
        ensures { result ≡ self.now.place }
    {
        self.place
    }

    /// Passes a text of `n` bytes.
    fn pass_text(&mut self, n: usize)
        requires { n ≤ length self.old.rest }
        ensures { self.new ≡ passed self.old n }
    {
        self.buffer.advance(n);
        self.place += n as u64;
        self.granted = false;
        self.finding = find_on(Finding::Nothing, false, self.buffer.as_slice());
    }

    /// The next answer where the front is the text of a frame, and nothing is owed.
    fn next_frame(&mut self, p: Preamble) -> Got
        requires settled { owed self.old ≡ None }
        requires front { IsWholeText p Complete self.old.rest }
        ensures { Answers self.old result self.new }
    {
        match view_of(&p, self.buffer.as_slice()).copy(*self.buffer.allocator()) {
            Ok(frame) => {
                self.pass_text(len_of_text(&p));
                Got::Frame(frame)
            }
            Err(NoMemory) => Got::NoMemory,
        }
    }
}
