//! A feed: the one open socket of a record.

ghost use Rattle.std.specs.Prelude.{◌≡◌, ◌≢◌, ℕ, List, ◌≤◌, ◌<◌, ◌++◌, ◌∷◌, [], true, false, length, not, IsTrue, IsNone, IfOk, IfSome, OnOk, OnErr, ◌↔◌};
ghost use Rattle.m2_control.specs.Control.{IsWritable, text_of};
ghost use Rattle.m2_fabric.specs.End.{after_closing, after_news};
ghost use Rattle.m2_frame.specs.declared.frame.TheConstants.{CONTROL_LIMIT};
ghost use Rattle.m2_frame.specs.Frame.{Parts};
ghost use Rattle.m2_frame.specs.Reading.{whole};
ghost use Rattle.m2_frame.specs.Text as frame;
ghost use Rattle.m2_frame.specs.View.{parts_seen};
ghost use Rattle.m2_handshake.specs.Standing.{opener_at_start};
ghost use Rattle.m2_handshake.specs.Texts.{frame_text};
ghost use Rattle.m2_message.specs.Message.{IsSendable, content_of, with_numbers};
ghost use Rattle.m2_message.specs.MessageFrame.{message_in, parts_of};
ghost use Rattle.m2_feed.specs.declared.writing.Writing.TheVariants as writing;
ghost use Rattle.m2_feed.specs.Calls.{Composes, ComposesIfOk, GivesNext, GreetsOn, HasFrame, HasMessage, IsFront, IsInFront, IsSameButRoom, NotesStamp, OnlyReads, Owes, PassesFrame, ReadsOn, Rests, TakesMessage, WritesOn, acknowledgement, answer_text, at_acceptance, at_opening, is_empty, with_grant};
ghost use Rattle.m2_feed.specs.FeedNow.{CanCompose, is_framing};

use crate::answers::FeedWrite;
use crate::composing::{put_control, reserve_control};
use crate::moving::{greeting_left, note_put, put_answer, read_into, room_for_read};
use crate::outgoing::Outgoing;
use crate::reader::Reader;
use crate::writing::Writing;
use m2_addr::Addr;
use m2_bytes::{Blob, NoMemory};
use m2_control::{Ack, Control, Keepalive};
use m2_fabric::{End, EndRead, EndWrite, News, SocketId};
use m2_frame::{Decoder, FrameView, Got};
use m2_handshake::{Half, HalfStep};
use m2_message::{Message, copied_from};
use m2_policy::AuthPayload;
use std::alloc::Global;
use std::collections::VecDeque;
use std::marker::Model;

/// How many bytes a read asks the end for.
pub const MOST_READ: usize = 65_536;

/// The open socket of a record: its end; who reads it, a half of the handshake at the side that opened it
/// and a decoder of frames once both sides have signed; the text that is composed and not put; and the
/// keepalives that came and aren't answered.
///
/// Makers: [`opened`](Feed::opened), [`taken_over`](Feed::taken_over). Readers: [`end`](Feed::end),
/// [`id`](Feed::id), [`is_signed`](Feed::is_signed), [`rests`](Feed::rests),
/// [`has_composed`](Feed::has_composed), [`composed`](Feed::composed), [`has_stamp`](Feed::has_stamp),
/// [`writing`](Feed::writing), [`look`](Feed::look). Calls that move bytes: [`read`](Feed::read), [`write`](Feed::write). The opener's
/// handshake: [`greet`](Feed::greet). Frames: [`next`](Feed::next), [`grant`](Feed::grant),
/// [`pass`](Feed::pass), [`take_message`](Feed::take_message), [`pass_keepalive`](Feed::pass_keepalive). Composing: [`reserve_control`](Feed::reserve_control),
/// [`compose_control`](Feed::compose_control), [`compose_message`](Feed::compose_message),
/// [`compose_acknowledgement`](Feed::compose_acknowledgement),
/// [`compose_keepalive_answer`](Feed::compose_keepalive_answer). End: [`close`](Feed::close).
///
/// Once the end has moved bytes nothing fails: each call either answers for want of memory and leaves all
/// but the room as it was, or does what its answer says.
#[derive(Drop)]
pub struct Feed<E: End> {
    alloc: Global,
    end: E,
    opened: bool,
    reader: Reader,
    /// How many bytes the decoder had passed when it came to read here.
    base: u64,
    /// What a read is read into: MOST_READ bytes from the first read on.
    piece: Vec<u8>,
    outgoing: Outgoing,
    /// What payloads are made in.
    payload: Blob,
    writing: Writing,
    stamps: VecDeque<Keepalive>,
}

impl<E: End> Model for Feed<E> {
    ghost use Rattle.m2_feed.specs.FeedNow.{FeedNow, Holds, reading_of};

    ghost Value = { FeedNow };

    ghost view = { λ f. record {
      end = E.seen f.end;
      opened = f.opened;
      reading = reading_of f.reader;
      composed = f.outgoing.bytes;
      writing = f.writing;
      stamps = f.stamps.items;
      room = record { payload = f.payload.room; text = f.outgoing.room };
    } };

    ghost invariant = { λ f. Holds f.reader f.base (E.seen f.end) f.payload.bytes };
}

impl<E: End> Feed<E> {
    /// A socket that this side has just opened, to this address; `entity` is the kind of this node, and `auth`
    /// what its AUTH_REQUEST carries. Nothing is heard and nothing is composed. Takes no memory.
    pub fn opened(alloc: Global, end: E, auth: AuthPayload, entity: u8, dialled: Addr) -> Feed<E>
        requires { (E.seen end).log.closed ≡ false }
        ensures { result ≡ at_opening (E.seen end) (opener_at_start auth entity dialled) result }
    {
        Feed {
            alloc,
            end,
            opened: true,
            reader: Reader::Shaking(Half::client(alloc, auth, entity, dialled)),
            base: 0,
            piece: Vec::new(alloc),
            outgoing: Outgoing::empty(alloc),
            payload: Blob::empty(alloc),
            writing: Writing::Nothing,
            stamps: VecDeque::new(alloc),
        }
    }

    /// A socket of the other side, whose half read this end and left the decoder; `acceptance` is the text
    /// of the frame that accepts its session or resumes it. Takes no memory.
    pub fn taken_over(alloc: Global, end: E, decoder: Decoder, acceptance: Blob) -> Feed<E>
        requires open { (E.seen end).log.closed ≡ false }
        requires read { length decoder.rest ≤ length (E.seen end).log.got }
        ensures { result ≡ at_acceptance (E.seen end) decoder.rest decoder.granted acceptance.bytes result }
    {
        let base = decoder.place();
        Feed {
            alloc,
            end,
            opened: false,
            reader: Reader::Framing(decoder),
            base,
            piece: Vec::new(alloc),
            outgoing: Outgoing::of(acceptance),
            payload: Blob::empty(alloc),
            writing: Writing::Named {
                acknowledges: false,
            },
            stamps: VecDeque::new(alloc),
        }
    }

    /// The end.
    pub fn end(&self) -> &E
        ensures { E.seen result.now ≡ self.now.end }
    {
        &self.end
    }

    /// The socket's name.
    pub fn id(&self) -> SocketId
        ensures { result ≡ self.now.end.id }
    {
        self.end.id()
    }

    /// Whether both sides have signed.
    pub fn is_signed(&self) -> bool
        ensures { result ≡ is_framing self.now.reading }
    {
        self.reader.is_framing()
    }

    /// Whether nothing is to be done before more bytes come: where [`greet`](Feed::greet) or
    /// [`next`](Feed::next) would answer NotYet.
    pub fn rests(&self) -> bool
        ensures { IsTrue result ↔ Rests self.now.reading }
    {
        self.reader.rests()
    }

    /// Whether something is composed and not put.
    pub fn has_composed(&self) -> bool
        ensures { result ≡ not (is_empty self.now.composed) }
    {
        !self.outgoing.is_empty()
    }

    /// The bytes that are composed and not put.
    pub fn composed(&self) -> &[u8]
        ensures { result.now ≡ self.now.composed }
    {
        self.outgoing.as_slice()
    }

    /// Whether a keepalive came that isn't answered.
    pub fn has_stamp(&self) -> bool
        ensures { IsTrue result ↔ (0 < length self.now.stamps) }
    {
        !self.stamps.is_empty()
    }

    /// Whose bytes are composed and not put.
    pub fn writing(&self) -> Writing
        ensures { result ≡ self.now.writing }
    {
        self.writing
    }

    /// The frame that [`next`](Feed::next) would answer, in place; none where it would answer no frame, and
    /// before both sides have signed. Takes no memory.
    pub fn look(&self) -> Option<FrameView<'_>>
        ensures some { IfSome result (λ f. (len : ℕ) × IsFront self.now.reading (whole (parts_seen f)) len) }
        ensures none { IsNone result → (f : Parts) (len : ℕ) → ¬ IsFront self.now.reading (whole f) len }
    {
        self.reader.look()
    }

    /// Tells an end in memory of the other side.
    pub fn hear(&mut self, bytes: &[u8], news: News) -> Result<(), NoMemory>
        ensures ok { OnOk result (self.new ≡ record self.old { end = after_news news bytes.now self.old.end }) }
        ensures err { OnErr result (self.new ≡ self.old) }
    {
        self.end.hear(bytes, news)
    }

    /// Reads the end once, for at most MOST_READ bytes, and takes all that it gives.
    pub fn read(&mut self) -> EndRead
        ensures { ReadsOn result self.old self.new }
    {
        let heard = self.end.log().got.len() as u64;
        if room_for_read(self.base, heard, &mut self.reader, &mut self.piece).is_err() {
            return EndRead::NoMemory;
        }
        read_into(&mut self.end, &mut self.reader, &mut self.piece)
    }

    /// Writes to the end once what is composed.
    #[tactic(auto, using(crate::proofs::Texts::some_bytes))]
    pub fn write(&mut self) -> FeedWrite
        requires { is_empty self.old.composed ≡ false }
        ensures { WritesOn result self.old self.new }
    {
        match self.end.write(self.outgoing.as_slice()) {
            EndWrite::Put(count) => {
                let acknowledged = note_put(
                    count,
                    &mut self.outgoing,
                    &mut self.writing,
                    &mut self.stamps,
                );
                FeedWrite::Put {
                    count,
                    acknowledged,
                }
            }
            EndWrite::NotYet => FeedWrite::NotYet,
            EndWrite::Failed => FeedWrite::Failed,
            EndWrite::NoMemory => FeedWrite::NoMemory,
        }
    }

    /// One answer of the opener's half; what it writes is composed. After [`HalfStep::Authed`] a decoder
    /// reads what it has left unread.
    pub fn greet(&mut self) -> HalfStep
        requires { is_framing self.old.reading ≡ false }
        ensures { GreetsOn result self.old self.new }
    {
        let Reader::Shaking(half) = &mut self.reader else {
            unreachable!()
        };
        let answer = self.outgoing.greet(half);
        if let HalfStep::Authed = answer {
            self.base = self.reader.sign(self.alloc);
            self.writing = greeting_left(&self.outgoing);
        }
        answer
    }

    /// One answer of the decoder. After [`Got::Size`] it answers the same until [`grant`](Feed::grant).
    pub fn next(&mut self) -> Got
        requires { is_framing self.old.reading ≡ true }
        ensures gives { GivesNext result self.old.reading self.new.reading }
        ensures only { OnlyReads self.old self.new }
    {
        self.reader.next()
    }

    /// Grants the size that a MESSAGE asks for.
    pub fn grant(&mut self)
        requires { (n : ℕ) × Owes self.old.reading n }
        ensures { self.new ≡ record self.old { reading = with_grant self.old.reading } }
    {
        self.reader.grant();
    }

    /// Passes the frame at the front, which [`look`](Feed::look) shows. Takes no memory.
    pub fn pass(&mut self)
        requires { HasFrame self.old.reading }
        ensures passes { PassesFrame self.old.reading self.new.reading }
        ensures only { OnlyReads self.old self.new }
    {
        self.reader.pass();
    }

    /// Passes the frame at the front, a MESSAGE with a whole header, and gives the message that it brings. Its parts
    /// are copied once. On Err, for want of memory, all is as before.
    #[tactic(auto, using(crate::proofs::Fronts::has_frame))]
    pub fn take_message(&mut self) -> Result<Message, NoMemory>
        requires { HasMessage self.old.reading }
        ensures { TakesMessage result self.old self.new }
    {
        let message = self.copied_message()?;
        self.pass();
        Ok(message)
    }

    /// The message that the frame at the front brings, a MESSAGE with a whole header.
    #[tactic(auto, using(crate::proofs::Fronts::has_tag, crate::proofs::Fronts::has_header, crate::proofs::Fronts::shows_some, crate::proofs::Fronts::is_in_front))]
    fn copied_message(&self) -> Result<Message, NoMemory>
        requires { HasMessage self.now.reading }
        ensures { IfOk result (λ m. IsInFront m self.now.reading) }
    {
        match self.look() {
            Some(frame) => copied_from(self.alloc, &frame),
            None => unreachable!(),
        }
    }

    /// Passes the frame at the front, which is a keepalive with this stamp, and notes that it is to be
    /// answered. On Err all is as before.
    pub fn pass_keepalive(&mut self, stamp: Keepalive) -> Result<(), NoMemory>
        requires { HasFrame self.old.reading }
        ensures { NotesStamp result stamp self.old self.new }
    {
        self.stamps.push_back(stamp)?;
        self.reader.pass();
        Ok(())
    }

    /// Makes the room that the frame of a payload of `len` bytes takes, so that composing it can't fail.
    pub fn reserve_control(&mut self, len: usize) -> Result<(), NoMemory>
        requires { len ≤ CONTROL_LIMIT }
        ensures same { IsSameButRoom self.old self.new }
        ensures room { OnOk result (CanCompose self.new len) }
    {
        reserve_control(len, &mut self.payload, &mut self.outgoing)
    }

    /// Composes the frame of a control payload that an entry names, in the room that was made for it.
    #[tactic(auto, using(crate::proofs::Texts::only_text, crate::proofs::Texts::no_bytes))]
    pub fn compose_control(&mut self, c: &Control)
        requires signed { is_framing self.old.reading ≡ true }
        requires put { is_empty self.old.composed ≡ true }
        requires writable { IsWritable c.now }
        requires short { length (text_of c.now) ≤ CONTROL_LIMIT }
        requires room { CanCompose self.old (length (text_of c.now)) }
        ensures { Composes (writing.Named false) (frame_text c.now) self.old self.new }
    {
        match put_control(self.alloc, c, &mut self.payload, &mut self.outgoing) {
            Ok(()) => {}
            Err(NoMemory) => unreachable!(),
        }
        self.writing = Writing::Named {
            acknowledges: false,
        };
    }

    /// Composes the frame of a message, with its number and the number of the last accepted message. The
    /// message is copied.
    #[tactic(auto, using(crate::proofs::Texts::only_text, crate::proofs::Texts::no_bytes))]
    pub fn compose_message(&mut self, m: &Message, number: u64, acked: u64) -> Result<(), NoMemory>
        requires signed { is_framing self.old.reading ≡ true }
        requires put { is_empty self.old.composed ≡ true }
        requires sendable { IsSendable m.now }
        ensures { ComposesIfOk result (writing.Named true) (frame.text_of (parts_of (with_numbers number acked (content_of m.now)))) self.old self.new }
    {
        self.outgoing.append_message(m, number, acked)?;
        self.writing = Writing::Named { acknowledges: true };
        Ok(())
    }

    /// Composes an acknowledgement up to this number.
    #[tactic(auto, using(crate::proofs::Texts::only_text, crate::proofs::Texts::no_bytes))]
    pub fn compose_acknowledgement(&mut self, number: u64) -> Result<(), NoMemory>
        requires signed { is_framing self.old.reading ≡ true }
        requires put { is_empty self.old.composed ≡ true }
        ensures { ComposesIfOk result (writing.Acknowledgement number false) (frame_text (acknowledgement number)) self.old self.new }
    {
        let ack = Control::Ack(Ack { seen: number });
        put_control(self.alloc, &ack, &mut self.payload, &mut self.outgoing)?;
        self.writing = Writing::Acknowledgement {
            number,
            begun: false,
        };
        Ok(())
    }

    /// Composes the answer to the first keepalive that isn't answered.
    #[tactic(auto, using(crate::proofs::Texts::only_text, crate::proofs::Texts::no_bytes))]
    pub fn compose_keepalive_answer(&mut self) -> Result<(), NoMemory>
        requires signed { is_framing self.old.reading ≡ true }
        requires put { is_empty self.old.composed ≡ true }
        requires some { 0 < length self.old.stamps }
        ensures { ComposesIfOk result (writing.KeepaliveAnswer false) (answer_text self.old.stamps) self.old self.new }
    {
        put_answer(
            self.alloc,
            &self.stamps,
            &mut self.payload,
            &mut self.outgoing,
        )?;
        self.writing = Writing::KeepaliveAnswer { begun: false };
        Ok(())
    }

    /// The end as it is; lets go of all else.
    pub fn into_end(self) -> E
        ensures { E.seen result ≡ self.end }
    {
        self.end
    }

    /// Closes the end, and lets go of all else.
    pub fn close(self) -> E
        ensures { E.seen result ≡ after_closing self.end }
    {
        let mut end = self.end;
        end.close();
        end
    }
}
