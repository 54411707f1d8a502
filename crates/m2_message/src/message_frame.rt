//! The frame of a message, and the message of a frame.

ghost use Rattle.std.specs.Prelude.{◌≡◌, ◌≢◌, ◌↔◌, length, IsErr, IfOk, IsOkAnd};
ghost use Rattle.m2_message.specs.Message.{Content, content_of, with_numbers, IsSendable};
ghost use Rattle.m2_bytes.specs.Blob.{Appends};
ghost use Rattle.m2_frame.specs.Frame.{parts, message_tag, Fits};
ghost use Rattle.m2_frame.specs.Text.{text_of};
ghost use Rattle.m2_frame.specs.View.{parts_seen};
ghost use Rattle.m2_message.specs.HeaderText.{FieldsFit, header_text};
ghost use Rattle.m2_message.specs.MessageFrame.{message_in, parts_of, Carries};

use crate::fault::MessageFault;
use crate::header_text::{HEADER_BYTES, header_bytes, read_header, write_header};
use crate::{Header, Message};
use m2_bytes::{Blob, NoMemory, Part};
use m2_frame::{Frame, FrameView, Tag, encode_view};
use std::alloc::Global;

/// The header with these two numbers in place of its own.
fn numbered(header: Header, seq: u64, ack_seq: u64) -> Header
    ensures value { result ≡ record header { seq = seq; ack_seq = ack_seq } }
    ensures fields { FieldsFit result }
{
    Header {
        seq,
        ack_seq,
        ..header
    }
}

/// The frame that carries the message with these two numbers in its header. Front, middle and data
/// are copied once each.
pub fn to_frame(alloc: Global, message: &Message, seq: u64, ack_seq: u64) -> Result<Frame, NoMemory>
    requires { IsSendable message.now }
    ensures carries { IfOk result
        (λ f. Carries (parts f) (with_numbers seq ack_seq (content_of message.now))) }
    // It can be written.
    ensures fits { IfOk result (λ f. Fits (parts f)) }
{
    let header = numbered(message.header, seq, ack_seq);
    Ok(Frame {
        tag: Tag::Message.number(),
        first: write_header(alloc, &header)?,
        second: Blob::of(alloc, message.front.as_slice())?,
        third: Blob::of(alloc, message.middle.as_slice())?,
        fourth: Blob::of(alloc, message.tail.as_slice())?,
    })
}

/// Appends the text of the frame that carries the message with these two numbers in its header. Front,
/// middle and data are copied once, into that text.
pub fn put_frame(message: &Message, seq: u64, ack_seq: u64, out: &mut Blob) -> Result<(), NoMemory>
    requires { IsSendable message.now }
    ensures { Appends result out.old out.new (text_of (parts_of (with_numbers seq ack_seq (content_of message.now)))) }
{
    let first = header_bytes(&numbered(message.header, seq, ack_seq));
    let frame = FrameView {
        tag: Tag::Message.number(),
        first: &first,
        second: message.front.as_slice(),
        third: message.middle.as_slice(),
        fourth: message.tail.as_slice(),
    };
    encode_view(&frame, out)
}

/// The message that a MESSAGE frame carries, or what is wrong with the frame. Its parts are moved out of the frame, not
/// copied. The outer Err is want of memory.
pub fn from_frame(f: Frame) -> Result<Result<Message, MessageFault>, NoMemory>
    requires { f.tag ≡ message_tag }
    // The frame carries what it gives, and it gives what the frame carries.
    ensures found { IfOk result (λ given. IfOk given (λ m. Carries (parts f) (content_of m))) }
    ensures only { IfOk result (λ given. (m : Content) → Carries (parts f) m → IsOkAnd given (λ n. content_of n ≡ m)) }
    ensures computed { IfOk result (λ given. IfOk given (λ m. content_of m ≡ message_in (parts f))) }
    ensures bad_header { IfOk result (λ given. IsErr given ↔ (length f.first.bytes ≢ HEADER_BYTES)) }
{
    let header = match read_header(f.first.as_slice()) {
        Ok(header) => header,
        Err(e) => return Ok(Err(e)),
    };
    Ok(Ok(Message {
        header,
        front: Part::from_blob(f.second)?,
        middle: Part::from_blob(f.third)?,
        tail: Part::from_blob(f.fourth)?,
    }))
}

/// The message that a MESSAGE frame in place carries, with a whole header. Its parts are copied once each. Err is want
/// of memory.
pub fn copied_from(alloc: Global, f: &FrameView<'_>) -> Result<Message, NoMemory>
    requires tag { f.now.tag ≡ message_tag }
    requires header { length f.now.first.now ≡ HEADER_BYTES }
    ensures found { IfOk result (λ m. Carries (parts_seen f.now) (content_of m)) }
    ensures computed { IfOk result (λ m. content_of m ≡ message_in (parts_seen f.now)) }
{
    let header = whole_header(f.first);
    Ok(Message {
        header,
        front: Part::of(alloc, f.second)?,
        middle: Part::of(alloc, f.third)?,
        tail: Part::of(alloc, f.fourth)?,
    })
}

/// The header whose text these bytes are, as many as one has.
fn whole_header(bytes: &[u8]) -> Header
    requires { length bytes.now ≡ HEADER_BYTES }
    ensures fields { FieldsFit result }
    ensures text { bytes.now ≡ header_text result }
{
    match read_header(bytes) {
        Ok(header) => header,
        Err(_) => unreachable!(),
    }
}
