//! Texts of frames that are made where memory was reserved.

ghost use Rattle.std.specs.Prelude.{◌≡◌, ◌+◌, ◌≤◌, [], length, IfOk, IsOk, OnOk};
ghost use Rattle.m2_control.specs.Control.{IsWritable, text_of};
ghost use Rattle.m2_frame.specs.declared.frame.TheConstants.{CONTROL_LIMIT};
ghost use Rattle.m2_frame.specs.declared.encoding.TheConstants.{CRC_BYTES};
ghost use Rattle.m2_frame.specs.declared.preamble.TheConstants.{PREAMBLE_BYTES};
ghost use Rattle.m2_handshake.specs.Texts.{Adds, frame_text};

use crate::outgoing::Outgoing;
use m2_bytes::{Blob, NoMemory};
use m2_control::Control;
use m2_frame::{CRC_BYTES, Frame, PREAMBLE_BYTES, encode};
use std::alloc::Global;

/// How many bytes the payload of a record's CLIENT_IDENT has.
pub const IDENT_BYTES: usize = 123;

/// How many bytes the payload of a record's SESSION_RECONNECT has.
pub const RECONNECT_BYTES: usize = 80;

/// The text of the frame of a control payload, as [`Feed::taken_over`](crate::Feed::taken_over) takes it.
pub fn frame_of(alloc: Global, c: &Control) -> Result<Blob, NoMemory>
    requires writable { IsWritable c.now }
    requires short { length (text_of c.now) ≤ CONTROL_LIMIT }
    ensures { IfOk result (λ text. text.bytes ≡ frame_text c.now) }
{
    let mut first = Blob::empty(alloc);
    c.write(&mut first)?;
    let frame = control_frame(alloc, c.tag(), first);
    let mut text = Blob::empty(alloc);
    encode(&frame, &mut text)?;
    Ok(text)
}

/// A frame of one segment.
fn control_frame(alloc: Global, tag: u8, first: Blob) -> Frame
    ensures tag { result.tag ≡ tag }
    ensures first { result.first ≡ first }
    ensures others { (result.second.bytes ≡ []) × (result.third.bytes ≡ []) × (result.fourth.bytes ≡ []) }
{
    Frame {
        tag,
        first,
        second: Blob::empty(alloc),
        third: Blob::empty(alloc),
        fourth: Blob::empty(alloc),
    }
}

/// Appends the frame of a control payload, which is made in `payload`: it succeeds wherever both have
/// the room.
#[tactic(auto, using(crate::proofs::Texts::frame_fits))]
pub(crate) fn put_control(
    alloc: Global,
    c: &Control,
    payload: &mut Blob,
    out: &mut Outgoing,
) -> Result<(), NoMemory>
    requires writable { IsWritable c.now }
    requires short { length (text_of c.now) ≤ CONTROL_LIMIT }
    requires empty { payload.old.bytes ≡ [] }
    ensures adds { Adds result out.old out.new (frame_text c.now) }
    ensures empty { payload.new.bytes ≡ [] }
    ensures succeeds { length (text_of c.now) ≤ payload.old.room
        → PREAMBLE_BYTES + length (text_of c.now) + CRC_BYTES ≤ out.old.room → IsOk result }
{
    c.write(payload)?;
    let first = std::mem::replace(payload, Blob::empty(alloc));
    let frame = control_frame(alloc, c.tag(), first);
    let done = out.append(&frame);
    let Frame {
        tag: _,
        first,
        second: _,
        third: _,
        fourth: _,
    } = frame;
    *payload = first;
    payload.clear();
    done
}

/// Makes the room that the frame of a control payload of this length takes.
pub(crate) fn reserve_control(
    len: usize,
    payload: &mut Blob,
    out: &mut Outgoing,
) -> Result<(), NoMemory>
    requires short { len ≤ CONTROL_LIMIT }
    ensures empty { payload.new.bytes ≡ payload.old.bytes }
    ensures same { out.new.bytes ≡ out.old.bytes }
    ensures payload { OnOk result (len ≤ payload.new.room) }
    ensures text { OnOk result (PREAMBLE_BYTES + len + CRC_BYTES ≤ out.new.room) }
{
    payload.reserve(len)?;
    out.reserve(PREAMBLE_BYTES + len + CRC_BYTES)
}
