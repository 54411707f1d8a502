//! The message that a post sends.

ghost use Rattle.std.specs.Prelude.{◌≡◌, IfOk};
ghost use Rattle.m2_message.specs.Message.{content_of};
ghost use Rattle.m2_scenario.specs.Posted.{posted};

use m2_bytes::{Blob, NoMemory, Part};
use m2_message::{Header, Message};

/// The message of a post: version 1, compat 1, and 0 in the fields that a post doesn't name.
pub fn posted(
    kind: u16,
    priority: u16,
    front: Blob,
    middle: Blob,
    tail: Blob,
) -> Result<Message, NoMemory>
    ensures { IfOk result (λ m. content_of m ≡ posted kind priority front.bytes middle.bytes tail.bytes) }
{
    let header = Header {
        seq: 0,
        tid: 0,
        kind,
        priority,
        version: 1,
        pre_padding: 0,
        data_off: 0,
        ack_seq: 0,
        flags: 0,
        compat: 1,
        reserved: 0,
    };
    Ok(Message {
        header,
        front: Part::from_blob(front)?,
        middle: Part::from_blob(middle)?,
        tail: Part::from_blob(tail)?,
    })
}
