//! What a frame says.

ghost use Rattle.std.specs.Prelude.{◌≡◌, ◌≢◌, IfOk};
ghost use Rattle.m2_frame.specs.Frame.{message_tag};
ghost use Rattle.m2_frame.specs.Reading.{whole};
ghost use Rattle.m2_frame.specs.Tags.{tag_in};
ghost use Rattle.m2_frame.specs.View.{parts_seen};
ghost use Rattle.m2_frame_facts.specs.Facts.{bare_facts, control_facts, facts_of, message_facts};

use crate::header::read_header;
use m2_bytes::NoMemory;
use m2_control::{Control, ControlFault};
use m2_frame::{FrameView, Tag};
use m2_message::Header;
use std::alloc::Global;

/// What a MESSAGE says without its parts: its header, and how many bytes they have.
#[derive(Clone, Copy, Debug, PartialEq, Eq)]
pub struct MessageFacts {
    pub header: Header,
    pub front: u64,
    pub middle: u64,
    pub data_bytes: u64,
}

/// What a frame says, by the definitions that the runtime reads it by.
#[derive(Debug, Drop)]
pub enum Facts {
    /// A message.
    Message(MessageFacts),
    /// A MESSAGE whose first segment is no header.
    NoHeader,
    /// The payload of another frame.
    Control(Control),
    /// A frame whose payload isn't one of its tag: the first fault from left to right.
    NoPayload(ControlFault),
    /// Its sender gave it up.
    Aborted,
}

/// What a MESSAGE says. It takes no memory.
fn message_facts(frame: &FrameView<'_>) -> Facts
    ensures { bare_facts result ≡ message_facts (parts_seen frame.now) }
{
    match read_header(frame.first) {
        Ok(header) => Facts::Message(MessageFacts {
            header,
            front: frame.second.len() as u64,
            middle: frame.third.len() as u64,
            data_bytes: frame.fourth.len() as u64,
        }),
        Err(_) => Facts::NoHeader,
    }
}

/// What the payload of a frame with this tag says, which isn't that of a MESSAGE.
fn control_facts(alloc: Global, tag: u8, payload: &[u8]) -> Result<Facts, NoMemory>
    requires { tag ≢ message_tag }
    ensures { IfOk result (λ facts. bare_facts facts ≡ control_facts (tag_in tag) payload.now) }
{
    let Some(known) = Tag::of(tag) else {
        return Ok(Facts::NoPayload(ControlFault::NotNegotiated));
    };
    match Control::read(alloc, known.number(), payload) {
        Ok(control) => Ok(Facts::Control(control)),
        Err(ControlFault::NoMemory) => Err(NoMemory),
        Err(fault) => Ok(Facts::NoPayload(fault)),
    }
}

/// What a frame says. Memory is taken for the addresses, lists and byte strings of a payload alone.
pub fn facts_of(alloc: Global, frame: &FrameView<'_>) -> Result<Facts, NoMemory>
    ensures { IfOk result (λ facts. bare_facts facts ≡ facts_of (whole (parts_seen frame.now))) }
{
    if frame.tag == Tag::Message.number() {
        Ok(message_facts(frame))
    } else {
        control_facts(alloc, frame.tag, frame.first)
    }
}
