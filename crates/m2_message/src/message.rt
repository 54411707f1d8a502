//! A message.

ghost use Rattle.std.specs.Prelude.{◌≡◌, IfOk};
ghost use Rattle.m2_message.specs.Message.{content_of, IsSendable, size_of};

use crate::header::Header;
use m2_bytes::{NoMemory, Part};

/// The most bytes that a part of a message has: 128 MiB, what a segment of its frame holds.
pub const MOST_PART: usize = 134_217_728;

/// A message: its header, and its front, middle and data as bytes (Ceph calls the third part
/// data).
#[derive(Debug, Drop)]
pub struct Message {
    pub header: Header,
    pub front: Part,
    pub middle: Part,
    pub tail: Part,
}

impl Message {
    /// How many bytes the three parts have. Each has at most [`MOST_PART`].
    pub fn size(&self) -> u64
        requires { IsSendable self.now }
        ensures { result ≡ size_of self.now }
    {
        self.front.len() as u64 + self.middle.len() as u64 + self.tail.len() as u64
    }

    /// The same message. The memory of its parts is shared.
    pub fn copy(&self) -> Result<Message, NoMemory>
        ensures { IfOk result (λ m. content_of m ≡ content_of self.now) }
    {
        Ok(Message {
            header: self.header,
            front: self.front.copy()?,
            middle: self.middle.copy()?,
            tail: self.tail.copy()?,
        })
    }
}
