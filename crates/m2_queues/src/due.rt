//! What a look at the next message shows.

use m2_message::Message;

/// The message that is to be sent next, and the number that it has or gets.
#[derive(Clone, Copy, Debug)]
pub struct Due<'a> {
    pub number: u64,
    pub message: &'a Message,
}
