//! The calls of a dispatcher.

ghost use Rattle.std.specs.Prelude.{◌≡◌};
ghost use Rattle.m2_dispatch.specs.Heard.{heard_of, is_message_from};

use m2_bytes::Items;
use m2_message::Message;
use m2_policy::Key;

/// The calls of a node's dispatcher, in their order.
pub type LoggedList = Items<Logged>;

/// One call of a node's dispatcher. `peer` is the place among the nodes, from 0, of the one that it
/// comes from.
#[derive(Debug, Drop)]
pub enum Logged {
    /// A message was dispatched.
    Message {
        peer: u32,
        key: Key,
        /// Its number in the session, from 1.
        number: u64,
        /// The name of the life of the session in which it was accepted, 0 where that has none.
        life: u64,
        message: Message,
    },
    /// The peer has reset the session.
    Reset {
        peer: u32,
    },
}

impl Logged {
    /// Whether it is a message of the node at this place.
    pub fn is_message_from(&self, node: usize) -> bool
        ensures { result ≡ is_message_from node (heard_of self.now) }
    {
        match self {
            Logged::Message { peer, .. } => *peer as usize == node,
            Logged::Reset { .. } => false,
        }
    }
}
