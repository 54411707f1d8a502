//! Whoever takes messages at last.

ghost use Rattle.std.specs.Prelude.{◌≡◌, List, [], ◌∷◌, ◌++◌, OnOk, OnErr, IfErr};
ghost use Rattle.m2_dispatch.specs.Heard.{Heard, message as heard_message, reset as heard_reset};
ghost use Rattle.m2_message.specs.Message.{content_of};

use m2_bytes::NoMemory;
use m2_message::Message;
use m2_policy::Key;

/// Whoever takes the messages of a node's peers. Contracts see what it was called with, in order: each
/// call that answered Ok, and no other. `peer` is the place among the nodes, from 0, of the one that a call
/// is about. Err comes only for want of memory.
pub trait Dispatcher {
    /// What it was called with, in order.
    ghost heard: { Self → List Heard };

    /// Takes a message with its key, its number in the session and the name of the life of the session in
    /// which it was accepted, 0 where that has none. Err hands it back.
    fn message(
        &mut self,
        peer: u32,
        key: Key,
        number: u64,
        life: u64,
        message: Message,
    ) -> Result<(), Message>
        ensures ok { OnOk result
            (heard self.new ≡ heard self.old ++ heard_message peer key number life (content_of message) ∷ []) }
        ensures back { IfErr result (λ back. back ≡ message) }
        ensures err { OnErr result (heard self.new ≡ heard self.old) };

    /// Is told that the peer has reset the session.
    fn reset(&mut self, peer: u32) -> Result<(), NoMemory>
        ensures ok { OnOk result (heard self.new ≡ heard self.old ++ heard_reset peer ∷ []) }
        ensures err { OnErr result (heard self.new ≡ heard self.old) };
}
