//! Messages that are accepted.

ghost use Rattle.std.specs.Prelude.{◌≡◌};
ghost use Rattle.m2_feed.specs.declared.frame_heard.FrameHeard.TheVariants as heard;
ghost use Rattle.m2_journal.specs.Lawful.{key_of};
ghost use Rattle.m2_journal.specs.SideFacts.{SideFacts};
ghost use Rattle.m2_message.specs.Message.{Content};
ghost use Rattle.m2_core.specs.Accepting.{HasAccepted};
ghost use Rattle.m2_core.specs.Front.{HearsOn};

use crate::front_laws::front_laws;
use crate::side::Core;
use m2_bytes::NoMemory;
use m2_fabric::End;
use m2_journal::NodeFacts;
use m2_message::{Header, Message};
use m2_policy::{Key, Path};
use m2_shared::PeerGrants;

/// A message that was accepted, with what was granted for it. It can't be dropped, since a grant can't.
pub struct CoreAccepted {
    /// Its number, the one after the last.
    pub number: u64,
    /// The name of the life that it was accepted in.
    pub life: u64,
    /// Its priority and its path at this node.
    pub key: Key,
    pub message: Message,
    /// What each stage granted for it.
    pub grants: PeerGrants,
}

impl<E: End> Core<E> {
    /// Accepts the message at the front, which is the one with this number: the entry Accepted. Its parts are
    /// copied once. Err for want of memory changes nothing.
    #[tactic(auto, using(crate::proofs::Accepted::is_heard, crate::proofs::Accepted::keeps_to, crate::proofs::Accepted::accepts_to))]
    pub fn accept(&mut self, number: u64) -> Result<CoreAccepted, NoMemory>
        requires heard { HearsOn self.old (heard.Brings number) }
        ensures accepted { HasAccepted result number self.old self.new }
    {
        front_laws();
        let life = self.live.life;
        match self.live.accept_front(number) {
            Ok((message, grants)) => {
                self.owes = true;
                Ok(CoreAccepted {
                    number,
                    life,
                    key: key_at(&self.node, &message.header),
                    message,
                    grants,
                })
            }
            Err(NoMemory) => Err(NoMemory),
        }
    }
}

/// The key of a message at a node.
fn key_at(node: &NodeFacts, header: &Header) -> Key
    ensures { (f : SideFacts) → f.node ≡ node.now → (m : Content) → m.header ≡ header.now → result ≡ key_of f m }
{
    Key {
        priority: header.priority,
        path: Path::of(header.kind, &node.fast),
    }
}
