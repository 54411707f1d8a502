//! Whoever has the ports and ends of all nodes in memory.

ghost use Rattle.std.specs.Prelude.{◌≡◌, ◌<◌, OnOk, OnErr};
ghost use Rattle.std.specs.Option.{option_map};
ghost use Rattle.m2_fabric.specs.End.{SeenEnd, after_news};
ghost use Rattle.m2_fabric.specs.Holder.{ComesTo, IsAsBefore, OneEndHears, SeenHolder, end_had};
ghost use Rattle.m2_fabric.specs.Log.{log_of};

use crate::end::News;
use crate::log::EndLog;
use crate::socket::{SocketId, SocketIdList};
use m2_bytes::NoMemory;

/// Whoever has the ports and ends of all nodes in memory. Whoever drives them makes sockets known at
/// the other node and moves the bytes through these calls. Nodes are numbered from 0.
pub trait Holder {
    /// What contracts see of its ports and ends.
    ghost seen: { Self → SeenHolder };

    ghost Rest: { Type 0 };

    /// What it has besides, which none of these calls changes.
    ghost rest: { Self → Rest };

    /// The sockets that the node's ports made, in order.
    fn made(&self, node: u32) -> &SocketIdList
        requires { node < (seen self.now).nodes }
        ensures { result.now.items ≡ (seen self.now).made node };

    /// What the node's end of that socket did; none exactly where the node has no such end, also where it
    /// still waits for an accept.
    fn log(&self, node: u32, id: &SocketId) -> Option<&EndLog>
        requires { node < (seen self.now).nodes }
        ensures { option_map (λ log. log_of log.now) result
            ≡ option_map (λ (e : SeenEnd). e.log) (end_had (seen self.now) (record { node = node; id = id.now })) };

    /// Makes a socket known to the node's port, where it waits for an accept; all else stays.
    fn incoming(&mut self, node: u32, id: SocketId) -> Result<(), NoMemory>
        requires { node < (seen self.old).nodes }
        ensures ok { OnOk result (ComesTo (record { node = node; id = id }) (seen self.old) (seen self.new)) }
        ensures err { OnErr result (IsAsBefore (record { node = node; id = id }) (seen self.old) (seen self.new)) }
        ensures rest { rest self.new ≡ rest self.old };

    /// Tells the node's end of that socket of the other side, also while it waits; all else stays.
    fn hear(&mut self, node: u32, id: &SocketId, bytes: &[u8], news: News) -> Result<(), NoMemory>
        requires { node < (seen self.old).nodes }
        ensures ok { OnOk result (OneEndHears (record { node = node; id = id.now }) (after_news news bytes.now) (seen self.old) (seen self.new)) }
        ensures err { OnErr result (IsAsBefore (record { node = node; id = id.now }) (seen self.old) (seen self.new)) }
        ensures rest { rest self.new ≡ rest self.old };
}
