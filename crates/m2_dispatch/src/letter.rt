//! A message on its way to a dispatcher.

use m2_message::Message;
use m2_policy::Key;
use m2_shared::PeerGrants;

/// A message that was accepted, with what was granted for it. It can't be dropped, since a grant is to
/// be given back.
pub struct Letter {
    /// The place among the nodes, from 0, of the one that it comes from.
    pub peer: u32,
    /// Its priority and the way that it is dispatched.
    pub key: Key,
    /// Its number in the session, from 1.
    pub number: u64,
    /// The name of the life of the session in which it was accepted: the server cookie at the life's
    /// beginning, 0 where none is kept.
    pub life: u64,
    pub message: Message,
    /// What was granted for it, by the throttles for peers of its sender's type and by that of the dispatch.
    pub grants: PeerGrants,
}
