//! What a try to take answered.

use crate::grant::Grant;

/// What [`Throttle::try_take`](crate::Throttle::try_take) answered. It may hold a grant, so it can't be
/// dropped.
pub enum Take {
    /// So many bytes as were asked for are granted.
    Grant(Grant),
    /// So many bytes are out that one has to wait until some were given back.
    Full { held: u64 },
    /// Another thread changed the word between the look and the exchange: `now` was found where `seen`
    /// had been. Nothing was taken; one may try again.
    Again { seen: u64, now: u64 },
}
