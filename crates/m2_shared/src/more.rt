//! What asking for the grants that are missing answered.

use crate::stage::Stage;

/// What [`Grants::more`](crate::Grants::more) answered.
#[derive(Clone, Copy, Debug, Drop, PartialEq, Eq)]
pub enum More {
    /// Each stage has granted.
    Whole,
    /// So much is out at this stage that one has to wait until some of it was given back.
    Full { stage: Stage, held: u64 },
    /// Another thread changed the word of this stage between the look and the exchange: `now` was found
    /// where `seen` had been. One may try again.
    Again { stage: Stage, seen: u64, now: u64 },
}
