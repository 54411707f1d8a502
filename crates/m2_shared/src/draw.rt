//! What a draw answered.

/// What [`Numbers::draw`](crate::Numbers::draw) answered.
#[derive(Clone, Copy, Debug, PartialEq, Eq)]
pub enum Draw {
    /// A number that no other draw gives.
    Number(u64),
    /// The last number was drawn, or raised to.
    Spent,
    /// Another thread changed the word between the look and the exchange: `now` was found where `seen`
    /// had been. Nothing was drawn; one may try again.
    Again { seen: u64, now: u64 },
}
