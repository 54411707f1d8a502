//! What a turn answered.

/// What [`Dispatch::turn`](crate::Dispatch::turn) answered.
#[derive(Clone, Copy, Debug, PartialEq, Eq)]
pub enum DispatchTurn {
    /// A message was dispatched.
    One,
    /// No letter waits.
    Nothing,
    /// Memory ran out, here or in the dispatcher. The letter waits in its place.
    NoMemory,
}
