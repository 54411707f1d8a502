//! The answer of a full inbox.

/// The inbox was full at a moment of the call, and here is the item again.
#[derive(Debug, Drop)]
pub struct Full<T> {
    pub item: T,
}
