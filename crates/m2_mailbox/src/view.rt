//! What a pass knows, for contracts alone.

use std::collections::LinkedList;

/// What a pass knows of the inbox. No value of it is made.
pub(crate) enum View<T, O> {
    /// The first pass of a queue, before anybody was told the owner.
    Fresh,
    /// The first pass, while the queue holds the slip that tells the owner.
    Telling(O),
    /// A pass of an inbox.
    Open(Known<T, O>),
    /// A pass that was joined into another.
    Spent,
}

/// What a pass of an inbox knows. No value of it is made.
pub(crate) struct Known<T, O> {
    /// To whom the items belong.
    pub(crate) owner: O,
    /// How many parts of the right to put it has.
    pub(crate) parts: u64,
    /// What was put: by the pass itself, and then by each pass that was joined into it.
    pub(crate) puts: LinkedList<LinkedList<T>>,
    /// Whether it may take.
    pub(crate) takes: bool,
    /// What was taken.
    pub(crate) taken: LinkedList<T>,
}
