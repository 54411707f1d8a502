//! Leave to go on.

/// A gate that each event thread passes before each turn. It says in which order threads go on, where a
/// test wants one order, and nothing of what they do.
pub trait Gate: Sync {
    /// Lets the event thread of this center go on. `center` is its number, counted from 0 over all nodes in
    /// the scenario's order. It may wait.
    fn pass(&self, center: u32);
}
