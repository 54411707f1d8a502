//! When a side may dial again.

ghost use Rattle.std.specs.Prelude.{◌≡◌};
ghost use Rattle.m2_core.specs.Waits.{at_first, begun, over, stepped};

use m2_journal::NodeFacts;
use m2_session::Phase;

/// When a side may dial next, and how long it waits after the next break.
#[derive(Clone, Copy, Debug, PartialEq, Eq)]
pub struct Waits {
    /// The moment before which no connect is due.
    pub next_dial: u64,
    /// How long the next wait is, in milliseconds.
    pub wait: u64,
}

impl Waits {
    /// No wait was on so far.
    pub fn at_first(node: &NodeFacts) -> Waits
        ensures { result ≡ at_first node.now }
    {
        Waits {
            next_dial: 0,
            wait: node.first_wait,
        }
    }

    /// A wait begins. The next one is twice as long, up to the longest.
    pub fn begun(self, node: &NodeFacts, now: u64) -> Waits
        ensures { result ≡ begun node.now now self }
    {
        Waits {
            next_dial: now.saturating_add(self.wait),
            wait: self.wait.saturating_add(self.wait).min(node.most_wait),
        }
    }

    /// The next wait is the first again.
    fn over(self, node: &NodeFacts) -> Waits
        ensures { result ≡ over node.now self }
    {
        Waits {
            next_dial: self.next_dial,
            wait: node.first_wait,
        }
    }

    /// Beside a step of the session from one phase to another: a wait begins where the phase becomes
    /// Wait, and in Ready the next one is the first again.
    pub fn stepped(self, node: &NodeFacts, now: u64, old: Phase, new: Phase) -> Waits
        ensures { result ≡ stepped node.now now old new self }
    {
        if new == Phase::Wait && old != Phase::Wait {
            return self.begun(node, now);
        }
        if new == Phase::Ready {
            return self.over(node);
        }
        self
    }
}
