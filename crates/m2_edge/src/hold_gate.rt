//! A gate that holds one center until another has passed.

use crate::gate::Gate;
use std::hint::spin_loop;
use std::sync::atomic::{AtomicBool, Ordering};

/// Holds the threads of one center until another center has passed once, and everybody else not at all.
/// Whoever runs both centers on one thread finds that the hold was [given up](HoldGate::gave_up).
///
/// A pass of the held center looks again and again, a number of times at most, and then goes on. So each
/// pass returns.
#[derive(Drop)]
pub struct HoldGate {
    held: u32,
    awaited: u32,
    /// How often a pass of the held center looks.
    looks: u64,
    has_passed: AtomicBool,
    gave_up: AtomicBool,
}

impl HoldGate {
    /// Holds the center `held` until `awaited` has passed, for at most so many looks in all.
    pub fn new(held: u32, awaited: u32, looks: u64) -> HoldGate {
        HoldGate {
            held,
            awaited,
            looks,
            has_passed: AtomicBool::new(false),
            gave_up: AtomicBool::new(false),
        }
    }

    /// Whether the held center went on without the other having passed.
    pub fn gave_up(&self) -> bool {
        self.gave_up.load(Ordering::SeqCst)
    }

    /// Waits until the awaited center has passed, or until all looks are used up. Whether it has passed.
    fn sees_it_pass(&self) -> bool {
        for _ in 0..self.looks {
            if self.has_passed.load(Ordering::SeqCst) {
                return true;
            }
            spin_loop();
        }
        self.has_passed.load(Ordering::SeqCst)
    }
}

impl Gate for HoldGate {
    fn pass(&self, center: u32) {
        if center == self.awaited {
            self.has_passed.store(true, Ordering::SeqCst);
        }
        if center == self.held && !self.gave_up() && !self.sees_it_pass() {
            self.gave_up.store(true, Ordering::SeqCst);
        }
    }
}
