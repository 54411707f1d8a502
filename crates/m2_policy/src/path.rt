//! How a message is ordered and dispatched at its reader.

ghost use Rattle.std.specs.Prelude.{◌≡◌};
ghost use Rattle.m2_policy.specs.Path.{path_of};

use crate::fast_set::FastSet;

/// How a message reaches its reader's dispatcher (Ceph's fast dispatch and its dispatch queue).
#[derive(Clone, Copy, Debug, PartialEq, Eq)]
pub enum Path {
    /// At once, by the thread that read it.
    Fast,
    /// By the dispatcher's queue, in the order of priorities.
    Queued,
}

/// Messages of one key are dispatched in the order in which they were posted.
#[derive(Clone, Copy, Debug, PartialEq, Eq)]
pub struct Key {
    pub priority: u16,
    pub path: Path,
}

impl Path {
    /// The path of a message of this kind at a node that dispatches the kinds of `fast` at once.
    pub fn of(kind: u16, fast: &FastSet) -> Path
        ensures { result ≡ path_of kind fast.now }
    {
        if fast.contains(kind) {
            Path::Fast
        } else {
            Path::Queued
        }
    }
}
