//! The kinds of message that a node dispatches at once.

ghost use Rattle.std.specs.Prelude.{◌≡◌, ◌<◌, ◌≤◌, [], ◌∷◌, ◌++◌, ◌==◌, length};
ghost use Rattle.m2_policy.specs.Path.{has_kind};

use std::marker::Model;

/// A list of at most [`FastSet::MOST`] kinds. Contracts see the list. It takes no memory.
#[derive(Debug, Drop)]
pub struct FastSet {
    kinds: [u16; FastSet::MOST],
    len: usize,
}

impl Model for FastSet {
    ghost use Rattle.std.specs.Prelude.{ℕ, ◌≤◌, List, take};
    ghost use Rattle.m2_policy.specs.declared.fast_set.TheConstants.FastSet.{MOST};

    ghost Value = { List ℕ };

    ghost view = { λ s. take s.len s.kinds };

    ghost invariant = { λ s. s.len ≤ MOST };
}

impl FastSet {
    /// How many kinds it can hold.
    pub const MOST: usize = 16;

    /// No kinds.
    pub fn empty() -> FastSet
        ensures { result ≡ [] }
    {
        FastSet {
            kinds: [0; FastSet::MOST],
            len: 0,
        }
    }

    /// Puts the kind last. There must be room for it; [`len`](FastSet::len) tells.
    pub fn add(&mut self, kind: u16)
        requires { length self.old < Self.MOST }
        ensures { self.new ≡ self.old ++ kind ∷ [] }
    {
        self.kinds[self.len] = kind;
        self.len += 1;
    }

    /// The same kinds.
    pub fn copy(&self) -> FastSet
        ensures { result ≡ self.now }
    {
        FastSet {
            kinds: self.kinds,
            len: self.len,
        }
    }

    /// How many kinds.
    pub fn len(&self) -> usize
        ensures value { result ≡ length self.now }
        ensures most { length self.now ≤ Self.MOST }
    {
        self.len
    }

    pub fn is_empty(&self) -> bool
        ensures { result ≡ (length self.now == 0) }
    {
        self.len == 0
    }

    /// Whether the kind is among them.
    pub fn contains(&self, kind: u16) -> bool
        ensures { result ≡ has_kind kind self.now }
    {
        self.kinds[..self.len].contains(&kind)
    }
}
