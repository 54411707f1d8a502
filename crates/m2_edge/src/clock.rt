//! The time.

ghost use Rattle.std.specs.Prelude.{ℕ};

/// A clock. Its moments are milliseconds, counted from a start of its own, so that moments of two clocks
/// aren't comparable.
///
/// Every clock tells contracts which moments it may give; that never changes. A clock may go back: take
/// its answers by [`next_moment`](crate::next_moment).
pub trait Clock: Sync {
    /// Which moments it may give, in milliseconds.
    ghost may_give: { Self → ℕ → Type 0 };

    /// The moment, in milliseconds: one of those that the clock may give. It never waits.
    fn now(&self) -> u64
        ensures moment { may_give self.now result };
}
