//! Words of 64 bits.

ghost use Rattle.std.specs.Prelude.{ℕ};

/// A giver of words, from which each node gets its salt.
///
/// Every giver tells contracts which word may come next, and what it is afterwards.
pub trait Words {
    /// Holds of the giver before a call, the word that it gave, and the giver after it.
    ghost may_give: { Self → ℕ → Self → Type 0 };

    /// The next word. It never waits.
    fn next(&mut self) -> u64
        ensures word { may_give self.old result self.new };
}
