//! The draws.

ghost use Rattle.std.specs.Prelude.{◌≡◌, ◌<◌, ◌^◌};
ghost use Rattle.m2_scenario.specs.Draws.{next_state, upper_bits};

use std::marker::Model;

/// What a state is multiplied by: Knuth's for 64 bits, as in MMIX.
pub(crate) const MULTIPLIER: u64 = 6_364_136_223_846_793_005;

/// What is added then.
pub(crate) const INCREMENT: u64 = 1_442_695_040_888_963_407;

/// A stream of draws. Contracts see its state, which is the seed of the draws that are still to come.
#[derive(Debug, Drop)]
pub(crate) struct Draws {
    state: u64,
}

impl Model for Draws {
    ghost use Rattle.std.specs.Prelude.{ℕ};

    ghost Value = { ℕ };

    ghost view = { λ d. d.state };
}

impl Draws {
    /// The draws of a seed.
    pub(crate) fn of(seed: u64) -> Draws
        ensures { result ≡ seed }
    {
        Draws { state: seed }
    }

    /// The next draw.
    #[tactic(auto, unfolding(crate::specs::Draws::next_state, crate::specs::Draws::upper_bits), using(crate::proofs::Wrapped::wrapped))]
    pub(crate) fn next(&mut self) -> u64
        ensures value { result ≡ upper_bits (next_state self.old) }
        ensures state { self.new ≡ next_state self.old }
    {
        self.state = self.state.wrapping_mul(MULTIPLIER).wrapping_add(INCREMENT);
        self.state >> 33
    }
}
