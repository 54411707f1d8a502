//! Words of a random generator.

ghost use Rattle.std.specs.Prelude.{◌≡◌};
ghost use Rattle.m2_edge.specs.Words.{Draws};

use crate::words::Words;
use rand_core::Rng;
use std::marker::Model;

/// The words that a generator gives, such as one that was seeded from the runtime. That those of such a
/// one can't be guessed is trusted. Contracts see the generator.
#[derive(Drop)]
pub struct RandomWords<G> {
    generator: G,
}

impl<G> Model for RandomWords<G> {
    ghost Value = { G };

    ghost view = { λ w. w.generator };
}

impl<G: Rng> RandomWords<G> {
    /// The words that this generator will give.
    pub fn new(generator: G) -> RandomWords<G>
        ensures { result ≡ generator }
    {
        RandomWords { generator }
    }
}

impl<G: Rng> Words for RandomWords<G> {
    ghost may_give = { λ old word new. Draws (G.stream old) word (G.stream new) };

    fn next(&mut self) -> u64 {
        self.generator.next_u64()
    }
}
