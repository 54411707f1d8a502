//! The right to draw.

ghost use Rattle.std.specs.Prelude.{◌≡◌, ◌≢◌, ◌≤◌, ◌++◌, [], AllPairs};
ghost use Rattle.m2_shared.specs.Place.{IsShared};

use crate::counted::{self, CountSeat};
use crate::drawn::Drawn;
use crate::numbers::{Counter, Numbers};
use std::marker::Model;

/// The right of one thread to draw numbers. Contracts see the place of the counter's word, all numbers
/// that were drawn by this pass, in order, and a number that the word is at least: the greatest that this
/// pass drew, raised to or found. Of a counter that is alone it is the word itself.
#[derive(Drop)]
pub struct NumberPass {
    pub(crate) word: u64,
    pub(crate) drawn: Drawn,
    /// It has the numbers that were drawn. None where the counter is alone.
    pub(crate) seat: Option<CountSeat>,
}

impl Model for NumberPass {
    ghost use Rattle.m2_shared.specs.Numbers.{SeenNumberPass};
    ghost use Rattle.m2_shared.specs.NumbersFields.{number_pass_of, IsNumberPass};

    ghost Value = { SeenNumberPass };

    ghost view = { number_pass_of };

    ghost invariant = { IsNumberPass };
}

impl NumberPass {
    /// A pass for one thread more, by which no numbers were drawn. The counter isn't alone.
    pub fn split(&mut self, numbers: &Numbers) -> NumberPass
        requires pass { self.old.place ≡ numbers.now.place }
        requires shared { IsShared numbers.now.place }
        ensures pass { self.new ≡ self.old }
        ensures new { result ≡ record self.old { drawn = [] } }
    {
        match (&numbers.counter, &mut self.seat) {
            (Counter::Shared(word), Some(seat)) => NumberPass {
                word: 0,
                drawn: Drawn::nothing(),
                seat: Some(counted::split(word, seat)),
            },
            _ => unreachable!(),
        }
    }

    /// Takes another pass in, with the numbers that were drawn by it. All of them differ. The counter
    /// isn't alone.
    pub fn join(&mut self, numbers: &Numbers, other: NumberPass)
        requires pass { self.old.place ≡ numbers.now.place }
        requires other { other.place ≡ numbers.now.place }
        requires shared { IsShared numbers.now.place }
        ensures place { self.new.place ≡ self.old.place }
        ensures least { self.old.least ≤ self.new.least }
        ensures least_of_other { other.least ≤ self.new.least }
        ensures drawn { self.new.drawn ≡ self.old.drawn ++ other.drawn }
        ensures differ { AllPairs (λ x y. x ≢ y) self.new.drawn }
    {
        let NumberPass {
            word: _,
            drawn: _,
            seat,
        } = other;
        match (&numbers.counter, &mut self.seat, seat) {
            (Counter::Shared(word), Some(mine), Some(seat)) => {
                counted::join(word, mine, seat);
                counted::load(word, mine);
            }
            _ => unreachable!(),
        }
    }
}
