//! The right to take.

ghost use Rattle.std.specs.Prelude.{◌≡◌, [], ◌++◌};
ghost use Rattle.m2_shared.specs.Place.{IsShared};
ghost use Rattle.m2_shared.specs.Throttle.{out_alone};

use crate::held::{self, HeldSeat};
use crate::throttle::{Making, Throttle};
use std::marker::Model;

/// The right of one thread to take from a throttle and to give back. Contracts see the place of the
/// throttle's word; of a throttle that is alone the word itself, which is how many bytes are out; and of a
/// word that threads share what this pass did to it, in order, with the word as it was and as it became
/// at each step.
#[derive(Drop)]
pub struct TakePass {
    pub(crate) word: u64,
    /// It holds nothing. None where the throttle is alone.
    pub(crate) seat: Option<HeldSeat>,
}

impl Model for TakePass {
    ghost use Rattle.m2_shared.specs.Throttle.{SeenTakePass};
    ghost use Rattle.m2_shared.specs.ThrottleFields.{take_pass_of, IsTakePass};

    ghost Value = { SeenTakePass };

    ghost view = { take_pass_of };

    ghost invariant = { IsTakePass };
}

impl TakePass {
    /// How many bytes are out. None exactly where threads share the word.
    pub fn out(&self) -> Option<u64>
        ensures { result ≡ out_alone self.now }
    {
        match &self.seat {
            None => Some(self.word),
            Some(_) => None,
        }
    }

    /// A pass for one thread more. The throttle isn't alone.
    pub fn split(&mut self, throttle: &Throttle) -> TakePass
        requires pass { self.old.place ≡ throttle.now.place }
        requires shared { IsShared throttle.now.place }
        ensures pass { self.new ≡ self.old }
        ensures new { result ≡ record self.old { word = 0; changes = [] } }
    {
        match (&throttle.making, &mut self.seat) {
            (Making::Shared(word), Some(seat)) => TakePass {
                word: 0,
                seat: Some(held::split(word, seat)),
            },
            _ => unreachable!(),
        }
    }

    /// Takes another pass in. The throttle isn't alone.
    pub fn join(&mut self, throttle: &Throttle, other: TakePass)
        requires pass { self.old.place ≡ throttle.now.place }
        requires other { other.place ≡ throttle.now.place }
        requires shared { IsShared throttle.now.place }
        ensures pass { self.new ≡ record self.old { changes = self.old.changes ++ other.changes } }
    {
        let TakePass { word: _, seat } = other;
        match (&throttle.making, &mut self.seat, seat) {
            (Making::Shared(word), Some(mine), Some(seat)) => held::join(word, mine, seat),
            _ => unreachable!(),
        }
    }
}
