//! The counter of numbers.

ghost use Rattle.std.specs.Prelude.{◌≡◌, ◌≢◌, ◌+◌, ◌<◌, ◌≤◌, [], All, None, max, IfOk};
ghost use Rattle.m2_shared.specs.Place.{IsAlone, IsFree, IsOneWord, IsShared};
ghost use Rattle.m2_shared.specs.Draw.{IfDrawAgain, IfNumber, IsDrawAlone, drawn_after, word_told};

use crate::counted::{self, CountSeat, CountWord};
use crate::draw::Draw;
use crate::drawn::Drawn;
use crate::limits::LAST_NUMBER;
use crate::number_pass::NumberPass;
use m2_bytes::NoMemory;
use std::alloc::Global;
use std::marker::Model;

/// Where a counter keeps its word.
#[derive(Drop)]
pub(crate) enum Counter {
    /// In its only pass.
    Alone,
    /// In memory that threads share.
    Shared(CountWord),
}

/// A counter that gives each number from 1 to [`LAST_NUMBER`] at most once. Its word is the greatest
/// number that was drawn or raised to. Contracts see the place of the word, which is none where the
/// counter is alone.
///
/// Makers: [`alone`](Numbers::alone) and [`new`](Numbers::new). Calls: [`draw`](Numbers::draw) and
/// [`raise`](Numbers::raise). More threads: [`NumberPass::split`] and [`NumberPass::join`]. Each takes a
/// pass, and has the condition that passes were made from this counter. None of them waits.
#[derive(Drop)]
pub struct Numbers {
    pub(crate) counter: Counter,
}

impl Model for Numbers {
    ghost use Rattle.m2_shared.specs.Numbers.{SeenNumbers};
    ghost use Rattle.m2_shared.specs.NumbersFields.{numbers_of, IsNumbers};

    ghost Value = { SeenNumbers };

    ghost view = { numbers_of };

    ghost invariant = { IsNumbers };
}

/// Draws a number of a word that threads share.
fn draw_shared(word: &CountWord, seat: &mut CountSeat) -> Draw
    requires word { IsOneWord word.now.shared.table_id }
    requires seat { IsFree seat.old word.now.shared.table_id }
    ensures seat { IsFree seat.new word.now.shared.table_id }
    ensures bounds { IfNumber result (λ n. (0 < n) × (n ≤ LAST_NUMBER)) }
    ensures rises { IfNumber result (λ n. All (λ x. x < n) seat.old.me.0.drawn) }
    ensures above { IfNumber result (λ n. seat.old.me.0.least < n) }
    ensures drawn { seat.new.me.0.drawn ≡ drawn_after result seat.old.me.0.drawn }
    ensures least { seat.new.me.0.least ≡ word_told result }
    ensures again { IfDrawAgain result (λ seen now. (seat.old.me.0.least ≤ seen) × (seen < now)) }
{
    let seen = counted::load(word, seat);
    if seen == LAST_NUMBER {
        return Draw::Spent;
    }
    let now = counted::draw(word, seat, seen);
    if now == seen {
        return Draw::Number(seen + 1);
    }
    Draw::Again { seen, now }
}

impl Numbers {
    /// A counter whose word is a number in its only pass: each number is the word plus 1. Takes no memory.
    pub fn alone() -> (Numbers, NumberPass)
        ensures numbers { result.0 ≡ record { place = None } }
        ensures pass { result.1 ≡ record { place = None; least = 0; drawn = [] } }
    {
        let numbers = Numbers {
            counter: Counter::Alone,
        };
        let pass = NumberPass {
            word: 0,
            drawn: Drawn::nothing(),
            seat: None,
        };
        (numbers, pass)
    }

    /// A counter whose word lies in memory that threads share, and the pass of the first thread.
    pub fn new(alloc: Global) -> Result<(Numbers, NumberPass), NoMemory>
        ensures shared { IfOk result (λ r. IsShared r.0.place) }
        ensures pass { IfOk result (λ r. r.1 ≡ record { place = r.0.place; least = 0; drawn = [] }) }
    {
        let (word, seat) = counted::open(alloc)?;
        let numbers = Numbers {
            counter: Counter::Shared(word),
        };
        let pass = NumberPass {
            word: 0,
            drawn: Drawn::nothing(),
            seat: Some(seat),
        };
        Ok((numbers, pass))
    }

    /// Draws a number above all that this pass has drawn, raised to or found. `Spent` comes exactly where
    /// the word loaded was [`LAST_NUMBER`]. `Again` comes only where the word had risen by the exchange, and
    /// never where the counter is alone. Each answer tells the word.
    pub fn draw(&self, pass: &mut NumberPass) -> Draw
        requires pass { pass.old.place ≡ self.now.place }
        ensures place { pass.new.place ≡ pass.old.place }
        ensures bounds { IfNumber result (λ n. (0 < n) × (n ≤ LAST_NUMBER)) }
        ensures rises { IfNumber result (λ n. All (λ x. x < n) pass.old.drawn) }
        ensures above { IfNumber result (λ n. pass.old.least < n) }
        ensures drawn { pass.new.drawn ≡ drawn_after result pass.old.drawn }
        ensures least { pass.new.least ≡ word_told result }
        ensures again { IfDrawAgain result (λ seen now. (pass.old.least ≤ seen) × (seen < now)) }
        ensures alone { IsAlone self.now.place → IsDrawAlone result pass.old.least }
    {
        match (&self.counter, &mut pass.seat) {
            (Counter::Alone, None) => {
                let word = pass.word;
                if word == LAST_NUMBER {
                    return Draw::Spent;
                }
                let number = word + 1;
                pass.word = number;
                pass.drawn = Drawn::and(&pass.drawn, &number);
                Draw::Number(number)
            }
            (Counter::Shared(word), Some(seat)) => draw_shared(word, seat),
            _ => unreachable!(),
        }
    }

    /// Makes the word the greater of itself and `least`, so that numbers drawn afterwards are above it.
    pub fn raise(&self, pass: &mut NumberPass, least: u64)
        requires pass { pass.old.place ≡ self.now.place }
        requires least { least ≤ LAST_NUMBER }
        ensures place { pass.new.place ≡ pass.old.place }
        ensures drawn { pass.new.drawn ≡ pass.old.drawn }
        ensures least { pass.new.least ≡ max pass.old.least least }
    {
        match (&self.counter, &mut pass.seat) {
            (Counter::Alone, None) => {
                if pass.word < least {
                    pass.word = least;
                }
            }
            (Counter::Shared(word), Some(seat)) => counted::raise(word, seat, least),
            _ => unreachable!(),
        }
    }
}
