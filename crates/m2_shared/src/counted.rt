//! The word that a counter of numbers shares with threads: its rule, and each kind of step on it.

ghost use Rattle.std.specs.Prelude.{◌≡◌, ◌≢◌, ◌+◌, ◌<◌, ◌≤◌, [], max, AllPairs, IfOk};
ghost use Rattle.m2_shared.specs.Place.{IsFree, IsOneWord};
ghost use Rattle.m2_shared.specs.Counted.{
  IsAbove,
  IsFound,
  IsGivenOnce,
  both_known,
  drew,
  knowing_nothing,
  known_after,
  lift,
  lifted,
  told,
};

use crate::limits::LAST_NUMBER;
use atomic_table::{Join, Play, Seat, Split, Table, TableRule};
use m2_bytes::NoMemory;
use std::alloc::Global;
use std::collections::LinkedList;

/// What a seat knows: the numbers that were drawn by it, in order, and what the word is at least. No
/// value of it is made.
pub(crate) struct Known {
    pub(crate) drawn: LinkedList<u64>,
    pub(crate) least: u64,
}

/// Each number is given at most once.
pub(crate) struct GivenOnce;

impl TableRule<(), Known, ()> for GivenOnce {
    ghost holds = { λ _ s. IsGivenOnce s.words s.views };

    ghost first = { λ _. knowing_nothing };
}

/// A look tells the word, and that the seat has no number twice.
struct Found;

impl Play<(), Known> for Found {
    ghost then = { told };
}

/// The seat has the number to which the word rose, which is above all that it had; or it knows the word
/// that was found.
struct Drew;

impl Play<(), Known> for Drew {
    ghost then = { drew };
}

/// The seat knows that the word is at least so much.
struct Lifted;

impl Play<(), Known> for Lifted {
    ghost then = { lifted };
}

/// A new seat has no numbers, and knows as much of the word.
struct Parted;

impl Split<Known> for Parted {
    ghost left = { λ known. known };

    ghost right = { λ known. record { drawn = []; least = known.least } };
}

/// What both know; a seat that is spent knows nothing.
struct Gathered;

impl Join<Known> for Gathered {
    ghost both = { both_known };

    ghost spent = { knowing_nothing };
}

/// The word.
pub(crate) type CountWord = Table<(), Known, (), GivenOnce, Global>;

/// The right to step on the word, and the numbers that were drawn by it.
pub(crate) type CountSeat = Seat<(), Known>;

/// A word of 0, and a seat that knows nothing.
pub(crate) fn open(alloc: Global) -> Result<(CountWord, CountSeat), NoMemory>
    ensures word { IfOk result (λ r. IsOneWord r.0.shared.table_id) }
    ensures seat { IfOk result (λ r. IsFree r.1 r.0.shared.table_id) }
    ensures known { IfOk result (λ r. r.1.me.0 ≡ knowing_nothing) }
{
    let (word, seat) = CountWord::of_words(alloc, &[0], &())?;
    Ok((word, seat))
}

/// The word, which the seat knows from then on to be at least so much.
pub(crate) fn load(word: &CountWord, seat: &mut CountSeat) -> u64
    requires word { IsOneWord word.now.shared.table_id }
    requires seat { IsFree seat.old word.now.shared.table_id }
    ensures seat { IsFree seat.new word.now.shared.table_id }
    ensures known { seat.new.me.0 ≡ lift result seat.old.me.0 }
    ensures found { IsFound result seat.old.me.0 }
{
    word.shared.load::<Found>(seat, 0)
}

/// A new seat, which has no numbers and knows as much of the word.
pub(crate) fn split(word: &CountWord, seat: &mut CountSeat) -> CountSeat
    requires word { IsOneWord word.now.shared.table_id }
    requires seat { IsFree seat.old word.now.shared.table_id }
    ensures seat { IsFree seat.new word.now.shared.table_id }
    ensures known { seat.new.me.0 ≡ seat.old.me.0 }
    ensures new { IsFree result word.now.shared.table_id }
    ensures new_known { result.me.0 ≡ record { drawn = []; least = seat.old.me.0.least } }
{
    word.shared.split_seat::<Parted>(seat)
}

/// Ends a seat; the other one knows from then on what both knew.
pub(crate) fn join(word: &CountWord, seat: &mut CountSeat, other: CountSeat)
    requires word { IsOneWord word.now.shared.table_id }
    requires seat { IsFree seat.old word.now.shared.table_id }
    requires other { IsFree other word.now.shared.table_id }
    ensures seat { IsFree seat.new word.now.shared.table_id }
    ensures known { seat.new.me.0 ≡ both_known seat.old.me.0 other.me.0 }
{
    word.shared.join_seat::<Gathered>(seat, other);
}

/// Where the word is `seen`, it rises by one, and the seat has the number to which it rose. The word as
/// it was.
pub(crate) fn draw(word: &CountWord, seat: &mut CountSeat, seen: u64) -> u64
    requires word { IsOneWord word.now.shared.table_id }
    requires seat { IsFree seat.old word.now.shared.table_id }
    requires last { seen < LAST_NUMBER }
    ensures seat { IsFree seat.new word.now.shared.table_id }
    ensures known { seat.new.me.0 ≡ known_after seen result seat.old.me.0 }
    ensures found { IsFound result seat.old.me.0 }
    ensures above { result ≡ seen → IsAbove (seen + 1) seat.old.me.0 }
{
    word.shared
        .compare_exchange::<Drew>(seat, 0, seen, seen + 1)
}

/// The word becomes the greater of itself and `least`, and the seat knows that it is at least so much.
pub(crate) fn raise(word: &CountWord, seat: &mut CountSeat, least: u64)
    requires word { IsOneWord word.now.shared.table_id }
    requires seat { IsFree seat.old word.now.shared.table_id }
    requires last { least ≤ LAST_NUMBER }
    ensures seat { IsFree seat.new word.now.shared.table_id }
    ensures known { seat.new.me.0 ≡ lift least seat.old.me.0 }
{
    word.shared.fetch_max::<Lifted>(seat, 0, least);
}
