//! The word that a throttle shares with threads: its rule, and each kind of step on it.

ghost use Rattle.std.specs.Prelude.{◌≡◌, ◌+◌, ◌^◌, ◌<◌, ◌≤◌, map, IfOk};
ghost use Rattle.m2_shared.specs.Place.{IsFree, IsOneWord};
ghost use Rattle.m2_shared.specs.Held.{
  IsOut,
  both_holdings,
  held_of,
  holding_nothing,
  looked,
  lowered,
  lowered_by,
  raised,
  raised_by,
  with_change,
};
ghost use Rattle.m2_shared.specs.Throttle.{Waits};

use atomic_table::{Join, Play, Seat, Split, Table, TableRule};
use m2_bytes::NoMemory;
use std::alloc::Global;
use std::collections::LinkedList;

/// What a step did to the word: as it was, and as it became. No value of it is made.
pub(crate) struct Change {
    pub(crate) from: u64,
    pub(crate) to: u64,
}

/// What a seat knows: how many bytes it holds, and what its steps did to the word, in order. No value of
/// it is made.
pub(crate) struct Holding {
    pub(crate) held: u64,
    pub(crate) changes: LinkedList<Change>,
}

/// What is out is what the seats hold, and no more than the bound allows.
pub(crate) struct OutIsHeld;

impl TableRule<(), Holding, u64> for OutIsHeld {
    ghost holds = { λ most s. IsOut most s.words (map held_of s.views) };

    ghost first = { λ most. holding_nothing };
}

/// A look tells the word.
struct Looked;

impl Play<(), Holding> for Looked {
    ghost then = { looked };
}

/// The seat holds what the word rose by, where it was as expected.
struct Raised;

impl Play<(), Holding> for Raised {
    ghost then = { raised };
}

/// The word falls by what the seat held.
struct Lowered;

impl Play<(), Holding> for Lowered {
    ghost then = { lowered };
}

/// A new seat holds nothing, and has made no steps.
struct Divided;

impl Split<Holding> for Divided {
    ghost left = { λ holding. holding };

    ghost right = { λ holding. holding_nothing };
}

/// What both hold and did; a seat that is spent holds nothing.
struct United;

impl Join<Holding> for United {
    ghost both = { both_holdings };

    ghost spent = { holding_nothing };
}

/// The word, told its bound.
pub(crate) type HeldWord = Table<(), Holding, u64, OutIsHeld, Global>;

/// The right to step on the word, and how much it holds.
pub(crate) type HeldSeat = Seat<(), Holding>;

/// A word of 0, and a seat that holds nothing.
pub(crate) fn open(alloc: Global, most: u64) -> Result<(HeldWord, HeldSeat), NoMemory>
    ensures word { IfOk result (λ r. IsOneWord r.0.shared.table_id × (r.0.shared.key ≡ most)) }
    ensures seat { IfOk result (λ r. IsFree r.1 r.0.shared.table_id) }
    ensures known { IfOk result (λ r. r.1.me.0 ≡ holding_nothing) }
{
    let (word, seat) = HeldWord::of_words(alloc, &[0], &most)?;
    Ok((word, seat))
}

/// The word.
pub(crate) fn load(word: &HeldWord, seat: &mut HeldSeat) -> u64
    requires word { IsOneWord word.now.shared.table_id }
    requires seat { IsFree seat.old word.now.shared.table_id }
    ensures seat { IsFree seat.new word.now.shared.table_id }
    ensures known { seat.new.me.0 ≡ with_change result result seat.old.me.0 }
{
    word.shared.load::<Looked>(seat, 0)
}

/// A new seat, which holds nothing.
pub(crate) fn split(word: &HeldWord, seat: &mut HeldSeat) -> HeldSeat
    requires word { IsOneWord word.now.shared.table_id }
    requires seat { IsFree seat.old word.now.shared.table_id }
    ensures seat { IsFree seat.new word.now.shared.table_id }
    ensures known { seat.new.me.0 ≡ seat.old.me.0 }
    ensures new { IsFree result word.now.shared.table_id }
    ensures new_known { result.me.0 ≡ holding_nothing }
{
    word.shared.split_seat::<Divided>(seat)
}

/// Ends a seat that holds nothing; the other one has its steps.
pub(crate) fn join(word: &HeldWord, seat: &mut HeldSeat, other: HeldSeat)
    requires word { IsOneWord word.now.shared.table_id }
    requires seat { IsFree seat.old word.now.shared.table_id }
    requires held { seat.old.me.0.held ≡ 0 }
    requires other { IsFree other word.now.shared.table_id }
    requires other_held { other.me.0.held ≡ 0 }
    ensures seat { IsFree seat.new word.now.shared.table_id }
    ensures known { seat.new.me.0 ≡ both_holdings seat.old.me.0 other.me.0 }
{
    word.shared.join_seat::<United>(seat, other);
}

/// Where the word is `seen`, it rises by n, and the seat holds n. The word as it was.
pub(crate) fn raise(word: &HeldWord, seat: &mut HeldSeat, seen: u64, n: u64) -> u64
    requires word { IsOneWord word.now.shared.table_id }
    requires seat { IsFree seat.old word.now.shared.table_id }
    requires held { seat.old.me.0.held ≡ 0 }
    requires room { ¬ Waits word.now.shared.key seen n }
    requires fits { seen + n < 2 ^ 64 }
    ensures seat { IsFree seat.new word.now.shared.table_id }
    ensures known { seat.new.me.0 ≡ raised_by seen (seen + n) result seat.old.me.0 }
{
    word.shared
        .compare_exchange::<Raised>(seat, 0, seen, seen + n)
}

/// The word falls by n, which the seat held, and the seat holds nothing. The word as it was.
pub(crate) fn lower(word: &HeldWord, seat: &mut HeldSeat, n: u64) -> u64
    requires word { IsOneWord word.now.shared.table_id }
    requires seat { IsFree seat.old word.now.shared.table_id }
    requires held { seat.old.me.0.held ≡ n }
    ensures seat { IsFree seat.new word.now.shared.table_id }
    ensures known { seat.new.me.0 ≡ lowered_by n result seat.old.me.0 }
    ensures enough { n ≤ result }
{
    word.shared.fetch_sub::<Lowered>(seat, 0, n)
}

/// Ends the word, and gives it.
pub(crate) fn close(word: HeldWord, seat: HeldSeat) -> u64
    requires word { IsOneWord word.shared.table_id }
    requires seat { IsFree seat word.shared.table_id }
{
    let closed = word.close_with(seat);
    let out = closed.word(0);
    closed.free();
    out
}
