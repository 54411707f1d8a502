//! The records of a center in its turn.

ghost use Rattle.std.specs.Prelude.{◌≡◌, ◌≤◌, true};
ghost use Rattle.std.specs.List.{AllByRecursion};
ghost use Rattle.m2_record.specs.IsRecord.{IsRecord};
ghost use Rattle.m2_record.specs.Stepping.{IsSameWork, KeepsReached};
ghost use Rattle.m2_turn.specs.Beside.{AllKeepCallers, KeepsCallers, MadeOn, StayConsistent, TopFits, served};
ghost use Rattle.m2_turn.specs.Handing.{SaysMore, handed_in};
ghost use Rattle.m2_turn.specs.Outbox.{OwnsAll};
ghost use Rattle.m2_turn.specs.RecordTurn.{means_of};
ghost use Rattle.m2_turn.specs.RecordsTurn.{TurnsEach, TurnsInOrder, TurnsOne, all_amid, amid, around, come_to, is_idle, none_or_dry};
ghost use Rattle.m2_turn.specs.Sessions.{IsSupplied, supply_of};
ghost use Rattle.m2_shared.specs.Gates.{ArePassesOf, places};

use crate::connecting::connect_if_due;
use crate::outbox::Outbox;
use crate::record_turn::{RecordTurn, turn_record};
use m2_bytes::NoMemory;
use m2_dispatch::Dispatcher;
use m2_fabric::{End, Port};
use m2_record::{Due, Record, Work};

/// What a turn of a center's records came to.
#[derive(Clone, Copy, Debug, PartialEq, Eq)]
pub enum RecordsTurn {
    /// Each record had its turn.
    Done,
    /// Memory ran out in the turn of one, and those behind it had none. They may go on.
    NoMemory,
}

/// The records take their turns, in their order. First the letter that is held is tried again. While a letter
/// is held or the mail is full no record does anything; else each makes the connect that is due, and then
/// takes its steps. What ended the steps of a record ends no other's turn, but for want of memory. `handed` says
/// then whether a parcel was put, or whether it said so before.
pub fn turn_each<P: Port, D: Dispatcher>(
    records: &mut [Record<P::End>],
    port: &mut P,
    out: &mut Outbox<D>,
    work: &mut Work<'_>,
    handed: &mut bool,
    now: u64,
) -> RecordsTurn
    requires numbers { work.old.number_pass.now.place ≡ work.old.numbers.now.place }
    requires takes { ArePassesOf work.old.throttles.now work.old.passes.now }
    requires supplied { AllByRecursion (IsSupplied (supply_of work.old) (P.seen port.old).made) records.old }
    requires out { OwnsAll (places work.old.throttles.now) out.old }
    ensures turns { TurnsEach D.heard (means_of now work.old) result (all_amid records.old (around (P.seen port.old) out.old work.old)) (all_amid records.new (around (P.seen port.new) out.new work.new)) }
    ensures handed { SaysMore handed.old handed.new (handed_in records.old) (handed_in records.new) }
    ensures supplied { AllByRecursion (IsSupplied (supply_of work.new) (P.seen port.new).made) records.new }
    ensures consistent { StayConsistent (served work.old (P.seen port.old).made records.old) (served work.new (P.seen port.new).made records.new) }
    ensures keeps { AllKeepCallers (P.seen port.old).made records.old records.new }
    ensures made { MadeOn (P.seen port.old).made (P.seen port.new).made }
    ensures reached { KeepsReached work.old.number_pass.now work.new.number_pass.now }
    ensures out { OwnsAll (places work.old.throttles.now) out.new }
    ensures number_place { work.new.number_pass.now.place ≡ work.old.number_pass.now.place }
    ensures takes { ArePassesOf work.new.throttles.now work.new.passes.now }
    ensures same { IsSameWork work.old work.new }
    ensures number_pass { work.new.number_pass.ghost_name ≡ work.old.number_pass.ghost_name }
    ensures passes { work.new.passes.ghost_name ≡ work.old.passes.ghost_name }
{
    tops_fit(records);
    out.retry(work.throttles, work.passes);
    turn_in_order(records, port, out, work, handed, now)
}

/// No number that one of these records has used is above the greatest.
fn tops_fit<E: End>(records: &[Record<E>])
    ensures { AllByRecursion TopFits records.now }
{
    match records.split_first() {
        None => {}
        Some((first, rest)) => {
            first.is_record();
            tops_fit(rest);
        }
    }
}

/// The records take their turns, in their order.
fn turn_in_order<P: Port, D: Dispatcher>(
    records: &mut [Record<P::End>],
    port: &mut P,
    out: &mut Outbox<D>,
    work: &mut Work<'_>,
    handed: &mut bool,
    now: u64,
) -> RecordsTurn
    requires numbers { work.old.number_pass.now.place ≡ work.old.numbers.now.place }
    requires takes { ArePassesOf work.old.throttles.now work.old.passes.now }
    requires supplied { AllByRecursion (IsSupplied (supply_of work.old) (P.seen port.old).made) records.old }
    requires fit { AllByRecursion TopFits records.old }
    requires out { OwnsAll (places work.old.throttles.now) out.old }
    ensures turns { TurnsInOrder D.heard (means_of now work.old) result (all_amid records.old (around (P.seen port.old) out.old work.old)) (all_amid records.new (around (P.seen port.new) out.new work.new)) }
    ensures handed { SaysMore handed.old handed.new (handed_in records.old) (handed_in records.new) }
    ensures supplied { AllByRecursion (IsSupplied (supply_of work.new) (P.seen port.new).made) records.new }
    ensures keeps { AllKeepCallers (P.seen port.old).made records.old records.new }
    ensures made { MadeOn (P.seen port.old).made (P.seen port.new).made }
    ensures reached { KeepsReached work.old.number_pass.now work.new.number_pass.now }
    ensures out { OwnsAll (places work.old.throttles.now) out.new }
    ensures number_place { work.new.number_pass.now.place ≡ work.old.number_pass.now.place }
    ensures takes { ArePassesOf work.new.throttles.now work.new.passes.now }
    ensures same { IsSameWork work.old work.new }
    ensures number_pass { work.new.number_pass.ghost_name ≡ work.old.number_pass.ghost_name }
    ensures passes { work.new.passes.ghost_name ≡ work.old.passes.ghost_name }
{
    match records.split_first_mut() {
        None => RecordsTurn::Done,
        Some((first, rest)) => match turn_one(first, port, out, work, handed, now) {
            RecordsTurn::Done => turn_in_order(rest, port, out, work, handed, now),
            RecordsTurn::NoMemory => RecordsTurn::NoMemory,
        },
    }
}

/// One record takes its turn, where a parcel may be put.
fn turn_one<P: Port, D: Dispatcher>(
    side: &mut Record<P::End>,
    port: &mut P,
    out: &mut Outbox<D>,
    work: &mut Work<'_>,
    handed: &mut bool,
    now: u64,
) -> RecordsTurn
    requires numbers { work.old.number_pass.now.place ≡ work.old.numbers.now.place }
    requires takes { ArePassesOf work.old.throttles.now work.old.passes.now }
    requires supplied { IsSupplied (supply_of work.old) (P.seen port.old).made side.old }
    requires out { OwnsAll (places work.old.throttles.now) out.old }
    ensures turns { TurnsOne D.heard (means_of now work.old) result (amid side.old (around (P.seen port.old) out.old work.old)) (amid side.new (around (P.seen port.new) out.new work.new)) }
    ensures handed { SaysMore handed.old handed.new side.old.handed side.new.handed }
    ensures supplied { IsSupplied (supply_of work.new) (P.seen port.new).made side.new }
    ensures fit { TopFits side.new }
    ensures keeps { KeepsCallers (P.seen port.old).made side.old side.new }
    ensures made { MadeOn (P.seen port.old).made (P.seen port.new).made }
    ensures reached { KeepsReached work.old.number_pass.now work.new.number_pass.now }
    ensures out { OwnsAll (places work.old.throttles.now) out.new }
    ensures number_place { work.new.number_pass.now.place ≡ work.old.number_pass.now.place }
    ensures takes { ArePassesOf work.new.throttles.now work.new.passes.now }
    ensures same { IsSameWork work.old work.new }
    ensures number_pass { work.new.number_pass.ghost_name ≡ work.old.number_pass.ghost_name }
    ensures passes { work.new.passes.ghost_name ≡ work.old.passes.ghost_name }
{
    if !out.is_free() {
        side.is_record();
        return RecordsTurn::Done;
    }
    match connect_if_due(side, port, now) {
        Ok(()) => {
            let ended = turn_record(side, out, work, handed, now);
            side.is_record();
            come_to(ended)
        }
        Err(NoMemory) => {
            side.is_record();
            RecordsTurn::NoMemory
        }
    }
}

/// What the turn of one record comes to.
fn come_to(ended: RecordTurn) -> RecordsTurn
    ensures { result ≡ come_to ended }
{
    match ended {
        RecordTurn::NoMemory => RecordsTurn::NoMemory,
        _ => RecordsTurn::Done,
    }
}

/// Whether a record is idle at this moment: nothing is due, or a read of a feed that is dry, or a write on
/// one that is blocked; and where it has a feed that is dry.
pub fn is_idle<E: End>(side: &Record<E>, now: u64) -> bool
    ensures { result ≡ is_idle now side.now }
{
    match side.due(now) {
        Due::Nothing => none_or_dry(side),
        Due::Read => side.dry(),
        Due::Write => side.blocked() && side.dry(),
        _ => false,
    }
}

/// Whether a record has no feed, or one that is dry.
fn none_or_dry<E: End>(side: &Record<E>) -> bool
    ensures { result ≡ none_or_dry side.now.core.live.feed }
{
    match side.feed() {
        Some(_) => side.dry(),
        None => true,
    }
}
