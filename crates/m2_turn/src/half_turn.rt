//! A half in a center's turn.

ghost use Rattle.std.specs.Prelude.{◌≡◌, ◌<◌, map, length};
ghost use Rattle.std.specs.List.{AllByRecursion};
ghost use Rattle.m2_record.specs.IsRecord.{IsRecord};
ghost use Rattle.m2_record.specs.Stepping.{IsSameWork};
ghost use Rattle.m2_turn.specs.HalfTurn.{AnswersAsk, Others, TurnsHalf, TurnsOnce, asked_by, home_of_ask, homes, moved_by, with_half, with_moved, with_turned};
ghost use Rattle.m2_turn.specs.RecordTurn.{means_of};
ghost use Rattle.m2_turn.specs.Sessions.{AreConsistent, peer_of, supply_of};
ghost use Rattle.m2_shared.specs.Gates.{ArePassesOf};

use crate::answering::{HalfAnswered, answer_half};
use crate::pending::Pending;
use crate::roster::Roster;
use m2_addr::Addr;
use m2_fabric::End;
use m2_record::{Record, Work};
use m2_trail::{Arrival, HalfTurn, Incoming, Loose, MOST_READ, advance, turns_leave_the_half};

/// How many asks of a half are answered in a turn at most.
pub const MOST_ASKS: u32 = 4096;

/// What a half came to in a center's turn.
#[derive(Drop)]
pub enum HalfTurned<E: End> {
    /// It stays: it waits, has made its moves of this turn, or is asked and no number could be drawn for its answer.
    Open(Pending<E>),
    /// A record has taken its socket.
    Taken,
    /// Its end is closed.
    Over(Loose<E>),
    /// Memory ran out: it has what it had read, is asked still, or owes its reply still. It may go on.
    NoMemory(Pending<E>),
}

/// What a half came to once it has moved on, and was answered where it was asked.
#[derive(Drop)]
pub(crate) enum HalfMoved<E: End> {
    /// It has replied, and goes on.
    GoesOn(Pending<E>),
    /// So its turn ends.
    Ends(HalfTurned<E>),
}

/// A half goes on until nothing more is there to be done: it moves on, and where it is asked the record of
/// the asking address answers, at most [`MOST_ASKS`] times. Whose its first ask is, is noted; an ask of
/// another address than that, or of one that no record is towards, closes the half without a word. It reads
/// into the piece, at most so many bytes at a time.
pub fn turn_half<E: End>(
    p: Pending<E>,
    roster: &Roster,
    records: &mut [Record<E>],
    work: &mut Work<'_>,
    piece: &mut [u8],
    now: u64,
) -> HalfTurned<E>
    requires roster { roster.now ≡ map peer_of records.old }
    requires consistent { (c : Others) × AreConsistent (supply_of work.old) c.entity (with_half p c records.old) }
    requires numbers { work.old.number_pass.now.place ≡ work.old.numbers.now.place }
    requires takes { ArePassesOf work.old.throttles.now work.old.passes.now }
    requires piece { length piece.old ≡ MOST_READ }
    ensures turns { TurnsHalf result p (means_of now work.old) (homes records.old work.old) (homes records.new work.new) }
    ensures consistent { (c : Others) → AreConsistent (supply_of work.old) c.entity (with_half p c records.old) → AreConsistent (supply_of work.new) c.entity (with_turned result c records.new) }
    ensures peers { map peer_of records.new ≡ map peer_of records.old }
    ensures number_place { work.new.number_pass.now.place ≡ work.old.number_pass.now.place }
    ensures takes { ArePassesOf work.new.throttles.now work.new.passes.now }
    ensures same { IsSameWork work.old work.new }
    ensures number_pass { work.new.number_pass.ghost_name ≡ work.old.number_pass.ghost_name }
    ensures passes { work.new.passes.ghost_name ≡ work.old.passes.ghost_name }
{
    let mut pending = p;
    'asks: for _ in 0..MOST_ASKS {
        match turn_once(pending, roster, records, work, piece, now) {
            HalfMoved::GoesOn(next) => pending = next,
            HalfMoved::Ends(turned) => return turned,
        }
    }
    HalfTurned::Open(pending)
}

/// A half moves on, and is answered where it is asked.
fn turn_once<E: End>(
    p: Pending<E>,
    roster: &Roster,
    records: &mut [Record<E>],
    work: &mut Work<'_>,
    piece: &mut [u8],
    now: u64,
) -> HalfMoved<E>
    requires roster { roster.now ≡ map peer_of records.old }
    requires consistent { (c : Others) × AreConsistent (supply_of work.old) c.entity (with_half p c records.old) }
    requires numbers { work.old.number_pass.now.place ≡ work.old.numbers.now.place }
    requires takes { ArePassesOf work.old.throttles.now work.old.passes.now }
    requires piece { length piece.old ≡ MOST_READ }
    ensures turns { TurnsOnce result p (means_of now work.old) (homes records.old work.old) (homes records.new work.new) }
    ensures consistent { (c : Others) → AreConsistent (supply_of work.old) c.entity (with_half p c records.old) → AreConsistent (supply_of work.new) c.entity (with_moved result c records.new) }
    ensures peers { map peer_of records.new ≡ map peer_of records.old }
    ensures number_place { work.new.number_pass.now.place ≡ work.old.number_pass.now.place }
    ensures takes { ArePassesOf work.new.throttles.now work.new.passes.now }
    ensures same { IsSameWork work.old work.new }
    ensures number_pass { work.new.number_pass.ghost_name ≡ work.old.number_pass.ghost_name }
    ensures passes { work.new.passes.ghost_name ≡ work.old.passes.ghost_name }
{
    turns_leave_the_half();
    let asker = p.asker;
    let mut half = p.half;
    match advance(&mut half, piece) {
        HalfTurn::Asked => answer_ask(Arrival::of(half), asker, roster, records, work, now),
        HalfTurn::Waits => HalfMoved::Ends(HalfTurned::Open(Pending { half, asker })),
        HalfTurn::Busy => HalfMoved::Ends(HalfTurned::Open(Pending { half, asker })),
        HalfTurn::Over => HalfMoved::Ends(HalfTurned::Over(half.close())),
        HalfTurn::NoMemory => HalfMoved::Ends(HalfTurned::NoMemory(Pending { half, asker })),
    }
}

/// A half that was asked is answered by the record of the asking address, or closed.
fn answer_ask<E: End>(
    a: Arrival<E>,
    asker: Option<Addr>,
    roster: &Roster,
    records: &mut [Record<E>],
    work: &mut Work<'_>,
    now: u64,
) -> HalfMoved<E>
    requires roster { roster.now ≡ map peer_of records.old }
    requires consistent { (c : Others) × AreConsistent (supply_of work.old) c.entity (with_half (record { half = a; asker = asker }) c records.old) }
    requires numbers { work.old.number_pass.now.place ≡ work.old.numbers.now.place }
    requires takes { ArePassesOf work.old.throttles.now work.old.passes.now }
    ensures answers { AnswersAsk result (record { half = a; asker = asker }) (means_of now work.old) (homes records.old work.old) (homes records.new work.new) }
    ensures consistent { (c : Others) → AreConsistent (supply_of work.old) c.entity (with_half (record { half = a; asker = asker }) c records.old) → AreConsistent (supply_of work.new) c.entity (with_moved result c records.new) }
    ensures peers { map peer_of records.new ≡ map peer_of records.old }
    ensures number_place { work.new.number_pass.now.place ≡ work.old.number_pass.now.place }
    ensures takes { ArePassesOf work.new.throttles.now work.new.passes.now }
    ensures same { IsSameWork work.old work.new }
    ensures number_pass { work.new.number_pass.ghost_name ≡ work.old.number_pass.ghost_name }
    ensures passes { work.new.passes.ghost_name ≡ work.old.passes.ghost_name }
{
    a.is_arrival();
    are_records(records);
    let peer = a.peer();
    let Some(place) = home_of(asker, &peer, roster) else {
        return HalfMoved::Ends(HalfTurned::Over(a.close()));
    };
    prove!(place < records.len());
    moved_by(answer_half(&mut records[place], a, work, now), peer)
}

/// The place of the record that answers an ask of this address; none where another address asked first, or
/// no record is towards it.
fn home_of(asker: Option<Addr>, peer: &Addr, roster: &Roster) -> Option<usize>
    ensures { result ≡ home_of_ask asker peer.now roster.now }
{
    match asker {
        Some(first) if first != *peer => None,
        _ => roster.find(peer),
    }
}

/// What a half came to by the answer of its record, of which this address asked.
fn moved_by<E: End>(answered: HalfAnswered<E>, peer: Addr) -> HalfMoved<E>
    ensures { result ≡ moved_by answered peer }
{
    match answered {
        HalfAnswered::Taken(_) => HalfMoved::Ends(HalfTurned::Taken),
        HalfAnswered::Open(half) => HalfMoved::GoesOn(asked_by(half, peer)),
        HalfAnswered::Closed(loose) => HalfMoved::Ends(HalfTurned::Over(loose)),
        HalfAnswered::Undrawn(a) => {
            HalfMoved::Ends(HalfTurned::Open(asked_by(a.into_incoming(), peer)))
        }
        HalfAnswered::NoMemory(a) => {
            HalfMoved::Ends(HalfTurned::NoMemory(asked_by(a.into_incoming(), peer)))
        }
    }
}

fn asked_by<E: End>(half: Incoming<E>, peer: Addr) -> Pending<E>
    ensures { result ≡ asked_by half peer }
{
    Pending {
        half,
        asker: Some(peer),
    }
}

/// That each of them is a record, for contracts alone.
pub fn are_records<E: End>(records: &[Record<E>])
    ensures { AllByRecursion IsRecord records.now }
{
    'records: for side in records {
        side.is_record();
    }
}
