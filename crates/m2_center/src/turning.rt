//! A center's turn.

ghost use Rattle.m2_turn.specs.Beside.{AllKeepCallers, MadeOn, StayConsistent, served};
ghost use Rattle.m2_center.specs.CenterTurn.{AcceptsSo, AnswersSo, DeliversSo, HandsOnSo, StepsSo, TakesTurn, TakesTurnOn, accepted_so, answered_so, delivered_so, means_at, memory_in, stepped_so};
ghost use Rattle.m2_center.specs.Dry.{SaysTurn, ended_so};
ghost use Rattle.m2_turn.specs.HalfTurn.{homes};
ghost use Rattle.m2_turn.specs.Handing.{SaysMore, handed_in};
ghost use Rattle.m2_turn.specs.HandingOn.{HandsOn};
ghost use Rattle.m2_turn.specs.HalvesTurn.{TurnsHalves, callers, sessions_of};
ghost use Rattle.m2_turn.specs.Outbox.{OwnsAll};
ghost use Rattle.m2_turn.specs.RecordTurn.{means_of};
ghost use Rattle.m2_turn.specs.RecordsTurn.{TurnsEach, all_amid, around};
ghost use Rattle.m2_turn.specs.Sessions.{AreConsistent, IsSupplied, peer_of, supply_of};
ghost use Rattle.m2_fabric.specs.declared.socket.SocketId.{SocketId};
ghost use Rattle.m2_record.specs.Stepping.{IsSameWork, KeepsReached};
ghost use Rattle.std.specs.List.{AllByRecursion};
ghost use Rattle.std.specs.Prelude.{List, length, map, take, vec_capacity, vec_len, ℕ, ◌-◌, ◌<◌, ◌≡◌, ◌≤◌};
ghost use Rattle.m2_shared.specs.Gates.{ArePassesOf, AreShared, pass_places, places};

use crate::center::{Center, NodeShared};
use crate::counting::is_still;
use m2_bytes::NoMemory;
use m2_dispatch::{Dispatcher, Parcel};
use m2_fabric::{End, Port};
use m2_record::{Record, Work};
use m2_trail::{Loose, MOST_READ};
use m2_turn::{
    Accepted, HalvesTurn, Mailed, Outbox, Pendings, RecordsTurn, Roster, accept_all, are_records,
    empty_mail, hand_mail_on, turn_each, turn_halves,
};
use std::collections::VecDeque;

/// What a turn came to.
#[derive(Clone, Copy, Debug, PartialEq, Eq)]
pub enum CenterTurn {
    /// An entry was made in a journal, a socket was accepted, or a parcel was handed on.
    Moved,
    /// Nothing of that was done.
    Dry,
    /// Memory ran out. What was done stays, and the center may go on.
    NoMemory,
}

impl CenterTurn {
    /// Whether memory lasted.
    pub fn memory(self) -> Result<(), NoMemory>
        ensures { result ≡ memory_in self }
    {
        match self {
            CenterTurn::Moved | CenterTurn::Dry => Ok(()),
            CenterTurn::NoMemory => Err(NoMemory),
        }
    }
}

impl<P: Port, D: Dispatcher> Center<P, D> {
    /// One turn at this moment: the sockets that wait are accepted, each half goes on and is answered, each
    /// record makes the connect that is due and takes its steps, and the mail is emptied. For want of memory it ends
    /// early: what was done stays, and the center may go on.
    pub fn turn(&mut self, shared: &NodeShared, now: u64) -> CenterTurn
        requires numbers { self.old.numbers.place ≡ shared.now.numbers.place }
        requires throttles { pass_places self.old.bytes ≡ places shared.now.throttles }
        ensures turns { TakesTurn P.End D.heard (means_at now shared.now.numbers shared.now.throttles) (memory_in result) self.old self.new }
        ensures says { SaysTurn result self.old self.new }
        ensures numbers { self.new.numbers.place ≡ self.old.numbers.place }
        ensures throttles { pass_places self.new.bytes ≡ pass_places self.old.bytes }
    {
        let before = self.count();
        let mut handed = false;
        let taken = self.take_turn(shared, &mut handed, now);
        let behind = self.count();
        let still = is_still(&before, &behind);
        ended_so(taken, handed, still)
    }

    /// The same of a node whose throttle threads share, one of which dispatches for it: what the dispatcher behind the queue
    /// is called with goes last among these parcels besides, letters with their grants, for that thread.
    pub fn turn_on(
        &mut self,
        shared: &NodeShared,
        now: u64,
        into: &mut VecDeque<Parcel>,
    ) -> CenterTurn
        requires numbers { self.old.numbers.place ≡ shared.now.numbers.place }
        requires throttles { pass_places self.old.bytes ≡ places shared.now.throttles }
        requires shared { AreShared shared.now.throttles }
        ensures turns { TakesTurn P.End D.heard (means_at now shared.now.numbers shared.now.throttles) (memory_in result) self.old self.new }
        ensures dispatched { TakesTurnOn P.End D.heard (means_at now shared.now.numbers shared.now.throttles) into.old.items into.new.items (memory_in result) self.old self.new }
        ensures on { HandsOn D.heard (places shared.now.throttles) self.old.queued.inner self.new.queued.inner into.old.items into.new.items }
        ensures says { SaysTurn result self.old self.new }
        ensures numbers { self.new.numbers.place ≡ self.old.numbers.place }
        ensures throttles { pass_places self.new.bytes ≡ pass_places self.old.bytes }
    {
        let before = self.count();
        let mut handed = false;
        let taken = self.take_turn_on(shared, &mut handed, now, into);
        let still = is_still(&before, &self.count());
        ended_so(taken, handed, still)
    }

    /// The stages of such a turn.
    #[tactic(auto, using(crate::proofs::KeptOn::kept_on, crate::proofs::KeptOn::on_behind))]
    fn take_turn_on(
        &mut self,
        shared: &NodeShared,
        handed: &mut bool,
        now: u64,
        into: &mut VecDeque<Parcel>,
    ) -> Result<(), NoMemory>
        requires numbers { self.old.numbers.place ≡ shared.now.numbers.place }
        requires throttles { pass_places self.old.bytes ≡ places shared.now.throttles }
        requires shared { AreShared shared.now.throttles }
        ensures turns { TakesTurnOn P.End D.heard (means_at now shared.now.numbers shared.now.throttles) into.old.items into.new.items result self.old self.new }
        ensures on { HandsOn D.heard (places shared.now.throttles) self.old.queued.inner self.new.queued.inner into.old.items into.new.items }
        ensures handed { SaysMore handed.old handed.new (handed_in self.old.records) (handed_in self.new.records) }
        ensures numbers { self.new.numbers.place ≡ self.old.numbers.place }
        ensures throttles { pass_places self.new.bytes ≡ pass_places self.old.bytes }
    {
        self.accept()?;
        self.answer(shared, now)?;
        self.step(shared, handed, now)?;
        self.hand_on(shared, now, into)
    }

    /// The stages of a turn, one after another. `handed` says then whether a record handed a parcel out, or whether
    /// it said so before.
    fn take_turn(
        &mut self,
        shared: &NodeShared,
        handed: &mut bool,
        now: u64,
    ) -> Result<(), NoMemory>
        requires numbers { self.old.numbers.place ≡ shared.now.numbers.place }
        requires throttles { pass_places self.old.bytes ≡ places shared.now.throttles }
        ensures turns { TakesTurn P.End D.heard (means_at now shared.now.numbers shared.now.throttles) result self.old self.new }
        ensures handed { SaysMore handed.old handed.new (handed_in self.old.records) (handed_in self.new.records) }
        ensures numbers { self.new.numbers.place ≡ self.old.numbers.place }
        ensures throttles { pass_places self.new.bytes ≡ pass_places self.old.bytes }
    {
        self.accept()?;
        self.answer(shared, now)?;
        self.step(shared, handed, now)?;
        self.deliver(shared, now)
    }

    /// The sockets that wait are accepted.
    fn accept(&mut self) -> Result<(), NoMemory>
        ensures accepts { AcceptsSo result self.old self.new }
        ensures queued { self.new.queued ≡ self.old.queued }
    {
        are_records(self.records.as_slice());
        accepted_so(accept_all(
            self.alloc,
            &mut self.port,
            &mut self.halves,
            &mut self.loose,
            self.entity,
        ))
    }

    /// The halves take their turns.
    fn answer(&mut self, shared: &NodeShared, now: u64) -> Result<(), NoMemory>
        requires numbers { self.old.numbers.place ≡ shared.now.numbers.place }
        requires throttles { pass_places self.old.bytes ≡ places shared.now.throttles }
        ensures answers { AnswersSo P.End (means_at now shared.now.numbers shared.now.throttles) result self.old self.new }
        ensures queued { self.new.queued ≡ self.old.queued }
        ensures numbers { self.new.numbers.place ≡ self.old.numbers.place }
        ensures throttles { pass_places self.new.bytes ≡ pass_places self.old.bytes }
    {
        let mut work = Work {
            numbers: &shared.numbers,
            number_pass: &mut self.passes.numbers,
            throttles: &shared.throttles,
            passes: &mut self.passes.throttles,
        };
        answered_so(answer_all(
            &mut self.halves,
            &mut self.loose,
            &self.roster,
            &mut self.records,
            &mut work,
            &mut self.piece,
            now,
        ))
    }

    /// The records take theirs.
    fn step(&mut self, shared: &NodeShared, handed: &mut bool, now: u64) -> Result<(), NoMemory>
        requires numbers { self.old.numbers.place ≡ shared.now.numbers.place }
        requires throttles { pass_places self.old.bytes ≡ places shared.now.throttles }
        ensures steps { StepsSo D.heard (means_at now shared.now.numbers shared.now.throttles) result self.old self.new }
        ensures queued { self.new.queued ≡ self.old.queued }
        ensures handed { SaysMore handed.old handed.new (handed_in self.old.records) (handed_in self.new.records) }
        ensures numbers { self.new.numbers.place ≡ self.old.numbers.place }
        ensures throttles { pass_places self.new.bytes ≡ pass_places self.old.bytes }
    {
        let mut work = Work {
            numbers: &shared.numbers,
            number_pass: &mut self.passes.numbers,
            throttles: &shared.throttles,
            passes: &mut self.passes.throttles,
        };
        stepped_so(step_all(
            &mut self.records,
            &mut self.port,
            &mut self.out,
            &mut work,
            handed,
            now,
        ))
    }

    /// The mail is emptied.
    fn deliver(&mut self, shared: &NodeShared, now: u64) -> Result<(), NoMemory>
        requires throttles { pass_places self.old.bytes ≡ places shared.now.throttles }
        ensures delivers { DeliversSo D.heard (means_at now shared.now.numbers shared.now.throttles) result self.old self.new }
        ensures numbers { self.new.numbers ≡ self.old.numbers }
        ensures throttles { pass_places self.new.bytes ≡ pass_places self.old.bytes }
    {
        delivered_so(empty_mail(
            &mut self.out,
            &mut self.queued,
            &shared.throttles,
            &mut self.passes.throttles,
        ))
    }

    /// The same, and what is dispatched is handed on.
    fn hand_on(
        &mut self,
        shared: &NodeShared,
        now: u64,
        into: &mut VecDeque<Parcel>,
    ) -> Result<(), NoMemory>
        requires throttles { pass_places self.old.bytes ≡ places shared.now.throttles }
        requires shared { AreShared shared.now.throttles }
        ensures delivers { HandsOnSo D.heard (means_at now shared.now.numbers shared.now.throttles) into.old.items into.new.items result self.old self.new }
        ensures on { HandsOn D.heard (places shared.now.throttles) self.old.queued.inner self.new.queued.inner into.old.items into.new.items }
        ensures numbers { self.new.numbers ≡ self.old.numbers }
        ensures throttles { pass_places self.new.bytes ≡ pass_places self.old.bytes }
    {
        delivered_so(hand_mail_on(
            &mut self.out,
            &mut self.queued,
            &shared.throttles,
            &mut self.passes.throttles,
            into,
        ))
    }
}

/// What a turn is said to have come to.
fn ended_so(taken: Result<(), NoMemory>, handed: bool, still: bool) -> CenterTurn
    ensures { result ≡ ended_so taken handed still }
{
    match taken {
        Err(NoMemory) => CenterTurn::NoMemory,
        Ok(()) => {
            if handed || !still {
                CenterTurn::Moved
            } else {
                CenterTurn::Dry
            }
        }
    }
}

fn accepted_so(accepted: Accepted) -> Result<(), NoMemory>
    ensures { result ≡ accepted_so accepted }
{
    match accepted {
        Accepted::All | Accepted::Busy => Ok(()),
        Accepted::NoMemory => Err(NoMemory),
    }
}

fn answered_so(turn: HalvesTurn) -> Result<(), NoMemory>
    ensures { result ≡ answered_so turn }
{
    match turn {
        HalvesTurn::Done => Ok(()),
        HalvesTurn::NoMemory => Err(NoMemory),
    }
}

fn stepped_so(turn: RecordsTurn) -> Result<(), NoMemory>
    ensures { result ≡ stepped_so turn }
{
    match turn {
        RecordsTurn::Done => Ok(()),
        RecordsTurn::NoMemory => Err(NoMemory),
    }
}

fn delivered_so(mailed: Mailed) -> Result<(), NoMemory>
    ensures { result ≡ delivered_so mailed }
{
    match mailed {
        Mailed::Moved | Mailed::Dry => Ok(()),
        Mailed::NoMemory => Err(NoMemory),
    }
}

/// [`turn_halves`] over the records of a center, and into its piece.
fn answer_all<E: End>(
    halves: &mut Pendings<E>,
    loose: &mut Vec<Loose<E>>,
    roster: &Roster,
    records: &mut Vec<Record<E>>,
    work: &mut Work<'_>,
    piece: &mut Vec<u8>,
    now: u64,
) -> HalvesTurn
    requires roster { roster.now ≡ map peer_of records.old.items }
    requires consistent { (made : List SocketId) × ((entity : ℕ) × AreConsistent (supply_of work.old) entity (sessions_of made (callers halves.old loose.old.items (homes records.old.items work.old)))) }
    requires room { length halves.old ≤ vec_capacity loose.old - vec_len loose.old }
    requires numbers { work.old.number_pass.now.place ≡ work.old.numbers.now.place }
    requires takes { ArePassesOf work.old.throttles.now work.old.passes.now }
    requires piece { length piece.old.items ≡ MOST_READ }
    ensures turns { TurnsHalves E result (means_of now work.old) (callers halves.old loose.old.items (homes records.old.items work.old)) (callers halves.new loose.new.items (homes records.new.items work.new)) }
    ensures consistent { (made : List SocketId) (entity : ℕ) → AreConsistent (supply_of work.old) entity (sessions_of made (callers halves.old loose.old.items (homes records.old.items work.old))) → AreConsistent (supply_of work.new) entity (sessions_of made (callers halves.new loose.new.items (homes records.new.items work.new))) }
    ensures peers { map peer_of records.new.items ≡ map peer_of records.old.items }
    ensures room { length halves.new ≤ vec_capacity loose.new - vec_len loose.new }
    ensures number_place { work.new.number_pass.now.place ≡ work.old.number_pass.now.place }
    ensures takes { ArePassesOf work.new.throttles.now work.new.passes.now }
    ensures same { IsSameWork work.old work.new }
    ensures number_pass { work.new.number_pass.ghost_name ≡ work.old.number_pass.ghost_name }
    ensures passes { work.new.passes.ghost_name ≡ work.old.passes.ghost_name }
    ensures piece { length piece.new.items ≡ length piece.old.items }
{
    turn_halves(
        halves,
        loose,
        roster,
        records.as_mut_slice(),
        work,
        piece.as_mut_slice(),
        now,
    )
}

/// [`turn_each`] over the records of a center.
fn step_all<P: Port, D: Dispatcher>(
    records: &mut Vec<Record<P::End>>,
    port: &mut P,
    out: &mut Outbox<D>,
    work: &mut Work<'_>,
    handed: &mut bool,
    now: u64,
) -> RecordsTurn
    requires numbers { work.old.number_pass.now.place ≡ work.old.numbers.now.place }
    requires takes { ArePassesOf work.old.throttles.now work.old.passes.now }
    requires supplied { AllByRecursion (IsSupplied (supply_of work.old) (P.seen port.old).made) records.old.items }
    requires out { OwnsAll (places work.old.throttles.now) out.old }
    ensures turns { TurnsEach D.heard (means_of now work.old) result (all_amid records.old.items (around (P.seen port.old) out.old work.old)) (all_amid records.new.items (around (P.seen port.new) out.new work.new)) }
    ensures handed { SaysMore handed.old handed.new (handed_in records.old.items) (handed_in records.new.items) }
    ensures supplied { AllByRecursion (IsSupplied (supply_of work.new) (P.seen port.new).made) records.new.items }
    ensures consistent { StayConsistent (served work.old (P.seen port.old).made records.old.items) (served work.new (P.seen port.new).made records.new.items) }
    ensures keeps { AllKeepCallers (P.seen port.old).made records.old.items records.new.items }
    ensures made { MadeOn (P.seen port.old).made (P.seen port.new).made }
    ensures reached { KeepsReached work.old.number_pass.now work.new.number_pass.now }
    ensures out { OwnsAll (places work.old.throttles.now) out.new }
    ensures number_place { work.new.number_pass.now.place ≡ work.old.number_pass.now.place }
    ensures takes { ArePassesOf work.new.throttles.now work.new.passes.now }
    ensures same { IsSameWork work.old work.new }
    ensures number_pass { work.new.number_pass.ghost_name ≡ work.old.number_pass.ghost_name }
    ensures passes { work.new.passes.ghost_name ≡ work.old.passes.ghost_name }
{
    turn_each(records.as_mut_slice(), port, out, work, handed, now)
}
