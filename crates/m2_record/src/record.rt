//! A record: what it holds, how it begins, and its plan.

ghost use Rattle.std.specs.Prelude.{◌≡◌, ◌<◌, ◌≤◌, ◌++◌, ◌∷◌, [], OnOk};
ghost use Rattle.m2_session.specs.declared.cookie.TheConstants.{MOST_PLACES};
ghost use Rattle.m2_core.specs.Waits.{AreWaits};
ghost use Rattle.m2_record.specs.Calls.{AddsStep, FitsSocket, HasNoLess, HasRoomFor, IsSameButRoom};
ghost use Rattle.m2_record.specs.IsRecord.{CanBePlanned, new_record};

use crate::connecting::room_for_socket;
use m2_addr::Addr;
use m2_bytes::{Items, NoMemory, Told};
use m2_core::{Core, Waits};
use m2_dispatch::Parcel;
use m2_fabric::End;
use m2_journal::{EntryList, NodeFacts, PlanList, PlanStep};
use m2_policy::Policy;
use m2_shared::PeerType;
use m2_trail::TrailList;
use std::alloc::Global;
use std::collections::VecDeque;
use std::marker::Model;

/// How many steps a plan has at most.
pub const MOST_STEPS: usize = 0xFFFF_FFFF;

/// One side of a session, with the journal of what it did. Contracts see it as one value, which is the
/// replay of its journal. It can't be dropped, since what throttles have granted can't.
pub struct Record<E: End> {
    /// The peer's place among the nodes, from 0.
    pub(crate) place: u32,
    /// What is to be done, and how many steps of it were taken.
    pub(crate) plan: PlanList,
    pub(crate) steps: u32,
    /// What was done.
    pub(crate) journal: EntryList,
    /// What the halves did that were taken, until then, in order.
    pub(crate) trails: TrailList,
    pub(crate) core: Core<E>,
    /// The ends that were the feed, in order.
    pub(crate) spent: Vec<E>,
    /// What is ready for the dispatcher, in order.
    pub(crate) parcels: VecDeque<Parcel>,
    /// A mark for each parcel that was handed out: contracts count them, and no code does.
    pub(crate) handed: Told,
    pub(crate) waits: Waits,
    /// The feed's last write answered that it can't yet, and no step has found since that nothing is to
    /// be done but that.
    pub(crate) held: bool,
    /// How many connects failed.
    pub(crate) missed: u64,
    /// The moment of the last productive entry.
    pub(crate) last: u64,
}

impl<E: End> Model for Record<E> {
    ghost use Rattle.std.specs.Prelude.{◌-◌, length, map, vec_capacity, vec_len};
    ghost use Rattle.std.specs.VecDeque.{deque_len, deque_capacity};
    ghost use Rattle.m2_trail.specs.Trails.{trail_now};
    ghost use Rattle.m2_record.specs.RecordNow.{RecordNow};
    ghost use Rattle.m2_record.specs.IsRecord.{IsRecord};

    ghost Value = { RecordNow };

    ghost view = { λ r. record {
      place = r.place;
      plan = r.plan.items;
      steps = r.steps;
      journal = r.journal.items;
      trails = map trail_now r.trails.items;
      core = r.core;
      spent = map E.seen r.spent.items;
      parcels = r.parcels.items;
      handed = length r.handed.bytes;
      waits = r.waits;
      held = r.held;
      missed = r.missed;
      last = r.last;
      room = record { entries = r.journal.room; parcels = deque_capacity r.parcels - deque_len r.parcels; ends = vec_capacity r.spent - vec_len r.spent; trails = r.trails.room };
    } };

    ghost invariant = { λ r. IsRecord (record {
      place = r.place;
      plan = r.plan.items;
      steps = r.steps;
      journal = r.journal.items;
      trails = map trail_now r.trails.items;
      core = r.core;
      spent = map E.seen r.spent.items;
      parcels = r.parcels.items;
      handed = length r.handed.bytes;
      waits = r.waits;
      held = r.held;
      missed = r.missed;
      last = r.last;
      room = record { entries = r.journal.room; parcels = deque_capacity r.parcels - deque_len r.parcels; ends = vec_capacity r.spent - vec_len r.spent; trails = r.trails.room };
    }) };
}

impl<E: End> Record<E> {
    /// A record towards this peer, with nothing planned and nothing done. `mine` is this node's address, and
    /// `place` the peer's place among the nodes, and `peer_type` its type. Takes no memory.
    pub fn new(
        alloc: Global,
        mine: Addr,
        peer: Addr,
        place: u32,
        policy: Policy,
        facts: NodeFacts,
        peer_type: PeerType,
    ) -> Record<E>
        requires node { facts.number < MOST_PLACES }
        requires place { place < MOST_PLACES }
        requires waits { AreWaits facts }
        ensures { result ≡ record (new_record (record { mine = mine; peer = peer; policy = policy; node = facts }) place peer_type) { room = result.room } }
    {
        Record {
            place,
            waits: Waits::at_first(&facts),
            plan: Items::empty(alloc),
            steps: 0,
            journal: EntryList::empty(alloc),
            trails: Items::empty(alloc),
            core: Core::new(alloc, mine, peer, policy, facts, peer_type),
            spent: Vec::new(alloc),
            parcels: VecDeque::new(alloc),
            handed: Told::nothing(),
            held: false,
            missed: 0,
            last: 0,
        }
    }
    /// Adds a step at the end of the plan, which has less than 2^32 - 1. Err hands it back, for want of memory.
    pub fn plan_add(&mut self, step: PlanStep) -> Result<(), PlanStep>
        requires { CanBePlanned step }
        ensures { AddsStep result step self.old self.new }
    {
        if self.plan.len() >= MOST_STEPS {
            return Err(step);
        }
        self.plan.push(step)
    }

    /// Makes room for so many entries of the journal, and as many parcels.
    pub fn reserve(&mut self, entries: u32) -> Result<(), NoMemory>
        ensures only { IsSameButRoom self.old self.new }
        ensures more { HasNoLess self.old.room self.new.room }
        ensures ok { OnOk result (HasRoomFor entries self.new.room) }
    {
        self.journal.reserve(entries as usize)?;
        self.parcels.reserve(entries as usize)?;
        Ok(())
    }

    /// Makes room for a socket that is opened, so that [`connected`](Record::connected) can't fail.
    pub fn reserve_socket(&mut self) -> Result<(), NoMemory>
        ensures only { IsSameButRoom self.old self.new }
        ensures more { HasNoLess self.old.room self.new.room }
        ensures ok { OnOk result (FitsSocket self.new.room) }
    {
        room_for_socket(&mut self.journal, &mut self.spent)
    }
}
