//! What a center's records are to do, and what it lends of them.

ghost use Rattle.std.specs.Prelude.{◌≡◌, ◌<◌, length, map, position, IfSome};
ghost use Rattle.std.specs.Option.{option_map, option_to_list};
ghost use Rattle.m2_record.specs.IsRecord.{CanBePlanned, IsRecord};
ghost use Rattle.m2_trail.specs.Trails.{trail_now};
ghost use Rattle.m2_center.specs.Plans.{IsReadyFor, PlansIn, is_towards, parts_of, side_towards};
ghost use Rattle.m2_shared.specs.Gates.{pass_places, places};

use crate::center::{Center, NodeShared};
use crate::planning::plan_at;
use m2_bytes::NoMemory;
use m2_fabric::{End, Port};
use m2_journal::PlanStep;
use m2_record::{Record, RecordParts, Work};

impl<P: Port, D> Center<P, D> {
    /// The step is the last of the plan of the first record towards the peer at this place among the nodes,
    /// and is taken at once. There is one, and each step of its plan was taken. Err is want of memory: the
    /// step is dropped, or is the plan's last and not taken, and all else but room is as before.
    pub fn plan(
        &mut self,
        shared: &NodeShared,
        peer: u32,
        step: PlanStep,
        now: u64,
    ) -> Result<(), NoMemory>
        requires throttles { pass_places self.old.bytes ≡ places shared.now.throttles }
        requires ready { IsReadyFor peer self.old.records }
        requires step { CanBePlanned step }
        ensures plans { PlansIn result peer step now shared.now.throttles self.old self.new }
    {
        let mut work = Work {
            numbers: &shared.numbers,
            number_pass: &mut self.passes.numbers,
            throttles: &shared.throttles,
            passes: &mut self.passes.throttles,
        };
        match place_towards(self.records.as_slice(), peer) {
            Some(place) => plan_at(&mut self.records[place], step, &mut work, now),
            None => unreachable!(),
        }
    }

    /// The parts of the first record towards the peer at this place among the nodes; none exactly where there
    /// is none.
    pub fn parts(&self, peer: u32) -> Option<RecordParts<'_, P::End>>
        ensures parts { option_map (λ p. record {
          facts = p.facts.now;
          place = p.place;
          session = p.session.now;
          plan = p.plan.now.items;
          journal = p.journal.now.items;
          trails = map trail_now p.trails.now.items;
          feed = option_to_list (option_map (λ e. P.End.seen e.now) p.feed);
          spent = map P.End.seen p.spent.now;
          composed = p.composed.now;
          dry = p.dry;
          blocked = p.blocked;
          held = p.held;
          next_dial = p.next_dial;
          missed = p.missed;
          last = p.last;
        }) result ≡ option_map parts_of (side_towards peer self.now.records) }
        ensures is_record { IfSome (side_towards peer self.now.records) IsRecord }
    {
        match place_towards(self.records.as_slice(), peer) {
            Some(place) => Some(self.records[place].parts()),
            None => None,
        }
    }
}

/// The place of the first record towards the peer at this place among the nodes.
pub(crate) fn place_towards<E: End>(records: &[Record<E>], peer: u32) -> Option<usize>
    ensures place { result ≡ position (is_towards peer) records.now }
    ensures within { IfSome result (λ place. place < length records.now) }
{
    'records: for place in 0..records.len() {
        if records[place].place() == peer {
            return Some(place);
        }
    }
    None
}
