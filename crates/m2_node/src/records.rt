//! The records of a node, with their plans.

ghost use Rattle.std.specs.Prelude.{◌≡◌, ◌+◌, ◌-◌, ◌==◌, ◌<◌, ◌≤◌, ◌∷◌, ◌++◌, [], None, IfOk, IfSome, OnErr, OnOk, length, map, vec_capacity, vec_len};
ghost use Rattle.std.specs.List.{AllByRecursion};
ghost use Rattle.std.specs.Option.{option_map, option_to_list};
ghost use Rattle.m2_links_go_on.specs.Made.{IsBegun, side_made};
ghost use Rattle.m2_links_go_on.specs.ClusterTold.{OneByOne};
ghost use Rattle.m2_links_go_on.specs.Logged.{AreOfTheirPeers};
ghost use Rattle.m2_script.specs.m2_record.Calls.{planned_too};
ghost use Rattle.m2_script.specs.m2_record.IsRecord.{CanBePlanned};
ghost use Rattle.m2_script.specs.m2_record.RecordNow.{RecordNow};
ghost use Rattle.m2_node.specs.Planned.{AreNewRecords, IsPlaceTowards, IsPlannedBy, IsSendableStep, NoneTowards, begun_as, node_facts, plan_of, side_by};
ghost use Rattle.m2_script.specs.Laws.{bare};
ghost use Rattle.m2_script.specs.Made.{other_of, over, records_of, roomless};
ghost use Rattle.m2_scenario.specs.declared.limits.TheConstants.{MOST_NODES};
ghost use Rattle.m2_node.specs.Homes.{at_home};

use crate::planning::{StepTowards, Steps, home_at};
use m2_bytes::NoMemory;
use m2_fabric::End;
use m2_journal::{NodeFacts, PlanStep};
use m2_policy::profile;
use m2_scenario::{Link, MOST_NODES, Node};
use m2_script::{Record, other_of};
use m2_shared::{Bounds, PeerType, Throttles};
use m2_trail::HomeOf;
use std::alloc::Global;

/// How long a node waits before the first new connect after a fault, and the longest such wait, in milliseconds.
const FIRST_WAIT: u64 = 20;

const MOST_WAIT: u64 = 1_000;

/// What a node tells each of its records.
fn facts(node: &Node, number: u32, word: u64) -> NodeFacts
    ensures { result ≡ node_facts node.now number word }
{
    NodeFacts {
        entity: node.entity,
        number,
        supports: node.supports,
        requires_: node.requires_,
        fast: node.fast.copy(),
        first_wait: FIRST_WAIT,
        most_wait: MOST_WAIT,
        salt: (word % 65_536) as u16,
        rules: profile(),
    }
}

/// The record of the node of this number over a link, with nothing planned and nothing done; none where the node is
/// none of its two.
fn record_over<E: End>(
    alloc: Global,
    nodes: &[Node],
    number: u32,
    word: u64,
    link: &Link,
) -> Option<Record<E>>
    requires { length nodes.now ≤ MOST_NODES }
    ensures { option_map roomless result ≡ option_map (λ (r : RecordNow). roomless (begun_as r)) (over nodes.now number word (other_of number link.now)) }
{
    let Some(t) = other_of(number, link) else {
        return None;
    };
    match nodes.get(number as usize) {
        None => None,
        Some(mine) => match nodes.get(t.place as usize) {
            None => None,
            Some(peer) => Some(Record::new(
                alloc,
                mine.at,
                peer.at,
                t.place,
                t.policy,
                facts(mine, number, word),
                PeerType::of_peer(peer.entity),
            )),
        },
    }
}

/// That record, where its peer is at home with this thread.
fn record_at_home<E: End>(
    alloc: Global,
    nodes: &[Node],
    number: u32,
    home: &HomeOf,
    word: u64,
    link: &Link,
) -> Option<Record<E>>
    requires { length nodes.now ≤ MOST_NODES }
    ensures { map roomless (option_to_list result) ≡ map (λ (r : RecordNow). roomless (begun_as r)) (at_home nodes.now home.now.centers home.now.center (option_to_list (over nodes.now number word (other_of number link.now)))) }
{
    let Some(t) = other_of(number, link) else {
        return None;
    };
    let its = home_at(nodes, t.place, home.centers);
    if its != home.center {
        return None;
    }
    record_over(alloc, nodes, number, word, link)
}

/// The records of the node of this number whose peers are at home with this thread, in the order of its links, with nothing
/// planned and nothing done. `word` was drawn for the node.
fn new_records<E: End>(
    alloc: Global,
    nodes: &[Node],
    links: &[Link],
    number: u32,
    home: &HomeOf,
    word: u64,
) -> Result<Vec<Record<E>>, NoMemory>
    requires { length nodes.now ≤ MOST_NODES }
    ensures { IfOk result (λ rs. AreNewRecords nodes.now links.now number home.now.centers home.now.center word rs.items) }
{
    let mut records = room_for(alloc, links.len())?;
    for link in links {
        add(
            &mut records,
            record_at_home(alloc, nodes, number, home, word, link),
        );
    }
    Ok(records)
}

/// No records, and room for so many.
fn room_for<E: End>(alloc: Global, count: usize) -> Result<Vec<Record<E>>, NoMemory>
    ensures none { IfOk result (λ rs. rs.items ≡ []) }
    ensures room { IfOk result (λ rs. count ≤ vec_capacity rs - vec_len rs) }
{
    let mut records = Vec::new(alloc);
    match records.reserve(count) {
        Ok(()) => Ok(records),
        Err(_) => {
            records.destroy_empty();
            Err(NoMemory)
        }
    }
}

/// Puts a record last, if there is one.
fn add<E: End>(records: &mut Vec<Record<E>>, r: Option<Record<E>>)
    requires { vec_len records.old < vec_capacity records.old }
    ensures items { map roomless records.new.items ≡ map roomless records.old.items ++ option_to_list (option_map roomless r) }
    ensures room { vec_capacity records.old - vec_len records.old ≤ (vec_capacity records.new - vec_len records.new) + 1 }
{
    match r {
        None => {}
        Some(r) => records.push_reserved(r),
    }
}

/// The steps go last in the plans of these records, each in that of the one that is towards its peer.
fn plan_steps<E: End>(records: &mut Vec<Record<E>>, steps: Steps) -> Result<(), NoMemory>
    requires peers { AreOfTheirPeers records.old.items }
    requires begun { AllByRecursion IsBegun records.old.items }
    requires steps { AllByRecursion IsSendableStep steps.items }
    ensures ok { OnOk result (OneByOne (IsPlannedBy steps.items) records.old.items records.new.items) }
    ensures begun { AllByRecursion IsBegun records.new.items }
{
    'steps: for step in steps.into_vec() {
        plan_step(records, step)?;
    }
    Ok(())
}

/// One step does.
fn plan_step<E: End>(records: &mut Vec<Record<E>>, step: StepTowards) -> Result<(), NoMemory>
    requires peers { AreOfTheirPeers records.old.items }
    requires begun { AllByRecursion IsBegun records.old.items }
    requires step { IsSendableStep step }
    ensures ok { OnOk result (OneByOne (IsPlannedBy (step ∷ [])) records.old.items records.new.items) }
    ensures begun { AllByRecursion IsBegun records.new.items }
{
    let StepTowards { peer, step } = step;
    match place_towards(records.as_slice(), peer) {
        None => Ok(()),
        Some(place) => add_step(&mut records[place], step),
    }
}

/// A step goes last in the plan of a record.
fn add_step<E: End>(side: &mut Record<E>, step: PlanStep) -> Result<(), NoMemory>
    requires { CanBePlanned step }
    ensures ok { OnOk result (side.new ≡ planned_too step side.old) }
    ensures err { OnErr result (side.new ≡ side.old) }
{
    match side.plan_add(step) {
        Ok(()) => Ok(()),
        Err(_) => Err(NoMemory),
    }
}

/// The place of the first record that is towards this node, if there is one.
fn place_towards<E: End>(records: &[Record<E>], peer: u32) -> Option<usize>
    ensures place { IfSome result (λ place. IsPlaceTowards peer records.now place) }
    ensures within { IfSome result (λ place. place < length records.now) }
    ensures none { result ≡ None → NoneTowards peer records.now }
{
    'records: for place in 0..records.len() {
        if records[place].place() == peer {
            return Some(place);
        }
    }
    None
}

/// The records of the node of this number whose peers are at home with this thread, in the order of its links, with these steps
/// as their plans.
pub(crate) fn planned_records<E: End>(
    alloc: Global,
    nodes: &[Node],
    links: &[Link],
    number: u32,
    home: &HomeOf,
    word: u64,
    steps: Steps,
) -> Result<Vec<Record<E>>, NoMemory>
    requires few { length nodes.now ≤ MOST_NODES }
    requires peers { AreOfTheirPeers (records_of nodes.now links.now number word) }
    requires steps { AllByRecursion IsSendableStep steps.items }
    ensures begun { IfOk result (λ rs. AllByRecursion IsBegun rs.items) }
    ensures bare { IfOk result (λ rs. map bare rs.items ≡ map bare (at_home nodes.now home.now.centers home.now.center (records_of nodes.now links.now number word))) }
    ensures sides { IfOk result (λ rs. map side_made rs.items ≡ map (side_by (plan_of steps.items)) (at_home nodes.now home.now.centers home.now.center (records_of nodes.now links.now number word))) }
{
    let mut records = new_records(alloc, nodes, links, number, home, word)?;
    match plan_steps(&mut records, steps) {
        Ok(()) => Ok(records),
        Err(NoMemory) => {
            throw_away_records(records);
            Err(NoMemory)
        }
    }
}

/// Throws away records that have done nothing, so that nothing was granted to them.
fn throw_away_records<E: End>(mut records: Vec<Record<E>>)
    requires { AllByRecursion IsBegun records.items }
{
    let (throttles, mut passes) = Throttles::alone(&Bounds::of_dispatch(0));
    'records: while let Some(side) = records.pop() {
        let _ends = side.ends(&throttles, &mut passes);
    }
    records.destroy_empty();
    let _out = throttles.close(passes);
}
