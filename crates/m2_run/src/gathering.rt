//! What nodes leave goes back to the fabric, and what their dispatchers were called with to whoever reads it.

ghost use Rattle.std.specs.Prelude.{◌≡◌, ◌++◌, ◌∷◌, [], ◌<◌, ◌^◌, true, Some, IfOk, OnOk, List, drop, length, map, take};
ghost use Rattle.std.specs.List.{flat_map};
ghost use Rattle.std.specs.Option.{option_map, option_to_list};
ghost use Rattle.std.specs.Vec.Iter.{into_iter_items};
ghost use Rattle.m2_dispatch.specs.m2_shared.Gates.{ArePassesOf, places};
ghost use Rattle.m2_node.specs.m2_script.m2_center.Finishing.{AllOwn};
ghost use Rattle.m2_handover.specs.End.{shown, told_nothing};
ghost use Rattle.m2_run.specs.Cuts.{IsEndOver, bound_of};
ghost use Rattle.m2_node.specs.Ends.{seen_end};
ghost use Rattle.m2_run.specs.Gathering.{ArePortsTold, GathersIf, Gives, GivesBack, Opens, OpensHalves};
ghost use Rattle.m2_run.specs.Kept.{AllGathered, ends_of_record};
ghost use Rattle.m2_node.specs.Nodes.{KeptNow, nodes_of};
ghost use Rattle.m2_node.specs.Handing.{AreBoth, heard_at_once};
ghost use Rattle.m2_run.specs.Rests.{AreEndsOf, EndedCenterNow, loose_of};
ghost use Rattle.m2_node.specs.Way.{ArePortsOut};
ghost use Rattle.m2_scenario.specs.Report.{heard_in};

use crate::cuts::open_end;
use crate::ending::{Ended, EndedCenter, ThreadEnd, throw_away_centers, throw_away_ends};
use m2_bytes::{Items, NoMemory};
use m2_dispatch::{Logged, LoggedList};
use m2_fabric::{Cut, CutList, End, Fabric, Port, SocketId};
use m2_handover::HandedEnd;
use m2_node::Record;
use m2_scenario::{LogsList, Node};
use m2_shared::{TakePasses, Throttles};
use m2_trail::{Loose, LooseList};
use std::alloc::Global;
use std::marker::Model;
use std::vec::IntoIter;

/// Gives the ports and ends of all nodes back to the fabric, and gives of each node what its dispatchers of fast kinds were called with.
/// `cuts` has those of the sockets that each node opened, and `loose` the halves that no record took, those of the last
/// node first.
pub(crate) fn gather_all<F: Fabric>(
    alloc: Global,
    nodes: &[Node],
    cuts: &[CutList],
    fabric: &mut F,
    mut ends: Vec<Ended<'_, F::Port>>,
    loose: LooseList<ThreadEnd<<F::Port as Port>::End>>,
) -> Result<LogsList, NoMemory>
    requires count { length ends.items ≡ length nodes.now }
    requires cuts { length cuts.now ≡ length nodes.now }
    requires few { length nodes.now < 2 ^ 32 }
    requires out { ArePortsOut nodes.now (F.seen fabric.old) }
    ensures gathered { IfOk result (λ _. (kept : List KeptNow) → AreEndsOf kept ends.entry.items → loose.items ≡ loose_of kept →
        AllGathered cuts.now nodes.now kept (F.seen fabric.old) (F.seen fabric.new)) }
    ensures ports { IfOk result (λ _. ArePortsTold nodes.now ends.entry.items (F.seen fabric.new)) }
    ensures logs { IfOk result (λ logs. (kept : List KeptNow) → AreEndsOf kept ends.entry.items → map heard_in logs.items ≡ map heard_at_once (nodes_of kept)) }
    ensures faults { (F.seen fabric.new).faults ≡ (F.seen fabric.old).faults }
{
    let Ok(mut logs) = Vec::with_capacity(alloc, ends.len()) else {
        throw_away_ends(ends);
        return Err(NoMemory);
    };
    let mut loose = loose.into_vec().into_iter();
    'nodes: while let Some(ended) = ends.pop() {
        let place = ends.len();
        let node = &nodes[place];
        let its = cuts[place].as_slice();
        match gather_node(alloc, node, its, fabric, place as u32, ended, &mut loose) {
            Ok(log) => logs.push_reserved(log),
            Err(NoMemory) => {
                throw_away_ends(ends);
                return Err(NoMemory);
            }
        }
    }
    ends.destroy_empty();
    logs.reverse();
    Ok(Items::from_vec(logs))
}

/// Those of the node at this place, which has the first of these halves. Of one that is off the fabric isn't told.
fn gather_node<F: Fabric>(
    alloc: Global,
    node: &Node,
    cuts: &[Cut],
    fabric: &mut F,
    place: u32,
    ended: Ended<'_, F::Port>,
    loose: &mut IntoIter<Loose<ThreadEnd<<F::Port as Port>::End>>>,
) -> Result<LoggedList, NoMemory>
    requires { node.now.started ≡ true → (F.seen fabric.old).out place ≡ Some node.now.centers }
    ensures gives_back { OnOk result (GivesBack cuts.now node.now.started place ended.entry (take ended.entry.halves (into_iter_items loose.old)) (F.seen fabric.old) (F.seen fabric.new)) }
    ensures loose { OnOk result (into_iter_items loose.new ≡ drop ended.entry.halves (into_iter_items loose.old)) }
    ensures log { IfOk result (λ log. log.items ≡ flat_map (λ (c : EndedCenterNow). c.fast) ended.entry.centers) }
    ensures faults { (F.seen fabric.new).faults ≡ (F.seen fabric.old).faults }
{
    let Ended { centers, halves } = ended;
    let count = centers.len();
    let mut given = Given {
        ports: Vec::new(alloc),
        ends: Vec::new(alloc),
        fast: Vec::new(alloc),
    };
    give_centers(centers, cuts, &mut given)?;
    let Given {
        ports,
        mut ends,
        fast,
    } = given;
    give_halves(halves, loose, &mut ends)?;
    give_back_if(node, fabric, place, count, ports, ends)?;
    Ok(Items::from_vec(fast))
}

/// Gives the ports of a node with so many centers, and its ends, back to the fabric, where the node is on. Err is want of memory: a
/// node that is on has as many centers as the scenario says, and as many ports of the fabric.
fn give_back_if<F: Fabric>(
    node: &Node,
    fabric: &mut F,
    place: u32,
    count: usize,
    ports: Vec<F::Port>,
    ends: Vec<<F::Port as Port>::End>,
) -> Result<(), NoMemory>
    requires { node.now.started ≡ true → (F.seen fabric.old).out place ≡ Some node.now.centers }
    ensures gathers { OnOk result (GathersIf node.now.started place (record { ports = map F.Port.seen ports.items; ends = map F.Port.End.seen ends.items }) (F.seen fabric.old) (F.seen fabric.new)) }
    ensures whole { OnOk result (node.now.started ≡ true → length ports.items ≡ count) }
    ensures faults { (F.seen fabric.new).faults ≡ (F.seen fabric.old).faults }
{
    if !node.started {
        return Ok(());
    }
    if ports.len() != count || count != node.centers as usize {
        return Err(NoMemory);
    }
    fabric.gather(place, Items::from_vec(ports), Items::from_vec(ends));
    Ok(())
}

/// What the centers of a node give: the ports and ends of the fabric, and what the dispatchers of fast kinds were called with.
#[derive(Drop)]
struct Given<P: Port> {
    ports: Vec<P>,
    ends: Vec<P::End>,
    fast: Vec<Logged>,
}

impl<P: Port> Model for Given<P> {
    ghost use Rattle.std.specs.Prelude.{map};
    ghost use Rattle.m2_run.specs.Gathering.{GivenNow};

    ghost Value = { GivenNow };

    ghost view = { λ g. record { ports = map P.seen g.ports.items; ends = map P.End.seen g.ends.items; fast = g.fast.items } };
}

/// What these centers give goes last. Err is want of memory; they are ended then too.
fn give_centers<P: Port>(
    mut centers: Vec<EndedCenter<'_, P>>,
    cuts: &[Cut],
    into: &mut Given<P>,
) -> Result<(), NoMemory>
    ensures { OnOk result (Gives cuts.now centers.entry.items into.old into.new) }
{
    centers.reverse();
    'centers: while let Some(center) = centers.pop() {
        if let Err(NoMemory) = give_center(center, cuts, into) {
            throw_away_centers(centers);
            return Err(NoMemory);
        }
    }
    centers.destroy_empty();
    Ok(())
}

/// What one gives does.
fn give_center<P: Port>(
    center: EndedCenter<'_, P>,
    cuts: &[Cut],
    into: &mut Given<P>,
) -> Result<(), NoMemory>
    ensures { OnOk result (Gives cuts.now (center.entry ∷ []) into.old into.new) }
{
    let EndedCenter {
        port,
        made,
        records,
        fast,
        queued: _,
        throttles,
        passes,
    } = center;
    give_records(
        records,
        throttles,
        passes,
        cuts,
        made.as_slice(),
        &mut into.ends,
    )?;
    add_port(port, &mut into.ports)?;
    add_log(fast, &mut into.fast)
}

/// Ends these records, and puts the ends inside their ends last, in order. Err is want of memory; they are ended then too.
fn give_records<E: End>(
    mut records: Vec<Record<ThreadEnd<E>>>,
    throttles: &Throttles,
    mut passes: TakePasses,
    cuts: &[Cut],
    made: &[SocketId],
    into: &mut Vec<E>,
) -> Result<(), NoMemory>
    requires passes { ArePassesOf throttles.now passes }
    requires owned { AllOwn (places throttles.now) records.items }
    ensures { OnOk result (Opens cuts.now made.now (flat_map ends_of_record records.items) (map E.seen into.old.items) (map E.seen into.new.items)) }
{
    records.reverse();
    let mut given = Ok(());
    'records: while let Some(side) = records.pop() {
        let ends = side.ends(throttles, &mut passes);
        given = give_ends(given, ends, cuts, made, into);
    }
    records.destroy_empty();
    given
}

/// Puts the ends inside these last, where memory lasted so far.
fn give_ends<E: End>(
    given: Result<(), NoMemory>,
    ends: Items<ThreadEnd<E>>,
    cuts: &[Cut],
    made: &[SocketId],
    into: &mut Vec<E>,
) -> Result<(), NoMemory>
    ensures given { OnOk result (Opens cuts.now made.now (map seen_end ends.items) (map E.seen into.old.items) (map E.seen into.new.items)) }
    ensures before { OnOk result (given ≡ result) }
{
    given?;
    for end in ends.into_vec() {
        into.push(inside(end, cuts, made)?)?;
    }
    Ok(())
}

/// The end of the fabric that is in an end of a record. Err is want of memory: each is one of a port, which breaks where a cut of
/// its own says, and on which all that was done before was done again.
fn inside<E: End>(end: ThreadEnd<E>, cuts: &[Cut], made: &[SocketId]) -> Result<E, NoMemory>
    ensures { IfOk result (λ inner. IsEndOver (bound_of cuts.now made.now (seen_end end).id) (seen_end end) (E.seen inner)) }
{
    match end.into_cut() {
        None => Err(NoMemory),
        Some(end) => own_inside(open_end(end, cuts, made)?),
    }
}

/// That in an end on which all that was done before was done again.
fn own_inside<E: End>(end: HandedEnd<E>) -> Result<E, NoMemory>
    ensures { IfOk result (λ inner. shown end ≡ told_nothing (E.seen inner)) }
{
    match end.into_parts() {
        (end, None) => Ok(end),
        (_, Some(_)) => Err(NoMemory),
    }
}

/// Puts the ends inside those of the first so many halves last, as far as there are.
fn give_halves<E: End>(
    count: usize,
    loose: &mut IntoIter<Loose<ThreadEnd<E>>>,
    into: &mut Vec<E>,
) -> Result<(), NoMemory>
    ensures given { OnOk result (OpensHalves (take count (into_iter_items loose.old)) (map E.seen into.old.items) (map E.seen into.new.items)) }
    ensures left { OnOk result (into_iter_items loose.new ≡ drop count (into_iter_items loose.old)) }
{
    for _ in 0..count {
        let Some(half) = loose.next() else {
            return Ok(());
        };
        let (end, _trail) = half.into_parts();
        let Some(end) = end.into_left() else {
            return Err(NoMemory);
        };
        into.push(own_inside(end)?)?;
    }
    Ok(())
}

/// A port goes last, where there is one.
fn add_port<P: Port>(port: Option<P>, into: &mut Vec<P>) -> Result<(), NoMemory>
    ensures { OnOk result (map P.seen into.new.items ≡ map P.seen into.old.items ++ option_to_list (option_map P.seen port)) }
{
    if let Some(port) = port {
        into.push(port)?;
    }
    Ok(())
}

/// These calls go last.
fn add_log(log: LoggedList, into: &mut Vec<Logged>) -> Result<(), NoMemory>
    ensures { OnOk result (into.new.items ≡ into.old.items ++ log.items) }
{
    if into.is_empty() {
        *into = log.into_vec();
        return Ok(());
    }
    'calls: for call in log.into_vec() {
        into.push(call)?;
    }
    Ok(())
}

/// The calls of both dispatchers of each node, those of these lists one behind the other. Err is want of memory, or that one has more
/// nodes than the other.
pub(crate) fn both_logs(
    alloc: Global,
    fast: LogsList,
    queued: Vec<LoggedList>,
) -> Result<LogsList, NoMemory>
    ensures { IfOk result (λ logs. AreBoth fast.items queued.items logs.items) }
{
    let mut queued = queued.into_iter();
    let mut all = Vec::new(alloc);
    'nodes: for log in fast.into_vec() {
        let Some(more) = queued.next() else {
            return Err(NoMemory);
        };
        all.push(one_log(log.into_vec(), more.into_vec())?)?;
    }
    match queued.next() {
        None => Ok(Items::from_vec(all)),
        Some(_) => Err(NoMemory),
    }
}

/// The calls of both, one behind the other.
fn one_log(fast: Vec<Logged>, queued: Vec<Logged>) -> Result<LoggedList, NoMemory>
    ensures { IfOk result (λ log. log.items ≡ fast.items ++ queued.items) }
{
    let mut log = fast;
    'calls: for call in queued {
        log.push(call)?;
    }
    Ok(Items::from_vec(log))
}
