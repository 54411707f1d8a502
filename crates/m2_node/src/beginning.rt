//! All nodes before their first turn: their ports, and the workers of their event threads.

ghost use Rattle.std.specs.Prelude.{◌≡◌, ◌++◌, ◌∷◌, ◌<◌, ◌≤◌, [], false, true, Some, List, IfOk, IfSome, OnOk, length, map, slice_get};
ghost use Rattle.std.specs.List.{AllByRecursion};
ghost use Rattle.std.specs.Vec.Iter.{into_iter_items};
ghost use Rattle.m2_dispatch.specs.m2_shared.Gates.{pass_places, places};
ghost use Rattle.m2_script.specs.m2_center.Finishing.{AllOwn};
ghost use Rattle.m2_script.specs.m2_center.Making.{CanBegin, new_center};
ghost use Rattle.m2_fabric.specs.Fabric.{IsUnused};
ghost use Rattle.m2_node.specs.Begins.{AddsWorkers, AreBeginning, AreDoorsAmid, AreDoorsOf, AreListening, AreNewAt, AreOfSound, ArePortsFor, ArePortsForNode, AreSendable, IsBeginning, IsNewDoor, IsNewHome, IsNewWay, IsOutIf, IsPortFor, steps_at};
ghost use Rattle.m2_node.specs.Homes.{steps_at_home};
ghost use Rattle.m2_node.specs.Nodes.{IsServedBy};
ghost use Rattle.m2_node.specs.Planned.{IsSendableStep, steps_in};
ghost use Rattle.m2_node.specs.Ports.{seen_port};
ghost use Rattle.m2_node.specs.Rooms.{HomeAt, homes_from, homes_if, homes_of, thread_of};
ghost use Rattle.m2_node.specs.Sharing.{AreFirstOf, AreSharesOf, IsShare};
ghost use Rattle.m2_node.specs.Way.{AreOut};
ghost use Rattle.m2_node.specs.Working.{AreWorkersOf};
ghost use Rattle.m2_node.specs.declared.planning.StepTowards.{StepTowards};
ghost use Rattle.m2_scenario.specs.Draft.{draft_line};
ghost use Rattle.m2_scenario.specs.Valid.{IsSound};
ghost use Rattle.m2_scenario.specs.declared.limits.TheConstants.{MOST_NODES};

use crate::counting::counts_of;
use crate::end::RunEnd;
use crate::node::{RunCenter, Shares, end_records};
use crate::planning::{Steps, steps_by_home, steps_of};
use crate::port::RunPort;
use crate::records::planned_records;
use crate::rooms::Rights;
use crate::sharing::FirstPasses;
use crate::threads::throw_away;
use crate::worker::Worker;
use m2_bytes::NoMemory;
use m2_dispatch::LogDispatcher;
use m2_edge::Words;
use m2_fabric::{CutPort, End, Fabric, Port, PortList};
use m2_handover::{Door, GetPass, Handed, HomePort, Inboxes, PutPass, Way};
use m2_scenario::{Line, LineList, Link, Node};
use m2_script::{
    Center, NodeShared, Passes, Record, Unmade, cuts_of, new_records_can_begin,
    short_posts_are_sendable,
};
use m2_trail::HomeOf;
use std::alloc::Global;
use std::marker::Model;
use std::sync::Wait;
use std::sync::atomic::AtomicBool;
use std::vec::IntoIter;

/// What the ports of threads are made of besides those of the fabric: the inboxes of all threads, the places where ports tell
/// whether anything waits, and the rights that no port has yet.
#[derive(Drop)]
pub struct Doors<'a, E: End, B: Inboxes<E>> {
    inboxes: B,
    rests: &'a [AtomicBool],
    puts: IntoIter<PutPass<Handed<E>>>,
    gets: IntoIter<GetPass<Handed<E>>>,
    /// The number of the next thread that gets its port.
    next: u32,
}

impl<'a, E: End, B: Inboxes<E>> Model for Doors<'a, E, B> {
    ghost use Rattle.std.specs.Vec.Iter.{into_iter_items};
    ghost use Rattle.m2_node.specs.Begins.{DoorsNow};

    ghost Value = { DoorsNow };

    ghost view = { λ d. record { inboxes = B.inboxes; puts = into_iter_items d.puts; gets = into_iter_items d.gets; next = d.next } };
}

impl<'a, E: End, B: Inboxes<E>> Doors<'a, E, B> {
    /// Those of all threads.
    pub fn new(inboxes: B, rests: &'a [AtomicBool], rights: Rights<E>) -> Doors<'a, E, B>
        ensures { result ≡ record { inboxes = B.inboxes; puts = rights.puts.items; gets = rights.gets.items; next = 0 } }
    {
        let Rights { puts, gets } = rights;
        Doors {
            inboxes,
            rests,
            puts: puts.into_iter(),
            gets: gets.into_iter(),
            next: 0,
        }
    }

    /// The ways to the next so many threads, which are those of a node.
    fn ways(&mut self, alloc: Global, centers: u32) -> Result<Vec<Way<E, B>>, NoMemory>
        requires { (rest : List HomeAt) × AreDoorsOf (slice_get B.inboxes) (homes_from 0 centers centers ++ rest) self.old }
        ensures doors { OnOk result ((rest : List HomeAt) → AreDoorsOf (slice_get B.inboxes) (homes_from 0 centers centers ++ rest) self.old → AreDoorsAmid (slice_get B.inboxes) (homes_from 0 centers centers) rest self.new) }
        ensures new { IfOk result (λ ways. AllByRecursion IsNewWay ways.items) }
    {
        let mut ways = Vec::with_capacity(alloc, centers as usize)?;
        'centers: for center in 0..centers {
            let way = self.way(HomeOf { center, centers })?;
            ways.push(way)?;
        }
        Ok(ways)
    }

    /// The way to this one of them.
    fn way(&mut self, home: HomeOf) -> Result<Way<E, B>, NoMemory>
        requires { (rest : List HomeAt) × AreDoorsAmid (slice_get B.inboxes) (homes_from 0 home.center home.centers) (thread_of home ∷ rest) self.old }
        ensures doors { OnOk result ((rest : List HomeAt) → AreDoorsAmid (slice_get B.inboxes) (homes_from 0 home.center home.centers) (thread_of home ∷ rest) self.old → AreDoorsAmid (slice_get B.inboxes) (homes_from 0 home.center home.centers ++ thread_of home ∷ []) rest self.new) }
        ensures new { IfOk result IsNewWay }
    {
        let Some(number) = self.next.checked_add(home.center) else {
            return Err(NoMemory);
        };
        let Some(_inbox) = self.inboxes.inbox(number) else {
            return Err(NoMemory);
        };
        let Some(put) = self.puts.next() else {
            return Err(NoMemory);
        };
        Ok(Way::new(home, number, put))
    }

    /// The port of the next thread, over this one of the fabric's of the node at this address, with the node's door where it is
    /// the first.
    fn port<P: Port<End = E>, R: Wait + Copy>(
        &mut self,
        rt: R,
        alloc: Global,
        node: &Node,
        port: P,
        door: Option<Door<E, B>>,
    ) -> Result<HomePort<'a, P, R, B>, NoMemory>
        requires doors { (home : HomeAt) × (its rest : List HomeAt) × AreDoorsAmid (slice_get B.inboxes) (home ∷ its) rest self.old }
        requires at { (P.seen port).at ≡ node.now.at }
        requires unused { IsUnused (P.seen port) }
        requires door { IsNewDoor door }
        ensures doors { OnOk result ((home : HomeAt) (its rest : List HomeAt) → AreDoorsAmid (slice_get B.inboxes) (home ∷ its) rest self.old → AreDoorsAmid (slice_get B.inboxes) its rest self.new) }
        ensures over { IfOk result (λ home. IsNewHome (P.seen port) home) }
    {
        let number = self.next;
        let Some(next) = number.checked_add(1) else {
            return Err(NoMemory);
        };
        let Some(_inbox) = self.inboxes.inbox(number) else {
            return Err(NoMemory);
        };
        let Some(rests) = self.rests.get(number as usize) else {
            return Err(NoMemory);
        };
        let Some(get) = self.gets.next() else {
            return Err(NoMemory);
        };
        self.next = next;
        let inboxes = self.inboxes.again();
        Ok(HomePort::new(rt, alloc, node.at, port, number, inboxes, get, door, rests))
    }
}

/// The nodes of a valid scenario, each of which listens where it is started, each with its workers, in order, which are at the
/// moment of the start; each that is started has its ports of the fabric. The messages are moved out of the lines into the
/// records' plans. Err is want of memory.
pub fn begin_listening<'a, 's, R, F, W, B>(
    rt: R,
    alloc: Global,
    nodes: &[Node],
    links: &[Link],
    lines: LineList,
    fabric: &mut F,
    words: &mut W,
    doors: Doors<'a, <F::Port as Port>::End, B>,
    shares: &'s [Shares],
    passes: Vec<FirstPasses>,
    start: u64,
) -> Result<Vec<Worker<'s, HomePort<'a, F::Port, R, B>>>, NoMemory>
where
    R: Wait + Copy,
    F: Fabric,
    W: Words,
    B: Inboxes<<F::Port as Port>::End>,
    requires sound { IsSound nodes.now links.now (map draft_line lines.items) }
    requires listening { AreListening nodes.now (F.seen fabric.old) }
    requires doors { AreDoorsOf (slice_get B.inboxes) (homes_of nodes.now) doors }
    requires shares { AreSharesOf nodes.now shares.now passes.items }
    ensures nodes { IfOk result (λ workers. AreBeginning nodes.now links.now (steps_in lines.items) 0 nodes.now workers.items) }
    ensures workers { IfOk result (λ workers. AreWorkersOf nodes.now shares.now start workers.items) }
    ensures out { IfOk result (λ _. AreOut nodes.now (F.seen fabric.old) (F.seen fabric.new)) }
    ensures faults { (F.seen fabric.new).faults ≡ (F.seen fabric.old).faults }
{
    let counts = counts_of(alloc, nodes.len(), links, lines.as_slice())?;
    let ports = ports_of(rt, alloc, nodes, lines.as_slice(), fabric, doors)?;
    let steps = steps_of(alloc, nodes.len(), lines)?;
    short_posts_are_sendable();
    workers_of(
        alloc, nodes, links, ports, steps, counts, shares, passes, words, start,
    )
}

/// The ports of each node: of one that is started over the fabric's, with the cuts of the sockets that it will open.
fn ports_of<'a, R, F, B>(
    rt: R,
    alloc: Global,
    nodes: &[Node],
    lines: &[Line],
    fabric: &mut F,
    mut doors: Doors<'a, <F::Port as Port>::End, B>,
) -> Result<Vec<Vec<RunPort<HomePort<'a, F::Port, R, B>>>>, NoMemory>
where
    R: Wait + Copy,
    F: Fabric,
    B: Inboxes<<F::Port as Port>::End>,
    requires few { length nodes.now ≤ MOST_NODES }
    requires listening { AreListening nodes.now (F.seen fabric.old) }
    requires doors { AreDoorsOf (slice_get B.inboxes) (homes_of nodes.now) doors }
    ensures ports { IfOk result (λ ports. ArePortsFor nodes.now (map (λ ps. ps.items) ports.items)) }
    ensures out { IfOk result (λ _. AreOut nodes.now (F.seen fabric.old) (F.seen fabric.new)) }
    ensures faults { (F.seen fabric.new).faults ≡ (F.seen fabric.old).faults }
{
    let mut ports = Vec::with_capacity(alloc, nodes.len())?;
    'nodes: for k in 0..nodes.len() {
        let its = ports_at(rt, alloc, nodes, lines, k as u32, fabric, &mut doors)?;
        ports.push(its)?;
    }
    Ok(ports)
}

/// Those of the node at this place.
fn ports_at<'a, R, F, B>(
    rt: R,
    alloc: Global,
    nodes: &[Node],
    lines: &[Line],
    k: u32,
    fabric: &mut F,
    doors: &mut Doors<'a, <F::Port as Port>::End, B>,
) -> Result<Vec<RunPort<HomePort<'a, F::Port, R, B>>>, NoMemory>
where
    R: Wait + Copy,
    F: Fabric,
    B: Inboxes<<F::Port as Port>::End>,
    requires place { k < length nodes.now }
    requires listening { AreListening nodes.now (F.seen fabric.old) }
    requires doors { IfSome (slice_get nodes.now k) (λ x. (rest : List HomeAt) × AreDoorsOf (slice_get B.inboxes) (homes_if x.started x.centers ++ rest) doors.old) }
    ensures ports { IfOk result (λ ports. IfSome (slice_get nodes.now k) (λ x. ArePortsForNode x ports.items)) }
    ensures out { IfOk result (λ _. IfSome (slice_get nodes.now k) (λ x. IsOutIf k x (F.seen fabric.old) (F.seen fabric.new))) }
    ensures faults { (F.seen fabric.new).faults ≡ (F.seen fabric.old).faults }
    ensures doors { IfOk result (λ _. IfSome (slice_get nodes.now k) (λ x. (rest : List HomeAt) → AreDoorsOf (slice_get B.inboxes) (homes_if x.started x.centers ++ rest) doors.old → AreDoorsOf (slice_get B.inboxes) rest doors.new)) }
{
    let node = &nodes[k as usize];
    if node.started {
        return ports_on(rt, alloc, nodes, lines, k, fabric, doors);
    }
    ports_off(alloc, node)
}

/// Those of a node that is off.
fn ports_off<P: Port>(alloc: Global, node: &Node) -> Result<Vec<RunPort<P>>, NoMemory>
    requires { node.now.started ≡ false }
    ensures { IfOk result (λ ports. ArePortsForNode node.now ports.items) }
{
    let mut ports = Vec::with_capacity(alloc, node.centers as usize)?;
    'centers: for _ in 0..node.centers {
        ports.push(RunPort::off(alloc, node.at))?;
    }
    Ok(ports)
}

/// Those of the node at this place, which is on. The first has the node's door.
fn ports_on<'a, R, F, B>(
    rt: R,
    alloc: Global,
    nodes: &[Node],
    lines: &[Line],
    k: u32,
    fabric: &mut F,
    doors: &mut Doors<'a, <F::Port as Port>::End, B>,
) -> Result<Vec<RunPort<HomePort<'a, F::Port, R, B>>>, NoMemory>
where
    R: Wait + Copy,
    F: Fabric,
    B: Inboxes<<F::Port as Port>::End>,
    requires place { k < length nodes.now }
    requires started { IfSome (slice_get nodes.now k) (λ x. x.started ≡ true) }
    requires listening { AreListening nodes.now (F.seen fabric.old) }
    requires doors { IfSome (slice_get nodes.now k) (λ x. (rest : List HomeAt) × AreDoorsOf (slice_get B.inboxes) (homes_from 0 x.centers x.centers ++ rest) doors.old) }
    ensures ports { IfOk result (λ ports. IfSome (slice_get nodes.now k) (λ x. ArePortsForNode x ports.items)) }
    ensures out { IfOk result (λ _. IfSome (slice_get nodes.now k) (λ x. IsOutIf k x (F.seen fabric.old) (F.seen fabric.new))) }
    ensures faults { (F.seen fabric.new).faults ≡ (F.seen fabric.old).faults }
    ensures doors { IfOk result (λ _. IfSome (slice_get nodes.now k) (λ x. (rest : List HomeAt) → AreDoorsOf (slice_get B.inboxes) (homes_from 0 x.centers x.centers ++ rest) doors.old → AreDoorsOf (slice_get B.inboxes) rest doors.new)) }
{
    let node = &nodes[k as usize];
    let ways = doors.ways(alloc, node.centers)?;
    let door = Door::new(alloc, node.entity, ways)?;
    let ports = fabric.split(k, node.centers)?;
    ports_over(rt, alloc, nodes, lines, k, ports, doors, door)
}

/// Those of that node over these ports of the fabric, which are as many as it has threads.
fn ports_over<'a, P, R, B>(
    rt: R,
    alloc: Global,
    nodes: &[Node],
    lines: &[Line],
    k: u32,
    ports: PortList<P>,
    doors: &mut Doors<'a, P::End, B>,
    door: Door<P::End, B>,
) -> Result<Vec<RunPort<HomePort<'a, P, R, B>>>, NoMemory>
where
    P: Port,
    R: Wait + Copy,
    B: Inboxes<P::End>,
    requires place { k < length nodes.now }
    requires started { IfSome (slice_get nodes.now k) (λ x. x.started ≡ true) }
    requires ports { IfSome (slice_get nodes.now k) (λ x. AreNewAt x.at x.centers (map P.seen ports.items)) }
    requires doors { IfSome (slice_get nodes.now k) (λ x. (rest : List HomeAt) × AreDoorsAmid (slice_get B.inboxes) (homes_from 0 x.centers x.centers) rest doors.old) }
    requires door { IsNewDoor (Some door) }
    ensures ports { IfOk result (λ all. IfSome (slice_get nodes.now k) (λ x. ArePortsForNode x all.items)) }
    ensures doors { OnOk result (IfSome (slice_get nodes.now k) (λ x. (rest : List HomeAt) → AreDoorsAmid (slice_get B.inboxes) (homes_from 0 x.centers x.centers) rest doors.old → AreDoorsOf (slice_get B.inboxes) rest doors.new)) }
{
    let node = &nodes[k as usize];
    let mut door = Some(door);
    let mut all = Vec::with_capacity(alloc, node.centers as usize)?;
    'centers: for port in ports.into_vec() {
        let cuts = cuts_of(alloc, nodes, lines, k)?;
        let home = doors.port(rt, alloc, node, port, door.take())?;
        all.push(RunPort::on(alloc, node.at, CutPort::new(home, cuts)))?;
    }
    Ok(all)
}

/// What a node begins with, besides its records.
#[derive(Drop)]
struct Part<P: Port> {
    ports: Vec<RunPort<P>>,
    steps: Steps,
    counts: Vec<bool>,
    passes: FirstPasses,
}

/// What all nodes begin with, in order.
#[derive(Drop)]
struct Parts<P: Port> {
    ports: IntoIter<Vec<RunPort<P>>>,
    steps: IntoIter<Steps>,
    counts: IntoIter<Vec<bool>>,
    passes: IntoIter<FirstPasses>,
}

impl<P: Port> Parts<P> {
    /// The next one.
    fn next(&mut self) -> Option<Part<P>>
        ensures ports { IfSome result (λ part. into_iter_items self.old.ports ≡ part.ports ∷ into_iter_items self.new.ports) }
        ensures steps { IfSome result (λ part. into_iter_items self.old.steps ≡ part.steps ∷ into_iter_items self.new.steps) }
        ensures passes { IfSome result (λ part. into_iter_items self.old.passes ≡ part.passes ∷ into_iter_items self.new.passes) }
    {
        let Some(ports) = self.ports.next() else {
            return None;
        };
        let Some(steps) = self.steps.next() else {
            return None;
        };
        let Some(counts) = self.counts.next() else {
            return None;
        };
        let Some(passes) = self.passes.next() else {
            return None;
        };
        Some(Part {
            ports,
            steps,
            counts,
            passes,
        })
    }
}

/// The workers of each node.
fn workers_of<'s, P: Port, W: Words>(
    alloc: Global,
    nodes: &[Node],
    links: &[Link],
    ports: Vec<Vec<RunPort<P>>>,
    steps: Vec<Steps>,
    counts: Vec<Vec<bool>>,
    shares: &'s [Shares],
    passes: Vec<FirstPasses>,
    words: &mut W,
    start: u64,
) -> Result<Vec<Worker<'s, P>>, NoMemory>
    requires sound { AreOfSound nodes.now links.now }
    requires ports { ArePortsFor nodes.now (map (λ ps. ps.items) ports.items) }
    requires steps { AreSendable steps.items }
    requires shares { AreSharesOf nodes.now shares.now passes.items }
    ensures nodes { IfOk result (λ workers. AreBeginning nodes.now links.now (steps_at steps.items) 0 nodes.now workers.items) }
    ensures workers { IfOk result (λ workers. AreWorkersOf nodes.now shares.now start workers.items) }
{
    let mut workers = Vec::new(alloc);
    let mut parts = Parts {
        ports: ports.into_iter(),
        steps: steps.into_iter(),
        counts: counts.into_iter(),
        passes: passes.into_iter(),
    };
    'nodes: for k in 0..nodes.len() {
        let Some(part) = parts.next() else {
            throw_away(workers);
            return Err(NoMemory);
        };
        let added = add_workers(
            alloc,
            nodes,
            links,
            k as u32,
            part,
            &shares[k],
            words,
            start,
            &mut workers,
        );
        if let Err(NoMemory) = added {
            throw_away(workers);
            return Err(NoMemory);
        }
    }
    Ok(workers)
}

/// Those of the node at this place go last.
fn add_workers<'s, P: Port, W: Words>(
    alloc: Global,
    nodes: &[Node],
    links: &[Link],
    k: u32,
    part: Part<P>,
    shares: &'s Shares,
    words: &mut W,
    start: u64,
    workers: &mut Vec<Worker<'s, P>>,
) -> Result<(), NoMemory>
    requires sound { AreOfSound nodes.now links.now }
    requires place { k < length nodes.now }
    requires ports { IfSome (slice_get nodes.now k) (λ x. ArePortsForNode x part.ports.items) }
    requires steps { AllByRecursion IsSendableStep part.steps.items }
    requires share { IsShare shares.now }
    requires passes { AreFirstOf shares.now part.passes }
    ensures { OnOk result (IfSome (slice_get nodes.now k) (λ x. AddsWorkers nodes.now links.now part.steps.items k x shares.now start workers.old.items workers.new.items)) }
{
    let Part {
        ports,
        steps,
        counts,
        mut passes,
    } = part;
    let node = &nodes[k as usize];
    let centers = node.centers;
    let mut steps = steps_by_home(alloc, nodes, centers, steps)?.into_iter();
    let mut ports = ports.into_iter();
    let word = words.next();
    workers.reserve(centers as usize)?;
    'centers: for center in 0..centers {
        let Some(port) = ports.next() else {
            return Err(NoMemory);
        };
        let Some(its) = steps.next() else {
            return Err(NoMemory);
        };
        let counts = counts.clone()?;
        let home = HomeOf { center, centers };
        let made = center_of(
            alloc,
            nodes,
            links,
            k,
            &home,
            word,
            port,
            its,
            &mut passes,
            shares.shared(),
        )?;
        let number = workers.len().min(u32::MAX as usize) as u32;
        workers.push_reserved(Worker::new(made, shares, number, node.started, start, counts));
    }
    Ok(())
}

/// The center of this thread of the node at this place, with this port, whose records are to take these steps. `word` was drawn
/// for the node.
fn center_of<P: Port>(
    alloc: Global,
    nodes: &[Node],
    links: &[Link],
    k: u32,
    home: &HomeOf,
    word: u64,
    port: RunPort<P>,
    steps: Steps,
    passes: &mut FirstPasses,
    shared: &NodeShared,
) -> Result<RunCenter<P>, NoMemory>
    requires sound { AreOfSound nodes.now links.now }
    requires place { k < length nodes.now }
    requires centers { IfSome (slice_get nodes.now k) (λ x. home.now.centers ≡ x.centers) }
    requires port { IfSome (slice_get nodes.now k) (λ x. IsPortFor x port) }
    requires steps { AllByRecursion IsSendableStep steps.items }
    requires share { IsShare (record { numbers = shared.now.numbers; throttles = shared.now.throttles }) }
    requires passes { AreFirstOf (record { numbers = shared.now.numbers; throttles = shared.now.throttles }) passes.old }
    ensures passes { passes.new ≡ passes.old }
    ensures served { IfOk result (IsServedBy shared.now.numbers shared.now.throttles) }
    ensures beginning { IfOk result (λ c. IfSome (slice_get nodes.now k) (λ x. (all : List StepTowards) → steps.items ≡ steps_at_home nodes.now x.centers home.now.center all → IsBeginning nodes.now links.now all k home.now.center word x c)) }
{
    let records = planned_records(alloc, nodes, links, k, home, word, steps)?;
    let its = passes.split(shared);
    new_records_can_begin();
    center_with(alloc, &nodes[k as usize], port, records, its, shared)
}

/// A center with this port and these records, of which nothing was granted or drawn.
fn center_with<P: Port>(
    alloc: Global,
    node: &Node,
    port: RunPort<P>,
    records: Vec<Record<RunEnd<P::End>>>,
    passes: Passes,
    shared: &NodeShared,
) -> Result<RunCenter<P>, NoMemory>
    requires begin { CanBegin node.now.entity (seen_port port) records.items passes.throttles passes.numbers }
    requires numbers { passes.numbers.place ≡ shared.now.numbers.place }
    requires throttles { pass_places passes.throttles ≡ places shared.now.throttles }
    requires owned { AllOwn (places shared.now.throttles) records.items }
    ensures { IfOk result (λ c. c ≡ new_center node.now.entity (seen_port port) records.items [] [] passes.throttles passes.numbers) }
{
    let of = Unmade {
        entity: node.entity,
        port,
        records,
        fast: LogDispatcher::new(alloc),
        queued: LogDispatcher::new(alloc),
        passes,
    };
    match Center::new(alloc, of) {
        Ok(center) => Ok(center),
        Err(unmade) => {
            throw_away_unmade(unmade, shared);
            Err(NoMemory)
        }
    }
}

/// Throws away what no center was made of.
fn throw_away_unmade<P: Port>(unmade: Unmade<RunPort<P>, LogDispatcher>, shared: &NodeShared)
    requires passes { pass_places unmade.passes.throttles ≡ places shared.now.throttles }
    requires owned { AllOwn (places shared.now.throttles) unmade.records.items }
{
    let Unmade {
        entity: _,
        port: _,
        records,
        fast: _,
        queued: _,
        passes,
    } = unmade;
    let Passes {
        numbers: _,
        throttles: mut own,
    } = passes;
    end_records(records, &shared.throttles, &mut own);
}
