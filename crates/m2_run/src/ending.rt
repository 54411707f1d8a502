//! The end of all nodes, and what is left of each.

ghost use Rattle.std.specs.Prelude.{◌≡◌, ◌+◌, ◌<◌, ◌++◌, ◌∷◌, [], false, IfOk, List, OnOk, length, map, slice_get, vec_capacity, vec_len};
ghost use Rattle.std.specs.List.{AllByRecursion};
ghost use Rattle.std.specs.Option.{option_map};
ghost use Rattle.m2_handover.specs.Handed.{IsOfNamed, OnItsWay};
ghost use Rattle.m2_handover.specs.Home.{shown};
ghost use Rattle.m2_handover.specs.m2_mailbox.Passes.{IsPutPassOf, parts_of, puts_of};
ghost use Rattle.m2_handover.specs.m2_mailbox.Views.{all_parts};
ghost use Rattle.m2_handover.specs.m2_mailbox.declared.passes.PutPass.{PutPass};
ghost use Rattle.m2_node.specs.Ports.{seen_port};
ghost use Rattle.m2_run.specs.Rests.{IsInside};
ghost use Rattle.m2_trail.specs.declared.home.HomeOf.{HomeOf};
ghost use Rattle.m2_run.specs.Cuts.{bound_of, cuts_at};
ghost use Rattle.m2_run.specs.Kept.{IsOpenedAs};
ghost use Rattle.m2_bytes.specs.Items.{Holding};
ghost use Rattle.m2_dispatch.specs.declared.logged.Logged.{Logged};
ghost use Rattle.m2_node.specs.Handing.{AddsLog, IsLogOf};
ghost use Rattle.m2_node.specs.Lists.{SideBySide};
ghost use Rattle.m2_node.specs.Nodes.{IsServedBy, RunNodeNow};
ghost use Rattle.m2_run.specs.Opened.{AreOpenedNodes, AreRightsTo, EndsCenter, EndsCenters, EndsNext, HasRoomsFor, IsOpenedNode, IsTakenApart, WeighsUp, ended_of, loose_in, untold};
ghost use Rattle.m2_node.specs.m2_links_go_on.Left.{IsSeen};
ghost use Rattle.m2_node.specs.m2_links_go_on.m2_history.Link.{IsWholeHalf};
ghost use Rattle.m2_trail.specs.Arrivals.{LooseNow};
ghost use Rattle.m2_run.specs.Types.{IsCenterOfTypes};

use crate::cuts::open_end;
use crate::ranges::{center_is_of_types, halves_are_of_types};
use m2_bytes::{Items, NoMemory};
use m2_dispatch::{Logged, LoggedList};
use m2_fabric::{Cut, CutList, End, Port, SocketId, SocketIdList};
use m2_handover::{GetPass, Handed, HandedEnd, HomePort, HomeRest, Inboxes, Way, half_inside};
use m2_node::{
    CenterRest, NodeDispatcher, NodeShared, Passes, Record, Rights, RunCenter, RunEnd, RunNode,
    RunPort, clear_centers, clear_nodes, end_records,
};
use m2_shared::{TakePasses, Throttles};
use m2_trail::{Loose, LooseList};
use std::alloc::Global;
use std::marker::Model;
use std::sync::Wait;

/// An end of a thread whose node has these ends of the fabric.
pub type ThreadEnd<E> = RunEnd<HandedEnd<E>>;

/// What is left of an event thread that has ended, but for the halves that no record took: the port of the fabric, where its node
/// was on, and the sockets that its own port made; its records, and what its dispatchers were called with. It can't be dropped,
/// since records can't.
pub struct EndedCenter<'s, P: Port> {
    pub(crate) port: Option<P>,
    pub(crate) made: SocketIdList,
    pub(crate) records: Vec<Record<ThreadEnd<P::End>>>,
    pub(crate) fast: LoggedList,
    pub(crate) queued: LoggedList,
    pub(crate) throttles: &'s Throttles,
    pub(crate) passes: TakePasses,
}

impl<'s, P: Port> Model for EndedCenter<'s, P> {
    ghost use Rattle.std.specs.Option.{option_map};
    ghost use Rattle.m2_dispatch.specs.m2_shared.Gates.{ArePassesOf, places};
    ghost use Rattle.m2_run.specs.Rests.{EndedCenterNow};
    ghost use Rattle.m2_node.specs.m2_script.m2_center.Finishing.{AllOwn};

    ghost Value = { EndedCenterNow };

    ghost view = { λ e. record { port = option_map P.seen e.port; made = e.made.items; records = e.records.items; fast = e.fast.items; queued = e.queued.items } };

    ghost invariant = { λ e. ArePassesOf e.throttles.now e.passes × AllOwn (places e.throttles.now) e.records.items };
}

impl<'s, P: Port> EndedCenter<'s, P> {
    /// The port of the fabric, where its node was on.
    pub fn port(&self) -> Option<&P>
        ensures { option_map (λ p. P.seen p.now) result ≡ self.now.port }
    {
        self.port.as_ref()
    }

    /// The sockets that the thread's port made: those that it opened, and those that it accepted or that were handed to it.
    pub fn made(&self) -> &[SocketId]
        ensures { result.now ≡ self.now.made }
    {
        self.made.as_slice()
    }

    /// Its records.
    pub fn records(&self) -> &[Record<ThreadEnd<P::End>>]
        ensures { result.now ≡ self.now.records }
    {
        self.records.as_slice()
    }

    /// What its dispatcher of fast kinds was called with.
    pub fn fast(&self) -> &[Logged]
        ensures { result.now ≡ self.now.fast }
    {
        self.fast.as_slice()
    }

    /// What the one behind its queue was called with.
    pub fn queued(&self) -> &[Logged]
        ensures { result.now ≡ self.now.queued }
    {
        self.queued.as_slice()
    }
}

/// The halves of a node that no record took: those of its centers, those at its door that weren't asked, and those that were and
/// didn't come to their homes.
#[derive(Drop)]
pub(crate) struct LeftHalves<E: End> {
    pub(crate) opened: Vec<Loose<E>>,
    pub(crate) at_door: Vec<Loose<E>>,
    pub(crate) on_way: Vec<Loose<E>>,
}

impl<E: End> Model for LeftHalves<E> {
    ghost use Rattle.m2_run.specs.Opened.{LeftNow};

    ghost Value = { LeftNow };

    ghost view = { λ l. record { opened = l.opened.items; at_door = l.at_door.items; on_way = l.on_way.items } };
}

/// What is left of a node whose threads have ended: of each of them, the halves that no record took, and the rights to their
/// inboxes. It can't be dropped, since records can't.
pub(crate) struct Opened<'s, P: Port> {
    pub(crate) centers: Vec<EndedCenter<'s, P>>,
    pub(crate) left: LeftHalves<P::End>,
    pub(crate) rights: Rights<P::End>,
}

impl<'s, P: Port> Model for Opened<'s, P> {
    ghost use Rattle.m2_run.specs.Opened.{OpenedNow};

    ghost Value = { OpenedNow };

    ghost view = { λ o. record { centers = o.centers.items; left = o.left; puts = o.rights.puts.items; gets = o.rights.gets.items } };
}

/// Ends all nodes, and puts what the dispatcher of each was called with last among these logs. `cuts` has those of the sockets that
/// each node opened. Err is want of memory; they are ended then too.
pub(crate) fn end_all<'s, P: Port, R: Wait + Copy, B: Inboxes<P::End>>(
    alloc: Global,
    cuts: &[CutList],
    mut all: Vec<RunNode<'s, HomePort<'_, P, R, B>>>,
    logs: &mut Vec<LoggedList>,
) -> Result<Vec<Opened<'s, P>>, NoMemory>
    requires cuts { length cuts.now ≡ length all.items }
    requires logs { logs.old.items ≡ [] }
    ensures ends { IfOk result (λ ends. AreOpenedNodes (cuts_at cuts.now) all.entry.items ends.items) }
    ensures rooms { IfOk result (λ ends. HasRoomsFor (slice_get B.inboxes) 0 ends.items) }
    ensures types { IfOk result (λ _. AllByRecursion (λ (n : RunNodeNow). AllByRecursion IsCenterOfTypes n.centers) all.entry.items) }
    ensures logs { OnOk result (SideBySide IsLogOf all.entry.items logs.new.items) }
{
    let mut ends = Vec::new(alloc);
    if ends.reserve(all.len()).is_err() {
        ends.destroy_empty();
        clear_nodes(all);
        return Err(NoMemory);
    }
    all.reverse();
    let mut number: usize = 0;
    'nodes: while let Some(node) = all.pop() {
        let place = ends.len();
        match end_next(alloc, cuts[place].as_slice(), node, number, &mut ends, logs) {
            Ok(behind) => number = behind,
            Err(NoMemory) => {
                clear_nodes(all);
                throw_away_opened(ends);
                return Err(NoMemory);
            }
        }
    }
    all.destroy_empty();
    Ok(ends)
}

/// Ends one, the first of whose threads has this number, and puts what is left of it last, for which there is room. Gives the
/// number of the next thread.
fn end_next<'s, P: Port, R: Wait + Copy, B: Inboxes<P::End>>(
    alloc: Global,
    cuts: &[Cut],
    node: RunNode<'s, HomePort<'_, P, R, B>>,
    number: usize,
    ends: &mut Vec<Opened<'s, P>>,
    logs: &mut Vec<LoggedList>,
) -> Result<usize, NoMemory>
    requires { vec_len ends.old < vec_capacity ends.old }
    ensures ends { IfOk result (λ behind. EndsNext cuts.now (slice_get B.inboxes) number node.entry ends.old.items behind ends.new.items) }
    ensures types { OnOk result (AllByRecursion IsCenterOfTypes node.entry.centers) }
    ensures log { OnOk result (AddsLog node.entry logs.old.items logs.new.items) }
    ensures len { OnOk result (vec_len ends.new ≡ vec_len ends.old + 1) }
    ensures capacity { OnOk result (vec_capacity ends.new ≡ vec_capacity ends.old) }
{
    let ended = end_node(alloc, cuts, node, number, logs)?;
    let Some(behind) = number.checked_add(ended.rights.gets.len()) else {
        throw_away_one(ended);
        return Err(NoMemory);
    };
    ends.push_reserved(ended);
    Ok(behind)
}

/// Ends one, the first of whose threads has this number, if it is on.
fn end_node<'s, P: Port, R: Wait + Copy, B: Inboxes<P::End>>(
    alloc: Global,
    cuts: &[Cut],
    node: RunNode<'s, HomePort<'_, P, R, B>>,
    number: usize,
    logs: &mut Vec<LoggedList>,
) -> Result<Opened<'s, P>, NoMemory>
    ensures end { IfOk result (λ o. IsOpenedNode cuts.now node.entry o) }
    ensures weighs { IfOk result (λ o. WeighsUp o) }
    ensures rights { IfOk result (λ o. AreRightsTo (slice_get B.inboxes) number o) }
    ensures types { IfOk result (λ _. AllByRecursion IsCenterOfTypes node.entry.centers) }
    ensures log { OnOk result (AddsLog node.entry logs.old.items logs.new.items) }
{
    let (centers, shared, dispatcher) = node.into_parts();
    if let Err(NoMemory) = end_dispatcher(dispatcher, logs) {
        clear_centers(centers, shared);
        return Err(NoMemory);
    }
    let mut ended = Opened {
        centers: Vec::new(alloc),
        left: LeftHalves {
            opened: Vec::new(alloc),
            at_door: Vec::new(alloc),
            on_way: Vec::new(alloc),
        },
        rights: Rights {
            puts: Vec::new(alloc),
            gets: Vec::new(alloc),
        },
    };
    match end_centers(alloc, cuts, centers, shared, &mut ended, number) {
        Ok(()) => Ok(ended),
        Err(NoMemory) => {
            throw_away_one(ended);
            Err(NoMemory)
        }
    }
}

/// Ends its dispatcher, and puts what that was called with last. Err is want of memory, or that the dispatcher lacked some.
fn end_dispatcher(
    dispatcher: NodeDispatcher<'_>,
    logs: &mut Vec<LoggedList>,
) -> Result<(), NoMemory>
    ensures lasted { OnOk result (dispatcher.entry.lost ≡ false) }
    ensures log { OnOk result ((log : Holding Logged) × (log.items ≡ dispatcher.entry.log) × (logs.new.items ≡ logs.old.items ++ log ∷ [])) }
{
    let is_lost = dispatcher.is_lost();
    let log = dispatcher.into_log();
    if is_lost {
        return Err(NoMemory);
    }
    logs.push(log)?;
    Ok(())
}

/// Ends these centers of one.
fn end_centers<'s, P: Port, R: Wait + Copy, B: Inboxes<P::End>>(
    alloc: Global,
    cuts: &[Cut],
    mut centers: Vec<RunCenter<HomePort<'_, P, R, B>>>,
    shared: &'s NodeShared,
    ended: &mut Opened<'s, P>,
    number: usize,
) -> Result<(), NoMemory>
    requires { AllByRecursion (IsServedBy shared.now.numbers shared.now.throttles) centers.items }
    ensures ends { OnOk result (EndsCenters cuts.now (slice_get B.inboxes) number centers.entry.items ended.old ended.new) }
    ensures types { OnOk result (AllByRecursion IsCenterOfTypes centers.entry.items) }
{
    if ended.centers.reserve(centers.len()).is_err() {
        clear_centers(centers, shared);
        return Err(NoMemory);
    }
    centers.reverse();
    'centers: while let Some(center) = centers.pop() {
        let left = &mut ended.left;
        let rights = &mut ended.rights;
        match end_center(alloc, cuts, center, shared, left, rights, number) {
            Ok(left) => ended.centers.push_reserved(left),
            Err(NoMemory) => {
                clear_centers(centers, shared);
                return Err(NoMemory);
            }
        }
    }
    centers.destroy_empty();
    Ok(())
}

/// Ends one center.
fn end_center<'s, P: Port, R: Wait + Copy, B: Inboxes<P::End>>(
    alloc: Global,
    cuts: &[Cut],
    center: RunCenter<HomePort<'_, P, R, B>>,
    shared: &'s NodeShared,
    left: &mut LeftHalves<P::End>,
    rights: &mut Rights<P::End>,
    number: usize,
) -> Result<EndedCenter<'s, P>, NoMemory>
    requires { IsServedBy shared.now.numbers shared.now.throttles center }
    ensures ends { IfOk result (λ d. EndsCenter cuts.now (slice_get B.inboxes) number center.entry d
        (record { left = left.old; puts = rights.old.puts.items; gets = rights.old.gets.items })
        (record { left = left.new; puts = rights.new.puts.items; gets = rights.new.gets.items })) }
    ensures types { IsCenterOfTypes center.entry }
{
    center_is_of_types(&center);
    let CenterRest {
        port,
        records,
        loose,
        out,
        queued,
        passes,
    } = center.finished();
    let Passes {
        numbers: _,
        throttles: mut own,
    } = passes;
    let fast = out.clear(&shared.throttles, &mut own).into_log();
    let queued = queued.finish(&shared.throttles, &mut own).into_log();
    match end_sockets(alloc, cuts, port, loose, left, rights, number) {
        Err(NoMemory) => {
            end_records(records, &shared.throttles, &mut own);
            Err(NoMemory)
        }
        Ok(EndedPort { port, made }) => Ok(EndedCenter {
            port,
            made,
            records,
            fast,
            queued,
            throttles: &shared.throttles,
            passes: own,
        }),
    }
}

/// The port of the fabric that is left of a thread's port, where its node was on, and the sockets that the thread's port made.
#[derive(Drop)]
struct EndedPort<P: Port> {
    port: Option<P>,
    made: SocketIdList,
}

/// Takes the port of a thread apart, and opens its halves that no record took.
fn end_sockets<P: Port, R: Wait + Copy, B: Inboxes<P::End>>(
    alloc: Global,
    cuts: &[Cut],
    port: RunPort<HomePort<'_, P, R, B>>,
    loose: LooseList<ThreadEnd<P::End>>,
    left: &mut LeftHalves<P::End>,
    rights: &mut Rights<P::End>,
    number: usize,
) -> Result<EndedPort<P>, NoMemory>
    ensures made { IfOk result (λ e. e.made.items ≡ (seen_port port.entry).made) }
    ensures inside { IfOk result (λ e. IsInside (seen_port port.entry) (option_map P.seen e.port)) }
    ensures opened { IfOk result (λ e. (opened : List LooseNow) × (left.new.opened ≡ left.old.opened ++ opened) × SideBySide (IsOpenedAs (bound_of cuts.now (seen_port port.entry).made)) loose.items opened) }
    ensures apart { IfOk result (λ e. IsTakenApart (slice_get B.inboxes) number (option_map P.seen e.port) e.made.items
        (record { left = left.old; puts = rights.old.puts.items; gets = rights.old.gets.items })
        (record { left = record left.new { opened = left.old.opened }; puts = rights.new.puts.items; gets = rights.new.gets.items })) }
{
    let ended = end_port_of(alloc, port, left, rights, number)?;
    open_halves(loose, cuts, ended.made.as_slice(), &mut left.opened)?;
    Ok(ended)
}

/// Takes the port of a thread apart.
fn end_port_of<P: Port, R: Wait + Copy, B: Inboxes<P::End>>(
    alloc: Global,
    port: RunPort<HomePort<'_, P, R, B>>,
    left: &mut LeftHalves<P::End>,
    rights: &mut Rights<P::End>,
    number: usize,
) -> Result<EndedPort<P>, NoMemory>
    ensures made { IfOk result (λ e. e.made.items ≡ (seen_port port.entry).made) }
    ensures inside { IfOk result (λ e. IsInside (seen_port port.entry) (option_map P.seen e.port)) }
    ensures apart { IfOk result (λ e. IsTakenApart (slice_get B.inboxes) number (option_map P.seen e.port) e.made.items
        (record { left = left.old; puts = rights.old.puts.items; gets = rights.old.gets.items })
        (record { left = left.new; puts = rights.new.puts.items; gets = rights.new.gets.items })) }
{
    match port.into_port() {
        Some(port) => end_port(port.into_port(), left, rights, number),
        None => Ok(EndedPort {
            port: None,
            made: Items::empty(alloc),
        }),
    }
}

/// The same of one of a node that is on.
fn end_port<P: Port, R: Wait + Copy, B: Inboxes<P::End>>(
    port: HomePort<'_, P, R, B>,
    left: &mut LeftHalves<P::End>,
    rights: &mut Rights<P::End>,
    first: usize,
) -> Result<EndedPort<P>, NoMemory>
    ensures made { IfOk result (λ e. e.made.items ≡ port.entry.made) }
    ensures inside { IfOk result (λ e. IsInside (shown port.entry) (option_map P.seen e.port)) }
    ensures apart { IfOk result (λ e. IsTakenApart (slice_get B.inboxes) first (option_map P.seen e.port) e.made.items
        (record { left = left.old; puts = rights.old.puts.items; gets = rights.old.gets.items })
        (record { left = left.new; puts = rights.new.puts.items; gets = rights.new.gets.items })) }
{
    let HomeRest {
        port,
        made,
        at_door,
        on_way,
        number,
        pass,
        ways,
    } = port.into_rest()?;
    move_halves(at_door, &mut left.at_door)?;
    move_halves(on_way, &mut left.on_way)?;
    keep_get(rights, first, number, pass)?;
    'ways: for way in ways {
        keep_put(rights, first, way)?;
    }
    Ok(EndedPort {
        port: Some(port),
        made,
    })
}

/// The right to take out of the inbox with this number goes last, where it is the next one of those from the first on. Err is want
/// of memory: the threads end in the order of their numbers.
fn keep_get<E: End>(
    rights: &mut Rights<E>,
    first: usize,
    number: u32,
    pass: GetPass<Handed<E>>,
) -> Result<(), NoMemory>
    ensures gets { OnOk result (rights.new.gets.items ≡ rights.old.gets.items ++ pass ∷ []) }
    ensures puts { rights.new.puts.items ≡ rights.old.puts.items }
    ensures number { OnOk result (number ≡ first + length rights.old.gets.items) }
{
    if number as usize != first.saturating_add(rights.gets.len()) {
        return Err(NoMemory);
    }
    rights.gets.push(pass)?;
    Ok(())
}

/// The same of the right to put.
fn keep_put<E: End, B: Inboxes<E>>(
    rights: &mut Rights<E>,
    first: usize,
    way: Way<E, B>,
) -> Result<(), NoMemory>
    ensures puts { OnOk result ((pass : PutPass OnItsWay HomeOf) × (rights.new.puts.items ≡ rights.old.puts.items ++ pass ∷ []) × (puts_of pass ≡ way.put) × (parts_of pass ≡ all_parts) × IsOfNamed (λ inbox. IsPutPassOf inbox pass) (slice_get B.inboxes (first + length rights.old.puts.items))) }
    ensures gets { rights.new.gets.items ≡ rights.old.gets.items }
{
    let (number, pass) = way.into_pass();
    if number as usize != first.saturating_add(rights.puts.len()) {
        return Err(NoMemory);
    }
    rights.puts.push(pass)?;
    Ok(())
}

/// Moves halves behind others.
fn move_halves<E: End>(from: LooseList<E>, into: &mut Vec<Loose<E>>) -> Result<(), NoMemory>
    ensures { OnOk result (into.new.items ≡ into.old.items ++ from.items) }
{
    'halves: for half in from.into_vec() {
        into.push(half)?;
    }
    Ok(())
}

/// Opens these halves, and puts them last.
fn open_halves<E: End>(
    loose: LooseList<ThreadEnd<E>>,
    cuts: &[Cut],
    made: &[SocketId],
    into: &mut Vec<Loose<E>>,
) -> Result<(), NoMemory>
    ensures { OnOk result ((opened : List LooseNow) × (into.new.items ≡ into.old.items ++ opened) × SideBySide (IsOpenedAs (bound_of cuts.now made.now)) loose.items opened) }
{
    'halves: for half in loose.into_vec() {
        into.push(open_half(half, cuts, made)?)?;
    }
    Ok(())
}

/// A half that no record took, as one of the fabric's end. Err is want of memory: the end of a half in a center is that of a
/// socket that the center's port accepted.
fn open_half<E: End>(
    half: Loose<ThreadEnd<E>>,
    cuts: &[Cut],
    made: &[SocketId],
) -> Result<Loose<E>, NoMemory>
    ensures { IfOk result (λ opened. IsOpenedAs (bound_of cuts.now made.now) half opened) }
{
    let (end, trail) = half.into_parts();
    let Some(end) = end.into_cut() else {
        return Err(NoMemory);
    };
    half_inside(Loose::new(open_end(end, cuts, made)?, trail))
}

/// What is left of a node but for its halves, of which it has the number.
pub struct Ended<'s, P: Port> {
    pub(crate) centers: Vec<EndedCenter<'s, P>>,
    pub(crate) halves: usize,
}

impl<'s, P: Port> Model for Ended<'s, P> {
    ghost use Rattle.m2_run.specs.Rests.{EndedNow};

    ghost Value = { EndedNow };

    ghost view = { λ e. record { centers = e.centers.items; halves = e.halves } };
}

impl<'s, P: Port> Ended<'s, P> {
    /// Its threads, in order.
    pub fn centers(&self) -> &[EndedCenter<'s, P>]
        ensures { result.now ≡ self.now.centers }
    {
        self.centers.as_slice()
    }

    /// How many halves it left that no record took.
    pub fn halves(&self) -> usize
        ensures { result ≡ self.now.halves }
    {
        self.halves
    }
}

/// What is left of each node, in order, and the halves that no record took, of all of them, those of the last node first.
pub(crate) struct AllEnded<'s, P: Port> {
    pub(crate) ends: Vec<Ended<'s, P>>,
    pub(crate) loose: LooseList<ThreadEnd<P::End>>,
}

/// Puts the halves of all nodes into one list. Err is want of memory; what is left of the nodes is thrown away then.
pub(crate) fn join_halves<'s, P: Port>(
    alloc: Global,
    mut all: Vec<Opened<'s, P>>,
) -> Result<AllEnded<'s, P>, NoMemory>
    ensures ends { IfOk result (λ r. r.ends.items ≡ map ended_of all.entry.items) }
    ensures loose { IfOk result (λ r. r.loose.items ≡ loose_in all.entry.items) }
    ensures types { IfOk result (λ r. AllByRecursion IsWholeHalf r.loose.items × AllByRecursion IsSeen r.loose.items) }
{
    let mut ends = Vec::new(alloc);
    if ends.reserve(all.len()).is_err() {
        ends.destroy_empty();
        throw_away_opened(all);
        return Err(NoMemory);
    }
    let mut loose = Vec::new(alloc);
    let mut moved = Ok(());
    'nodes: while let Some(node) = all.pop() {
        let Opened {
            centers,
            left,
            rights: _,
        } = node;
        let before = loose.len();
        moved = leave_halves(moved, left, &mut loose);
        ends.push_reserved(Ended {
            centers,
            halves: loose.len().saturating_sub(before),
        });
    }
    all.destroy_empty();
    match moved {
        Err(NoMemory) => {
            throw_away_ends(ends);
            Err(NoMemory)
        }
        Ok(()) => {
            halves_are_of_types(loose.as_slice());
            ends.reverse();
            Ok(AllEnded {
                ends,
                loose: Items::from_vec(loose),
            })
        }
    }
}

/// The halves of a node go behind these, where memory lasted so far.
fn leave_halves<E: End>(
    moved: Result<(), NoMemory>,
    left: LeftHalves<E>,
    into: &mut Vec<Loose<ThreadEnd<E>>>,
) -> Result<(), NoMemory>
    ensures moves { OnOk result (into.new.items ≡ into.old.items ++ map untold (left.opened ++ left.at_door ++ left.on_way)) }
    ensures before { OnOk result (moved ≡ result) }
{
    moved?;
    let LeftHalves {
        opened,
        at_door,
        on_way,
    } = left;
    leave_each(opened, into)?;
    leave_each(at_door, into)?;
    leave_each(on_way, into)
}

/// The same of these.
fn leave_each<E: End>(
    from: Vec<Loose<E>>,
    into: &mut Vec<Loose<ThreadEnd<E>>>,
) -> Result<(), NoMemory>
    ensures { OnOk result (into.new.items ≡ into.old.items ++ map untold from.items) }
{
    'halves: for half in from {
        let (end, trail) = half.into_parts();
        into.push(Loose::new(RunEnd::left(HandedEnd::own(end)), trail))?;
    }
    Ok(())
}

/// Throws away what is left of nodes.
pub(crate) fn throw_away_opened<P: Port>(mut all: Vec<Opened<'_, P>>) {
    'nodes: while let Some(opened) = all.pop() {
        throw_away_one(opened);
    }
    all.destroy_empty();
}

/// The same of one.
fn throw_away_one<P: Port>(opened: Opened<'_, P>) {
    let Opened {
        centers,
        left: _,
        rights: _,
    } = opened;
    throw_away_centers(centers);
}

/// And of nodes whose halves are joined.
pub(crate) fn throw_away_ends<P: Port>(mut ends: Vec<Ended<'_, P>>) {
    'nodes: while let Some(ended) = ends.pop() {
        let Ended { centers, halves: _ } = ended;
        throw_away_centers(centers);
    }
    ends.destroy_empty();
}

/// And of centers.
pub(crate) fn throw_away_centers<P: Port>(mut centers: Vec<EndedCenter<'_, P>>) {
    'centers: while let Some(center) = centers.pop() {
        let EndedCenter {
            port: _,
            made: _,
            records,
            fast: _,
            queued: _,
            throttles,
            mut passes,
        } = center;
        end_records(records, throttles, &mut passes);
    }
    centers.destroy_empty();
}
