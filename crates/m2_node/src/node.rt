//! A node of a run: the centers of its event threads, and what they share.

ghost use Rattle.std.specs.Prelude.{◌≡◌, ◌-◌, ◌≤◌, [], IfOk, OnOk, vec_capacity, vec_len};
ghost use Rattle.std.specs.List.{AllByRecursion, flat_map};
ghost use Rattle.std.specs.Option.{option_map};
ghost use Rattle.m2_script.specs.m2_center.Finishing.{AllOwn};
ghost use Rattle.m2_script.specs.m2_center.Reaching.{ends_in};
ghost use Rattle.m2_fabric.specs.End.{SeenEnd};
ghost use Rattle.m2_fabric.specs.Log.{log_of};
ghost use Rattle.m2_links_go_on.specs.ClusterTold.{OneByOne};
ghost use Rattle.m2_script.specs.m2_record.Sources.{end_at};
ghost use Rattle.m2_dispatch.specs.Heard.{heard_by};
ghost use Rattle.m2_dispatch.specs.m2_shared.Gates.{ArePassesOf, AreShared, pass_places, places};
ghost use Rattle.m2_script.specs.m2_center.m2_turn.HandingOn.{HandsOn};
ghost use Rattle.m2_node.specs.Handing.{IsDispatched};
ghost use Rattle.m2_node.specs.Nodes.{IsServedBy, ends_of_node};
ghost use Rattle.m2_node.specs.Way.{NodePollsSo, NodeTurnsSo, PollsSo, TurnsSo};
ghost use Rattle.m2_node.specs.declared.end.RunEnd.{RunEnd};

use crate::dispatcher::NodeDispatcher;
use crate::mails::dispatch_all;
use crate::port::RunPort;
use m2_bytes::NoMemory;
use m2_dispatch::{LogDispatcher, Parcel};
use m2_fabric::{End, EndLog, Port, SocketId};
use m2_script::{Center, CenterRest, CenterTurn, NodeShared, Passes, Record};
use m2_shared::{TakePasses, Throttles};
use std::alloc::Global;
use std::collections::VecDeque;
use std::marker::Model;
use std::sync::Condvar;

/// The center of an event thread, whose dispatchers log.
pub type RunCenter<P> = Center<RunPort<P>, LogDispatcher>;

/// What the event threads of a node share. It can't be dropped, since a throttle can't.
pub struct Shares {
    pub(crate) shared: NodeShared,
    /// Told where something may have been given back to a throttle, or a mail may have room again, for which event threads wait.
    /// No clause says anything of it.
    pub(crate) given: Condvar,
    /// Told where an event thread has put something into its mail, for which the dispatcher's thread waits. Nor of this.
    pub(crate) posted: Condvar,
}

impl Model for Shares {
    ghost use Rattle.m2_node.specs.Sharing.{ShareNow};

    ghost Value = { ShareNow };

    ghost view = { λ s. record { numbers = s.shared.numbers; throttles = s.shared.throttles } };
}

impl Shares {
    /// What they are.
    pub(crate) fn shared(&self) -> &NodeShared
        ensures numbers { result.now.numbers ≡ self.now.numbers }
        ensures throttles { result.now.throttles ≡ self.now.throttles }
    {
        &self.shared
    }
}

/// A node whose threads have ended: the centers of its event threads, in order, what they share, and its dispatcher, which was
/// called with what the centers have handed on, each center's in order. It can't be dropped, since centers can't.
pub struct RunNode<'s, P: Port> {
    centers: Vec<RunCenter<P>>,
    shared: &'s NodeShared,
    dispatcher: NodeDispatcher<'s>,
}

impl<'s, P: Port> Model for RunNode<'s, P> {
    ghost use Rattle.m2_dispatch.specs.m2_shared.Gates.{places};
    ghost use Rattle.m2_node.specs.Handing.{IsDispatched};
    ghost use Rattle.m2_node.specs.Nodes.{IsRunNode, RunNodeNow};

    ghost Value = { RunNodeNow };

    ghost view = { λ n. record { centers = n.centers.items; numbers = n.shared.now.numbers; throttles = n.shared.now.throttles } };

    ghost invariant = { λ n. IsRunNode (record { centers = n.centers.items; numbers = n.shared.now.numbers; throttles = n.shared.now.throttles })
        × IsDispatched n.shared.now.throttles n.centers.items n.dispatcher };
}

impl<'s, P: Port> RunNode<'s, P> {
    /// A node of these centers, whose passes are to what they share, and of this dispatcher.
    pub(crate) fn new(
        centers: Vec<RunCenter<P>>,
        shared: &'s NodeShared,
        dispatcher: NodeDispatcher<'s>,
    ) -> RunNode<'s, P>
        requires served { AllByRecursion (IsServedBy shared.now.numbers shared.now.throttles) centers.items }
        requires dispatched { IsDispatched shared.now.throttles centers.items dispatcher }
        ensures { result ≡ record { centers = centers.items; numbers = shared.now.numbers; throttles = shared.now.throttles } }
    {
        RunNode {
            centers,
            shared,
            dispatcher,
        }
    }

    /// Its centers, in order.
    pub fn centers(&self) -> &[RunCenter<P>]
        ensures { result.now ≡ self.now.centers }
    {
        self.centers.as_slice()
    }

    /// Its centers, what they share, and its dispatcher.
    pub fn into_parts(self) -> (Vec<RunCenter<P>>, &'s NodeShared, NodeDispatcher<'s>)
        ensures centers { result.0.items ≡ self.entry.centers }
        ensures shared_numbers { result.1.now.numbers ≡ self.entry.numbers }
        ensures shared_throttles { result.1.now.throttles ≡ self.entry.throttles }
        ensures served { AllByRecursion (IsServedBy self.entry.numbers self.entry.throttles) self.entry.centers }
        ensures dispatched { IsDispatched self.entry.throttles self.entry.centers result.2 }
    {
        let RunNode {
            centers,
            shared,
            dispatcher,
        } = self;
        (centers, shared, dispatcher)
    }

    /// Each of its centers takes a turn at this moment, one after another, and what they hand on is dispatched. Err is want of
    /// memory.
    pub fn turn(&mut self, alloc: Global, now: u64) -> Result<(), NoMemory>
        ensures { OnOk result (NodeTurnsSo (RunEnd P.End) now self.old self.new) }
    {
        turn_each(
            alloc,
            &mut self.centers,
            self.shared,
            &mut self.dispatcher,
            now,
        )
    }

    /// Each of its centers waits at its port for a millisecond.
    pub fn poll(&mut self)
        ensures { NodePollsSo self.old self.new }
    {
        poll_each(&mut self.centers, self.shared);
    }

    /// What its end of that socket did; none exactly where none of its centers has one.
    pub fn log(&self, id: &SocketId) -> Option<&EndLog>
        ensures { option_map (λ log. log_of log.now) result ≡ option_map (λ (e : SeenEnd). e.log) (end_at (ends_of_node self.now) id.now) }
    {
        log_in(self.centers(), id)
    }
}

/// Each of these centers takes a turn, and what it hands on is dispatched.
fn turn_each<P: Port>(
    alloc: Global,
    centers: &mut Vec<RunCenter<P>>,
    shared: &NodeShared,
    dispatcher: &mut NodeDispatcher<'_>,
    now: u64,
) -> Result<(), NoMemory>
    requires served { AllByRecursion (IsServedBy shared.now.numbers shared.now.throttles) centers.old.items }
    requires dispatched { IsDispatched shared.now.throttles centers.old.items dispatcher.old }
    ensures turns { OnOk result (OneByOne (TurnsSo (RunEnd P.End) now shared.now.numbers shared.now.throttles) centers.old.items centers.new.items) }
    ensures served { AllByRecursion (IsServedBy shared.now.numbers shared.now.throttles) centers.new.items }
    ensures dispatched { IsDispatched shared.now.throttles centers.new.items dispatcher.new }
{
    let mut parcels = VecDeque::new(alloc);
    let mut turned = Ok(());
    'centers: for j in 0..centers.len() {
        let turn = turn_center(&mut centers[j], shared, now, &mut parcels);
        dispatch_all(&mut parcels, dispatcher);
        if turn.memory().is_err() || dispatcher.is_lost() {
            turned = Err(NoMemory);
        }
    }
    parcels.destroy_empty();
    turned
}

/// Each of these centers waits at its port.
fn poll_each<P: Port>(centers: &mut Vec<RunCenter<P>>, shared: &NodeShared)
    requires { AllByRecursion (IsServedBy shared.now.numbers shared.now.throttles) centers.old.items }
    ensures polls { OneByOne PollsSo centers.old.items centers.new.items }
    ensures served { AllByRecursion (IsServedBy shared.now.numbers shared.now.throttles) centers.new.items }
{
    'centers: for j in 0..centers.len() {
        let _ = centers[j].poll(1);
    }
}

/// What the first end of that socket did that one of these centers has.
fn log_in<'a, P: Port>(centers: &'a [RunCenter<P>], id: &SocketId) -> Option<&'a EndLog>
    ensures { option_map (λ log. log_of log.now) result ≡ option_map (λ (e : SeenEnd). e.log) (end_at (flat_map ends_in centers.now) id.now) }
{
    'centers: for center in centers {
        if let Some(log) = center.log(id) {
            return Some(log);
        }
    }
    None
}

/// A turn of a center at this moment. What it hands on goes last among these parcels.
pub(crate) fn turn_center<P: Port>(
    center: &mut RunCenter<P>,
    shared: &NodeShared,
    now: u64,
    into: &mut VecDeque<Parcel>,
) -> CenterTurn
    requires numbers { center.old.numbers.place ≡ shared.now.numbers.place }
    requires throttles { pass_places center.old.bytes ≡ places shared.now.throttles }
    requires shared { AreShared shared.now.throttles }
    ensures on { HandsOn heard_by (places shared.now.throttles) center.old.queued.inner center.new.queued.inner into.old.items into.new.items }
    ensures turns { TurnsSo (RunEnd P.End) now shared.now.numbers shared.now.throttles center.old center.new }
    ensures numbers { center.new.numbers.place ≡ center.old.numbers.place }
    ensures throttles { pass_places center.new.bytes ≡ pass_places center.old.bytes }
{
    center.is_center();
    let turn = center.turn_on(shared, now, into);
    center.is_center();
    turn
}

/// No nodes, and room for so many.
pub(crate) fn room_for_nodes<'s, P: Port>(
    alloc: Global,
    count: usize,
) -> Result<Vec<RunNode<'s, P>>, NoMemory>
    ensures none { IfOk result (λ nodes. nodes.items ≡ []) }
    ensures room { IfOk result (λ nodes. count ≤ vec_capacity nodes - vec_len nodes) }
{
    let mut nodes = Vec::new(alloc);
    match nodes.reserve(count) {
        Ok(()) => Ok(nodes),
        Err(_) => {
            nodes.destroy_empty();
            Err(NoMemory)
        }
    }
}

/// No centers, and room for so many.
pub(crate) fn room_for_centers<P: Port>(
    alloc: Global,
    count: usize,
) -> Result<Vec<RunCenter<P>>, NoMemory>
    ensures none { IfOk result (λ centers. centers.items ≡ []) }
    ensures room { IfOk result (λ centers. count ≤ vec_capacity centers - vec_len centers) }
{
    let mut centers = Vec::new(alloc);
    match centers.reserve(count) {
        Ok(()) => Ok(centers),
        Err(_) => {
            centers.destroy_empty();
            Err(NoMemory)
        }
    }
}

/// Throws away these nodes, with what they hold.
pub fn clear_nodes<P: Port>(mut nodes: Vec<RunNode<'_, P>>) {
    'nodes: while let Some(node) = nodes.pop() {
        let (centers, shared, dispatcher) = node.into_parts();
        let _log = dispatcher.into_log();
        clear_centers(centers, shared);
    }
    nodes.destroy_empty();
}

/// Throws away these centers, whose passes are to what they share.
pub fn clear_centers<P: Port>(mut centers: Vec<RunCenter<P>>, shared: &NodeShared)
    requires { AllByRecursion (IsServedBy shared.now.numbers shared.now.throttles) centers.items }
{
    'centers: while let Some(center) = centers.pop() {
        let _passes = clear_center(center, shared);
    }
    centers.destroy_empty();
}

/// Throws away a center, whose passes are to what it shares, and gives those to the throttles.
pub(crate) fn clear_center<P: Port>(center: RunCenter<P>, shared: &NodeShared) -> TakePasses
    requires { IsServedBy shared.now.numbers shared.now.throttles center }
    ensures { ArePassesOf shared.now.throttles result }
{
    let CenterRest {
        port: _,
        records,
        loose: _,
        out,
        queued,
        passes,
    } = center.finished();
    let Passes {
        numbers: _,
        throttles: mut own,
    } = passes;
    end_records(records, &shared.throttles, &mut own);
    let _fast = out.clear(&shared.throttles, &mut own);
    let _queued = queued.finish(&shared.throttles, &mut own);
    own
}

/// Ends these records, which give back what they hold.
pub fn end_records<E: End>(
    mut records: Vec<Record<E>>,
    throttles: &Throttles,
    passes: &mut TakePasses,
)
    requires passes { ArePassesOf throttles.now passes.old }
    requires owned { AllOwn (places throttles.now) records.items }
    ensures { ArePassesOf throttles.now passes.new }
{
    'records: while let Some(side) = records.pop() {
        let _ends = side.ends(throttles, passes);
    }
    records.destroy_empty();
}

/// Throws away what the threads of nodes share, where nobody has passes to it any more.
pub fn clear_shares(mut shares: Vec<Shares>) {
    'nodes: while let Some(share) = shares.pop() {
        let Shares {
            shared,
            given: _,
            posted: _,
        } = share;
        let NodeShared {
            numbers: _,
            throttles: _,
        } = shared;
    }
    shares.destroy_empty();
}
