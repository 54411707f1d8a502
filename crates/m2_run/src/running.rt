//! A run.

ghost use Rattle.std.specs.Prelude.{◌≡◌, ◌<◌, ◌≤◌, ◌^◌, ◌⊎◌, IfErr, IfOk, List, [], ℕ, length, map, slice_get};
ghost use Rattle.std.specs.Bool.{OnTrue};
ghost use Rattle.std.specs.List.{AllByRecursion};
ghost use Rattle.m2_node.specs.Begins.{AreDoorsOf};
ghost use Rattle.m2_run.specs.Cuts.{AreCutsOf, cuts_at};
ghost use Rattle.m2_node.specs.Handing.{AreBoth, HasHandedNothing, IsLogOf};
ghost use Rattle.m2_run.specs.Listening.{IsListeningFault};
ghost use Rattle.m2_node.specs.Lists.{SideBySide};
ghost use Rattle.m2_node.specs.Nodes.{RunNodeNow};
ghost use Rattle.m2_run.specs.Opened.{AreOpenedNodes, HasRoomsFor, OpenedNow, made_of_all};
ghost use Rattle.m2_run.specs.Settling.{HasPlayed, HasStopped};
ghost use Rattle.m2_run.specs.declared.outcome.RunFault.TheVariants as faults;
ghost use Rattle.m2_run.specs.Ran.{AreLeftBy, EndsInFault, HasFinished, HasRan, IsFaultOf, ShowsEnd, ShowsFault, fault_told};
ghost use Rattle.m2_run.specs.Rests.{shown_of};
ghost use Rattle.m2_node.specs.Rooms.{AreRoomsOf, homes_of};
ghost use Rattle.m2_node.specs.Sharing.{AreRights, AreSharesOf, IsShare};
ghost use Rattle.m2_run.specs.Still.{IsAtRest};
ghost use Rattle.m2_run.specs.Types.{IsCenterOfTypes};
ghost use Rattle.m2_node.specs.Way.{AreOut, ArePortsOut};
ghost use Rattle.m2_node.specs.Working.{AreWorkersOf, nodes_of_workers};
ghost use Rattle.m2_scenario.specs.Draft.{draft_line};
ghost use Rattle.m2_scenario.specs.Valid.{IsSound};
ghost use Rattle.m2_scenario.specs.declared.limits.TheConstants.{MOST_NODES};

use crate::beginning::{Begun, begin};
use crate::cuts::cuts_of_all;
use crate::ending::{AllEnded, Opened, end_all, throw_away_opened};
use crate::gathering::{both_logs, gather_all};
use crate::inboxes::close_all;
use crate::observing::{Observer, join_seen};
use crate::once::each_once;
use crate::outcome::{Outcome, RunFault};
use crate::resting::all_rest;
use crate::settling::{Settled, settle};
use crate::weaving::weave_all;
use m2_bytes::NoMemory;
use m2_dispatch::{LogDispatcher, LoggedList};
use m2_edge::{Clock, Gate, Words};
use m2_fabric::{CutList, End, Fabric, Port};
use m2_handover::{HomePort, InboxNames, Inboxes, LentInboxes};
use m2_node::{
    Doors, FirstPasses, Joined, Rooms, RunNode, Shared, Shares, Signs, WeaveFault,
    centers_run_their_course, clear_nodes, clear_shares, join_all, let_inboxes_go, let_rooms_go,
    posts_that_count, rights_of, rooms_of, shared_by, work_out,
};
use m2_scenario::{Line, LineList, Link, LogsList, Node};
use m2_shared::TakePasses;
use std::alloc::Global;
use std::marker::Brand;
use std::sync::Wait;
use std::sync::atomic::AtomicBool;
use std::thread::Threads;

/// Runs the nodes of a valid scenario on threads, over the ports of a fabric, until every post of its lossless links that
/// stay up was dispatched, or until all is still and nothing productive happened for `limit` milliseconds. Each node has as many
/// threads as the scenario says.
///
/// The observer sees the nodes when they have ended, once: with Ok and with Unfit it has seen what is left of the nodes of the run
/// that the answer tells. With Bind it is as it was; with NoMemory it is so, or has seen what nodes left.
pub fn run<R, F, C, W, G, V>(
    rt: &R,
    alloc: Global,
    nodes: &[Node],
    links: &[Link],
    lines: LineList,
    limit: u64,
    fabric: &mut F,
    clock: &C,
    words: &mut W,
    gate: &G,
    observer: &mut V,
) -> Result<Outcome, RunFault>
where
    R: Threads + Wait + Send + Sync + Copy,
    F: Fabric,
    F::Port: Send,
    <F::Port as Port>::End: Send,
    C: Clock,
    W: Words,
    G: Gate,
    V: Observer<F::Port>,
    requires { IsSound nodes.now links.now (map draft_line lines.items) }
    ensures ok { IfOk result (HasRan (C.may_give clock.now) limit nodes.now links.now lines.items (F.seen fabric.old) (F.seen fabric.new)) }
    ensures err { IfErr result (IsFaultOf (C.may_give clock.now) nodes.now links.now lines.items (F.seen fabric.old) (F.seen fabric.new)) }
    ensures shown { IfOk result (λ o. (r : HasRan (C.may_give clock.now) limit nodes.now links.now lines.items (F.seen fabric.old) (F.seen fabric.new) o) × V.saw (shown_of r.kept r.ends) observer.old observer.new) }
    ensures fault_shown { IfErr result (ShowsFault (λ shown. V.saw shown observer.old observer.new) (observer.new ≡ observer.old) (C.may_give clock.now) nodes.now links.now lines.items (F.seen fabric.old) (F.seen fabric.new)) }
{
    match grounds_of(alloc, nodes, lines.as_slice()) {
        Err(NoMemory) => Err(RunFault::NoMemory),
        Ok(grounds) => run_named::<R, F, C, W, G, Brand, V>(
            rt, alloc, nodes, links, lines, limit, fabric, clock, words, gate, grounds, observer,
        ),
    }
}

/// What is made before the first node listens: the cuts of the sockets that each node opens, the inboxes of all threads, and what
/// those of each node share. It can't be dropped, since inboxes and throttles can't.
struct Grounds<E: End> {
    cuts: Vec<CutList>,
    rooms: Rooms<E>,
    shared: Shared,
}

/// That of these nodes.
fn grounds_of<E: End>(alloc: Global, nodes: &[Node], lines: &[Line]) -> Result<Grounds<E>, NoMemory>
    requires { length nodes.now ≤ MOST_NODES }
    ensures cuts { IfOk result (λ g. AreCutsOf nodes.now lines.now g.cuts.items) }
    ensures rooms { IfOk result (λ g. AreRoomsOf (homes_of nodes.now) g.rooms.inboxes.items g.rooms.rights.puts.items g.rooms.rights.gets.items) }
    ensures shared { IfOk result (λ g. AreSharesOf nodes.now g.shared.shares.items g.shared.passes.items) }
{
    let cuts = cuts_of_all(alloc, nodes, lines)?;
    let rooms = rooms_of(alloc, nodes)?;
    match shared_by(alloc, nodes) {
        Err(NoMemory) => {
            let_rooms_go(rooms);
            Err(NoMemory)
        }
        Ok(shared) => Ok(Grounds {
            cuts,
            rooms,
            shared,
        }),
    }
}

/// The same, where each inbox has a name.
fn run_named<R, F, C, W, G, N, V>(
    rt: &R,
    alloc: Global,
    nodes: &[Node],
    links: &[Link],
    lines: LineList,
    limit: u64,
    fabric: &mut F,
    clock: &C,
    words: &mut W,
    gate: &G,
    grounds: Grounds<<F::Port as Port>::End>,
    observer: &mut V,
) -> Result<Outcome, RunFault>
where
    R: Threads + Wait + Send + Sync + Copy,
    F: Fabric,
    F::Port: Send,
    <F::Port as Port>::End: Send,
    C: Clock,
    W: Words,
    G: Gate,
    N: InboxNames + Send + Sync,
    V: Observer<F::Port>,
    requires sound { IsSound nodes.now links.now (map draft_line lines.items) }
    requires cuts { AreCutsOf nodes.now lines.items grounds.cuts.items }
    requires rooms { AreRoomsOf (homes_of nodes.now) grounds.rooms.inboxes.items grounds.rooms.rights.puts.items grounds.rooms.rights.gets.items }
    requires named { N.inboxes ≡ grounds.rooms.inboxes.items }
    requires shared { AreSharesOf nodes.now grounds.shared.shares.items grounds.shared.passes.items }
    ensures ok { IfOk result (HasRan (C.may_give clock.now) limit nodes.now links.now lines.items (F.seen fabric.old) (F.seen fabric.new)) }
    ensures err { IfErr result (IsFaultOf (C.may_give clock.now) nodes.now links.now lines.items (F.seen fabric.old) (F.seen fabric.new)) }
    ensures shown { IfOk result (λ o. (r : HasRan (C.may_give clock.now) limit nodes.now links.now lines.items (F.seen fabric.old) (F.seen fabric.new) o) × V.saw (shown_of r.kept r.ends) observer.old observer.new) }
    ensures fault_shown { IfErr result (ShowsFault (λ shown. V.saw shown observer.old observer.new) (observer.new ≡ observer.old) (C.may_give clock.now) nodes.now links.now lines.items (F.seen fabric.old) (F.seen fabric.new)) }
{
    let Grounds {
        cuts,
        rooms,
        shared,
    } = grounds;
    let Shared { shares, passes } = shared;
    let outcome = run_shared::<R, F, C, W, G, N, V>(
        rt,
        alloc,
        nodes,
        links,
        lines,
        cuts.as_slice(),
        limit,
        fabric,
        clock,
        words,
        gate,
        rooms,
        shares.as_slice(),
        passes,
        observer,
    );
    clear_shares(shares);
    outcome
}

/// The same, where the threads of each node share these.
#[tactic(auto, using(crate::proofs::Listens::listening_fault, crate::proofs::Listens::listening_shown))]
fn run_shared<R, F, C, W, G, N, V>(
    rt: &R,
    alloc: Global,
    nodes: &[Node],
    links: &[Link],
    lines: LineList,
    cuts: &[CutList],
    limit: u64,
    fabric: &mut F,
    clock: &C,
    words: &mut W,
    gate: &G,
    rooms: Rooms<<F::Port as Port>::End>,
    shares: &[Shares],
    passes: Vec<FirstPasses>,
    observer: &mut V,
) -> Result<Outcome, RunFault>
where
    R: Threads + Wait + Send + Sync + Copy,
    F: Fabric,
    F::Port: Send,
    <F::Port as Port>::End: Send,
    C: Clock,
    W: Words,
    G: Gate,
    N: InboxNames + Send + Sync,
    V: Observer<F::Port>,
    requires sound { IsSound nodes.now links.now (map draft_line lines.items) }
    requires cuts { AreCutsOf nodes.now lines.items cuts.now }
    requires rooms { AreRoomsOf (homes_of nodes.now) rooms.inboxes.items rooms.rights.puts.items rooms.rights.gets.items }
    requires named { N.inboxes ≡ rooms.inboxes.items }
    requires shares { AreSharesOf nodes.now shares.now passes.items }
    ensures ok { IfOk result (HasRan (C.may_give clock.now) limit nodes.now links.now lines.items (F.seen fabric.old) (F.seen fabric.new)) }
    ensures err { IfErr result (IsFaultOf (C.may_give clock.now) nodes.now links.now lines.items (F.seen fabric.old) (F.seen fabric.new)) }
    ensures shown { IfOk result (λ o. (r : HasRan (C.may_give clock.now) limit nodes.now links.now lines.items (F.seen fabric.old) (F.seen fabric.new) o) × V.saw (shown_of r.kept r.ends) observer.old observer.new) }
    ensures fault_shown { IfErr result (ShowsFault (λ shown. V.saw shown observer.old observer.new) (observer.new ≡ observer.old) (C.may_give clock.now) nodes.now links.now lines.items (F.seen fabric.old) (F.seen fabric.new)) }
{
    let Rooms {
        inboxes,
        rights,
        rests,
    } = rooms;
    let lent = LentInboxes::new(inboxes.as_slice());
    let doors = Doors::new(lent, rests.as_slice(), rights);
    let played = run_threads::<R, F, C, W, G, LentInboxes<'_, <F::Port as Port>::End, N>>(
        rt,
        alloc,
        nodes,
        links,
        lines,
        cuts,
        limit,
        fabric,
        clock,
        words,
        gate,
        doors,
        rests.as_slice(),
        shares,
        passes,
    );
    match played {
        Err(fault) => {
            let_inboxes_go(inboxes);
            Err(fault)
        }
        Ok(
            Stopped {
                mut all,
                logs,
                left,
            },
        ) => {
            centers_run_their_course::<LogDispatcher, C>();
            match close_all(rt, alloc, inboxes, all.as_mut_slice()) {
                Err(NoMemory) => {
                    throw_away_opened(all);
                    Err(RunFault::NoMemory)
                }
                Ok(()) => finish(alloc, nodes, links, cuts, fabric, all, logs, left, observer),
            }
        }
    }
}

/// All nodes taken apart, what the dispatcher of each was called with, and how many posts they leave.
struct Stopped<'s, P: Port> {
    all: Vec<Opened<'s, P>>,
    logs: Vec<LoggedList>,
    left: u64,
}

/// Makes the nodes, runs them on threads, and takes them apart.
fn run_threads<'a, 's, R, F, C, W, G, B>(
    rt: &R,
    alloc: Global,
    nodes: &[Node],
    links: &[Link],
    lines: LineList,
    cuts: &[CutList],
    limit: u64,
    fabric: &mut F,
    clock: &C,
    words: &mut W,
    gate: &G,
    doors: Doors<'a, <F::Port as Port>::End, B>,
    rests: &'a [AtomicBool],
    shares: &'s [Shares],
    mut passes: Vec<FirstPasses>,
) -> Result<Stopped<'s, F::Port>, RunFault>
where
    R: Threads + Wait + Send + Sync + Copy,
    F: Fabric,
    F::Port: Send,
    <F::Port as Port>::End: Send,
    C: Clock,
    W: Words,
    G: Gate,
    B: Inboxes<<F::Port as Port>::End> + Send + Sync,
    requires sound { IsSound nodes.now links.now (map draft_line lines.items) }
    requires cuts { AreCutsOf nodes.now lines.items cuts.now }
    requires doors { AreDoorsOf (slice_get B.inboxes) (homes_of nodes.now) doors }
    requires shares { AreSharesOf nodes.now shares.now passes.items }
    ensures stopped { IfOk result (λ s. (start stop : ℕ) × (ran : List RunNodeNow) × HasStopped (C.may_give clock.now) limit nodes.now links.now lines.items cuts.now start stop ran s.left s.all.items × SideBySide IsLogOf ran s.logs.items) }
    ensures rooms { IfOk result (λ s. HasRoomsFor (slice_get B.inboxes) 0 s.all.items) }
    ensures out { IfOk result (λ _. AreOut nodes.now (F.seen fabric.old) (F.seen fabric.new)) }
    ensures faults { IfOk result (λ _. (F.seen fabric.new).faults ≡ (F.seen fabric.old).faults) }
    ensures err { IfErr result (λ fault. IsListeningFault fault nodes.now (F.seen fabric.old) (F.seen fabric.new)) }
{
    let Ok(rights) = rights_of(alloc, shares, &mut passes) else {
        return Err(RunFault::NoMemory);
    };
    let posts = posts_that_count(links, lines.as_slice());
    let begun = begin::<R, F, C, W, B>(
        *rt, alloc, nodes, links, lines, fabric, clock, words, doors, shares, passes,
    )?;
    play_out(
        rt, alloc, nodes, links, cuts, begun, rests, shares, rights, posts, limit, clock, gate,
    )
}

/// Runs all workers at once, goes on with their nodes until nothing is left or all has been still for long enough, and takes them
/// apart.
fn play_out<'s, R, P, C, G, B>(
    rt: &R,
    alloc: Global,
    nodes: &[Node],
    links: &[Link],
    cuts: &[CutList],
    begun: Begun<'s, HomePort<'_, P, R, B>>,
    rests: &[AtomicBool],
    shares: &'s [Shares],
    rights: Vec<TakePasses>,
    posts: u64,
    limit: u64,
    clock: &C,
    gate: &G,
) -> Result<Stopped<'s, P>, RunFault>
where
    R: Threads + Wait + Send + Sync + Copy,
    P: Port + Send,
    P::End: Send,
    C: Clock,
    G: Gate,
    B: Inboxes<P::End> + Send + Sync,
    requires few { length nodes.now < 2 ^ 32 }
    requires cuts { length cuts.now ≡ length nodes.now }
    requires given { C.may_give clock.now begun.start }
    requires workers { AreWorkersOf nodes.now shares.now begun.start begun.workers.items }
    requires rights { AreRights shares.now rights.items }
    requires shared { AllByRecursion IsShare shares.now }
    requires none { AllByRecursion HasHandedNothing begun.workers.items }
    ensures stopped { IfOk result (λ s. (stop : ℕ) × (ran : List RunNodeNow) × HasPlayed (C.may_give clock.now) limit nodes.now links.now begun.entry.start stop (nodes_of_workers nodes.now shares.now begun.entry.workers.items) ran s.left × AreOpenedNodes (cuts_at cuts.now) ran s.all.items × AllByRecursion (λ (n : RunNodeNow). AllByRecursion IsCenterOfTypes n.centers) ran × SideBySide IsLogOf ran s.logs.items) }
    ensures rooms { IfOk result (λ s. HasRoomsFor (slice_get B.inboxes) 0 s.all.items) }
    ensures err { IfErr result (λ fault. fault ≡ faults.NoMemory) }
{
    let played = play(
        rt, alloc, nodes, links, begun, rests, shares, rights, posts, limit, clock, gate,
    );
    match played {
        Err(NoMemory) => Err(RunFault::NoMemory),
        Ok(Played { all, settled }) => {
            let mut logs = Vec::new(alloc);
            match end_all(alloc, cuts, all, &mut logs) {
                Err(NoMemory) => Err(RunFault::NoMemory),
                Ok(all) => Ok(Stopped {
                    all,
                    logs,
                    left: settled.left,
                }),
            }
        }
    }
}

/// All nodes where they were left.
struct Played<'s, P: Port> {
    all: Vec<RunNode<'s, P>>,
    settled: Settled,
}

/// Runs all workers at once, and then goes on with their nodes until nothing is left or all has been still for long enough.
fn play<'s, R, P, C, G>(
    rt: &R,
    alloc: Global,
    nodes: &[Node],
    links: &[Link],
    begun: Begun<'s, P>,
    rests: &[AtomicBool],
    shares: &'s [Shares],
    rights: Vec<TakePasses>,
    posts: u64,
    limit: u64,
    clock: &C,
    gate: &G,
) -> Result<Played<'s, P>, NoMemory>
where
    R: Threads + Wait + Sync,
    P: Port + Send,
    P::End: Send,
    C: Clock,
    G: Gate,
    requires few { length nodes.now < 2 ^ 32 }
    requires given { C.may_give clock.now begun.start }
    requires workers { AreWorkersOf nodes.now shares.now begun.start begun.workers.items }
    requires rights { AreRights shares.now rights.items }
    requires shared { AllByRecursion IsShare shares.now }
    requires none { AllByRecursion HasHandedNothing begun.workers.items }
    ensures { IfOk result (λ p. HasPlayed (C.may_give clock.now) limit nodes.now links.now begun.entry.start p.settled.stop (nodes_of_workers nodes.now shares.now begun.entry.workers.items) p.all.items p.settled.left) }
{
    let Begun { workers, start } = begun;
    let signs = Signs::new(posts, start, limit);
    let closed = work_out(
        rt, alloc, nodes, shares, rights, workers, &signs, clock, gate,
    )?;
    let Joined { mut all, now } = join_all(alloc, nodes, shares, closed, start)?;
    let settled = settle(
        rt,
        alloc,
        nodes,
        links,
        all.as_mut_slice(),
        rests,
        limit,
        clock,
        start,
        now,
    );
    match settled {
        Ok(settled) => Ok(Played { all, settled }),
        Err(NoMemory) => {
            clear_nodes(all);
            Err(NoMemory)
        }
    }
}

/// Weaves the links of nodes that were taken apart, and gives ports and ends back. `cuts` has those of the sockets that each node
/// opened. Err is want of memory where posts are left and the nodes don't rest: a run doesn't end before that; and where a
/// socket of a node isn't one of its own.
fn finish<F: Fabric, V: Observer<F::Port>>(
    alloc: Global,
    nodes: &[Node],
    links: &[Link],
    cuts: &[CutList],
    fabric: &mut F,
    all: Vec<Opened<'_, F::Port>>,
    logs: Vec<LoggedList>,
    left: u64,
    observer: &mut V,
) -> Result<Outcome, RunFault>
    requires count { length all.items ≡ length nodes.now }
    requires cuts { length cuts.now ≡ length nodes.now }
    requires few { length nodes.now < 2 ^ 32 }
    requires out { ArePortsOut nodes.now (F.seen fabric.old) }
    ensures ok { IfOk result (λ o. (ran : List RunNodeNow) → AreLeftBy cuts.now ran all.entry.items → SideBySide IsLogOf ran logs.items → HasFinished left cuts.now nodes.now links.now ran (F.seen fabric.old) (F.seen fabric.new) o) }
    ensures err { IfErr result (λ fault. (ran : List RunNodeNow) → AreLeftBy cuts.now ran all.entry.items → EndsInFault cuts.now nodes.now links.now ran (F.seen fabric.old) (F.seen fabric.new) fault) }
    ensures shown { IfOk result (λ o. (ran : List RunNodeNow) → AreLeftBy cuts.now ran all.entry.items → SideBySide IsLogOf ran logs.items → (f : HasFinished left cuts.now nodes.now links.now ran (F.seen fabric.old) (F.seen fabric.new) o) × V.saw (shown_of f.kept f.ends) observer.old observer.new) }
    ensures fault_shown { IfErr result (λ fault. (ran : List RunNodeNow) → AreLeftBy cuts.now ran all.entry.items → ShowsEnd (λ shown. V.saw shown observer.old observer.new) (observer.new ≡ observer.old) cuts.now nodes.now links.now ran (F.seen fabric.old) (F.seen fabric.new) fault) }
    ensures faults { (F.seen fabric.new).faults ≡ (F.seen fabric.old).faults }
{
    if !is_over(left, all.as_slice()) {
        throw_away_opened(all);
        return Err(RunFault::NoMemory);
    }
    if let Err(NoMemory) = each_once(alloc, nodes, all.as_slice()) {
        throw_away_opened(all);
        return Err(RunFault::NoMemory);
    }
    match join_seen(alloc, all, observer) {
        Err(NoMemory) => Err(RunFault::NoMemory),
        Ok(AllEnded { ends, loose }) => {
            let woven = weave_all(alloc, links, ends.as_slice(), &loose);
            match gather_all(alloc, nodes, cuts, fabric, ends, loose) {
                Err(NoMemory) => Err(RunFault::NoMemory),
                Ok(fast) => match woven {
                    Ok(()) => told(alloc, fast, logs, left),
                    Err(fault) => Err(fault_told(fault)),
                },
            }
        }
    }
}

/// What came of a run with these logs, of the dispatchers of fast kinds of each node, and of the one behind the mails.
fn told(
    alloc: Global,
    fast: LogsList,
    queued: Vec<LoggedList>,
    left: u64,
) -> Result<Outcome, RunFault>
    ensures ok { IfOk result (λ o. AreBoth fast.items queued.items o.logs.items × (o.left ≡ left)) }
    ensures err { IfErr result (λ fault. fault ≡ faults.NoMemory) }
{
    match both_logs(alloc, fast, queued) {
        Err(NoMemory) => Err(RunFault::NoMemory),
        Ok(logs) => Ok(Outcome { logs, left }),
    }
}

/// Whether nothing is left, or the nodes rest.
fn is_over<P: Port>(left: u64, all: &[Opened<'_, P>]) -> bool
    ensures { OnTrue result ((left ≡ 0) ⊎ AllByRecursion (λ (n : OpenedNow). (n.left.on_way ≡ []) × AllByRecursion (IsAtRest (made_of_all all.now)) n.left.at_door) all.now) }
{
    left == 0 || all_rest(all)
}

/// What weaving answers, as what came of the run.
fn fault_told(fault: WeaveFault) -> RunFault
    ensures { result ≡ fault_told fault }
{
    match fault {
        WeaveFault::NoMemory => RunFault::NoMemory,
        WeaveFault::Unfit(unfit) => RunFault::Unfit(unfit),
    }
}
