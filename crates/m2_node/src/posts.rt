//! The event threads of all nodes with their mails, and the dispatchers of the nodes.

ghost use Rattle.std.specs.Prelude.{◌≡◌, ◌≤◌, ◌-◌, ◌++◌, [], IfOk, OnOk, false, drop, length, map, reverse, take, vec_capacity, vec_len};
ghost use Rattle.std.specs.List.{AllByRecursion};
ghost use Rattle.m2_dispatch.specs.Heard.{Heard, heard_by};
ghost use Rattle.m2_dispatch.specs.m2_shared.Gates.{ArePassesOf, AreShared};
ghost use Rattle.m2_links_go_on.specs.ClusterTold.{OneByOne};
ghost use Rattle.m2_mailbox.specs.Merge.{IsMerge};
ghost use Rattle.m2_mailbox.specs.Passes.{IsGetPassOf};
ghost use Rattle.m2_node.specs.Dispatching.{taken_by, throttles_of};
ghost use Rattle.m2_node.specs.Handing.{AreHanded, HasHandedNothing, IsSending, handed_by, worker_of};
ghost use Rattle.m2_node.specs.Posts.{AddsPosts, AreClosable, AreDispatched, ArePosts, ClosesAll, ClosesSender};
ghost use Rattle.m2_node.specs.Sharing.{AreRights, IsShare};
ghost use Rattle.m2_node.specs.Working.{AllWork, AreGrouped, IsGroup, Runs, center_of};
ghost use Rattle.m2_node.specs.declared.end.RunEnd.{RunEnd};

use crate::dispatcher::NodeDispatcher;
use crate::end::RunEnd;
use crate::mails::{Mail, close_mail, dispatch_all, let_mails_go, new_mail};
use crate::node::Shares;
use crate::sending::Sender;
use crate::serving::Serving;
use crate::threads::{throw_away, throw_away_worker, work_all};
use crate::watch::Watch;
use crate::way_laws::{polls_go_on, steps_go_on};
use crate::worker::{Signs, Worker};
use m2_bytes::NoMemory;
use m2_dispatch::Parcel;
use m2_edge::{Clock, Gate};
use m2_fabric::Port;
use m2_mailbox::GetPass;
use m2_scenario::Node;
use m2_shared::TakePasses;
use std::alloc::Global;
use std::collections::VecDeque;
use std::sync::Wait;
use std::thread::Threads;

/// The event threads of all nodes, in order, with a mail each, and the dispatchers of the nodes. It can't be dropped, since
/// centers, dispatchers and mails can't.
pub(crate) struct Posts<'s, P: Port> {
    pub(crate) senders: Vec<Sender<'s, P>>,
    pub(crate) servers: Vec<Serving<'s>>,
    pub(crate) mails: Vec<Mail>,
}

/// Those of these workers, by a right of each node's dispatcher to give back. Err is want of memory; the workers are thrown away
/// then.
pub(crate) fn posts_of<'s, P: Port>(
    alloc: Global,
    nodes: &[Node],
    shares: &'s [Shares],
    mut rights: Vec<TakePasses>,
    mut workers: Vec<Worker<'s, P>>,
) -> Result<Posts<'s, P>, NoMemory>
    requires groups { AreGrouped nodes.now shares.now workers.items }
    requires rights { AreRights shares.now rights.items }
    requires shared { AllByRecursion IsShare shares.now }
    requires nothing { AllByRecursion HasHandedNothing workers.items }
    ensures { IfOk result (λ p. ArePosts nodes.now shares.now workers.entry.items (record { senders = p.senders.items; servers = p.servers.items; mails = p.mails.items })) }
{
    let mut posts = Posts {
        senders: Vec::new(alloc),
        servers: Vec::new(alloc),
        mails: Vec::new(alloc),
    };
    workers.reverse();
    rights.reverse();
    let added = add_all_posts(alloc, nodes, shares, &mut rights, &mut workers, &mut posts);
    throw_away(workers);
    match added {
        Ok(()) => Ok(posts),
        Err(NoMemory) => {
            throw_away_posts(posts);
            Err(NoMemory)
        }
    }
}

/// The same of these, the last of which are the first thread of the first node and the right of its dispatcher.
fn add_all_posts<'s, P: Port>(
    alloc: Global,
    nodes: &[Node],
    shares: &'s [Shares],
    rights: &mut Vec<TakePasses>,
    workers: &mut Vec<Worker<'s, P>>,
    posts: &mut Posts<'s, P>,
) -> Result<(), NoMemory>
    requires groups { AreGrouped nodes.now shares.now (reverse workers.old.items) }
    requires rights { AreRights shares.now (reverse rights.old.items) }
    requires shared { AllByRecursion IsShare shares.now }
    requires nothing { AllByRecursion HasHandedNothing (reverse workers.old.items) }
    requires no_senders { posts.old.senders.items ≡ [] }
    requires no_servers { posts.old.servers.items ≡ [] }
    requires no_mails { posts.old.mails.items ≡ [] }
    ensures { OnOk result (ArePosts nodes.now shares.now (reverse workers.old.items) (record { senders = posts.new.senders.items; servers = posts.new.servers.items; mails = posts.new.mails.items })) }
{
    'nodes: for k in 0..nodes.len() {
        let Some(right) = rights.pop() else {
            return Err(NoMemory);
        };
        add_posts(alloc, &nodes[k], &shares[k], right, workers, posts)?;
    }
    Ok(())
}

/// Those of a node go last, of as many of the last workers as it has centers, the last one first.
fn add_posts<'s, P: Port>(
    alloc: Global,
    node: &Node,
    shares: &'s Shares,
    right: TakePasses,
    workers: &mut Vec<Worker<'s, P>>,
    posts: &mut Posts<'s, P>,
) -> Result<(), NoMemory>
    requires group { IsGroup node.now shares.now (take node.now.centers (reverse workers.old.items)) }
    requires nothing { AllByRecursion HasHandedNothing (take node.now.centers (reverse workers.old.items)) }
    requires shared { AreShared shares.now.throttles }
    requires right { ArePassesOf shares.now.throttles right }
    ensures adds { OnOk result (AddsPosts node.now shares.now (take node.now.centers (reverse workers.old.items))
        (record { senders = posts.old.senders.items; servers = posts.old.servers.items; mails = posts.old.mails.items })
        (record { senders = posts.new.senders.items; servers = posts.new.servers.items; mails = posts.new.mails.items })) }
    ensures left { OnOk result (reverse workers.new.items ≡ drop node.now.centers (reverse workers.old.items)) }
{
    let count = node.centers as usize;
    let counts = counts_of(workers.as_slice())?;
    let mut gets = Vec::with_capacity(alloc, count)?;
    posts.servers.reserve(1)?;
    posts.senders.reserve(count)?;
    posts.mails.reserve(count)?;
    let first = posts.mails.len();
    'centers: for _ in 0..node.centers {
        let (mail, put, get) = new_mail(alloc, &shares.shared.throttles)?;
        posts.mails.push_reserved(mail);
        gets.push(get)?;
        let Some(worker) = workers.pop() else {
            return Err(NoMemory);
        };
        posts.senders.push_reserved(Sender {
            worker,
            put,
            waiting: VecDeque::new(alloc),
        });
    }
    posts.servers.push_reserved(Serving {
        dispatcher: NodeDispatcher::new(alloc, &shares.shared.throttles, right),
        shares,
        gets,
        first,
        is_started: node.started,
        counts,
        told: 0,
        watch: Watch::new(),
    });
    Ok(())
}

/// Which peers' posts count of the node of the last of these workers.
fn counts_of<P: Port>(workers: &[Worker<'_, P>]) -> Result<Vec<bool>, NoMemory> {
    match workers.last() {
        None => Err(NoMemory),
        Some(worker) => worker.counts(),
    }
}

/// Threads that have ended, whose mails are closed and all of whose parcels are dispatched, and the nodes' dispatchers. It can't be
/// dropped, since neither can.
pub struct Closed<'s, P: Port> {
    pub workers: Vec<Worker<'s, P>>,
    pub dispatchers: Vec<NodeDispatcher<'s>>,
}

/// Runs these workers at once until the signs say stop, each with a mail, and the dispatchers of the nodes; then closes all mails,
/// and has what is left there, and what waits for room, dispatched. Err is want of memory, here or in a dispatcher; all are thrown
/// away then.
pub fn work_out<'s, R, P, C, G>(
    rt: &R,
    alloc: Global,
    nodes: &[Node],
    shares: &'s [Shares],
    rights: Vec<TakePasses>,
    workers: Vec<Worker<'s, P>>,
    signs: &Signs,
    clock: &C,
    gate: &G,
) -> Result<Closed<'s, P>, NoMemory>
where
    R: Threads + Wait + Sync,
    P: Port + Send,
    P::End: Send,
    C: Clock,
    G: Gate,
    requires groups { AreGrouped nodes.now shares.now workers.items }
    requires rights { AreRights shares.now rights.items }
    requires shared { AllByRecursion IsShare shares.now }
    requires nothing { AllByRecursion HasHandedNothing workers.items }
    ensures works { IfOk result (λ c. AllWork (C.may_give clock.now) workers.entry.items c.workers.items) }
    ensures runs { IfOk result (λ c. OneByOne (Runs (RunEnd P.End) (C.may_give clock.now)) workers.entry.items c.workers.items) }
    ensures dispatched { IfOk result (λ c. AreDispatched nodes.now shares.now c.workers.items c.dispatchers.items) }
{
    steps_go_on::<RunEnd<P::End>, C>();
    polls_go_on::<C>();
    let mut posts = posts_of(alloc, nodes, shares, rights, workers)?;
    work_all(rt, &mut posts, signs, clock, gate);
    close_posts(rt, alloc, nodes, shares, posts)
}

/// Closes all mails, and has what is left there, and what waits for room, dispatched.
fn close_posts<'s, R: Wait, P: Port>(
    rt: &R,
    alloc: Global,
    nodes: &[Node],
    shares: &'s [Shares],
    mut posts: Posts<'s, P>,
) -> Result<Closed<'s, P>, NoMemory>
    requires shared { AllByRecursion IsShare shares.now }
    requires groups { AreGrouped nodes.now shares.now (map worker_of posts.senders.items) }
    requires posts { ArePosts nodes.now shares.now (map worker_of posts.senders.items) (record { senders = posts.senders.items; servers = posts.servers.items; mails = posts.mails.items }) }
    ensures workers { IfOk result (λ c. c.workers.items ≡ map worker_of posts.entry.senders.items) }
    ensures dispatched { IfOk result (λ c. AreDispatched nodes.now shares.now c.workers.items c.dispatchers.items) }
{
    let mut closed = Closed {
        workers: Vec::new(alloc),
        dispatchers: Vec::new(alloc),
    };
    posts.senders.reverse();
    posts.servers.reverse();
    posts.mails.reverse();
    match close_servers(rt, nodes, shares, &mut posts, &mut closed) {
        Ok(()) => {
            throw_away_posts(posts);
            Ok(closed)
        }
        Err(NoMemory) => {
            throw_away_posts(posts);
            throw_away_closed(closed);
            Err(NoMemory)
        }
    }
}

/// The same of these, the last of which is the first thread of the first node.
fn close_servers<'s, R: Wait, P: Port>(
    rt: &R,
    nodes: &[Node],
    shares: &'s [Shares],
    posts: &mut Posts<'s, P>,
    closed: &mut Closed<'s, P>,
) -> Result<(), NoMemory>
    requires shared { AllByRecursion IsShare shares.now }
    requires groups { AreGrouped nodes.now shares.now (map worker_of (reverse posts.old.senders.items)) }
    requires posts { ArePosts nodes.now shares.now (map worker_of (reverse posts.old.senders.items))
        (record { senders = reverse posts.old.senders.items; servers = reverse posts.old.servers.items; mails = reverse posts.old.mails.items }) }
    requires no_workers { closed.old.workers.items ≡ [] }
    requires no_dispatchers { closed.old.dispatchers.items ≡ [] }
    ensures workers { OnOk result (closed.new.workers.items ≡ map worker_of (reverse posts.old.senders.items)) }
    ensures dispatched { OnOk result (AreDispatched nodes.now shares.now closed.new.workers.items closed.new.dispatchers.items) }
{
    closed.workers.reserve(posts.senders.len())?;
    closed.dispatchers.reserve(posts.servers.len())?;
    let Posts {
        senders,
        servers,
        mails,
    } = posts;
    let Closed {
        workers,
        dispatchers,
    } = closed;
    'nodes: for _ in 0..nodes.len().min(shares.len()) {
        let Some(server) = servers.pop() else {
            return Err(NoMemory);
        };
        let dispatcher = close_server(rt, server, senders, mails, workers)?;
        dispatchers.push_reserved(dispatcher);
    }
    Ok(())
}

/// Closes the mails of one node, which are as many of the last ones as its dispatcher has rights to, the last one first.
fn close_server<'s, R: Wait, P: Port>(
    rt: &R,
    server: Serving<'s>,
    senders: &mut Vec<Sender<'s, P>>,
    mails: &mut Vec<Mail>,
    workers: &mut Vec<Worker<'s, P>>,
) -> Result<NodeDispatcher<'s>, NoMemory>
    requires closable { AreClosable server.dispatcher.throttles server.gets (reverse mails.old.items) (reverse senders.old.items) }
    requires merged { server.dispatcher.lost ≡ false → IsMerge Heard (map taken_by server.gets) (heard_by server.dispatcher.log) }
    requires room { length server.gets ≤ vec_capacity workers.old - vec_len workers.old }
    ensures throttles { IfOk result (λ d. d.throttles ≡ server.entry.dispatcher.throttles) }
    ensures handed { IfOk result (λ d. AreHanded (map center_of (map worker_of (take (length server.entry.gets) (reverse senders.old.items)))) (heard_by d.log)) }
    ensures workers { OnOk result (workers.new.items ≡ workers.old.items ++ map worker_of (take (length server.entry.gets) (reverse senders.old.items))) }
    ensures senders { OnOk result (reverse senders.new.items ≡ drop (length server.entry.gets) (reverse senders.old.items)) }
    ensures mails { OnOk result (reverse mails.new.items ≡ drop (length server.entry.gets) (reverse mails.old.items)) }
    ensures capacity { vec_capacity workers.new ≡ vec_capacity workers.old }
{
    let Serving {
        mut dispatcher,
        shares: _,
        mut gets,
        first: _,
        is_started: _,
        counts: _,
        told: _,
        watch: _,
    } = server;
    gets.reverse();
    match close_each(rt, gets, senders, mails, workers, &mut dispatcher) {
        Ok(()) => Ok(dispatcher),
        Err(NoMemory) => {
            let _log = dispatcher.into_log();
            Err(NoMemory)
        }
    }
}

/// Closes the mails to which these are the rights to take.
fn close_each<'s, R: Wait, P: Port>(
    rt: &R,
    mut gets: Vec<GetPass<Parcel>>,
    senders: &mut Vec<Sender<'s, P>>,
    mails: &mut Vec<Mail>,
    workers: &mut Vec<Worker<'s, P>>,
    dispatcher: &mut NodeDispatcher<'s>,
) -> Result<(), NoMemory>
    requires closable { AreClosable dispatcher.old.throttles (reverse gets.items) (reverse mails.old.items) (reverse senders.old.items) }
    requires room { vec_len gets ≤ vec_capacity workers.old - vec_len workers.old }
    ensures workers { OnOk result (workers.new.items ≡ workers.old.items ++ map worker_of (take (vec_len gets) (reverse senders.old.items))) }
    ensures senders { OnOk result (reverse senders.new.items ≡ drop (vec_len gets) (reverse senders.old.items)) }
    ensures mails { OnOk result (reverse mails.new.items ≡ drop (vec_len gets) (reverse mails.old.items)) }
    ensures closed { OnOk result (ClosesAll (reverse gets.items) (take (vec_len gets) (reverse senders.old.items)) dispatcher.old dispatcher.new) }
    ensures capacity { vec_capacity workers.new ≡ vec_capacity workers.old }
{
    'mails: while let Some(get) = gets.pop() {
        let Some(mail) = mails.pop() else {
            return Err(NoMemory);
        };
        let Some(sender) = senders.pop() else {
            mail.let_go();
            return Err(NoMemory);
        };
        let worker = close_sender(rt, mail, sender, get, dispatcher);
        workers.push_reserved(worker);
    }
    if dispatcher.is_lost() {
        Err(NoMemory)
    } else {
        Ok(())
    }
}

/// Closes one mail: what is left there is dispatched, and then what waits for room.
fn close_sender<'s, R: Wait, P: Port>(
    rt: &R,
    mail: Mail,
    sender: Sender<'s, P>,
    get: GetPass<Parcel>,
    dispatcher: &mut NodeDispatcher<'s>,
) -> Worker<'s, P>
    requires sends { IsSending mail sender }
    requires gets { IsGetPassOf mail get }
    requires throttles { throttles_of mail ≡ dispatcher.old.throttles }
    ensures worker { result ≡ sender.entry.worker }
    ensures closed { ClosesSender (taken_by get) (handed_by sender.entry.worker.center) dispatcher.old dispatcher.new }
{
    let Sender {
        worker,
        put,
        mut waiting,
    } = sender;
    close_mail(rt, mail, put, get, dispatcher);
    dispatch_all(&mut waiting, dispatcher);
    waiting.destroy_empty();
    worker
}

/// Throws away threads that have ended.
fn throw_away_closed<P: Port>(closed: Closed<'_, P>) {
    let Closed {
        workers,
        dispatchers,
    } = closed;
    throw_away(workers);
    throw_away_dispatchers(dispatchers);
}

/// And dispatchers.
pub(crate) fn throw_away_dispatchers(mut dispatchers: Vec<NodeDispatcher<'_>>) {
    'dispatchers: while let Some(dispatcher) = dispatchers.pop() {
        let _log = dispatcher.into_log();
    }
    dispatchers.destroy_empty();
}

/// Throws away all threads of a run, with what they hold.
fn throw_away_posts<P: Port>(posts: Posts<'_, P>) {
    let Posts {
        mut senders,
        mut servers,
        mails,
    } = posts;
    'senders: while let Some(sender) = senders.pop() {
        let Sender {
            worker,
            put: _,
            waiting,
        } = sender;
        throw_away_worker(worker, waiting);
    }
    senders.destroy_empty();
    'servers: while let Some(server) = servers.pop() {
        let Serving {
            dispatcher,
            shares: _,
            gets: _,
            first: _,
            is_started: _,
            counts: _,
            told: _,
            watch: _,
        } = server;
        let _log = dispatcher.into_log();
    }
    servers.destroy_empty();
    let_mails_go(mails);
}
