//! Where a node stood before it did something.

ghost use Rattle.std.specs.Prelude.{◌≡◌, IfOk, length, map};
ghost use Rattle.m2_promise.specs.m2_script.m2_record.RecordNow.{RecordNow};
ghost use Rattle.m2_run_trace.specs.Dials.{dial_mark_of};
ghost use Rattle.m2_run_trace.specs.Marks.{end_mark, marks_in, marks_of};
ghost use Rattle.m2_run_trace.specs.Standing.{standing_of};
ghost use Rattle.m2_run_trace.specs.Telling.{log_in, seen_log, telling_at};

use crate::dials::{DialMark, dial_mark_of};
use crate::standing::{SessionMark, standing_of};
use crate::telling::{Teller, TracedCenter, TracedCluster};
use crate::throttle::out_of;
use m2_bytes::{Items, NoMemory};
use m2_fabric::{EndLog, SocketId};
use m2_scenario::Node;
use std::alloc::Global;
use std::marker::Model;

/// What the end of a socket had done.
#[derive(Clone, Copy, Debug)]
pub struct EndMark {
    pub socket: SocketId,
    /// The socket was accepted, or opened by the node.
    pub there: bool,
    /// How many reads and writes its end had made.
    pub runs: usize,
    pub closed: bool,
}

/// Where a node stood: of sockets what its ends had done, and how much there was of the rest.
///
/// Maker: [`of`](Marks::of). [`put_news`](crate::put_news) tells what the node did since, and
/// [`sockets_left`](crate::sockets_left) of which sockets there is more to tell.
#[derive(Drop)]
pub struct Marks {
    pub(crate) ends: Items<EndMark>,
    /// Of each record how many entries its journal had.
    pub(crate) journals: Items<usize>,
    pub(crate) fast: usize,
    pub(crate) queued: usize,
    /// How many sockets its port had made.
    pub(crate) made: usize,
    /// Where each record stood.
    pub(crate) standings: Items<SessionMark>,
    /// Of each record what made a connect due.
    pub(crate) dials: Items<DialMark>,
    /// How many bytes its throttle had out.
    pub(crate) out: u64,
}

impl Model for Marks {
    ghost use Rattle.m2_run_trace.specs.Dials.{dial_mark_of};
    ghost use Rattle.m2_run_trace.specs.Marks.{MarksNow};

    ghost Value = { MarksNow };

    ghost view = { λ m. record { ends = m.ends.items; journals = m.journals.items; fast = m.fast; queued = m.queued; made = m.made; standings = m.standings.items; dials = m.dials.items; out = m.out } };
}

impl Marks {
    /// Where the node at this place stands, with its ends of these sockets.
    pub fn of(
        alloc: Global,
        nodes: &[Node],
        cluster: &TracedCluster,
        node: u32,
        sockets: &[SocketId],
    ) -> Result<Marks, NoMemory>
        ensures { IfOk result (λ m. m ≡ marks_of (telling_at nodes.now cluster.now.nodes node) sockets.now) }
    {
        match Teller::of(nodes, cluster, node) {
            None => Ok(Marks {
                ends: Items::empty(alloc),
                journals: Items::empty(alloc),
                fast: 0,
                queued: 0,
                made: 0,
                standings: Items::empty(alloc),
                dials: Items::empty(alloc),
                out: 0,
            }),
            Some(teller) => marks_in(alloc, teller.center, sockets),
        }
    }
}

/// Where the node of this center stands.
fn marks_in(alloc: Global, center: &TracedCenter, sockets: &[SocketId]) -> Result<Marks, NoMemory>
    ensures { IfOk result (λ m. m ≡ marks_in center.now sockets.now) }
{
    Ok(Marks {
        ends: end_marks(alloc, center, sockets)?,
        journals: journal_marks(alloc, center)?,
        fast: center.fast().log().len(),
        queued: center.queued().inner().log().len(),
        made: center.made().len(),
        standings: standings(alloc, center)?,
        dials: dial_marks(alloc, center)?,
        out: out_of(center),
    })
}

/// Of each socket what the node's end of it has done.
fn end_marks(
    alloc: Global,
    center: &TracedCenter,
    sockets: &[SocketId],
) -> Result<Items<EndMark>, NoMemory>
    ensures { IfOk result (λ m. m.items ≡ map (λ s. end_mark s (log_in center.now s)) sockets.now) }
{
    let mut marks = Items::empty(alloc);
    for socket in sockets {
        let mark = end_mark(socket, center.log(socket));
        if marks.push(mark).is_err() {
            return Err(NoMemory);
        }
    }
    Ok(marks)
}

/// What an end has done.
fn end_mark(socket: &SocketId, log: Option<&EndLog>) -> EndMark
    ensures { result ≡ end_mark socket.now (seen_log log.entry) }
{
    match log {
        None => EndMark {
            socket: *socket,
            there: false,
            runs: 0,
            closed: false,
        },
        Some(log) => EndMark {
            socket: *socket,
            there: true,
            runs: log.runs.len(),
            closed: log.closed,
        },
    }
}

/// Of each record how many entries its journal has.
fn journal_marks(alloc: Global, center: &TracedCenter) -> Result<Items<usize>, NoMemory>
    ensures { IfOk result (λ m. m.items ≡ map (λ (r : RecordNow). length r.journal) center.now.records) }
{
    let mut marks = Items::empty(alloc);
    for record in center.records() {
        if marks.push(record.journal().len()).is_err() {
            return Err(NoMemory);
        }
    }
    Ok(marks)
}

/// Where each record stands.
fn standings(alloc: Global, center: &TracedCenter) -> Result<Items<SessionMark>, NoMemory>
    ensures { IfOk result (λ m. m.items ≡ map standing_of center.now.records) }
{
    let mut marks = Items::empty(alloc);
    for record in center.records() {
        if marks.push(standing_of(record)).is_err() {
            return Err(NoMemory);
        }
    }
    Ok(marks)
}

/// Of each record what makes a connect due.
fn dial_marks(alloc: Global, center: &TracedCenter) -> Result<Items<DialMark>, NoMemory>
    ensures { IfOk result (λ m. m.items ≡ map dial_mark_of center.now.records) }
{
    let mut marks = Items::empty(alloc);
    for record in center.records() {
        if marks.push(dial_mark_of(record)).is_err() {
            return Err(NoMemory);
        }
    }
    Ok(marks)
}
