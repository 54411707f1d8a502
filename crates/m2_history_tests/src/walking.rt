//! A walk along a history of two sides, which looks for itself at what every entry says: bytes are read after
//! they were written, what is accepted is what was posted next, and what is acknowledged was accepted. It
//! counts nothing as the crates do: it looks back at each entry.

use crate::driving::fast_kinds;
use m2_bytes::NoMemory;
use m2_dispatch::{Logged, LoggedList};
use m2_fabric::{End, EndLog, SimEnd, SocketId};
use m2_history::{HistoryStep, Side};
use m2_journal::{Entries, Entry, EntryList, PlanStep};
use m2_message::Message;
use m2_policy::{FastSet, Key, Path};
use m2_record::Record;
use m2_record_trace::{Which, Wire};
use m2_trail::LooseList;
use std::alloc::Global;

/// Two sides, the sockets between them and the halves that neither took.
#[derive(Drop)]
pub(crate) struct Sides<'a> {
    pub(crate) near: Side<'a, SimEnd>,
    pub(crate) far: Side<'a, SimEnd>,
    pub(crate) wires: &'a [Wire],
    pub(crate) loose: &'a LooseList<SimEnd>,
}

// ---- strands

/// A strand: whose it is, its entries, and behind how many of them each ask was handed on, which is an item
/// of its own. A journal hands on none.
#[derive(Clone, Copy)]
struct Strand<'a> {
    of: Which,
    entries: &'a EntryList,
    asks: &'a [usize],
}

/// How many strands a record has: its journal, and a half for each trail.
fn strands(record: &Record<SimEnd>) -> usize {
    record.trails().len().saturating_add(1)
}

/// The strand of a side with this number.
fn strand_of<'a>(record: &'a Record<SimEnd>, of: Which, number: usize) -> Option<Strand<'a>> {
    if number == 0 {
        return Some(Strand {
            of,
            entries: record.journal(),
            asks: &[],
        });
    }
    let Some(trail) = record.trails().get(number - 1) else {
        return None;
    };
    Some(Strand {
        of,
        entries: &trail.entries,
        asks: trail.judged_after.as_slice(),
    })
}

/// The strand with this number.
fn strand_at<'a>(s: &Sides<'a>, number: usize) -> Option<Strand<'a>> {
    let near = strands(s.near.record);
    if number < near {
        return strand_of(s.near.record, Which::First, number);
    }
    let number = number - near;
    let far = strands(s.far.record);
    if number < far {
        return strand_of(s.far.record, Which::Second, number);
    }
    loose_strand(s, number - far)
}

/// The strand of a half that neither took: it is of the side that hasn't opened its socket, and has handed on
/// those asks that this side has judged.
fn loose_strand<'a>(s: &Sides<'a>, number: usize) -> Option<Strand<'a>> {
    let Some(half) = s.loose.get(number) else {
        return None;
    };
    let Some(wire) = s.wires.get(wire_of(s.wires, &half.id())) else {
        return None;
    };
    let record = match wire.opener {
        Which::First => s.far.record,
        Which::Second => s.near.record,
    };
    let judged = judgements(record.journal(), &half.id());
    let asks = half.trail().judged_after.as_slice();
    let (asks, _) = asks.split_at(asks.len().min(judged));
    Some(Strand {
        of: wire.opener.other(),
        entries: &half.trail().entries,
        asks,
    })
}

/// How many asks on a socket these entries judge.
fn judgements(entries: &EntryList, on: &SocketId) -> usize {
    let mut count: usize = 0;
    for e in entries.iter() {
        if let Entry::Judged {
            socket,
            ask: _,
            number: _,
            answer: _,
        } = e
        {
            if socket.is_same(on) {
                count = count.saturating_add(1);
            }
        }
    }
    count
}

/// How many items a strand has.
fn items(strand: &Strand<'_>) -> usize {
    strand.entries.len().saturating_add(strand.asks.len())
}

/// How many asks are handed on before this place of a strand.
fn asks_before(strand: &Strand<'_>, place: usize) -> usize {
    let mut count: usize = 0;
    for after in strand.asks {
        if after.saturating_add(count) < place {
            count = count.saturating_add(1);
        }
    }
    count
}

/// The entry at this place of a strand; none where an ask is handed on there.
fn entry_at(strand: &Strand<'_>, place: usize) -> Option<Entry> {
    let asked = asks_before(strand, place);
    if let Some(after) = strand.asks.get(asked) {
        if after.saturating_add(asked) == place {
            return None;
        }
    }
    strand.entries.get(place.saturating_sub(asked))
}

/// The place of a socket among these; behind all where it isn't there.
fn wire_of(wires: &[Wire], socket: &SocketId) -> usize {
    let mut place: usize = 0;
    for wire in wires {
        if wire.socket.is_same(socket) {
            return place;
        }
        place = place.saturating_add(1);
    }
    wires.len()
}

// ---- how far a walk has come

/// How many bytes an end has read and written.
#[derive(Clone, Copy)]
struct Moved {
    read: u64,
    wrote: u64,
}

/// How much the ends of both sides of a socket have.
#[derive(Clone, Copy)]
struct Flow {
    first: Moved,
    second: Moved,
}

/// How many items of each strand have come, and how much was read and written on each socket.
#[derive(Drop)]
struct Walk {
    come: Vec<usize>,
    flows: Vec<Flow>,
}

fn beginning(alloc: Global, s: &Sides<'_>) -> Result<Walk, NoMemory> {
    let none = Moved { read: 0, wrote: 0 };
    let flow = Flow {
        first: none,
        second: none,
    };
    let far = strands(s.near.record).saturating_add(strands(s.far.record));
    Ok(Walk {
        come: Vec::from_elem(alloc, 0, far.saturating_add(s.loose.len()))?,
        flows: Vec::from_elem(alloc, flow, s.wires.len())?,
    })
}

/// Notes that the next item of a strand has come. Whether it is this one.
fn come(walk: &mut Walk, step: &HistoryStep) -> bool {
    if step.strand >= walk.come.len() || walk.come[step.strand] != step.place {
        return false;
    }
    walk.come[step.strand] = step.place.saturating_add(1);
    true
}

/// The first so many entries of a strand.
fn first<'a>(strand: &Strand<'a>, count: usize) -> Entries<'a> {
    strand.entries.iter().front(count)
}

/// The entries of the journal of the other side than this that have come.
fn come_of_other<'a>(walk: &Walk, s: &Sides<'a>, at: Which) -> Entries<'a> {
    let (record, number) = match at {
        Which::First => (s.far.record, strands(s.near.record)),
        Which::Second => (s.near.record, 0),
    };
    let come = match walk.come.get(number) {
        Some(come) => *come,
        None => 0,
    };
    record.journal().iter().front(come)
}

// ---- bytes

/// So many bytes more.
fn and(a: Moved, b: Moved) -> Moved {
    Moved {
        read: a.read.saturating_add(b.read),
        wrote: a.wrote.saturating_add(b.wrote),
    }
}

/// The same where this side has read and written so many bytes more.
fn flowed(flow: Flow, at: Which, more: Moved) -> Flow {
    match at {
        Which::First => Flow {
            first: and(flow.first, more),
            second: flow.second,
        },
        Which::Second => Flow {
            first: flow.first,
            second: and(flow.second, more),
        },
    }
}

/// A side reads and writes so many bytes on a socket. Whether all that either side has read was written.
fn moves(walk: &mut Walk, s: &Sides<'_>, at: Which, socket: &SocketId, more: Moved) -> bool {
    let place = wire_of(s.wires, socket);
    if place >= walk.flows.len() {
        return false;
    }
    let flow = flowed(walk.flows[place], at, more);
    walk.flows[place] = flow;
    flow.first.read <= flow.second.wrote && flow.second.read <= flow.first.wrote
}

// ---- messages

/// Whether both are the same message, whatever numbers the runtime wrote into it.
fn is_same(a: &Message, b: &Message) -> bool {
    let named = a.header.tid == b.header.tid && a.header.kind == b.header.kind;
    let front = a.front.as_slice() == b.front.as_slice();
    let middle = a.middle.as_slice() == b.middle.as_slice();
    let tail = a.tail.as_slice() == b.tail.as_slice();
    named && a.header.priority == b.header.priority && front && middle && tail
}

/// The message that an entry posts, if it has this key.
fn posted_by<'a>(plan: &'a [PlanStep], e: &Entry, key: Key, fast: &FastSet) -> Option<&'a Message> {
    let Entry::Post { place } = e else {
        return None;
    };
    match plan.get(*place as usize) {
        Some(PlanStep::Post(message)) => {
            let path = Path::of(message.header.kind, fast);
            if message.header.priority == key.priority && path == key.path {
                Some(message)
            } else {
                None
            }
        }
        _ => None,
    }
}

/// The message of this key that these entries post behind so many others of it.
fn post<'a>(
    plan: &'a [PlanStep],
    posts: Entries<'_>,
    key: Key,
    behind: usize,
) -> Option<&'a Message> {
    let fast = fast_kinds();
    let mut left = behind;
    for e in posts {
        if let Some(message) = posted_by(plan, &e, key, &fast) {
            if left == 0 {
                return Some(message);
            }
            left -= 1;
        }
    }
    None
}

/// The message of this key that a dispatcher was called with behind so many others of it.
fn call<'a>(log: &'a LoggedList, key: Key, behind: usize) -> Option<&'a Message> {
    let mut left = behind;
    for call in log.as_slice() {
        if let Logged::Message {
            peer: _,
            key: its_key,
            number: _,
            life: _,
            message,
        } = call
        {
            if *its_key == key {
                if left == 0 {
                    return Some(message);
                }
                left -= 1;
            }
        }
    }
    None
}

/// How many messages of this key these entries accept.
fn acceptances(entries: Entries<'_>, key: Key) -> usize {
    let mut count: usize = 0;
    for e in entries {
        if let Entry::Accepted {
            number: _,
            key: its_key,
        } = e
        {
            if its_key == key {
                count = count.saturating_add(1);
            }
        }
    }
    count
}

/// The number of the last message that these entries accept, or 0.
fn last_accepted(entries: Entries<'_>) -> u64 {
    let mut last = 0;
    for e in entries {
        if let Entry::Accepted { number, key: _ } = e {
            last = number;
        }
    }
    last
}

/// The plan of the other side than this, and the log of this side's dispatcher for a path.
fn plan_and_log<'a>(s: &Sides<'a>, at: Which, path: Path) -> (&'a [PlanStep], &'a LoggedList) {
    let (from, to) = match at {
        Which::First => (&s.far, &s.near),
        Which::Second => (&s.near, &s.far),
    };
    let log = match path {
        Path::Fast => to.fast,
        Path::Queued => to.log,
    };
    (from.record.plan().as_slice(), log)
}

/// A side behind so many entries of its strand accepts a message of this key: whether it is the one that the other
/// posted next of it, and that its dispatcher was called with next.
fn is_next(walk: &Walk, s: &Sides<'_>, strand: &Strand<'_>, place: usize, key: Key) -> bool {
    let behind = acceptances(first(strand, place), key);
    let (plan, log) = plan_and_log(s, strand.of, key.path);
    match (
        post(plan, come_of_other(walk, s, strand.of), key, behind),
        call(log, key, behind),
    ) {
        (Some(posted), Some(dispatched)) => is_same(posted, dispatched),
        _ => false,
    }
}

// ---- the walk

/// Whether what an entry says is so where it comes, behind so many of its strand.
fn fits(walk: &mut Walk, s: &Sides<'_>, strand: &Strand<'_>, place: usize, e: &Entry) -> bool {
    match e {
        Entry::Read { socket, count } => {
            let more = Moved {
                read: u64::from(*count),
                wrote: 0,
            };
            moves(walk, s, strand.of, socket, more)
        }
        Entry::Wrote { socket, count } => {
            let more = Moved {
                read: 0,
                wrote: u64::from(*count),
            };
            moves(walk, s, strand.of, socket, more)
        }
        Entry::Accepted { number, key } => {
            let last = last_accepted(first(strand, place));
            *number == last.saturating_add(1) && is_next(walk, s, strand, place, *key)
        }
        Entry::Acked { number } => *number <= last_accepted(come_of_other(walk, s, strand.of)),
        _ => true,
    }
}

/// Whether the next item of its strand comes, and is so.
fn goes_on(walk: &mut Walk, s: &Sides<'_>, step: &HistoryStep) -> bool {
    let Some(strand) = strand_at(s, step.strand) else {
        return false;
    };
    if !come(walk, step) || step.place >= items(&strand) {
        return false;
    }
    let Some(e) = entry_at(&strand, step.place) else {
        return true;
    };
    fits(walk, s, &strand, step.place, &e)
}

/// Whether all items have come.
fn is_over(walk: &Walk, s: &Sides<'_>) -> bool {
    for number in 0..walk.come.len() {
        match strand_at(s, number) {
            Some(strand) if items(&strand) == walk.come[number] => {}
            _ => return false,
        }
    }
    true
}

/// Whether these steps are all items of both sides and of the halves, in an order in which each is so.
pub(crate) fn is_in_order(
    alloc: Global,
    s: &Sides<'_>,
    steps: &[HistoryStep],
) -> Result<bool, NoMemory> {
    let mut walk = beginning(alloc, s)?;
    for step in steps {
        if !goes_on(&mut walk, s, step) {
            return Ok(false);
        }
    }
    Ok(is_over(&walk, s))
}

// ---- the bytes themselves

/// What the end of a record on a socket did.
fn end_of<'a>(record: &'a Record<SimEnd>, socket: &SocketId) -> Option<&'a EndLog> {
    if let Some(end) = record.feed() {
        if end.id().is_same(socket) {
            return Some(end.log());
        }
    }
    for end in record.spent() {
        if end.id().is_same(socket) {
            return Some(end.log());
        }
    }
    None
}

/// What the half on a socket did that neither took.
fn half_of<'a>(loose: &'a LooseList<SimEnd>, socket: &SocketId) -> Option<&'a EndLog> {
    for half in loose.as_slice() {
        if half.id().is_same(socket) {
            return Some(half.end().log());
        }
    }
    None
}

/// Whether what either end of a socket got is the first part of what the other put.
fn is_carried(s: &Sides<'_>, wire: &Wire) -> bool {
    let (opener, acceptor) = match wire.opener {
        Which::First => (s.near.record, s.far.record),
        Which::Second => (s.far.record, s.near.record),
    };
    let accepted = end_of(acceptor, &wire.socket).or(half_of(s.loose, &wire.socket));
    match (end_of(opener, &wire.socket), accepted) {
        (Some(one), Some(other)) => {
            let ahead = one.put.as_slice().starts_with(other.got.as_slice());
            ahead && other.put.as_slice().starts_with(one.got.as_slice())
        }
        _ => false,
    }
}

/// Whether it is so on all sockets.
pub(crate) fn are_carried(s: &Sides<'_>) -> bool {
    for wire in s.wires {
        if !is_carried(s, wire) {
            return false;
        }
    }
    true
}
