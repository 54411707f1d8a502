//! Two sides made by hand: the near one opens a socket that breaks and then another, on which the far one
//! judges an ask; and what comes where a byte or an ask isn't what it should be.

ghost use Rattle.std.specs.Prelude.{◌≡◌, false, IfOk};

use crate::journals::journal;
use m2_bytes::{Items, NoMemory};
use m2_fabric::{End, EndRead, EndWrite, News, SimEnd, SocketId};
use m2_history::{History, Parts, PartsFault, weave_parts};
use m2_journal::{Entry, EntryList, JudgedItem};
use m2_session::{Answer, AskFacts};
use m2_trail::{Incoming, LooseList, Trail};
use m2_weave::{Unfit, Why};
use std::alloc::Global;

/// The socket of this turn between two nodes.
fn socket(turn: u32) -> SocketId {
    SocketId {
        from_ip: 1,
        from_port: 40000,
        to_ip: 2,
        to_port: 7001,
        turn,
    }
}

fn read(turn: u32, count: u32) -> Entry {
    Entry::Read {
        socket: socket(turn),
        count,
    }
}

fn wrote(turn: u32, count: u32) -> Entry {
    Entry::Wrote {
        socket: socket(turn),
        count,
    }
}

fn opened(turn: u32) -> Entry {
    Entry::Opened {
        socket: socket(turn),
    }
}

fn closed(turn: u32) -> Entry {
    Entry::Closed {
        socket: socket(turn),
    }
}

/// An ident, as it is accepted.
fn accepted() -> JudgedItem {
    JudgedItem {
        ask: AskFacts {
            ident: true,
            client: 1,
            server: 0,
            global: 1,
            connect: 0,
            seen: 0,
        },
        answer: Answer::Accept,
    }
}

fn judged(turn: u32) -> Entry {
    let item = accepted();
    Entry::Judged {
        socket: socket(turn),
        ask: item.ask,
        number: 1,
        answer: item.answer,
    }
}

/// An end that got these bytes in one read.
fn got(alloc: Global, turn: u32, bytes: &[u8]) -> Result<SimEnd, NoMemory>
    ensures { IfOk result (λ e. e.log.closed ≡ false) }
{
    let mut end = SimEnd::new(alloc, socket(turn));
    end.hear(bytes, News::Flow)?;
    let mut piece = [0; 8];
    match end.read(&mut piece) {
        EndRead::NoMemory => Err(NoMemory),
        _ => Ok(end),
    }
}

/// An end that got these bytes in one read, and then put those in one write.
fn end(alloc: Global, turn: u32, bytes: &[u8], put: &[u8]) -> Result<SimEnd, NoMemory> {
    let mut end = got(alloc, turn, bytes)?;
    if put.is_empty() {
        return Ok(end);
    }
    match end.write(put) {
        EndWrite::NoMemory => Err(NoMemory),
        _ => Ok(end),
    }
}

/// A half that neither side took, which got these bytes.
fn loose(alloc: Global, turn: u32, bytes: &[u8]) -> Result<LooseList<SimEnd>, NoMemory> {
    let mut halves = Items::empty(alloc);
    let Ok(mut half) = Incoming::new(alloc, SimEnd::new(alloc, socket(turn)), 4) else {
        return Err(NoMemory);
    };
    half.hear(bytes, News::Flow)?;
    let mut piece = [0; 8];
    half.read(&mut piece);
    match halves.push(half.leave()) {
        Ok(()) => Ok(halves),
        Err(_) => Err(NoMemory),
    }
}

/// The half of the second socket reads an ask of two bytes, and hands it on behind so many entries.
fn taken(alloc: Global, judged_after: &[usize]) -> Result<Trail, NoMemory> {
    let mut after = Vec::new(alloc);
    after.extend_from_slice(judged_after)?;
    Ok(Trail {
        socket: socket(2),
        entity: 4,
        entries: journal(alloc, &[read(2, 2)])?,
        judged: Items::from_vec(Vec::from_array(alloc, [accepted()])?),
        judged_after: Items::from_vec(after),
    })
}

/// What both sides lend: the near side's ends, the far one's with its half, and the half that neither took.
#[derive(Drop)]
struct Lent {
    near_feed: SimEnd,
    near_spent: Vec<SimEnd>,
    far_feed: SimEnd,
    trails: Vec<Trail>,
    halves: LooseList<SimEnd>,
}

/// The near side has put these bytes on the second socket, the far side's half has got those, and handed on
/// its ask behind so many entries.
fn both_sides(
    alloc: Global,
    put: &[u8],
    bytes: &[u8],
    judged_after: &[usize],
) -> Result<Lent, NoMemory> {
    Ok(Lent {
        near_feed: end(alloc, 2, &[7], put)?,
        near_spent: Vec::from_array(alloc, [end(alloc, 1, &[], &[1, 2, 3, 4])?])?,
        far_feed: end(alloc, 2, bytes, &[7])?,
        trails: Vec::from_array(alloc, [taken(alloc, judged_after)?])?,
        halves: loose(alloc, 1, &[1, 2, 3])?,
    })
}

/// These journals with what both sides lend, woven: the far side first.
fn weave_lent(
    alloc: Global,
    near: &EntryList,
    far: &EntryList,
    s: &Lent,
) -> Result<History, PartsFault> {
    let a = Parts::of(far, s.trails.as_slice(), Some(&s.far_feed), &[]);
    let b = Parts::of(near, &[], Some(&s.near_feed), s.near_spent.as_slice());
    weave_parts(alloc, &a, &b, &s.halves)
}

/// What comes of weaving that; so many bytes is what the near side has put. Where no ask was handed on the
/// near side doesn't read the answer.
fn woven(
    alloc: Global,
    put: &[u8],
    count: u32,
    bytes: &[u8],
    judged_after: &[usize],
) -> Result<Result<History, PartsFault>, NoMemory> {
    let s = both_sides(alloc, put, bytes, judged_after)?;
    let near = [
        opened(1),
        wrote(1, 4),
        closed(1),
        opened(2),
        wrote(2, count),
        read(2, 1),
    ];
    let far = journal(alloc, &[judged(2), wrote(2, 1)])?;
    if judged_after.is_empty() {
        let (unanswered, _) = near.split_at(5);
        return Ok(weave_lent(alloc, &journal(alloc, unanswered)?, &far, &s));
    }
    Ok(weave_lent(alloc, &journal(alloc, &near)?, &far, &s))
}

/// Where in a history this entry of this strand comes; behind all where it doesn't come.
fn at(h: &History, strand: usize, place: usize) -> usize {
    for n in 0..h.steps.len() {
        if let Some(step) = h.steps.get(n) {
            if step.strand == strand && step.place == place {
                return n;
            }
        }
    }
    h.steps.len()
}

/// Of so many items, in an order of their bytes and asks. The strands are the far journal, its half, the near
/// journal, and the loose half.
fn is_in_order(h: &History) -> bool {
    let count = h.steps.len() == 11;
    let whole = at(h, 0, 1) < 11 && at(h, 1, 1) < 11 && at(h, 2, 5) < 11 && at(h, 3, 0) < 11;
    let first = at(h, 2, 1) < at(h, 3, 0);
    let ask = at(h, 2, 4) < at(h, 1, 0) && at(h, 1, 0) < at(h, 1, 1) && at(h, 1, 1) < at(h, 0, 0);
    let answer = at(h, 0, 0) < at(h, 0, 1) && at(h, 0, 1) < at(h, 2, 5);
    count && whole && first && ask && answer
}

/// A byte that the far side has read on the second socket.
fn unfit(place: u64, why: Why) -> PartsFault {
    PartsFault::Unfit(Unfit {
        socket: socket(2),
        opener: false,
        place,
        why,
    })
}

/// Why it isn't woven, where it isn't.
fn fault_of(found: Result<History, PartsFault>) -> Option<PartsFault> {
    match found {
        Ok(_) => None,
        Err(fault) => Some(fault),
    }
}

#[test]
fn a_fault_and_a_reconnect_are_woven(rt: HostRuntime) -> Result<(), NoMemory> {
    let found = woven(rt.alloc(), &[5, 6], 2, &[5, 6], &[1])?;
    assert!(rt; matches!(&found, Ok(h) if is_in_order(h)));
    Ok(())
}

#[test]
fn what_does_not_fit_is_named(rt: HostRuntime) -> Result<(), NoMemory> {
    let alloc = rt.alloc();
    let changed = fault_of(woven(alloc, &[5, 6], 2, &[5, 9], &[1])?);
    let cut_off = fault_of(woven(alloc, &[5], 1, &[5, 6], &[1])?);
    let unasked = fault_of(woven(alloc, &[5, 6], 2, &[5, 6], &[])?);
    assert!(rt; changed == Some(unfit(1, Why::Differs { got: 9, put: 6 })));
    assert!(rt; cut_off == Some(unfit(1, Why::Beyond { got: 6 })));
    assert!(rt; unasked == Some(PartsFault::Waits));
    Ok(())
}
