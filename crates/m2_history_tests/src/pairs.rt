//! Two journals with what halves did before: one that fits, and ones that don't.

use crate::journals::journal;
use m2_bytes::NoMemory;
use m2_fabric::SocketId;
use m2_journal::{Entry, EntryList};
use m2_session::{Answer, AskFacts};
use m2_weave::{
    EndBytes, SocketBytes, SocketTable, Strand, Unfit, Why, WovenOrder, are_named, first_stop,
    weave,
};
use std::alloc::Global;

/// The socket of this turn between two nodes.
fn socket(turn: u32) -> SocketId {
    SocketId {
        from_ip: 1,
        from_port: 40000,
        to_ip: 2,
        to_port: 7001,
        turn,
    }
}

fn read(turn: u32, count: u32) -> Entry {
    Entry::Read {
        socket: socket(turn),
        count,
    }
}

fn wrote(turn: u32, count: u32) -> Entry {
    Entry::Wrote {
        socket: socket(turn),
        count,
    }
}

fn opened(turn: u32) -> Entry {
    Entry::Opened {
        socket: socket(turn),
    }
}

fn closed(turn: u32) -> Entry {
    Entry::Closed {
        socket: socket(turn),
    }
}

/// An ident that was judged, and accepted.
fn judged(turn: u32) -> Entry {
    Entry::Judged {
        socket: socket(turn),
        ask: AskFacts {
            ident: true,
            client: 1,
            server: 0,
            global: 1,
            connect: 0,
            seen: 0,
        },
        number: 1,
        answer: Answer::Accept,
    }
}

/// What the two ends of a socket have read and written: the opener's, and the acceptor's.
fn bytes<'a>(
    turn: u32,
    opener: (&'a [u8], &'a [u8]),
    acceptor: (&'a [u8], &'a [u8]),
) -> SocketBytes<'a> {
    SocketBytes {
        socket: socket(turn),
        opener: EndBytes {
            got: opener.0,
            put: opener.1,
        },
        acceptor: EndBytes {
            got: acceptor.0,
            put: acceptor.1,
        },
    }
}

/// The order of these strands; none where a socket isn't in the table.
fn woven(
    alloc: Global,
    strands: &[Strand<'_>],
    sockets: &[SocketBytes<'_>],
) -> Result<Option<WovenOrder>, NoMemory> {
    let table = SocketTable::of(alloc, sockets)?;
    if !are_named(strands, &table) {
        return Ok(None);
    }
    Ok(Some(weave(alloc, strands, &table)?))
}

fn is(a: &[usize], b: &[usize]) -> bool {
    a == b
}

/// Whether the order is this one, and all of it.
fn is_whole(found: &Option<WovenOrder>, order: &[usize]) -> bool {
    match found {
        Some(w) => w.whole && is(w.order.as_slice(), order),
        None => false,
    }
}

/// Whether it stops behind so many items of each strand.
fn stops(found: &Option<WovenOrder>, at: &[usize]) -> bool {
    match found {
        Some(w) => !w.whole && is(w.at.as_slice(), at),
        None => false,
    }
}

/// The other side's half reads an ask in two pieces and writes one byte.
fn half(alloc: Global) -> Result<EntryList, NoMemory> {
    journal(alloc, &[read(1, 2), read(1, 2), wrote(1, 1)])
}

/// Its journal judges the ask and writes two more.
fn far(alloc: Global) -> Result<EntryList, NoMemory> {
    journal(alloc, &[judged(1), wrote(1, 2)])
}

/// The strands of the opener's journal, the other journal and the half, which hands on its ask behind so
/// many entries.
fn pair<'a>(
    alloc: Global,
    near: &'a EntryList,
    far: &'a EntryList,
    half: &'a EntryList,
    judged_after: &'a [usize],
) -> Result<Vec<Strand<'a>>, NoMemory> {
    let near = Strand::Journal { entries: near };
    let far = Strand::Journal { entries: far };
    let half = Strand::Half {
        socket: socket(1),
        entries: half,
        judged_after,
    };
    Ok(Vec::from_array(alloc, [near, far, half])?)
}

/// What stops the order behind so many items of each strand, if there are as many strands.
fn stop(
    alloc: Global,
    strands: &[Strand<'_>],
    sockets: &[SocketBytes<'_>],
    at: &[usize],
) -> Result<Option<Unfit>, NoMemory> {
    if at.len() != strands.len() {
        return Ok(None);
    }
    let table = SocketTable::of(alloc, sockets)?;
    first_stop(strands, &table, at)
}

/// Whether a read of the acceptor stops the order: the byte at this place is wrong so.
fn is_at(found: Result<Option<Unfit>, NoMemory>, place: u64, why: Why) -> bool {
    let at = Unfit {
        socket: socket(1),
        opener: false,
        place,
        why,
    };
    match found {
        Ok(Some(unfit)) => unfit == at,
        _ => false,
    }
}

#[test]
fn a_pair_is_woven_in_the_order_of_its_bytes(rt: HostRuntime) -> Result<(), NoMemory> {
    let alloc = rt.alloc();
    let near = journal(alloc, &[opened(1), wrote(1, 4), read(1, 3)])?;
    let (far, half) = (far(alloc)?, half(alloc)?);
    let strands = pair(alloc, &near, &far, &half, &[2])?;
    let sockets = [bytes(1, (&[7, 8, 9], &[1, 2, 3, 4]), (&[1, 2, 3, 4], &[7, 8, 9]))];
    let found = woven(alloc, &strands, &sockets)?;
    assert!(rt; is_whole(&found, &[0, 0, 2, 2, 2, 1, 2, 1, 0]));
    assert!(rt; matches!(stop(alloc, &strands, &sockets, &[3, 2, 4]), Ok(None)));
    Ok(())
}

#[test]
fn a_changed_byte_stops_it_before_its_read(rt: HostRuntime) -> Result<(), NoMemory> {
    let alloc = rt.alloc();
    let near = journal(alloc, &[opened(1), wrote(1, 4)])?;
    let (far, half) = (far(alloc)?, half(alloc)?);
    let strands = pair(alloc, &near, &far, &half, &[2])?;
    let sockets = [bytes(1, (&[7, 8, 9], &[1, 2, 3, 4]), (&[1, 2, 9, 4], &[7, 8, 9]))];
    let found = woven(alloc, &strands, &sockets)?;
    assert!(rt; stops(&found, &[2, 0, 1]));
    let found = stop(alloc, &strands, &sockets, &[2, 0, 1]);
    assert!(rt; is_at(found, 2, Why::Differs { got: 9, put: 3 }));
    Ok(())
}

#[test]
fn a_byte_that_was_not_written_stops_it_before_its_read(rt: HostRuntime) -> Result<(), NoMemory> {
    let alloc = rt.alloc();
    let near = journal(alloc, &[opened(1), wrote(1, 3)])?;
    let (far, half) = (far(alloc)?, half(alloc)?);
    let strands = pair(alloc, &near, &far, &half, &[2])?;
    let sockets = [bytes(1, (&[7, 8, 9], &[1, 2, 3]), (&[1, 2, 3, 4], &[7, 8, 9]))];
    let found = woven(alloc, &strands, &sockets)?;
    assert!(rt; stops(&found, &[2, 0, 1]));
    let found = stop(alloc, &strands, &sockets, &[2, 0, 1]);
    assert!(rt; is_at(found, 3, Why::Beyond { got: 4 }));
    Ok(())
}

#[test]
fn a_judgement_without_its_ask_stops_it(rt: HostRuntime) -> Result<(), NoMemory> {
    let alloc = rt.alloc();
    let near = journal(alloc, &[opened(1), wrote(1, 4), read(1, 3)])?;
    let (far, half) = (far(alloc)?, half(alloc)?);
    let strands = pair(alloc, &near, &far, &half, &[])?;
    let sockets = [bytes(1, (&[7, 8, 9], &[1, 2, 3, 4]), (&[1, 2, 3, 4], &[7, 8, 9]))];
    let found = woven(alloc, &strands, &sockets)?;
    assert!(rt; stops(&found, &[2, 0, 3]));
    Ok(())
}

#[test]
fn a_fault_and_a_reconnect_are_woven(rt: HostRuntime) -> Result<(), NoMemory> {
    let alloc = rt.alloc();
    let near = journal(
        alloc,
        &[
            opened(1),
            wrote(1, 4),
            closed(1),
            opened(2),
            wrote(2, 2),
            read(2, 1),
        ],
    )?;
    let far = journal(alloc, &[judged(2), wrote(2, 1)])?;
    let first = journal(alloc, &[read(1, 3), closed(1)])?;
    let second = journal(alloc, &[read(2, 2)])?;
    let near = Strand::Journal { entries: &near };
    let far = Strand::Journal { entries: &far };
    let first = Strand::Half {
        socket: socket(1),
        entries: &first,
        judged_after: &[],
    };
    let second = Strand::Half {
        socket: socket(2),
        entries: &second,
        judged_after: &[1],
    };
    let strands = Vec::from_array(alloc, [near, far, first, second])?;
    let sockets = [
        bytes(1, (&[], &[1, 2, 3, 4]), (&[1, 2, 3], &[])),
        bytes(2, (&[7], &[5, 6]), (&[5, 6], &[7])),
    ];
    let found = woven(alloc, &strands, &sockets)?;
    let whole = match &found {
        Some(w) => w.whole && is(w.at.as_slice(), &[6, 2, 2, 2]),
        None => false,
    };
    assert!(rt; whole);
    Ok(())
}

#[test]
fn a_socket_that_is_not_in_the_table_is_told(rt: HostRuntime) -> Result<(), NoMemory> {
    let alloc = rt.alloc();
    let near = journal(alloc, &[wrote(1, 1)])?;
    let strands = Vec::from_array(alloc, [Strand::Journal { entries: &near }])?;
    assert!(rt; !are_named(&strands, &SocketTable::of(alloc, &[])?));
    Ok(())
}
