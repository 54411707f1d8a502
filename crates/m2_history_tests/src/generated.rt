//! Generated pairs: the journals of an opener and of an acceptor over one socket, whose bytes fit, and the
//! same with one byte changed.

use crate::journals::add;
use m2_bytes::NoMemory;
use m2_fabric::SocketId;
use m2_journal::{Entry, EntryList};
use m2_weave::{
    EndBytes, SocketBytes, SocketTable, Strand, Unfit, Why, are_named, first_stop, weave,
};
use std::alloc::Global;

/// The one socket.
fn socket() -> SocketId {
    SocketId {
        from_ip: 1,
        from_port: 40000,
        to_ip: 2,
        to_port: 7001,
        turn: 1,
    }
}

/// The next word of a fixed sequence.
fn next_word(word: u64) -> u64 {
    word.wrapping_mul(6364136223846793005)
        .wrapping_add(1442695040888963407)
}

/// A number below eight.
fn below_eight(word: u64) -> u32 {
    (word >> 61) as u32
}

/// Two journals, and how many bytes each side has written and read.
#[derive(Drop)]
struct Pair {
    opener: EntryList,
    acceptor: EntryList,
    opener_put: u32,
    opener_got: u32,
    acceptor_put: u32,
    acceptor_got: u32,
}

fn nothing_yet(alloc: Global) -> Pair {
    Pair {
        opener: EntryList::empty(alloc),
        acceptor: EntryList::empty(alloc),
        opener_put: 0,
        opener_got: 0,
        acceptor_put: 0,
        acceptor_got: 0,
    }
}

/// Appends a read or a write of so many bytes, if there are any.
fn note(entries: &mut EntryList, reads: bool, count: u32) -> Result<(), NoMemory> {
    if count == 0 {
        return Ok(());
    }
    let socket = socket();
    let entry = if reads {
        Entry::Read { socket, count }
    } else {
        Entry::Wrote { socket, count }
    };
    add(entries, entry)
}

/// One more thing happens: a side writes, or reads some of what the other has written by then.
fn go_on(pair: &mut Pair, kind: u32, count: u32) -> Result<(), NoMemory> {
    if kind < 2 {
        note(&mut pair.opener, false, count)?;
        pair.opener_put = pair.opener_put.saturating_add(count);
        return Ok(());
    }
    if kind < 4 {
        note(&mut pair.acceptor, false, count)?;
        pair.acceptor_put = pair.acceptor_put.saturating_add(count);
        return Ok(());
    }
    if kind < 6 {
        let count = count.min(pair.acceptor_put.saturating_sub(pair.opener_got));
        note(&mut pair.opener, true, count)?;
        pair.opener_got = pair.opener_got.saturating_add(count);
        return Ok(());
    }
    let count = count.min(pair.opener_put.saturating_sub(pair.acceptor_got));
    note(&mut pair.acceptor, true, count)?;
    pair.acceptor_got = pair.acceptor_got.saturating_add(count);
    Ok(())
}

/// Forty things that happen, by the words that follow this one.
fn generated(alloc: Global, seed: u64) -> Result<Pair, NoMemory> {
    let mut pair = nothing_yet(alloc);
    add(&mut pair.opener, Entry::Opened { socket: socket() })?;
    let mut word = seed;
    for _ in 0..40u32 {
        let kind = below_eight(word);
        word = next_word(word);
        go_on(&mut pair, kind, below_eight(word))?;
        word = next_word(word);
    }
    Ok(pair)
}

/// So many bytes, of which the one at a place is another one.
fn bytes(alloc: Global, count: u32, changed: u32) -> Result<Vec<u8>, NoMemory> {
    let mut all = Vec::new(alloc);
    for i in 0..count {
        let byte = (i % 251) as u8;
        all.push(if i == changed { byte ^ 255 } else { byte })?;
    }
    Ok(all)
}

/// Whether an order has all entries of both, and each read comes behind the writes of its bytes: replayed
/// by four counts.
fn is_fitting(order: &[usize], acceptor: &EntryList, opener: &EntryList) -> bool {
    let mut places = (0usize, 0usize);
    let mut put = (0u32, 0u32);
    let mut got = (0u32, 0u32);
    for strand in order {
        let entry = if *strand == 0 {
            acceptor.get(places.0)
        } else {
            opener.get(places.1)
        };
        let (reads, count) = match entry {
            Some(Entry::Read { socket: _, count }) => (true, count),
            Some(Entry::Wrote { socket: _, count }) => (false, count),
            Some(_) => (false, 0),
            None => return false,
        };
        if *strand == 0 {
            places.0 = places.0.saturating_add(1);
            if reads {
                got.0 = got.0.saturating_add(count);
            } else {
                put.0 = put.0.saturating_add(count);
            }
        } else {
            places.1 = places.1.saturating_add(1);
            if reads {
                got.1 = got.1.saturating_add(count);
            } else {
                put.1 = put.1.saturating_add(count);
            }
        }
        if got.0 > put.1 || got.1 > put.0 {
            return false;
        }
    }
    places.0 == acceptor.len() && places.1 == opener.len()
}

/// What is found of a pair whose acceptor has read another byte at a place, if it has read as many: an
/// order of all that fits, or that very byte.
fn is_found(alloc: Global, pair: &Pair, changed: u32) -> Result<bool, NoMemory> {
    let opener_put = bytes(alloc, pair.opener_put, u32::MAX)?;
    let opener_got = bytes(alloc, pair.opener_got, u32::MAX)?;
    let acceptor_put = bytes(alloc, pair.acceptor_put, u32::MAX)?;
    let acceptor_got = bytes(alloc, pair.acceptor_got, changed)?;
    let sockets = [SocketBytes {
        socket: socket(),
        opener: EndBytes {
            got: opener_got.as_slice(),
            put: opener_put.as_slice(),
        },
        acceptor: EndBytes {
            got: acceptor_got.as_slice(),
            put: acceptor_put.as_slice(),
        },
    }];
    let table = SocketTable::of(alloc, &sockets)?;
    let acceptor = Strand::Journal {
        entries: &pair.acceptor,
    };
    let opener = Strand::Journal {
        entries: &pair.opener,
    };
    let strands = Vec::from_array(alloc, [acceptor, opener])?;
    if !are_named(&strands, &table) {
        return Ok(false);
    }
    let woven = weave(alloc, &strands, &table)?;
    if changed >= pair.acceptor_got {
        let order = woven.order.as_slice();
        return Ok(woven.whole && is_fitting(order, &pair.acceptor, &pair.opener));
    }
    if woven.whole {
        return Ok(false);
    }
    is_that_byte(&strands, &table, woven.at.as_slice(), changed)
}

/// Whether what stands in the way at these places is the acceptor's byte at this one, which was changed.
fn is_that_byte(
    strands: &[Strand<'_>],
    table: &SocketTable<'_>,
    at: &[usize],
    changed: u32,
) -> Result<bool, NoMemory> {
    if at.len() != strands.len() {
        return Ok(false);
    }
    let put = (changed % 251) as u8;
    let expected = Unfit {
        socket: socket(),
        opener: false,
        place: u64::from(changed),
        why: Why::Differs {
            got: put ^ 255,
            put,
        },
    };
    Ok(first_stop(strands, table, at)? == Some(expected))
}

#[test]
fn generated_pairs_are_woven(rt: HostRuntime) -> Result<(), NoMemory> {
    let alloc = rt.alloc();
    for seed in 0..150u64 {
        let pair = generated(alloc, next_word(seed))?;
        assert!(rt; is_found(alloc, &pair, u32::MAX)?);
    }
    Ok(())
}

#[test]
fn a_changed_byte_of_generated_pairs_is_named(rt: HostRuntime) -> Result<(), NoMemory> {
    let alloc = rt.alloc();
    for seed in 0..150u64 {
        let pair = generated(alloc, next_word(seed))?;
        let changed = below_eight(next_word(next_word(seed)));
        assert!(rt; is_found(alloc, &pair, changed)?);
    }
    Ok(())
}
