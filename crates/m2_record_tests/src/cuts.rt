//! A socket that breaks at each of many places.

use crate::driving::{ALL, Outcome, outcome_of, pair, post, round, rounds};
use m2_fabric::News;
use m2_record_trace::{Pair, Which};
use std::alloc::Global;

/// How many bytes have flowed from the first side on the first socket.
fn ahead(p: &Pair) -> usize {
    match p.wires() {
        [] => 0,
        [wire, ..] => wire.ahead,
    }
}

/// One post, whose first socket breaks so for this side once so many bytes of what the first writes have flowed, in pieces of
/// so many. How many bytes are out at that side behind its next turn, and what the pair came to.
fn cut_at(alloc: Global, cut: usize, piece: usize, at: Which, news: News) -> (u64, Outcome) {
    let mut p = pair(alloc, 1000, 0);
    let _posted = post(alloc, &mut p);
    'pieces: for now in 0..1500 {
        let flowed = ahead(&p);
        if flowed >= cut {
            break;
        }
        round(&mut p, 0, piece.min(cut - flowed), now);
    }
    let _told = p.hear(at, 0, b"", news);
    p.turn(at, 1500, 200);
    let behind = p.out(at);
    rounds(&mut p, 0, 1501, 1560);
    (behind, outcome_of(p))
}

/// Whether the post was dispatched once and acknowledged, and nothing is granted any more.
fn is_dispatched_once(found: &(u64, Outcome)) -> bool {
    let (behind, outcome) = found;
    *behind == 0 && outcome.dispatched == (1, 1) && outcome.acked == 1 && outcome.out == (0, 0)
}

/// Whether it was so at each of these places, so far apart, with the first socket broken so.
fn all_dispatched_once(
    alloc: Global,
    places: usize,
    apart: usize,
    piece: usize,
    at: Which,
    news: News,
) -> bool {
    'places: for place in 0..places.min(1000) {
        if !is_dispatched_once(&cut_at(alloc, place * apart.min(1000), piece, at, news)) {
            return false;
        }
    }
    true
}

/// At each point of the handshake and of a message, whichever side finds the socket broken or ended.
#[test]
fn a_post_is_dispatched_once_wherever_its_first_socket_breaks(rt: HostRuntime) {
    let alloc = rt.alloc();
    assert!(rt; all_dispatched_once(alloc, 40, 17, ALL, Which::Second, News::Failed));
    assert!(rt; all_dispatched_once(alloc, 40, 17, ALL, Which::Second, News::Ended));
    assert!(rt; all_dispatched_once(alloc, 40, 17, ALL, Which::First, News::Failed));
    assert!(rt; all_dispatched_once(alloc, 40, 17, ALL, Which::First, News::Ended));
    assert!(rt; all_dispatched_once(alloc, 4, 211, 1, Which::Second, News::Failed));
}
