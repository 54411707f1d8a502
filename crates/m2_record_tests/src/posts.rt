//! From nothing to Ready, and a post.

use crate::driving::{ALL, one_over, outcome_of, post, ready, round, rounds};
use m2_fabric::{End, SocketId};
use m2_journal::{Entry, EntryList};
use m2_record_trace::{Pair, Which};
use std::test::Fail;

/// Two sides that have done nothing come to Ready, and a post is dispatched once and acknowledged.
#[test]
fn a_post_is_dispatched_once(rt: HostRuntime) {
    let alloc = rt.alloc();
    let mut p = ready(alloc);
    let posted = post(alloc, &mut p);
    rounds(&mut p, 0, 6, 12);
    let outcome = outcome_of(p);
    assert!(rt; posted);
    assert_eq!(rt; outcome, one_over(1));
}

/// A socket fails after fifty bytes of a message: what was granted for it is given back, and it is dispatched once on the next.
#[test]
fn a_message_whose_socket_fails_in_its_midst_is_dispatched_once(rt: HostRuntime) {
    let alloc = rt.alloc();
    let mut p = ready(alloc);
    let posted = post(alloc, &mut p);
    round(&mut p, 0, 50, 6);
    let at_fault = p.out(Which::Second);
    p.fault(Which::Second, 0);
    p.turn(Which::Second, 7, 200);
    let behind = p.out(Which::Second);
    rounds(&mut p, 0, 8, 30);
    let outcome = outcome_of(p);
    assert!(rt; posted);
    assert_eq!(rt; (at_fault, behind), (100, 0));
    assert_eq!(rt; outcome, one_over(2));
}

/// The socket of the last read of a journal, where it has one.
fn last_read(journal: &EntryList) -> Option<SocketId> {
    let mut last = None;
    for e in journal.iter() {
        if let Entry::Read { socket, count: _ } = e {
            last = Some(socket);
        }
    }
    last
}

/// Whether the second side has one end that was its feed, that of the first socket, which is closed; and whether it has read the
/// second socket last.
fn has_changed_over(p: &Pair) -> (bool, bool) {
    let record = p.side(Which::Second).record();
    match (record.spent(), p.wires()) {
        ([end], [old, new]) => (
            end.log().closed && end.id() == old.socket,
            last_read(record.journal()) == Some(new.socket),
        ),
        _ => (false, false),
    }
}

/// The first side's end fails and the second hears nothing of it: the next socket is asked while the second is ready, and is
/// taken. Its old end is closed, and it goes on reading on the new socket.
#[test]
fn an_ask_that_comes_in_ready_is_taken(rt: HostRuntime) {
    let alloc = rt.alloc();
    let mut p = ready(alloc);
    let posted = post(alloc, &mut p);
    p.fault(Which::First, 0);
    rounds(&mut p, 1, 6, 30);
    let changed = has_changed_over(&p);
    let outcome = outcome_of(p);
    assert!(rt; posted);
    assert_eq!(rt; changed, (true, true));
    assert_eq!(rt; outcome, one_over(2));
}
