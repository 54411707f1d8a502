//! Halves of a center: how many there are, and what comes of sockets beyond them; and at which thread a peer is at home.

ghost use Rattle.std.specs.Prelude.{◌≡◌, []};

use crate::planned::at;
use m2_addr::Addr;
use m2_center::{half_log, home};
use m2_fabric::{Port, SimEnd, SimPort, SocketId};
use m2_turn::{Accepted, MOST_HALVES, Pendings, accept_all, leave_all};
use std::alloc::Global;
use std::process::Abort;

/// The socket of that turn from one address to another.
fn socket(turn: u32) -> SocketId {
    SocketId {
        from_ip: at(2).ip,
        from_port: at(2).port,
        to_ip: at(1).ip,
        to_port: at(1).port,
        turn,
    }
}

/// A socket comes to the port, where it waits.
fn comes(rt: &impl Abort, port: &mut SimPort, turn: u32) {
    if port.incoming(socket(turn)).is_err() {
        panic!(rt; "no memory for a socket");
    }
}

/// No half yet.
fn none(rt: &impl Abort, alloc: Global) -> Pendings<SimEnd>
    ensures { result ≡ [] }
{
    match Pendings::new(alloc) {
        Ok(halves) => halves,
        Err(_) => panic!(rt; "no memory for halves"),
    }
}

/// Two sockets more than there may be halves: these two are closed at once. Once the oldest half has gone,
/// the next socket is a half again. In the end all are left.
#[test]
fn sockets_beyond_the_halves_are_closed_at_once(rt: HostRuntime) {
    let alloc = rt.alloc();
    let mut port = SimPort::new(alloc, at(1));
    let mut halves = none(&rt, alloc);
    let mut loose = Vec::new(alloc);
    for turn in 1..67 {
        comes(&rt, &mut port, turn);
    }
    let first = accept_all(alloc, &mut port, &mut halves, &mut loose, 4);
    assert!(rt; first == Accepted::All);
    assert_eq!(rt; halves.len(), MOST_HALVES);
    assert_eq!(rt; loose.len(), 2);
    let closed = match half_log(&halves, loose.as_slice(), &socket(65)) {
        Some(log) => log.closed,
        None => false,
    };
    assert!(rt; closed);
    let oldest = match halves.pop() {
        Some(pending) => pending.half.id().turn,
        None => 0,
    };
    assert_eq!(rt; oldest, 1);
    comes(&rt, &mut port, 67);
    let second = accept_all(alloc, &mut port, &mut halves, &mut loose, 4);
    assert!(rt; second == Accepted::All);
    assert_eq!(rt; halves.len(), MOST_HALVES);
    leave_all(&mut halves, &mut loose);
    assert_eq!(rt; halves.len(), 0);
    assert_eq!(rt; loose.len(), MOST_HALVES + 2);
}

/// Of two event threads.
#[test]
fn a_peer_is_at_home_by_its_port_and_nonce(rt: HostRuntime) {
    for (port, nonce, place) in [(17001, 1, 0), (17002, 3, 1), (17003, 5, 0)] {
        let peer = Addr {
            port,
            nonce,
            ..at(1)
        };
        assert_eq!(rt; home(&peer, 2), place);
    }
}
