//! The tables of judgement, a row of values for each of their rows.

use m2_addr::Addr;
use m2_policy::{lossless_peer, lossy_client, of_daemons, profile, stateful_server};
use m2_session::{Answer, Phase, Session, judge_ident, judge_reconnect, rises};

/// 127.0.0.1:7000 with this nonce.
fn address(nonce: u32) -> Addr {
    Addr {
        kind: 2,
        nonce,
        ip: 0x7f00_0001,
        port: 7000,
    }
}

/// A session of node 2 with this peer, in this phase.
fn session(peer: u32, phase: Phase) -> Session {
    Session {
        mine: address(2),
        peer: address(peer),
        policy: lossless_peer(),
        rules: profile(),
        phase,
        client_cookie: 5,
        server_cookie: 6,
        peer_global: 4,
        connect: 1,
        lost_ready: phase != Phase::Ready,
    }
}

#[test]
fn idents_are_judged(rt: HostRuntime) {
    let ready = session(3, Phase::Ready);
    let lossy = Session {
        policy: lossy_client(),
        ..ready
    };
    let checked = Session {
        policy: stateful_server(),
        ..ready
    };
    let unasked = Session {
        client_cookie: 0,
        ..ready
    };
    let lower = Session {
        server_cookie: 0,
        ..session(1, Phase::IdentSent)
    };
    let higher = Session {
        peer: address(3),
        ..lower
    };
    for (s, cookie, global, answer) in [
        (session(1, Phase::Absent), 9, 3, Answer::Accept),
        (lower, 9, 3, Answer::Close),
        (lossy, 9, 4, Answer::AcceptOver),
        (checked, 9, 4, Answer::AcceptReset { full: true }),
        (ready, 9, 4, Answer::AcceptReset { full: false }),
        (lower, 5, 4, Answer::AcceptAgain),
        (unasked, 9, 4, Answer::AcceptReplace),
        (lower, 9, 4, Answer::AcceptRace),
        (higher, 9, 4, Answer::Wait),
    ] {
        assert_eq!(rt; judge_ident(&s, cookie, global), answer);
    }
}

#[test]
fn reconnects_are_judged(rt: HostRuntime) {
    let reset = Answer::Reset { full: false };
    let absent = session(3, Phase::Absent);
    let checked = Session {
        policy: stateful_server(),
        ..absent
    };
    let sent = session(3, Phase::ReconnectSent);
    let pending = Session {
        server_cookie: 0,
        ..sent
    };
    let lower = session(1, Phase::ReconnectSent);
    let standby = session(3, Phase::Standby);
    // The cookies, the global number, the connect number, and the last message seen, where none was written.
    for (s, client, server, global, connect, seen, answer) in [
        (absent, 5, 6, 7, 1, 0, reset),
        (checked, 5, 6, 7, 1, 0, Answer::Reset { full: true }),
        (sent, 9, 6, 7, 1, 0, reset),
        (pending, 5, 6, 7, 1, 0, Answer::ResetPending),
        (sent, 5, 9, 7, 1, 0, reset),
        (sent, 5, 6, 3, 1, 0, Answer::RetryGlobal { number: 4 }),
        (sent, 5, 6, 7, 0, 0, Answer::Retry { number: 1 }),
        (sent, 5, 6, 7, 1, 0, Answer::Wait),
        (sent, 5, 6, 7, 2, 1, Answer::Close),
        (sent, 5, 6, 7, 2, 0, Answer::Resume),
        (lower, 5, 6, 7, 1, 0, Answer::Resume),
        (standby, 5, 6, 7, 1, 0, Answer::Resume),
    ] {
        let given = judge_reconnect(&s, client, server, global, connect, seen, 0);
        assert_eq!(rt; given, answer);
    }
}

#[test]
fn a_node_goes_by_its_own_rules(rt: HostRuntime) {
    // Node 29665 and node 240, by the lowest byte of whose nonce 29665 is below.
    let numbers = Session {
        mine: address(29_665),
        server_cookie: 0,
        ..session(240, Phase::IdentSent)
    };
    let bytes = Session {
        rules: of_daemons(),
        ..numbers
    };
    assert_eq!(rt; judge_ident(&numbers, 9, 4), Answer::AcceptRace);
    assert_eq!(rt; judge_ident(&bytes, 9, 4), Answer::Wait);
    let kept = Session {
        lost_ready: false,
        server_cookie: 6,
        ..bytes
    };
    assert_eq!(rt; judge_reconnect(&kept, 5, 6, 7, 1, 0, 0), Answer::Wait);
    for (s, more) in [
        (session(3, Phase::Standby), true),
        (session(3, Phase::Ready), false),
        (bytes, false),
        (kept, true),
    ] {
        assert_eq!(rt; rises(&s), more);
    }
}
