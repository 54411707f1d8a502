//! By which name a dispatcher is told the life that a message was accepted in.

use crate::driving::{post, ready, rounds};
use m2_dispatch::Logged;
use m2_journal::PlanStep;
use m2_record_trace::{Pair, Which};

/// The number of the last message of a log, and the name of its life; zeros where there is none.
fn last_life(log: &[Logged]) -> (u64, u64) {
    match log.last() {
        Some(
            Logged::Message {
                peer: _,
                key: _,
                number,
                life,
                message: _,
            },
        ) => (*number, *life),
        _ => (0, 0),
    }
}

/// What the second side has dispatched last.
fn told_last(p: &Pair) -> (u64, u64) {
    last_life(p.side(Which::Second).log().as_slice())
}

/// The server cookie that the second side keeps.
fn cookie_kept(p: &Pair) -> u64 {
    p.side(Which::Second).record().session().server_cookie
}

/// The second side marks its session down between two posts: each message has number 1, and the name of its life is the server
/// cookie that was kept where it was accepted, another one behind the mark-down.
#[test]
fn a_mark_down_begins_a_life_of_another_name(rt: HostRuntime) {
    let alloc = rt.alloc();
    let mut p = ready(alloc);
    let posted = post(alloc, &mut p);
    rounds(&mut p, 0, 6, 12);
    let (before, first) = (cookie_kept(&p), told_last(&p));
    let _planned = p.plan(Which::Second, PlanStep::Down);
    rounds(&mut p, 0, 12, 14);
    let between = cookie_kept(&p);
    let posted_again = post(alloc, &mut p);
    rounds(&mut p, 0, 14, 60);
    let (behind, second) = (cookie_kept(&p), told_last(&p));
    p.finish();
    assert!(rt; posted && posted_again);
    assert_eq!(rt; first, (1, before));
    assert_eq!(rt; between, 0);
    assert_eq!(rt; second, (1, behind));
    assert!(rt; before != 0 && behind != 0 && before != behind);
}
