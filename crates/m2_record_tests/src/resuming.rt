//! What a resumption acknowledges is counted by the step that takes it.

use crate::driving::{ALL, message, post, ready};
use m2_fabric::News;
use m2_journal::{Entry, EntryList, PlanStep};
use m2_record_trace::{Pair, Which};
use m2_session::Answer;
use std::alloc::Global;

/// The entry of a journal so far from its end, 1 for the last.
fn from_end(journal: &EntryList, back: usize) -> Option<Entry> {
    if back > journal.len() {
        return None;
    }
    journal.get(journal.len() - back)
}

/// Whether the last entry counts an acknowledgement up to this number.
fn ends_with_acked(journal: &EntryList, wanted: u64) -> bool {
    match from_end(journal, 1) {
        Some(Entry::Acked { number }) => number == wanted,
        _ => false,
    }
}

/// Whether the last entries are those of a reconnect that was resumed, of the old feed, and of the count.
fn ends_with_resumption(journal: &EntryList, wanted: u64) -> bool {
    let is_judged = matches!(
        from_end(journal, 3),
        Some(Entry::Judged {
            socket: _,
            ask: _,
            number: _,
            answer: Answer::Resume,
        })
    );
    let is_closed = matches!(from_end(journal, 2), Some(Entry::Closed { socket: _ }));
    is_judged && is_closed && ends_with_acked(journal, wanted)
}

/// Whether a journal has got two entries, what was read and then the count.
fn got_read_and_count(journal: &EntryList, before: usize, wanted: u64) -> bool {
    let len = journal.len();
    if len < 2 || len - 2 != before {
        return false;
    }
    let is_read = matches!(
        from_end(journal, 2),
        Some(Entry::Read {
            socket: _,
            count: _,
        })
    );
    is_read && ends_with_acked(journal, wanted)
}

/// Each side of a pair has accepted a message of the other, which hasn't heard of that; and then the second finds the socket
/// broken.
fn unheard(alloc: Global) -> Pair {
    let mut p = ready(alloc);
    let _first = post(alloc, &mut p);
    match message(alloc, &[7; 100], b"", b"") {
        Ok(message) => {
            let _second = p.plan(Which::Second, PlanStep::Post(message));
        }
        Err(_) => {}
    }
    p.turn(Which::First, 10, 200);
    p.turn(Which::Second, 10, 200);
    p.flow(Which::First, 0, ALL);
    p.flow(Which::Second, 0, ALL);
    p.turn(Which::First, 11, 200);
    p.turn(Which::Second, 11, 200);
    let _told = p.hear(Which::Second, 0, b"", News::Failed);
    p
}

/// The second connects and asks on its socket; the first does nothing but answer it.
fn asks(p: &mut Pair) {
    'moments: for now in 12..40 {
        p.turn(Which::Second, now, 200);
        p.flow(Which::Second, 1, ALL);
        let _went = p.arrivals(Which::First, now);
        p.flow(Which::First, 1, ALL);
    }
}

/// Whether one step of a side reads, and counts up to this number.
fn counts_as_it_reads(p: &mut Pair, at: Which, wanted: u64) -> bool {
    'steps: for _ in 0..20 {
        let before = p.side(at).record().journal().len();
        let _step = p.step(at, 41);
        if got_read_and_count(p.side(at).record().journal(), before, wanted) {
            return true;
        }
    }
    false
}

/// Whether the judgement of the second's reconnect counts what it has seen, and the read of its answer what that has.
fn is_counted_where_it_is_taken(alloc: Global) -> bool {
    let mut p = unheard(alloc);
    asks(&mut p);
    let judged = ends_with_resumption(p.side(Which::First).record().journal(), 1);
    p.turn(Which::First, 40, 200);
    p.flow(Which::First, 1, ALL);
    let read = counts_as_it_reads(&mut p, Which::Second, 1);
    p.finish();
    judged && read
}

#[test]
fn a_resumption_is_counted_where_it_is_taken(rt: HostRuntime) {
    assert!(rt; is_counted_where_it_is_taken(rt.alloc()));
}
