//! Where the records of a node stand, as lines.

ghost use Rattle.std.specs.Prelude.{◌≡◌, ◌++◌, OnOk, length, slice_get};
ghost use Rattle.std.specs.Option.{option_copied};
ghost use Rattle.m2_run_trace.specs.Standing.{agree, are_same_counts, changed_line, changed_lines, counts_of, counts_words, is_same, is_same_session, standing_line, standing_of};
ghost use Rattle.m2_session.specs.Phases.{phase_number};

use crate::lists::at;
use crate::telling::{Teller, TracedRecord};
use crate::words::{begin_session, name_of};
use m2_bytes::{Blob, NoMemory};
use m2_session::{Phase, Session};
use m2_trace::{put_number, put_session_words};

/// Where a record stands: its session, the moment before which no connect is due, and how far its messages have come.
#[derive(Clone, Copy, Debug)]
pub(crate) struct SessionMark {
    pub session: Session,
    pub next_dial: u64,
    pub counts: Counts,
}

/// How far the messages of a record have come.
#[derive(Clone, Copy, Debug)]
pub(crate) struct Counts {
    /// The number of the last message of the peer that was accepted, 0 before the first.
    pub accepted: u64,
    /// The bytes that the throttle has granted for the message that is being read.
    pub granted: u64,
    /// The number up to which its own messages are acknowledged.
    pub acked: u64,
    /// The last number that one of its own has got.
    pub last: u64,
    /// How many of its own wait that have no number.
    pub waiting: usize,
}

/// Where the record stands.
pub(crate) fn standing_of(record: &TracedRecord) -> SessionMark
    ensures { result ≡ standing_of record.now }
{
    SessionMark {
        session: *record.session(),
        next_dial: record.next_dial(),
        counts: counts_of(record),
    }
}

/// How far the messages of the record have come.
fn counts_of(record: &TracedRecord) -> Counts
    ensures { result ≡ counts_of record.now }
{
    let out = record.out();
    Counts {
        accepted: record.accepted(),
        granted: record.granted(),
        acked: out.base(),
        last: out.last(),
        waiting: out.waiting(),
    }
}

fn phase_number(phase: Phase) -> u8
    ensures { result ≡ phase_number phase }
{
    phase as u8
}

fn agree(a: bool, b: bool) -> bool
    ensures { result ≡ agree a b }
{
    if a { b } else { !b }
}

/// Whether the same is told of both.
fn is_same(a: &SessionMark, b: &SessionMark) -> bool
    ensures { result ≡ is_same a.now b.now }
{
    is_same_session(&a.session, &b.session)
        && a.next_dial == b.next_dial
        && are_same_counts(&a.counts, &b.counts)
}

fn are_same_counts(a: &Counts, b: &Counts) -> bool
    ensures { result ≡ are_same_counts a.now b.now }
{
    a.accepted == b.accepted
        && a.granted == b.granted
        && a.acked == b.acked
        && a.last == b.last
        && a.waiting == b.waiting
}

fn is_same_session(a: &Session, b: &Session) -> bool
    ensures { result ≡ is_same_session a.now b.now }
{
    phase_number(a.phase) == phase_number(b.phase)
        && a.client_cookie == b.client_cookie
        && a.server_cookie == b.server_cookie
        && a.peer_global == b.peer_global
        && a.connect == b.connect
        && agree(a.lost_ready, b.lost_ready)
}

/// Appends where a record stands.
#[tactic(auto, unfolding(crate::specs::Standing::standing_line))]
fn put_standing(
    out: &mut Blob,
    teller: &Teller<'_>,
    peer: &[u8],
    standing: &SessionMark,
) -> Result<(), NoMemory>
    ensures { OnOk result (out.new.bytes ≡ out.old.bytes ++ standing_line teller.now peer.now standing.now) }
{
    begin_session(out, teller.own.name.as_slice(), peer)?;
    put_session_words(out, &standing.session)?;
    put_number(out, standing.next_dial)?;
    put_counts(out, &standing.counts)?;
    out.push_all(b"\n")
}

/// Appends how far messages have come.
#[tactic(auto, unfolding(crate::specs::Standing::counts_words))]
fn put_counts(out: &mut Blob, counts: &Counts) -> Result<(), NoMemory>
    ensures { OnOk result (out.new.bytes ≡ out.old.bytes ++ counts_words counts.now) }
{
    put_number(out, counts.accepted)?;
    put_number(out, counts.granted)?;
    put_number(out, counts.acked)?;
    put_number(out, counts.last)?;
    put_number(out, counts.waiting as u64)
}

/// Appends where the record at this place stands, if it stood otherwise before.
fn put_changed(
    out: &mut Blob,
    teller: &Teller<'_>,
    olds: &[SessionMark],
    place: usize,
) -> Result<(), NoMemory>
    ensures { OnOk result (out.new.bytes ≡ out.old.bytes ++ changed_line teller.now (slice_get olds.now place) (slice_get teller.now.center.records place)) }
{
    let Some(old) = at(olds, place) else {
        return Ok(());
    };
    let Some(record) = at(teller.center.records(), place) else {
        return Ok(());
    };
    let standing = standing_of(record);
    if is_same(old, &standing) {
        return Ok(());
    }
    put_standing(
        out,
        teller,
        name_of(teller.nodes, record.place()),
        &standing,
    )
}

/// Appends where those of the records stand that stood otherwise before.
pub(crate) fn put_all_changed(
    out: &mut Blob,
    teller: &Teller<'_>,
    olds: &[SessionMark],
) -> Result<(), NoMemory>
    ensures { OnOk result (out.new.bytes ≡ out.old.bytes ++ changed_lines teller.now olds.now 0 (length teller.now.center.records)) }
{
    'records: for place in 0..teller.center.records().len() {
        put_changed(out, teller, olds, place)?;
    }
    Ok(())
}
