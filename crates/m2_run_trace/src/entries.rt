//! What a record did, as lines.

ghost use Rattle.std.specs.Prelude.{◌≡◌, ◌∷◌, ◌++◌, ◌-◌, [], if◌then◌else◌, OnOk, drop, length, slice_get};
ghost use Rattle.m2_journal.specs.Items.{runs_on};
ghost use Rattle.m2_run_trace.specs.Entries.{calls_behind, calls_left, entry_before, entry_lines, is_fast, judged_words, lines_of, put_of, row_at, start_on, told_by, told_line};
ghost use Rattle.m2_run_trace.specs.Ends.{wrote_words};
ghost use Rattle.m2_run_trace.specs.Dispatches.{first_line};
ghost use Rattle.m2_run_trace.specs.Telling.{log_in, seen_log};
ghost use Rattle.m2_trail.specs.Trails.{written_by};

use crate::cause::cause_in_journal;
use crate::dials::{Marked, dial_word};
use crate::dispatches::put_next;
use crate::ends::{put_closed, put_opened, put_read, put_wrote};
use crate::telling::{Calls, Teller, TracedRecord};
use crate::words::{begin_journal, name_of, put_with_socket};
use m2_bytes::{Blob, NoMemory};
use m2_fabric::{EndLog, SocketId};
use m2_journal::{Entries, Entry, EntryList};
use m2_policy::Path;
use m2_scenario::Node;
use m2_session::{Answer, AskFacts};
use m2_trace::{held_behind, put_ask_and_answer, put_entry_words, put_number, row_word};

/// Appends the entries of a record's journal from one place to another, each with the dispatch of a fast kind that goes with it.
pub(crate) fn put_entries(
    out: &mut Blob,
    teller: &Teller<'_>,
    marked: &Marked<'_>,
    from: usize,
    to: usize,
    calls: &mut Calls<'_>,
) -> Result<(), NoMemory>
    ensures text { OnOk result (out.new.bytes ≡ out.old.bytes ++ lines_of teller.now marked.now from (to - from) calls.old) }
    ensures calls { OnOk result (calls.new ≡ calls_left marked.now.kept.journal from (to - from) calls.old) }
{
    'entries: for at in from..to {
        put_entry(out, teller, marked, at, calls)?;
    }
    Ok(())
}

/// Appends the entry at this place, if there is one.
fn put_entry(
    out: &mut Blob,
    teller: &Teller<'_>,
    marked: &Marked<'_>,
    place: usize,
    calls: &mut Calls<'_>,
) -> Result<(), NoMemory>
    ensures text { OnOk result (out.new.bytes ≡ out.old.bytes ++ entry_lines teller.now marked.now place calls.old (slice_get marked.now.kept.journal place)) }
    ensures calls { OnOk result (calls.new ≡ calls_behind calls.old (slice_get marked.now.kept.journal place)) }
{
    match marked.kept.journal().get(place) {
        None => Ok(()),
        Some(entry) => {
            put_line(out, teller, marked, place, &entry)?;
            put_its_dispatch(out, teller, &entry, calls)
        }
    }
}

/// Appends the dispatch that goes with an entry, if one does.
fn put_its_dispatch(
    out: &mut Blob,
    teller: &Teller<'_>,
    entry: &Entry,
    calls: &mut Calls<'_>,
) -> Result<(), NoMemory>
    ensures text { OnOk result (out.new.bytes ≡ out.old.bytes ++ (if is_fast entry.now then first_line teller.now calls.old else [])) }
    ensures calls { OnOk result (calls.new ≡ (if is_fast entry.now then drop 1 calls.old else calls.old)) }
{
    if is_fast(entry) {
        put_next(out, teller, calls)
    } else {
        Ok(())
    }
}

/// Whether a message was accepted that is dispatched at once.
fn is_fast(entry: &Entry) -> bool
    ensures { result ≡ is_fast entry.now }
{
    match entry {
        Entry::Accepted { number: _, key } => match key.path {
            Path::Fast => true,
            Path::Queued => false,
        },
        _ => false,
    }
}

/// Appends the line of the entry at this place.
#[tactic(auto, unfolding(crate::specs::Entries::told_line))]
fn put_line(
    out: &mut Blob,
    teller: &Teller<'_>,
    marked: &Marked<'_>,
    place: usize,
    entry: &Entry,
) -> Result<(), NoMemory>
    ensures { OnOk result (out.new.bytes ≡ out.old.bytes ++ told_line teller.now marked.now place entry.now) }
{
    let peer = name_of(teller.nodes, marked.kept.place());
    begin_journal(out, teller.own.name.as_slice(), peer)?;
    put_told(out, teller, marked, place, entry)?;
    out.push_all(b"\n")
}

/// Appends what the entry at this place tells.
fn put_told(
    out: &mut Blob,
    teller: &Teller<'_>,
    marked: &Marked<'_>,
    place: usize,
    entry: &Entry,
) -> Result<(), NoMemory>
    ensures { OnOk result (out.new.bytes ≡ out.old.bytes ++ told_by teller.now marked.now place entry.now) }
{
    let nodes = teller.nodes;
    let journal = marked.kept.journal();
    match entry {
        Entry::Opened { socket } => put_opened(out, nodes, socket, dial_word(marked, place)),
        Entry::Read { socket, count } => put_read(out, nodes, socket, *count),
        Entry::Wrote { socket, count } => {
            let log = teller.log(socket);
            put_written(
                out,
                nodes,
                socket,
                *count,
                journal.iter().behind(place),
                log,
            )
        }
        Entry::Closed { socket } => {
            let cause = cause_in_journal(before(journal, place), socket, teller.log(socket));
            put_closed(out, nodes, socket, cause)
        }
        Entry::Judged {
            socket,
            ask,
            number,
            answer,
        } => {
            put_judged(out, nodes, socket, ask, *number, answer)?;
            out.push_all(row_at(marked.kept, place, ask, answer))
        }
        _ => put_entry_words(out, entry),
    }
}

/// The name of the row by which the ask that was judged at this place was answered, behind a space.
fn row_at(record: &TracedRecord, place: usize, ask: &AskFacts, answer: &Answer) -> &'static [u8]
    ensures { result.now ≡ row_at record.now place ask.now answer.now }
{
    let before = record.journal().iter().front(place);
    let held = held_behind(record.session(), record.facts(), before);
    row_word(&held, ask, answer)
}

/// Appends that the first of these entries wrote to a socket.
fn put_written(
    out: &mut Blob,
    nodes: &[Node],
    socket: &SocketId,
    count: u32,
    entries: Entries<'_>,
    log: Option<&EndLog>,
) -> Result<(), NoMemory>
    ensures { OnOk result (out.new.bytes ≡ out.old.bytes ++ wrote_words nodes.now socket.now count (start_on socket.now entries.entry (seen_log log.entry)) (put_of (seen_log log.entry))) }
{
    let put = put_of(log);
    put_wrote(
        out,
        nodes,
        socket,
        count,
        start_on(socket, entries, put.len()),
        put,
    )
}

/// All that an end put; nothing where there is none.
fn put_of(log: Option<&EndLog>) -> &[u8]
    ensures { result.now ≡ put_of (seen_log log.entry) }
{
    match log {
        None => &[],
        Some(log) => log.put.as_slice(),
    }
}

/// Where what these entries put on a socket begins, if all that its end put ends with it.
fn start_on(socket: &SocketId, entries: Entries<'_>, put: usize) -> usize
    ensures { result ≡ put - written_by (runs_on socket.now entries.entry) }
{
    let mut start = put;
    for entry in entries {
        start = start.saturating_sub(written_in(&entry, socket));
    }
    start
}

/// How many bytes the entry put on the socket.
fn written_in(entry: &Entry, socket: &SocketId) -> usize
    ensures { result ≡ written_by (runs_on socket.now (entry.now ∷ [])) }
{
    match entry {
        Entry::Wrote {
            socket: other,
            count,
        } => {
            if socket.is_same(other) {
                *count as usize
            } else {
                0
            }
        }
        _ => 0,
    }
}

/// The entry in front of the one at this place.
pub(crate) fn before(journal: &EntryList, place: usize) -> Option<Entry>
    ensures { result ≡ entry_before journal.now.items place }
{
    if place == 0 {
        None
    } else {
        journal.get(place - 1)
    }
}

/// Appends that an ask on a socket of the peer was judged.
#[tactic(auto, unfolding(crate::specs::Entries::judged_words))]
fn put_judged(
    out: &mut Blob,
    nodes: &[Node],
    socket: &SocketId,
    ask: &AskFacts,
    number: u64,
    answer: &Answer,
) -> Result<(), NoMemory>
    ensures { OnOk result (out.new.bytes ≡ out.old.bytes ++ judged_words nodes.now socket.now ask.now number answer.now) }
{
    out.push_all(b" judged")?;
    put_number(out, number)?;
    put_with_socket(out, b" ", nodes, socket)?;
    put_ask_and_answer(out, ask, answer)
}
