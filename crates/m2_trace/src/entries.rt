//! Entries as lines.

ghost use Rattle.std.specs.Prelude.{◌≡◌, ◌++◌, codes, OnOk};
ghost use Rattle.std.specs.List.{flat_map};
ghost use Rattle.m2_trace.specs.Entries.{ask_name, cookies_words, counts_words, ask_words, full_word, answer_words, judged_words, planned_word, entry_words, entry_line, row_told, journal_line, journal_lines};
ghost use Rattle.m2_trace.specs.Rows.{nothing_held, side_of};
ghost use Rattle.m2_trace.specs.Words.{key_words, number_word, socket_word};

use crate::rows::{Held, held_after, row_word};
use crate::words::{put_head, put_key, put_number, put_socket};
use m2_bytes::{Blob, NoMemory};
use m2_fabric::SocketId;
use m2_journal::{Entry, EntryList, NodeFacts};
use m2_policy::Key;
use m2_session::{Answer, AskFacts, Session};

#[tactic(auto, unfolding(crate::specs::Entries::ask_name))]
fn put_ask_name(out: &mut Blob, ident: bool) -> Result<(), NoMemory>
    ensures { OnOk result (out.new.bytes ≡ out.old.bytes ++ ask_name ident) }
{
    if ident {
        out.push_all(b" ident")
    } else {
        out.push_all(b" reconnect")
    }
}

#[tactic(auto, unfolding(crate::specs::Entries::cookies_words))]
fn put_cookies(out: &mut Blob, ask: &AskFacts) -> Result<(), NoMemory>
    ensures { OnOk result (out.new.bytes ≡ out.old.bytes ++ cookies_words ask.now) }
{
    put_number(out, ask.client)?;
    put_number(out, ask.server)
}

#[tactic(auto, unfolding(crate::specs::Entries::counts_words))]
fn put_counts(out: &mut Blob, ask: &AskFacts) -> Result<(), NoMemory>
    ensures { OnOk result (out.new.bytes ≡ out.old.bytes ++ counts_words ask.now) }
{
    put_number(out, ask.global)?;
    put_number(out, ask.connect)?;
    put_number(out, ask.seen)
}

#[tactic(auto, unfolding(crate::specs::Entries::ask_words))]
fn put_ask(out: &mut Blob, ask: &AskFacts) -> Result<(), NoMemory>
    ensures { OnOk result (out.new.bytes ≡ out.old.bytes ++ ask_words ask.now) }
{
    put_ask_name(out, ask.ident)?;
    put_cookies(out, ask)?;
    put_counts(out, ask)
}

#[tactic(auto, unfolding(crate::specs::Entries::full_word))]
fn put_full(out: &mut Blob, full: bool) -> Result<(), NoMemory>
    ensures { OnOk result (out.new.bytes ≡ out.old.bytes ++ full_word full) }
{
    if full {
        out.push_all(b" full")
    } else {
        out.push_all(b" part")
    }
}

/// Appends a word and a mark behind it.
fn put_with_full(out: &mut Blob, word: &[u8], full: bool) -> Result<(), NoMemory>
    ensures { OnOk result (out.new.bytes ≡ out.old.bytes ++ (word.now ++ full_word full)) }
{
    out.push_all(word)?;
    put_full(out, full)
}

/// Appends a word and a number behind it.
fn put_with_number(out: &mut Blob, word: &[u8], n: u64) -> Result<(), NoMemory>
    ensures { OnOk result (out.new.bytes ≡ out.old.bytes ++ (word.now ++ number_word n)) }
{
    out.push_all(word)?;
    put_number(out, n)
}

#[tactic(auto, unfolding(crate::specs::Entries::answer_words))]
fn put_answer(out: &mut Blob, answer: &Answer) -> Result<(), NoMemory>
    ensures { OnOk result (out.new.bytes ≡ out.old.bytes ++ answer_words answer.now) }
{
    match answer {
        Answer::Accept => out.push_all(b" accept"),
        Answer::AcceptOver => out.push_all(b" accept_over"),
        Answer::AcceptReset { full } => put_with_full(out, b" accept_reset", *full),
        Answer::AcceptAgain => out.push_all(b" accept_again"),
        Answer::AcceptReplace => out.push_all(b" accept_replace"),
        Answer::AcceptRace => out.push_all(b" accept_race"),
        Answer::Close => out.push_all(b" close"),
        Answer::Wait => out.push_all(b" wait"),
        Answer::Reset { full } => put_with_full(out, b" reset", *full),
        Answer::ResetPending => out.push_all(b" reset_pending"),
        Answer::RetryGlobal { number } => put_with_number(out, b" retry_global", *number),
        Answer::Retry { number } => put_with_number(out, b" retry", *number),
        Answer::Resume => out.push_all(b" resume"),
    }
}

/// Appends an ask on a socket, and its answer.
#[tactic(auto, unfolding(crate::specs::Entries::judged_words))]
pub(crate) fn put_judged(
    out: &mut Blob,
    socket: &SocketId,
    ask: &AskFacts,
    answer: &Answer,
) -> Result<(), NoMemory>
    ensures { OnOk result (out.new.bytes ≡ out.old.bytes ++ judged_words socket.now ask.now answer.now) }
{
    put_socket(out, socket)?;
    put_ask_and_answer(out, ask, answer)
}

/// Appends the words of an ask, and those of its answer.
pub fn put_ask_and_answer(out: &mut Blob, ask: &AskFacts, answer: &Answer) -> Result<(), NoMemory>
    ensures { OnOk result (out.new.bytes ≡ out.old.bytes ++ (ask_words ask.now ++ answer_words answer.now)) }
{
    put_ask(out, ask)?;
    put_answer(out, answer)
}

/// Appends a word and a socket behind it.
pub(crate) fn put_with_socket(
    out: &mut Blob,
    word: &[u8],
    socket: &SocketId,
) -> Result<(), NoMemory>
    ensures { OnOk result (out.new.bytes ≡ out.old.bytes ++ (word.now ++ socket_word socket.now)) }
{
    out.push_all(word)?;
    put_socket(out, socket)
}

/// Appends a word, a socket and a number.
pub(crate) fn put_moved(
    out: &mut Blob,
    word: &[u8],
    socket: &SocketId,
    count: u64,
) -> Result<(), NoMemory>
    ensures { OnOk result (out.new.bytes ≡ out.old.bytes ++ (word.now ++ socket_word socket.now ++ number_word count)) }
{
    out.push_all(word)?;
    put_socket(out, socket)?;
    put_number(out, count)
}

fn put_judgement(
    out: &mut Blob,
    number: u64,
    socket: &SocketId,
    ask: &AskFacts,
    answer: &Answer,
) -> Result<(), NoMemory>
    ensures { OnOk result (out.new.bytes ≡ out.old.bytes ++ (codes " judged" ++ number_word number ++ judged_words socket.now ask.now answer.now)) }
{
    put_with_number(out, b" judged", number)?;
    put_judged(out, socket, ask, answer)
}

fn put_asked(out: &mut Blob, ident: bool, number: u64) -> Result<(), NoMemory>
    ensures { OnOk result (out.new.bytes ≡ out.old.bytes ++ (codes " asked" ++ ask_name ident ++ number_word number)) }
{
    out.push_all(b" asked")?;
    put_ask_name(out, ident)?;
    put_number(out, number)
}

fn put_accepted(out: &mut Blob, number: u64, key: &Key) -> Result<(), NoMemory>
    ensures { OnOk result (out.new.bytes ≡ out.old.bytes ++ (codes " accepted" ++ number_word number ++ key_words key.now)) }
{
    put_with_number(out, b" accepted", number)?;
    put_key(out, key)
}

fn put_down(out: &mut Blob, planned: bool) -> Result<(), NoMemory>
    ensures { OnOk result (out.new.bytes ≡ out.old.bytes ++ (codes " down" ++ planned_word planned)) }
{
    out.push_all(b" down")?;
    put_planned(out, planned)
}

#[tactic(auto, unfolding(crate::specs::Entries::planned_word))]
fn put_planned(out: &mut Blob, planned: bool) -> Result<(), NoMemory>
    ensures { OnOk result (out.new.bytes ≡ out.old.bytes ++ planned_word planned) }
{
    if planned {
        out.push_all(b" planned")
    } else {
        out.push_all(b" used_up")
    }
}

/// Appends what an entry tells, each word behind a space.
#[tactic(auto, unfolding(crate::specs::Entries::entry_words))]
pub fn put_entry_words(out: &mut Blob, e: &Entry) -> Result<(), NoMemory>
    ensures { OnOk result (out.new.bytes ≡ out.old.bytes ++ entry_words e.now) }
{
    match e {
        Entry::Post { place } => put_with_number(out, b" post", *place as u64),
        Entry::Dial => out.push_all(b" dial"),
        Entry::Opened { socket } => put_with_socket(out, b" opened", socket),
        Entry::Read { socket, count } => put_moved(out, b" read", socket, *count as u64),
        Entry::Wrote { socket, count } => put_moved(out, b" wrote", socket, *count as u64),
        Entry::Closed { socket } => put_with_socket(out, b" closed", socket),
        Entry::Judged {
            socket,
            ask,
            number,
            answer,
        } => put_judgement(out, *number, socket, ask, answer),
        Entry::Asked { ident, number } => put_asked(out, *ident, *number),
        Entry::Numbered { number } => put_with_number(out, b" numbered", *number),
        Entry::Accepted { number, key } => put_accepted(out, *number, key),
        Entry::Acked { number } => put_with_number(out, b" acked", *number),
        Entry::Obeyed { full } => put_with_full(out, b" obeyed", *full),
        Entry::Down { planned } => put_down(out, *planned),
    }
}

/// Appends the line of a trail's entry.
#[tactic(auto, unfolding(crate::specs::Entries::entry_line, crate::specs::Words::line))]
fn put_entry(out: &mut Blob, side: &[u8], what: &[u8], e: &Entry) -> Result<(), NoMemory>
    ensures { OnOk result (out.new.bytes ≡ out.old.bytes ++ entry_line side.now what.now e.now) }
{
    put_head(out, side, what)?;
    put_entry_words(out, e)?;
    out.push_all(b"\n")
}

/// Appends the lines of a trail's entries, in their order.
pub(crate) fn put_entries(
    out: &mut Blob,
    side: &[u8],
    what: &[u8],
    entries: &EntryList,
) -> Result<(), NoMemory>
    ensures { OnOk result (out.new.bytes ≡ out.old.bytes ++ flat_map (entry_line side.now what.now) entries.now.items) }
{
    for e in entries.iter() {
        put_entry(out, side, what, &e)?;
    }
    Ok(())
}

/// Appends the row by which the ask of a judgement was answered; of another entry nothing.
fn put_row(out: &mut Blob, held: &Held, e: &Entry) -> Result<(), NoMemory>
    ensures { OnOk result (out.new.bytes ≡ out.old.bytes ++ row_told held.now e.now) }
{
    match e {
        Entry::Judged { ask, answer, .. } => out.push_all(row_word(held, ask, answer)),
        _ => Ok(()),
    }
}

/// Appends what an entry of a journal tells, where this is held before it.
fn put_told(out: &mut Blob, held: &Held, e: &Entry) -> Result<(), NoMemory>
    ensures { OnOk result (out.new.bytes ≡ out.old.bytes ++ (entry_words e.now ++ row_told held.now e.now)) }
{
    put_entry_words(out, e)?;
    put_row(out, held, e)
}

/// Appends the line of an entry of a journal, where this is held before it.
#[tactic(auto, unfolding(crate::specs::Entries::journal_line, crate::specs::Words::line))]
fn put_journal_line(out: &mut Blob, side: &[u8], held: &Held, e: &Entry) -> Result<(), NoMemory>
    ensures { OnOk result (out.new.bytes ≡ out.old.bytes ++ journal_line side.now held.now e.now) }
{
    put_head(out, side, b"journal")?;
    put_told(out, held, e)?;
    out.push_all(b"\n")
}

/// Appends the lines of a record's journal from its beginning on, each judgement with the row by which its ask was answered.
/// `session` is the record's, at any time, and `node` what its node tells it.
pub fn put_journal(
    out: &mut Blob,
    side: &[u8],
    session: &Session,
    node: &NodeFacts,
    journal: &EntryList,
) -> Result<(), NoMemory>
    ensures { OnOk result (out.new.bytes ≡ out.old.bytes ++ journal_lines (side_of session.now node.now) side.now nothing_held journal.now.items) }
{
    let mut held = Held {
        absent: true,
        client: 0,
    };
    for e in journal.iter() {
        put_journal_line(out, side, &held, &e)?;
        held = held_after(session, node, &e, held);
    }
    Ok(())
}
