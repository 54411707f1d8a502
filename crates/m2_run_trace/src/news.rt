//! What a node did since it was marked, as lines.

ghost use Rattle.std.specs.Prelude.{◌≡◌, ◌++◌, IfOk, None, OnOk, count_by, drop, length, slice_get};
ghost use Rattle.std.specs.List.{flat_map};
ghost use Rattle.std.specs.Option.{option_map};
ghost use Rattle.m2_fabric.specs.Log.{log_of};
ghost use Rattle.m2_run_trace.specs.Marks.{MarksNow};
ghost use Rattle.m2_run_trace.specs.News.{accepted_line, asked_behind, behind_closing, behind_counting, behind_judging, closes_another, closing_of, doings, half_in, half_said, halves_said, is_judged_on, is_move, journal_length, journal_up_to, journals_said, judged_by, judgement_at, judgement_from, judgement_said, leaves_own_by, moves_of, moves_said, news, news_of, said_of, told_at, with_calls};
ghost use Rattle.m2_run_trace.specs.Telling.{log_in, seen_log, telling_at};
ghost use Rattle.m2_trail.specs.Trails.{trail_now};

use crate::cause::{cause_of_half, leaves_own};
use crate::dials::{DialMark, Marked, mark_at};
use crate::dispatches::put_calls;
use crate::ends::{behind_last_read, put_accepted, put_half_closed, put_runs};
use crate::entries::{before, put_entries};
use crate::lists::{at, behind};
use crate::marks::{EndMark, Marks};
use crate::sockets::{comes_to, trail_in};
use crate::standing::put_all_changed;
use crate::telling::{Calls, Teller, TracedCluster};
use crate::throttle::put_changed_throttle;
use m2_bytes::{Blob, NoMemory};
use m2_fabric::{EndLog, SocketId};
use m2_journal::{Entry, EntryList};
use m2_scenario::Node;
use m2_trail::Trail;
use std::alloc::Global;
use std::marker::Model;

/// Up to where a node's doings are told.
#[derive(Drop)]
struct Told<'a> {
    /// Of each record, how many entries of its journal.
    journals: Vec<usize>,
    /// The calls of the dispatcher of fast kinds that are left.
    fast: Calls<'a>,
    /// Of each record, what made a connect due where it was marked.
    dials: &'a [DialMark],
}

impl<'a> Model for Told<'a> {
    ghost use Rattle.m2_run_trace.specs.News.{ToldNow};

    ghost Value = { ToldNow };

    ghost view = { λ t. record { journals = t.journals.items; fast = t.fast; dials = t.dials.now } };
}

/// Where an ask was judged: by which of the records, and behind which entry of its journal.
#[derive(Clone, Copy, Debug)]
pub(crate) struct Judgement {
    pub record_place: usize,
    pub behind: usize,
}

/// A half of a marked socket, and where its ask was judged, if it was.
#[derive(Drop)]
struct Half<'a> {
    mark: &'a EndMark,
    log: &'a EndLog,
    trail: Option<&'a Trail>,
    judged: Option<Judgement>,
}

impl<'a> Model for Half<'a> {
    ghost use Rattle.std.specs.Option.{option_map};
    ghost use Rattle.m2_fabric.specs.Log.{log_of};
    ghost use Rattle.m2_trail.specs.Trails.{trail_now};
    ghost use Rattle.m2_run_trace.specs.News.{HalfNow};

    ghost Value = { HalfNow };

    ghost view = { λ h. record { mark = h.mark.now; log = log_of h.log.now; trail = option_map (λ t. trail_now t.now) h.trail; judged = h.judged } };
}

/// Appends what the node at this place did since it was marked.
pub fn put_news(
    alloc: Global,
    out: &mut Blob,
    nodes: &[Node],
    cluster: &TracedCluster,
    node: u32,
    marks: &Marks,
) -> Result<(), NoMemory>
    ensures { OnOk result (out.new.bytes ≡ out.old.bytes ++ news_of (telling_at nodes.now cluster.now.nodes node) marks.now) }
{
    match Teller::of(nodes, cluster, node) {
        None => Ok(()),
        Some(teller) => put_all(alloc, out, &teller, marks),
    }
}

/// Appends what the node did since it was marked.
fn put_all(
    alloc: Global,
    out: &mut Blob,
    teller: &Teller<'_>,
    marks: &Marks,
) -> Result<(), NoMemory>
    ensures { OnOk result (out.new.bytes ≡ out.old.bytes ++ news teller.now marks.now) }
{
    put_all_accepted(out, teller, marks.ends.as_slice())?;
    let mut told = told_at(alloc, teller, marks)?;
    put_with_calls(out, teller, marks, &mut told)?;
    put_all_changed(out, teller, marks.standings.as_slice())?;
    put_changed_throttle(out, teller, marks.out)
}

/// What was told where the node was marked.
fn told_at<'a>(alloc: Global, teller: &Teller<'a>, marks: &'a Marks) -> Result<Told<'a>, NoMemory>
    ensures { IfOk result (λ t. t ≡ told_at teller.now.center marks.now) }
{
    let fast = teller.center.fast().log();
    Ok(Told {
        journals: Vec::from_slice(alloc, marks.journals.as_slice())?,
        fast: Calls::of(behind(fast.as_slice(), marks.fast)),
        dials: marks.dials.as_slice(),
    })
}

/// Appends what the halves and the records did, and the dispatches that are left.
fn put_with_calls(
    out: &mut Blob,
    teller: &Teller<'_>,
    marks: &Marks,
    told: &mut Told<'_>,
) -> Result<(), NoMemory>
    ensures { OnOk result (out.new.bytes ≡ out.old.bytes ++ with_calls teller.now marks.now.queued (doings teller.now marks.now.ends told.old)) }
{
    put_doings(out, teller, marks.ends.as_slice(), told)?;
    put_calls(out, teller, told.fast.as_slice())?;
    let queued = teller.center.queued().inner().log();
    put_calls(out, teller, behind(queued.as_slice(), marks.queued))
}

/// Appends what the halves and the records did.
fn put_doings(
    out: &mut Blob,
    teller: &Teller<'_>,
    marks: &[EndMark],
    told: &mut Told<'_>,
) -> Result<(), NoMemory>
    ensures text { OnOk result (out.new.bytes ≡ out.old.bytes ++ (doings teller.now marks.now told.old).text) }
    ensures told { OnOk result (told.new ≡ (doings teller.now marks.now told.old).told) }
{
    put_halves(out, teller, marks, told)?;
    put_journals(out, teller, told)
}

/// Appends which sockets were accepted.
fn put_all_accepted(out: &mut Blob, teller: &Teller<'_>, marks: &[EndMark]) -> Result<(), NoMemory>
    ensures { OnOk result (out.new.bytes ≡ out.old.bytes ++ flat_map (accepted_line teller.now) marks.now) }
{
    for mark in marks {
        put_if_accepted(out, teller, mark)?;
    }
    Ok(())
}

/// Appends that the socket was accepted, if it was.
fn put_if_accepted(out: &mut Blob, teller: &Teller<'_>, mark: &EndMark) -> Result<(), NoMemory>
    ensures { OnOk result (out.new.bytes ≡ out.old.bytes ++ accepted_line teller.now mark.now) }
{
    if !mark.there && teller.log(&mark.socket).is_some() {
        put_accepted(out, teller, &mark.socket)
    } else {
        Ok(())
    }
}

/// Appends what the halves did, each in its turn, with what the records did by their asks.
fn put_halves(
    out: &mut Blob,
    teller: &Teller<'_>,
    marks: &[EndMark],
    told: &mut Told<'_>,
) -> Result<(), NoMemory>
    ensures text { OnOk result (out.new.bytes ≡ out.old.bytes ++ (halves_said teller.now marks.now told.old).text) }
    ensures told { OnOk result (told.new ≡ (halves_said teller.now marks.now told.old).told) }
{
    for mark in marks {
        put_if_half(out, teller, mark, teller.log(&mark.socket), told)?;
    }
    Ok(())
}

/// Appends what the half on the socket did, if the node has one.
fn put_if_half(
    out: &mut Blob,
    teller: &Teller<'_>,
    mark: &EndMark,
    log: Option<&EndLog>,
    told: &mut Told<'_>,
) -> Result<(), NoMemory>
    ensures text { OnOk result (out.new.bytes ≡ out.old.bytes ++ (said_of teller.now mark.now told.old (seen_log log.entry)).text) }
    ensures told { OnOk result (told.new ≡ (said_of teller.now mark.now told.old (seen_log log.entry)).told) }
{
    match log {
        None => Ok(()),
        Some(log) => {
            if comes_to(teller, &mark.socket) {
                let half = half_in(teller, mark, log, told);
                put_half(out, teller, &half, told)
            } else {
                Ok(())
            }
        }
    }
}

/// The half of a marked socket.
fn half_in<'a>(teller: &Teller<'a>, mark: &'a EndMark, log: &'a EndLog, told: &Told<'_>) -> Half<'a>
    ensures { result ≡ half_in teller.now mark.now (log_of log.now) told.now }
{
    Half {
        mark,
        log,
        trail: trail_in(teller.center.records(), &mark.socket),
        judged: judgement_on(teller, told.journals.as_slice(), &mark.socket),
    }
}

/// Appends what a half did.
fn put_half(
    out: &mut Blob,
    teller: &Teller<'_>,
    half: &Half<'_>,
    told: &mut Told<'_>,
) -> Result<(), NoMemory>
    ensures text { OnOk result (out.new.bytes ≡ out.old.bytes ++ (half_said teller.now half.now told.old).text) }
    ensures told { OnOk result (told.new ≡ (half_said teller.now half.now told.old).told) }
{
    put_moves(out, teller, half, told)?;
    put_closing(out, teller, half)
}

/// Appends its reads and writes since the mark, and between them what was done by its ask.
fn put_moves(
    out: &mut Blob,
    teller: &Teller<'_>,
    half: &Half<'_>,
    told: &mut Told<'_>,
) -> Result<(), NoMemory>
    ensures text { OnOk result (out.new.bytes ≡ out.old.bytes ++ (moves_said teller.now half.now told.old half.now.judged).text) }
    ensures told { OnOk result (told.new ≡ (moves_said teller.now half.now told.old half.now.judged).told) }
{
    let (socket, from) = (&half.mark.socket, half.mark.runs);
    let all = moves_of(half.trail, half.log);
    match half.judged {
        None => put_runs(out, teller, socket, half.log, from, all),
        Some(judgement) => {
            let asked = asked_behind(half.trail, half.log, from);
            put_runs(out, teller, socket, half.log, from, asked)?;
            put_judgement(out, teller, socket, judgement, told)?;
            put_runs(out, teller, socket, half.log, asked, all)
        }
    }
}

/// Appends that its end was closed since the mark, where no record took it.
fn put_closing(out: &mut Blob, teller: &Teller<'_>, half: &Half<'_>) -> Result<(), NoMemory>
    ensures { OnOk result (out.new.bytes ≡ out.old.bytes ++ closing_of teller.now half.now) }
{
    if half.trail.is_none() && half.log.closed && !half.mark.closed {
        let cause = cause_of_half(half.judged.is_some(), half.log);
        put_half_closed(out, teller, &half.mark.socket, cause)
    } else {
        Ok(())
    }
}

/// How many reads and writes a half made: those of its trail, or all of its end.
fn moves_of(trail: Option<&Trail>, log: &EndLog) -> usize
    ensures { result ≡ moves_of (option_map (λ t. trail_now t.now) trail.entry) (log_of log.now) }
{
    match trail {
        None => log.runs.len(),
        Some(trail) => moves_in(&trail.entries),
    }
}

/// How many of these entries are reads and writes.
fn moves_in(entries: &EntryList) -> usize
    ensures { result ≡ count_by is_move entries.now.items }
{
    let mut count: usize = 0;
    for entry in entries.iter() {
        if is_move(&entry) {
            count += 1;
        }
    }
    count
}

fn is_move(entry: &Entry) -> bool
    ensures { result ≡ is_move entry.now }
{
    match entry {
        Entry::Read { .. } | Entry::Wrote { .. } => true,
        _ => false,
    }
}

/// Behind which of a half's reads and writes its ask was judged: the last of its trail, or the last read since the mark.
fn asked_behind(trail: Option<&Trail>, log: &EndLog, from: usize) -> usize
    ensures { result ≡ asked_behind (option_map (λ t. trail_now t.now) trail.entry) (log_of log.now) from }
{
    match trail {
        None => behind_last_read(log.runs.as_slice(), from),
        Some(trail) => moves_in(&trail.entries),
    }
}

/// Where an ask on the socket was judged of which isn't told yet: by the first record that did.
fn judgement_on(teller: &Teller<'_>, journals: &[usize], socket: &SocketId) -> Option<Judgement>
    ensures { result ≡ judgement_from socket.now journals.now teller.now.center.records 0 (length teller.now.center.records) }
{
    'records: for place in 0..teller.center.records().len() {
        let judged = judgement_at(teller, journals, place, socket);
        if judged.is_some() {
            return judged;
        }
    }
    None
}

/// The same of the record at this place.
fn judgement_at(
    teller: &Teller<'_>,
    journals: &[usize],
    place: usize,
    socket: &SocketId,
) -> Option<Judgement>
    ensures { result ≡ judgement_at socket.now place (slice_get journals.now place) (slice_get teller.now.center.records place) }
{
    let Some(from) = at(journals, place) else {
        return None;
    };
    let Some(record) = at(teller.center.records(), place) else {
        return None;
    };
    match judged_from(record.journal(), *from, socket) {
        None => None,
        Some(behind) => Some(Judgement {
            record_place: place,
            behind,
        }),
    }
}

/// Behind the last entry from a place on by which an ask on the socket was judged.
fn judged_from(journal: &EntryList, from: usize, socket: &SocketId) -> Option<usize>
    ensures { result ≡ judged_by socket.now (drop from journal.now.items) from None }
{
    let mut found = None;
    'entries: for place in from..journal.len() {
        if let Some(entry) = journal.get(place) {
            if is_judged_on(&entry, socket) {
                found = Some(place + 1);
            }
        }
    }
    found
}

fn is_judged_on(entry: &Entry, socket: &SocketId) -> bool
    ensures { result ≡ is_judged_on socket.now entry.now }
{
    match entry {
        Entry::Judged { socket: other, .. } => socket.is_same(other),
        _ => false,
    }
}

/// Appends the entries of a record up to a judgement, with what it closed and counted by that.
fn put_judgement(
    out: &mut Blob,
    teller: &Teller<'_>,
    socket: &SocketId,
    judgement: Judgement,
    told: &mut Told<'_>,
) -> Result<(), NoMemory>
    ensures text { OnOk result (out.new.bytes ≡ out.old.bytes ++ (judgement_said teller.now socket.now judgement told.old).text) }
    ensures told { OnOk result (told.new ≡ (judgement_said teller.now socket.now judgement told.old).told) }
{
    let to = match at(teller.center.records(), judgement.record_place) {
        None => judgement.behind,
        Some(record) => behind_judging(record.journal(), judgement.behind, socket),
    };
    put_up_to(out, teller, judgement.record_place, to, told)
}

/// Behind what is done by a judgement on the socket, whose entry stands before this place: another socket is closed, and
/// then what the ask acknowledges is counted.
fn behind_judging(journal: &EntryList, place: usize, socket: &SocketId) -> usize
    ensures { result ≡ behind_judging socket.now journal.now.items place }
{
    if !leaves_own_by(before(journal, place)) {
        return place;
    }
    behind_counting(journal, behind_closing(journal, place, socket))
}

/// Whether by this entry an ask was judged so that the side's own socket is left.
fn leaves_own_by(entry: Option<Entry>) -> bool
    ensures { result ≡ leaves_own_by entry }
{
    match entry {
        Some(Entry::Judged { answer, .. }) => leaves_own(&answer),
        _ => false,
    }
}

/// Behind the entry at this place where by it another socket is closed.
fn behind_closing(journal: &EntryList, place: usize, socket: &SocketId) -> usize
    ensures { result ≡ behind_closing socket.now place (slice_get journal.now.items place) }
{
    if place < journal.len() {
        if let Some(entry) = journal.get(place) {
            if closes_another(&entry, socket) {
                return place + 1;
            }
        }
    }
    place
}

/// Behind the entry at this place where by it an acknowledgement is counted.
fn behind_counting(journal: &EntryList, place: usize) -> usize
    ensures { result ≡ behind_counting place (slice_get journal.now.items place) }
{
    if place < journal.len() {
        if let Some(Entry::Acked { .. }) = journal.get(place) {
            return place + 1;
        }
    }
    place
}

/// Whether another socket is closed by the entry.
fn closes_another(entry: &Entry, socket: &SocketId) -> bool
    ensures { result ≡ closes_another socket.now entry.now }
{
    match entry {
        Entry::Closed { socket: other } => !socket.is_same(other),
        _ => false,
    }
}

/// Appends the entries of a record that aren't told yet, up to a place.
fn put_up_to(
    out: &mut Blob,
    teller: &Teller<'_>,
    place: usize,
    to: usize,
    told: &mut Told<'_>,
) -> Result<(), NoMemory>
    ensures text { OnOk result (out.new.bytes ≡ out.old.bytes ++ (journal_up_to teller.now place to told.old).text) }
    ensures told { OnOk result (told.new ≡ (journal_up_to teller.now place to told.old).told) }
{
    let Some(from) = at(told.journals.as_slice(), place) else {
        return Ok(());
    };
    let from = *from;
    let Some(record) = at(teller.center.records(), place) else {
        return Ok(());
    };
    let marked = Marked {
        kept: record,
        mark: mark_at(told.dials, place),
    };
    put_entries(out, teller, &marked, from, to, &mut told.fast)?;
    told.journals[place] = to;
    Ok(())
}

/// Appends what else the records did, one after the other.
fn put_journals(out: &mut Blob, teller: &Teller<'_>, told: &mut Told<'_>) -> Result<(), NoMemory>
    ensures text { OnOk result (out.new.bytes ≡ out.old.bytes ++ (journals_said teller.now 0 (length teller.now.center.records) told.old).text) }
    ensures told { OnOk result (told.new ≡ (journals_said teller.now 0 (length teller.now.center.records) told.old).told) }
{
    'records: for place in 0..teller.center.records().len() {
        put_up_to(out, teller, place, journal_length(teller, place), told)?;
    }
    Ok(())
}

/// How many entries the journal of the record at this place has.
fn journal_length(teller: &Teller<'_>, place: usize) -> usize
    ensures { result ≡ journal_length (slice_get teller.now.center.records place) }
{
    match at(teller.center.records(), place) {
        None => 0,
        Some(record) => record.journal().len(),
    }
}
