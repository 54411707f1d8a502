//! Whether two sides and the halves that neither took are of one link.

ghost use Rattle.std.specs.Prelude.{◌≡◌, ◌++◌, map};
ghost use Rattle.std.specs.Bool.{OnTrue};
ghost use Rattle.std.specs.List.{AllByRecursion};
ghost use Rattle.m2_fabric.specs.Sockets.{is_among};
ghost use Rattle.m2_history.specs.Halves.{has_half, judges_on};
ghost use Rattle.m2_history.specs.Link.{AreOfLink, HaveHalves, IsJudgedSo, both_of, half_sockets};
ghost use Rattle.m2_record.specs.TakenTrails.{judgements_in};
ghost use Rattle.m2_trail.specs.Trails.{trail_now};

use crate::side::Side;
use m2_fabric::{End, SocketId};
use m2_journal::{Entry, EntryList};
use m2_record::behind_judged;
use m2_trail::{Loose, LooseList, Trail};

/// Whether these are two sides of a link with the halves that neither took, as [`weave_sides`](crate::weave_sides) asks
/// for them: the half of each ask that a side has judged is there, and a half that neither took was told just
/// what the sides have judged on its socket. It looks at all halves for each judged ask.
pub fn are_of_link<E: End>(a: &Side<'_, E>, b: &Side<'_, E>, loose: &LooseList<E>) -> bool
    ensures { OnTrue result (AreOfLink (both_of a.now.record.now b.now.record.now loose.now.items)) }
{
    let near = a.record.journal();
    let far = b.record.journal();
    let halves = loose.as_slice();
    if !have_halves(near, a.record.trails().as_slice(), halves) {
        return false;
    }
    if !have_halves(far, b.record.trails().as_slice(), halves) {
        return false;
    }
    are_judged_so(near, far, halves)
}

// ---- the halves of judged asks

/// Whether the half of each ask that a journal judged is one of these.
#[tactic(auto, using(crate::proofs::Halves::halves_more))]
fn have_halves<E: End>(journal: &EntryList, trails: &[Trail], loose: &[Loose<E>]) -> bool
    ensures { OnTrue result (HaveHalves (map trail_now trails.now) loose.now (judgements_in journal.now.items)) }
{
    for e in journal.iter() {
        if !has_half(&e, trails, loose) {
            return false;
        }
    }
    true
}

/// Whether an entry judges no ask, or one whose half is one of these.
#[tactic(auto, using(crate::proofs::Halves::among_halves))]
fn has_half<E: End>(e: &Entry, trails: &[Trail], loose: &[Loose<E>]) -> bool
    ensures { result ≡ has_half (half_sockets (map trail_now trails.now) loose.now) e.now }
{
    match e {
        Entry::Judged {
            socket,
            ask: _,
            number: _,
            answer: _,
        } => is_taken(socket, trails) || is_left(socket, loose),
        _ => true,
    }
}

/// Whether a socket is that of a trail.
fn is_taken(socket: &SocketId, trails: &[Trail]) -> bool
    ensures { result ≡ is_among socket.now (map (λ t. t.socket) (map trail_now trails.now)) }
{
    for trail in trails {
        if socket.is_same(&trail.socket) {
            return true;
        }
    }
    false
}

/// Whether a socket is that of a half that neither took.
fn is_left<E: End>(socket: &SocketId, loose: &[Loose<E>]) -> bool
    ensures { result ≡ is_among socket.now (map (λ l. l.trail.socket) loose.now) }
{
    for half in loose {
        if socket.is_same(&half.trail().socket) {
            return true;
        }
    }
    false
}

// ---- what the halves were told

/// Whether each of these halves was told what both journals have judged on its socket.
fn are_judged_so<E: End>(near: &EntryList, far: &EntryList, loose: &[Loose<E>]) -> bool
    ensures { OnTrue result (AllByRecursion (IsJudgedSo (judgements_in near.now.items ++ judgements_in far.now.items)) loose.now) }
{
    for half in loose {
        if !is_judged_so(near, far, half) {
            return false;
        }
    }
    true
}

/// The same of one half.
fn is_judged_so<E: End>(near: &EntryList, far: &EntryList, half: &Loose<E>) -> bool
    ensures { OnTrue result (IsJudgedSo (judgements_in near.now.items ++ judgements_in far.now.items) half.now) }
{
    let trail = half.trail();
    if !judges(near, &trail.socket) && !judges(far, &trail.socket) {
        return true;
    }
    let Some(rest) = behind_judged(near, &trail.socket, trail.judged.as_slice()) else {
        return false;
    };
    match behind_judged(far, &trail.socket, rest) {
        Some(rest) => rest.is_empty(),
        None => false,
    }
}

/// Whether a journal has judged an ask on a socket.
#[tactic(auto, using(crate::proofs::Halves::judges_more))]
fn judges(journal: &EntryList, socket: &SocketId) -> bool
    ensures { result ≡ is_among socket.now (map (λ j. j.socket) (judgements_in journal.now.items)) }
{
    for e in journal.iter() {
        if judges_on(&e, socket) {
            return true;
        }
    }
    false
}

/// Whether an entry judges an ask on a socket.
fn judges_on(e: &Entry, socket: &SocketId) -> bool
    ensures { result ≡ judges_on socket.now e.now }
{
    match e {
        Entry::Judged {
            socket: its,
            ask: _,
            number: _,
            answer: _,
        } => socket.is_same(its),
        _ => false,
    }
}
