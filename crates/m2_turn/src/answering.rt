//! What comes of a half that was asked.

ghost use Rattle.std.specs.Prelude.{◌≡◌, ◌≤◌, true, false, IfSome};
ghost use Rattle.m2_record.specs.Calls.{Owns};
ghost use Rattle.m2_record.specs.Stepping.{IsSameWork, KeepsReached};
ghost use Rattle.m2_trail.specs.Asks.{is_ident};
ghost use Rattle.m2_turn.specs.Answering.{AnswersHalf, IsKnown, RefusesHalf, RepliesHalf, StaysAnswered};
ghost use Rattle.m2_turn.specs.Judging.{judging};
ghost use Rattle.m2_turn.specs.RecordTurn.{means_of};
ghost use Rattle.m2_shared.specs.Gates.{ArePassesOf, places};

use crate::judging::{AskJudged, Replied, judge_ask, reply_owed};
use m2_fabric::End;
use m2_handshake::IdentCheck;
use m2_record::{Record, Work};
use m2_session::Answer;
use m2_trail::{Arrival, Incoming, Loose};

/// What came of a half that was asked, at its home.
#[derive(Drop)]
pub enum HalfAnswered<E: End> {
    /// By this answer the record has taken the socket.
    Taken(Answer),
    /// It has replied, or has refused an ident of which features are missing, and goes on.
    Open(Incoming<E>),
    /// Its end is closed: the ask isn't meant for this node, or its answer was to close.
    Closed(Loose<E>),
    /// It stays asked: no number could be drawn, since another thread drew one at that moment, or none is left.
    Undrawn(Arrival<E>),
    /// It stays asked, or owes its reply still: memory ran out.
    NoMemory(Arrival<E>),
}

/// Answers a half that was asked, by the record of its main address: an ident is looked at first, then the
/// ask is judged, and where that takes no socket the half replies. An ask that was judged before, and whose
/// reply is owed, is replied to.
pub fn answer_half<E: End>(
    side: &mut Record<E>,
    a: Arrival<E>,
    work: &mut Work<'_>,
    now: u64,
) -> HalfAnswered<E>
    requires known { IsKnown a side.old }
    requires numbers { work.old.number_pass.now.place ≡ work.old.numbers.now.place }
    requires top { side.old.core.top ≤ work.old.number_pass.now.least }
    requires takes { ArePassesOf work.old.throttles.now work.old.passes.now }
    requires owned { Owns (places work.old.throttles.now) side.old }
    ensures answers { AnswersHalf result a (means_of now work.old) (judging side.old work.old) (judging side.new work.new) }
    ensures stays { StaysAnswered result a side.old side.new }
    ensures top { side.new.core.top ≤ work.new.number_pass.now.least }
    ensures reached { KeepsReached work.old.number_pass.now work.new.number_pass.now }
    ensures owned { Owns (places work.old.throttles.now) side.new }
    ensures number_place { work.new.number_pass.now.place ≡ work.old.number_pass.now.place }
    ensures takes { ArePassesOf work.new.throttles.now work.new.passes.now }
    ensures same { IsSameWork work.old work.new }
    ensures number_pass { work.new.number_pass.ghost_name ≡ work.old.number_pass.ghost_name }
    ensures passes { work.new.passes.ghost_name ≡ work.old.passes.ghost_name }
{
    a.is_arrival();
    side.is_record();
    let answered = look_and_answer(side, a, work, now);
    side.is_record();
    answered
}

/// The same, without what stays.
fn look_and_answer<E: End>(
    side: &mut Record<E>,
    a: Arrival<E>,
    work: &mut Work<'_>,
    now: u64,
) -> HalfAnswered<E>
    requires known { IsKnown a side.old }
    requires numbers { work.old.number_pass.now.place ≡ work.old.numbers.now.place }
    requires top { side.old.core.top ≤ work.old.number_pass.now.least }
    requires takes { ArePassesOf work.old.throttles.now work.old.passes.now }
    requires owned { Owns (places work.old.throttles.now) side.old }
    ensures answers { AnswersHalf result a (means_of now work.old) (judging side.old work.old) (judging side.new work.new) }
    ensures top { side.new.core.top ≤ work.new.number_pass.now.least }
    ensures reached { KeepsReached work.old.number_pass.now work.new.number_pass.now }
    ensures owned { Owns (places work.old.throttles.now) side.new }
    ensures number_place { work.new.number_pass.now.place ≡ work.old.number_pass.now.place }
    ensures takes { ArePassesOf work.new.throttles.now work.new.passes.now }
    ensures same { IsSameWork work.old work.new }
    ensures number_pass { work.new.number_pass.ghost_name ≡ work.old.number_pass.ghost_name }
    ensures passes { work.new.passes.ghost_name ≡ work.old.passes.ghost_name }
{
    if a.is_judged() {
        return replied(a);
    }
    let session = side.session();
    match a.check(&session.mine, &session.policy, side.facts().requires_) {
        IdentCheck::Fine => {}
        IdentCheck::Missing(bits) => return refused(a, bits),
        IdentCheck::Fault(_) => return HalfAnswered::Closed(a.close()),
    }
    match judge_ask(side, a, work, now) {
        AskJudged::Taken(answer) => HalfAnswered::Taken(answer),
        AskJudged::Owes(a) => replied(a),
        AskJudged::Undrawn(a) => HalfAnswered::Undrawn(a),
        AskJudged::NoMemory(a) => HalfAnswered::NoMemory(a),
    }
}

/// A half that owes a reply gives it.
fn replied<E: End>(a: Arrival<E>) -> HalfAnswered<E>
    requires { a.is_judged ≡ true }
    ensures { RepliesHalf result a }
{
    match reply_owed(a) {
        Replied::Open(half) => HalfAnswered::Open(half),
        Replied::Closed(loose) => HalfAnswered::Closed(loose),
        Replied::NoMemory(a) => HalfAnswered::NoMemory(a),
    }
}

/// A half refuses an ident of which these features are missing.
fn refused<E: End>(a: Arrival<E>, bits: u64) -> HalfAnswered<E>
    requires unjudged { a.is_judged ≡ false }
    requires ident { IfSome a.ask (λ ask. is_ident ask ≡ true) }
    ensures { RefusesHalf result bits a }
{
    match a.refuse(bits) {
        Ok(half) => HalfAnswered::Open(half),
        Err(a) => HalfAnswered::NoMemory(a),
    }
}
