//! How an ask is judged at its home.

ghost use Rattle.std.specs.Prelude.{◌≡◌, ◌≤◌, true};
ghost use Rattle.m2_record.specs.Calls.{Owns};
ghost use Rattle.m2_record.specs.Stepping.{IsSameWork, KeepsReached};
ghost use Rattle.m2_trail.specs.Incoming.{IsAnswered};
ghost use Rattle.m2_turn.specs.Judging.{CanBeHeard, JudgesAsk, RepliesAs, judging};
ghost use Rattle.m2_turn.specs.RecordTurn.{means_of};
ghost use Rattle.m2_shared.specs.Gates.{ArePassesOf, places};

use m2_fabric::End;
use m2_record::{Judged, Record, Work};
use m2_session::Answer;
use m2_shared::Draw;
use m2_trail::{Arrival, Incoming, Loose, reply_to};

/// What came of an ask.
#[derive(Drop)]
pub enum AskJudged<E: End> {
    /// By this answer the record has taken the socket.
    Taken(Answer),
    /// The answer is noted, and the half owes its reply.
    Owes(Arrival<E>),
    /// No global number could be drawn: another thread drew one at that moment, or none is left.
    Undrawn(Arrival<E>),
    /// Memory ran out, and nothing was judged.
    NoMemory(Arrival<E>),
}

/// What came of a half that owed a reply.
#[derive(Drop)]
pub enum Replied<E: End> {
    /// The reply is to be put, and the half goes on.
    Open(Incoming<E>),
    /// The answer was to close without a word.
    Closed(Loose<E>),
    /// Memory ran out: the reply is still owed.
    NoMemory(Arrival<E>),
}

/// Judges the ask of a half by the record of its main address, with a global number that is drawn for the
/// answer.
pub fn judge_ask<E: End>(
    side: &mut Record<E>,
    a: Arrival<E>,
    work: &mut Work<'_>,
    now: u64,
) -> AskJudged<E>
    requires can { CanBeHeard a side.old }
    requires numbers { work.old.number_pass.now.place ≡ work.old.numbers.now.place }
    requires top { side.old.core.top ≤ work.old.number_pass.now.least }
    requires takes { ArePassesOf work.old.throttles.now work.old.passes.now }
    requires owned { Owns (places work.old.throttles.now) side.old }
    ensures judges { JudgesAsk result a (means_of now work.old) (judging side.old work.old) (judging side.new work.new) }
    ensures top { side.new.core.top ≤ work.new.number_pass.now.least }
    ensures reached { KeepsReached work.old.number_pass.now work.new.number_pass.now }
    ensures owned { Owns (places work.old.throttles.now) side.new }
    ensures number_place { work.new.number_pass.now.place ≡ work.old.number_pass.now.place }
    ensures takes { ArePassesOf work.new.throttles.now work.new.passes.now }
    ensures same { IsSameWork work.old work.new }
    ensures number_pass { work.new.number_pass.ghost_name ≡ work.old.number_pass.ghost_name }
    ensures passes { work.new.passes.ghost_name ≡ work.old.passes.ghost_name }
{
    side.is_record();
    let number = match work.numbers.draw(work.number_pass) {
        Draw::Number(number) => number,
        Draw::Spent => return AskJudged::Undrawn(a),
        Draw::Again { seen: _, now: _ } => return AskJudged::Undrawn(a),
    };
    match side.judge(a, number, work.throttles, work.passes, now) {
        Judged::Taken(answer) => AskJudged::Taken(answer),
        Judged::Back { answer: _, arrival } => AskJudged::Owes(arrival),
        Judged::NoMemory(arrival) => AskJudged::NoMemory(arrival),
    }
}

/// Replies to an ask that was judged and took no socket: with the frame of its answer, or by closing where
/// the answer says so.
pub fn reply_owed<E: End>(a: Arrival<E>) -> Replied<E>
    requires { a.is_judged ≡ true }
    ensures { RepliesAs result a }
{
    let answer = answer_noted(&a);
    if reply_to(&answer).is_none() {
        return Replied::Closed(a.close());
    }
    match a.reply(&answer) {
        Ok(half) => Replied::Open(half),
        Err(a) => Replied::NoMemory(a),
    }
}

/// The answer to an ask that was judged.
fn answer_noted<E: End>(a: &Arrival<E>) -> Answer
    requires { a.now.is_judged ≡ true }
    ensures { IsAnswered result a.now }
{
    a.is_arrival();
    match a.trail().judged.as_slice().last() {
        Some(item) => item.answer,
        None => unreachable!(),
    }
}
