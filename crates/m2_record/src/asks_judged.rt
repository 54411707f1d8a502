//! The asks that a journal has judged on a socket.

ghost use Rattle.std.specs.Prelude.{◌≡◌, ◌++◌, IfSome};
ghost use Rattle.std.specs.Bool.{OnTrue};
ghost use Rattle.m2_journal.specs.Lawful.{judged_on};
ghost use Rattle.m2_record.specs.AsksJudged.{judged_by};
ghost use Rattle.m2_record.specs.TakenTrails.{judgements_in};

use m2_fabric::SocketId;
use m2_journal::{Entry, EntryList, JudgedItem};
use m2_session::{Answer, AskFacts};

/// What is left of judged asks behind those that a journal has judged on a socket; none where the first ones
/// aren't these, in this order.
pub fn behind_judged<'a>(
    journal: &EntryList,
    socket: &SocketId,
    asks: &'a [JudgedItem],
) -> Option<&'a [JudgedItem]>
    ensures { IfSome result (λ rest. asks.now ≡ judged_on socket.now (judgements_in journal.now.items) ++ rest.now) }
{
    let mut left = asks;
    for e in journal.iter() {
        let Some(rest) = behind_one(&e, socket, left) else {
            return None;
        };
        left = rest;
    }
    Some(left)
}

/// The same of one entry.
fn behind_one<'a>(e: &Entry, socket: &SocketId, asks: &'a [JudgedItem]) -> Option<&'a [JudgedItem]>
    ensures { IfSome result (λ rest. asks.now ≡ judged_by socket.now e.now ++ rest.now) }
{
    let Entry::Judged {
        socket: its,
        ask,
        number: _,
        answer,
    } = e
    else {
        return Some(asks);
    };
    if !socket.is_same(its) {
        return Some(asks);
    }
    match asks.split_first() {
        Some((first, rest)) if is_item(first, ask, answer) => Some(rest),
        _ => None,
    }
}

/// Whether a judged ask is this one.
fn is_item(item: &JudgedItem, ask: &AskFacts, answer: &Answer) -> bool
    ensures { OnTrue result (item.now ≡ record { ask = ask.now; answer = answer.now }) }
{
    item.ask == *ask && item.answer == *answer
}
