//! What a side has posted.

ghost use Rattle.std.specs.Prelude.{◌≡◌, ◌++◌, map, IfOk, OnOk};
ghost use Rattle.std.specs.Option.{option_copied};
ghost use Rattle.m2_history.specs.Counted as counted;
ghost use Rattle.m2_message.specs.Message.{content_of};

use crate::keys::{MessageList, is_key, key_at, push_copy};
use crate::side::Side;
use m2_bytes::{Items, NoMemory};
use m2_fabric::End;
use m2_journal::{Entry, EntryList, PlanStep};
use m2_policy::{FastSet, Key};
use std::alloc::Global;

/// The messages that a side has posted, of this key at a node that dispatches the kinds of `to` at once, in
/// order.
pub fn posted<E: End>(
    alloc: Global,
    side: &Side<'_, E>,
    to: &FastSet,
    key: Key,
) -> Result<MessageList, NoMemory>
    ensures { IfOk result (λ l. map content_of l.items ≡ counted.posted side.now.record.now.plan to.now key side.now.record.now.journal) }
{
    posted_in(
        alloc,
        side.record.plan().as_slice(),
        to,
        key,
        side.record.journal(),
    )
}

/// Those of the posts of a journal.
fn posted_in(
    alloc: Global,
    plan: &[PlanStep],
    to: &FastSet,
    key: Key,
    journal: &EntryList,
) -> Result<MessageList, NoMemory>
    ensures { IfOk result (λ l. map content_of l.items ≡ counted.posted plan.now to.now key journal.now.items) }
{
    let mut all = Items::empty(alloc);
    for e in journal.iter() {
        post_one(&mut all, plan, to, key, &e)?;
    }
    Ok(all)
}

/// That of an entry, if it is one.
fn post_one(
    all: &mut MessageList,
    plan: &[PlanStep],
    to: &FastSet,
    key: Key,
    e: &Entry,
) -> Result<(), NoMemory>
    ensures { OnOk result (map content_of all.new.items ≡ map content_of all.old.items ++ counted.posted_at plan.now to.now key e.now) }
{
    match e {
        Entry::Post { place } => post_step(all, plan.get(*place as usize), to, key),
        Entry::Dial
        | Entry::Opened { socket: _ }
        | Entry::Read {
            socket: _,
            count: _,
        }
        | Entry::Wrote {
            socket: _,
            count: _,
        }
        | Entry::Closed { socket: _ }
        | Entry::Judged {
            socket: _,
            ask: _,
            number: _,
            answer: _,
        }
        | Entry::Asked {
            ident: _,
            number: _,
        }
        | Entry::Numbered { number: _ }
        | Entry::Accepted { number: _, key: _ }
        | Entry::Acked { number: _ }
        | Entry::Obeyed { full: _ }
        | Entry::Down { planned: _ } => Ok(()),
    }
}

/// That of a step of the plan, if it is one.
fn post_step(
    all: &mut MessageList,
    step: Option<&PlanStep>,
    to: &FastSet,
    key: Key,
) -> Result<(), NoMemory>
    ensures { OnOk result (map content_of all.new.items ≡ map content_of all.old.items ++ counted.posted_by to.now key (option_copied step.entry)) }
{
    match step {
        Some(PlanStep::Post(message)) => {
            if is_key(key_at(to, message), key) {
                push_copy(all, message)
            } else {
                Ok(())
            }
        }
        Some(PlanStep::Dial) | Some(PlanStep::Down) | None => Ok(()),
    }
}
