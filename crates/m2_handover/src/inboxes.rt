//! The end of an inbox.

ghost use Rattle.std.specs.Prelude.{◌≡◌, IfOk};
ghost use Rattle.m2_handover.specs.Handed.{AreLeftIn};
ghost use Rattle.m2_mailbox.specs.Passes.{IsGetPassOf, IsPutPassOf, parts_of, puts_of, taken_of};
ghost use Rattle.m2_mailbox.specs.Views.{all_parts};

use crate::handed::Handed;
use m2_bytes::{Items, NoMemory};
use m2_fabric::End;
use m2_mailbox::{GetPass, Inbox, PutPass};
use m2_trail::LooseList;
use std::alloc::Global;
use std::sync::Wait;

/// Ends an inbox, of which these are the only passes, and gives the sockets that are left in it, as halves that no thread of the
/// node went on with, in order: with those that were taken they are all that were put. Err is want of memory.
pub fn close_inbox<E: End, R: Wait>(
    rt: &R,
    alloc: Global,
    inbox: Inbox<Handed<E>>,
    put: PutPass<Handed<E>>,
    get: GetPass<Handed<E>>,
) -> Result<LooseList<E>, NoMemory>
    requires put { IsPutPassOf inbox put }
    requires get { IsGetPassOf inbox get }
    requires only { parts_of put ≡ all_parts }
    ensures { IfOk result (λ halves. AreLeftIn halves.items (puts_of put) (taken_of get)) }
{
    let mut rest = inbox.close(rt, put, get);
    let mut halves = Items::empty(alloc);
    let mut is_full = false;
    'left: for _ in rt.forever() {
        let Some(handed) = rest.next(rt) else {
            rest.destroy_empty();
            return if is_full { Err(NoMemory) } else { Ok(halves) };
        };
        is_full = halves.push(handed.into_loose()).is_err() || is_full;
    }
    unreachable!()
}
