//! The inboxes of all event threads, when these have ended.

ghost use Rattle.std.specs.Prelude.{◌≡◌, ◌++◌, OnOk, drop, length, reverse, slice_get};
ghost use Rattle.m2_handover.specs.m2_mailbox.Passes.{IsGetPassOf, IsPutPassOf, parts_of, puts_of, taken_of};
ghost use Rattle.m2_handover.specs.m2_mailbox.Views.{all_parts};
ghost use Rattle.m2_run.specs.Closing.{AreAllRightsTo, AreLeftOver, IsLeftOver};
ghost use Rattle.m2_run.specs.Opened.{AllClosed, AreRightsTo, HasRoomsFor, IsClosed, WeighsUp};

use crate::ending::Opened;
use m2_bytes::NoMemory;
use m2_fabric::{End, Port};
use m2_handover::{GetPass, Handed, Inbox, PutPass, close_inbox};
use m2_node::{Rights, let_inboxes_go};
use m2_trail::{Loose, LooseList};
use std::alloc::Global;
use std::sync::Wait;

/// Closes all inboxes, when their threads have ended, and gives what is left in each to its node. Err is want of memory; they are
/// closed, or let go, then too.
pub(crate) fn close_all<R: Wait, P: Port>(
    rt: &R,
    alloc: Global,
    mut inboxes: Vec<Inbox<Handed<P::End>>>,
    ends: &mut [Opened<'_, P>],
) -> Result<(), NoMemory>
    requires { HasRoomsFor (slice_get inboxes.items) 0 ends.old }
    ensures { OnOk result (AllClosed ends.old ends.new) }
{
    inboxes.reverse();
    let closed = close_each(rt, alloc, &mut inboxes, ends);
    let_inboxes_go(inboxes);
    closed
}

/// The same of these, the last of which is that of the first thread.
fn close_each<R: Wait, P: Port>(
    rt: &R,
    alloc: Global,
    inboxes: &mut Vec<Inbox<Handed<P::End>>>,
    ends: &mut [Opened<'_, P>],
) -> Result<(), NoMemory>
    requires { HasRoomsFor (slice_get (reverse inboxes.old.items)) 0 ends.old }
    ensures { OnOk result (AllClosed ends.old ends.new) }
{
    'nodes: for k in 0..ends.len() {
        close_node(rt, alloc, inboxes, &mut ends[k])?;
    }
    Ok(())
}

/// Those of one node.
fn close_node<R: Wait, P: Port>(
    rt: &R,
    alloc: Global,
    inboxes: &mut Vec<Inbox<Handed<P::End>>>,
    node: &mut Opened<'_, P>,
) -> Result<(), NoMemory>
    requires rights { AreRightsTo (slice_get (reverse inboxes.old.items)) 0 node.old }
    requires weighs { WeighsUp node.old }
    ensures closed { OnOk result (IsClosed node.old node.new) }
    ensures left { OnOk result (reverse inboxes.new.items ≡ drop (length node.old.gets) (reverse inboxes.old.items)) }
{
    let Opened { left, rights, .. } = node;
    close_some(rt, alloc, inboxes, rights, &mut left.on_way)
}

/// The first of them, to which these are all rights, one by one; what is left in them goes last.
fn close_some<R: Wait, E: End>(
    rt: &R,
    alloc: Global,
    inboxes: &mut Vec<Inbox<Handed<E>>>,
    rights: &mut Rights<E>,
    into: &mut Vec<Loose<E>>,
) -> Result<(), NoMemory>
    requires { AreAllRightsTo (reverse inboxes.old.items) rights.old.puts.items rights.old.gets.items }
    ensures over { OnOk result (AreLeftOver into.old.items into.new.items rights.old.puts.items rights.old.gets.items) }
    ensures left { OnOk result (reverse inboxes.new.items ≡ drop (length rights.old.gets.items) (reverse inboxes.old.items)) }
{
    let Rights { puts, gets } = rights;
    puts.reverse();
    gets.reverse();
    'threads: while let Some(get) = gets.pop() {
        let Some(put) = puts.pop() else {
            return Err(NoMemory);
        };
        let Some(inbox) = inboxes.pop() else {
            return Err(NoMemory);
        };
        close_one(rt, alloc, inbox, put, get, into)?;
    }
    if puts.is_empty() {
        Ok(())
    } else {
        Err(NoMemory)
    }
}

/// One, to which these are all rights; what is left there goes last.
fn close_one<R: Wait, E: End>(
    rt: &R,
    alloc: Global,
    inbox: Inbox<Handed<E>>,
    put: PutPass<Handed<E>>,
    get: GetPass<Handed<E>>,
    into: &mut Vec<Loose<E>>,
) -> Result<(), NoMemory>
    requires put { IsPutPassOf inbox put }
    requires get { IsGetPassOf inbox get }
    requires only { parts_of put ≡ all_parts }
    ensures { OnOk result (IsLeftOver into.old.items into.new.items (puts_of put) (taken_of get)) }
{
    let halves = close_inbox(rt, alloc, inbox, put, get)?;
    put_last(into, halves)
}

/// These halves go last.
fn put_last<E: End>(into: &mut Vec<Loose<E>>, halves: LooseList<E>) -> Result<(), NoMemory>
    ensures { OnOk result (into.new.items ≡ into.old.items ++ halves.items) }
{
    'halves: for half in halves.into_vec() {
        into.push(half)?;
    }
    Ok(())
}
