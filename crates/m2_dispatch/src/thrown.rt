//! The letters that are thrown away.

ghost use Rattle.std.specs.Prelude.{◌≡◌, ◌≤◌, [], length, OnOk, OnErr};
ghost use Rattle.m2_shared.specs.Gates.{ArePassesOf, Return, held, places};
ghost use Rattle.m2_dispatch.specs.Letters.{AreOwned, IsOwnedLetter, granted, of_peer, others};
ghost use Rattle.m2_dispatch.specs.Waiting.{IsOrdered, letters_in};

use crate::letter::Letter;
use crate::waiting::{self, Waiting};
use m2_bytes::NoMemory;
use m2_shared::{TakePasses, Throttles};
use std::alloc::Global;
use std::mem;

/// Throws a letter away and gives its grants back.
fn give_back(letter: Letter, throttles: &Throttles, passes: &mut TakePasses)
    requires passes { ArePassesOf throttles.now passes.old }
    requires letter { IsOwnedLetter (places throttles.now) letter }
    ensures passes { ArePassesOf throttles.now passes.new }
    ensures word { Return (held letter.grants) throttles.now passes.old passes.new }
{
    let Letter {
        peer: _,
        key: _,
        number: _,
        life: _,
        message: _,
        grants,
    } = letter;
    grants.back(throttles, passes);
}

/// Throws all letters away and gives their grants back.
pub(crate) fn give_all(waiting: &mut Waiting, throttles: &Throttles, passes: &mut TakePasses)
    requires ordered { IsOrdered waiting.old.items }
    requires passes { ArePassesOf throttles.now passes.old }
    requires letters { AreOwned (places throttles.now) (letters_in waiting.old.items) }
    ensures letters { waiting.new.items ≡ [] }
    ensures passes { ArePassesOf throttles.now passes.new }
    ensures word { Return (granted (letters_in waiting.old.items)) throttles.now passes.old passes.new }
{
    'letters: while let Some(letter) = waiting::take(waiting) {
        give_back(letter, throttles, passes);
    }
}

/// Moves the letters of other peers over, in their order, and throws those of the peer away.
fn sift(
    from: &mut Waiting,
    into: &mut Waiting,
    peer: u32,
    throttles: &Throttles,
    passes: &mut TakePasses,
)
    requires ordered { IsOrdered from.old.items }
    requires nothing { into.old.items ≡ [] }
    requires room { length (letters_in from.old.items) ≤ into.old.room }
    requires passes { ArePassesOf throttles.now passes.old }
    requires letters { AreOwned (places throttles.now) (letters_in from.old.items) }
    ensures from { from.new.items ≡ [] }
    ensures into { letters_in into.new.items ≡ others peer (letters_in from.old.items) }
    ensures ordered { IsOrdered into.new.items }
    ensures passes { ArePassesOf throttles.now passes.new }
    ensures word { Return (granted (of_peer peer (letters_in from.old.items))) throttles.now passes.old passes.new }
{
    'letters: while let Some(letter) = waiting::take(from) {
        if letter.peer == peer {
            give_back(letter, throttles, passes);
        } else {
            waiting::add_reserved(into, letter);
        }
    }
}

/// Throws the letters of the peer away and gives their grants back; the others stay in their order. Err
/// for want of memory changes nothing.
pub(crate) fn discard(
    alloc: Global,
    waiting: &mut Waiting,
    peer: u32,
    throttles: &Throttles,
    passes: &mut TakePasses,
) -> Result<(), NoMemory>
    requires ordered { IsOrdered waiting.old.items }
    requires passes { ArePassesOf throttles.now passes.old }
    requires letters { AreOwned (places throttles.now) (letters_in waiting.old.items) }
    ensures letters { OnOk result (letters_in waiting.new.items ≡ others peer (letters_in waiting.old.items)) }
    ensures ordered { IsOrdered waiting.new.items }
    ensures passes { ArePassesOf throttles.now passes.new }
    ensures word { OnOk result (Return (granted (of_peer peer (letters_in waiting.old.items))) throttles.now passes.old passes.new) }
    ensures err_waiting { OnErr result (waiting.new ≡ waiting.old) }
    ensures err_passes { OnErr result (passes.new ≡ passes.old) }
{
    let count = match u32::try_from(waiting.len()) {
        Ok(count) => count,
        Err(_) => return Err(NoMemory),
    };
    let mut rest = Waiting::empty(alloc);
    if rest.reserve(count).is_err() {
        rest.destroy_empty();
        return Err(NoMemory);
    }
    mem::swap(waiting, &mut rest);
    sift(&mut rest, waiting, peer, throttles, passes);
    rest.destroy_empty();
    Ok(())
}
