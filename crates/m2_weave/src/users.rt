//! Which strands wait for which counter.

ghost use Rattle.std.specs.Prelude.{◌≡◌, ℕ, ◌<◌, true, [], length, slice_index_or, All, IfOk, OnOk};
ghost use Rattle.m2_weave.specs.Counted.{entries_of};
ghost use Rattle.m2_weave.specs.Users.{AreListed, AreWithin, IsIn, IsListed, IsNeedWithin, IsWithin, ListsMore};

use crate::counted::{CountedEntry, CountedStrand, Need};
use m2_bytes::NoMemory;
use std::alloc::Global;

/// The strands that wait for one counter.
#[derive(Debug, Drop)]
pub(crate) struct Users {
    pub(crate) strands: Vec<usize>,
}

/// Lists a strand with the counter for which an entry of it waits, if it isn't the last one there.
fn list(users: &mut [Users], strand: usize, need: Need) -> Result<(), NoMemory>
    requires within { IsNeedWithin (length users.old) need }
    ensures more { OnOk result (ListsMore users.old users.new) }
    ensures listed { OnOk result (IsListed users.new strand need) }
{
    if let Need::AtLeast { counter, least: _ } = need {
        if is_last(strand, &users[counter].strands) {
            return Ok(());
        }
        users[counter].strands.push(strand)?;
    }
    Ok(())
}

/// Whether a number is the last of a list.
#[tactic(auto, using(crate::proofs::Listing::in_at))]
fn is_last(number: usize, numbers: &[usize]) -> bool
    ensures { result ≡ true → IsIn number numbers.now }
{
    let n = numbers.len();
    if n == 0 {
        return false;
    }
    numbers[n - 1] == number
}

/// Lists a strand with each counter for which one of these entries waits.
fn list_all(users: &mut [Users], strand: usize, entries: &[CountedEntry]) -> Result<(), NoMemory>
    requires within { All (IsWithin (length users.old)) entries.now }
    ensures more { OnOk result (ListsMore users.old users.new) }
    ensures listed { OnOk result (AreListed users.new strand entries.now) }
{
    for e in entries {
        list(users, strand, e.need)?;
    }
    Ok(())
}

/// Of each counter no strand.
fn no_users(alloc: Global, counters: usize) -> Result<Vec<Users>, NoMemory>
    ensures { IfOk result (λ users. length users.items ≡ counters) }
{
    let mut users = Vec::with_capacity(alloc, counters)?;
    for _ in 0..counters {
        users.push(Users {
            strands: Vec::new(alloc),
        })?;
    }
    Ok(users)
}

/// The strands that wait for each counter.
pub(crate) fn users_of(
    alloc: Global,
    strands: &[CountedStrand],
    counters: usize,
) -> Result<Vec<Users>, NoMemory>
    requires within { AreWithin counters (entries_of strands.now) }
    ensures count { IfOk result (λ users. length users.items ≡ counters) }
    ensures listed { IfOk result (λ users. (k : ℕ) → k < length strands.now → AreListed users.items k (slice_index_or (entries_of strands.now) k [])) }
{
    let mut users = no_users(alloc, counters)?;
    for (k, s) in strands.iter().enumerate() {
        list_all(&mut users, k, s.entries.as_slice())?;
    }
    Ok(users)
}
