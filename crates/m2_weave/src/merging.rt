//! The merge of strands by counters.

ghost use Rattle.std.specs.Prelude.{◌≡◌, ℕ, ◌<◌, length, slice_index, IfOk, OnOk};
ghost use Rattle.m2_weave.specs.Counted.{by_counters, entries_of, is_met, lengths, next_of};
ghost use Rattle.m2_weave.specs.Merging.{Comes, GoesOn, IsNew, even};
ghost use Rattle.m2_weave.specs.Order.{IsGreedy, reached};
ghost use Rattle.m2_weave.specs.Users.{AreWithin, IsIn, IsNeedWithin, users_at};

use crate::counted::{CountedEntry, CountedStrand, Need};
use crate::users::{Users, users_of};
use m2_bytes::{Items, NoMemory};
use std::alloc::Global;

/// What a merge found: the strands of the entries, in the order in which they came, and how many entries
/// of each strand that is.
#[derive(Debug, Drop)]
pub struct Merged {
    pub order: Items<usize>,
    pub at: Items<usize>,
}

/// How far a merge has come: how many entries of each strand, what each counter stands at, the order so
/// far, and the strands that are to be looked at.
#[derive(Debug, Drop)]
pub(crate) struct Progress {
    at: Vec<usize>,
    values: Vec<u64>,
    order: Vec<usize>,
    todo: Vec<usize>,
}

/// The next entry of a strand; none where all have come, or where there is no such strand.
fn next_of(strands: &[CountedStrand], at: &[usize], k: usize) -> Option<CountedEntry>
    requires count { length at.now ≡ length strands.now }
    ensures { result ≡ next_of (entries_of strands.now) at.now k }
{
    let Some(strand) = strands.get(k) else {
        return None;
    };
    strand.entries.get(at[k]).copied()
}

/// Whether what an entry waits for is met.
fn is_met(need: Need, values: &[u64]) -> bool
    requires within { IsNeedWithin (length values.now) need }
    ensures { result ≡ is_met need (slice_index values.now) }
{
    match need {
        Need::Nothing => true,
        Need::AtLeast { counter, least } => least <= values[counter],
        Need::Never => false,
    }
}

/// All numbers below `n`, the least last.
fn all_below(alloc: Global, n: usize) -> Result<Vec<usize>, NoMemory>
    ensures { IfOk result (λ v. (k : ℕ) → k < n → IsIn k v.items) }
{
    let mut numbers = Vec::with_capacity(alloc, n)?;
    for i in 0..n {
        numbers.push(n - 1 - i)?;
    }
    Ok(numbers)
}

impl Progress {
    /// No entry has come.
    fn new(alloc: Global, strands: usize, counters: usize) -> Result<Progress, NoMemory>
        ensures { IfOk result (IsNew strands counters) }
    {
        Ok(Progress {
            at: Vec::from_elem(alloc, 0, strands)?,
            values: Vec::from_elem(alloc, 0, counters)?,
            order: Vec::new(alloc),
            todo: all_below(alloc, strands)?,
        })
    }

    /// One more entry of a strand has come. A count above 2^64 - 1 is answered as for want of memory.
    fn come(&mut self, k: usize, e: CountedEntry, users: &[Users]) -> Result<(), NoMemory>
        requires strand { k < length self.old.at.items }
        requires counter { e.counter < length self.old.values.items }
        requires users { e.counter < length users.now }
        ensures { OnOk result (Comes k e (users_at users.now e.counter) self.old self.new) }
    {
        let place = self.at[k];
        let value = self.values[e.counter];
        if place == usize::MAX || e.amount > u64::MAX - value {
            return Err(NoMemory);
        }
        self.order.push(k)?;
        self.todo.push(k)?;
        self.todo.extend_from_slice(&users[e.counter].strands)?;
        self.values[e.counter] = value + e.amount;
        self.at[k] = place + 1;
        Ok(())
    }

    /// The next entry of a strand comes, where it may.
    fn go_on(
        &mut self,
        strands: &[CountedStrand],
        users: &[Users],
        k: usize,
    ) -> Result<(), NoMemory>
        requires count { length self.old.at.items ≡ length strands.now }
        requires within { AreWithin (length self.old.values.items) (entries_of strands.now) }
        requires users { length users.now ≡ length self.old.values.items }
        ensures { OnOk result (GoesOn (next_of (entries_of strands.now) self.old.at.items k) k users.now self.old self.new) }
    {
        let Some(e) = next_of(strands, &self.at, k) else {
            return Ok(());
        };
        if is_met(e.need, &self.values) {
            return self.come(k, e, users);
        }
        Ok(())
    }
}

/// Merges strands whose entries name counters below this count: whatever may come is taken, until nothing
/// may. It takes time in proportion to the entries, where each counter is waited for by a few strands: a
/// strand is looked at again only where a counter for which it waits has risen. A counter above 2^64 - 1
/// is answered as for want of memory.
pub fn merge(alloc: Global, strands: &[CountedStrand], counters: usize) -> Result<Merged, NoMemory>
    requires within { AreWithin counters (entries_of strands.now) }
    ensures greedy { IfOk result (λ m. IsGreedy even (by_counters (entries_of strands.now)) (lengths (entries_of strands.now)) m.order.items) }
    ensures stop { IfOk result (λ m. m.at.items ≡ reached (lengths (entries_of strands.now)) m.order.items) }
{
    let users = users_of(alloc, strands, counters)?;
    let mut progress = Progress::new(alloc, strands.len(), counters)?;
    'looks: while let Some(k) = progress.todo.pop() {
        progress.go_on(strands, &users, k)?;
    }
    Ok(Merged {
        order: Items::from_vec(progress.order),
        at: Items::from_vec(progress.at),
    })
}
