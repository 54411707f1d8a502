//! A list put in the order of a rank.

ghost use Rattle.std.specs.Prelude.{◌≡◌, ℕ, OnOk, OnErr};
ghost use Rattle.m2_queues.specs.ByRank.{by_rank, Ranks};

use m2_bytes::NoMemory;
use std::cmp::Reverse;

/// Puts the items of the greatest rank first; inside one rank the order stays as it was. On Err the
/// list is unchanged.
pub fn sort_by_rank<T, F: Fn(&T) -> u64>(items: &mut Vec<T>, rank: F) -> Result<(), NoMemory>
    requires { F.IsAlwaysCallable rank }
    ensures ok { OnOk result ((rank_of : T → ℕ) → Ranks F.Fn rank rank_of → items.new.items ≡ by_rank rank_of items.old.items) }
    ensures err { OnErr result (items.new.items ≡ items.old.items) }
{
    items.sort_by_key(|item| Reverse(rank(item)))?;
    Ok(())
}
