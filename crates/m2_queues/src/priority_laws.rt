//! What the order of ranks is. These functions do nothing: each stands for the laws that its contract
//! names.

ghost use Rattle.std.specs.Prelude.{ℕ, List};
ghost use Rattle.m2_queues.specs.PriorityLaws.{ByRankIsAStableSort, NoOtherIsAStableSort, JoiningIsSorting, JoiningKeepsTheOrder, EachRankKeepsItsOrder};

/// What [`sort_by_rank`](crate::sort_by_rank) gives is the one stable sort by falling rank.
pub fn by_rank_is_the_stable_sort<T>()
    ensures is { (rank : T → ℕ) → ByRankIsAStableSort rank }
    ensures one { (rank : T → ℕ) → NoOtherIsAStableSort rank }
{}

/// What a [`PriorityQueue`](crate::PriorityQueue) holds after a list of items has joined it one after
/// another is what the stable sort makes of the list: it falls in rank, and of each rank an item that
/// joins is the last.
pub fn joining_behind_is_the_stable_sort<T>()
    ensures sorts { (rank : T → ℕ) → JoiningIsSorting rank }
    ensures falls { (rank : T → ℕ) → JoiningKeepsTheOrder rank }
    ensures last { (rank : T → ℕ) → EachRankKeepsItsOrder rank }
{}
