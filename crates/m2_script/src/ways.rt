//! The ways of a run, and how many posts each had.

ghost use Rattle.std.specs.Prelude.{◌≡◌, ◌+◌, ◌++◌, [], IfOk, OnOk, count_by, flat_map, sum_by};
ghost use Rattle.std.specs.List.{list_any};
ghost use Rattle.m2_script.specs.Outcome.{is_down_at, is_down_entry, is_post_step, is_up, posts_at};
ghost use Rattle.m2_script.specs.Ended.{ended};
ghost use Rattle.m2_script.specs.Ways.{is_down_to, posts_to, way_of, ways_over};

use m2_bytes::NoMemory;
use m2_cluster::Cluster;
use m2_fabric::{End, Port};
use m2_journal::{Entry, EntryList, PlanStep};
use m2_record::Record;
use m2_scenario::Link;
use std::alloc::Global;

/// From which node to which, and how many posts were planned for it.
#[derive(Clone, Copy, Debug, PartialEq, Eq)]
pub(crate) struct Way {
    pub(crate) from: u32,
    pub(crate) to: u32,
    pub(crate) posts: u64,
}

/// Both ways over each of these links that is up, in order.
pub(crate) fn ways_of<P: Port, D>(
    alloc: Global,
    links: &[Link],
    cluster: &Cluster<P, D>,
) -> Result<Vec<Way>, NoMemory>
    ensures { IfOk result (λ ways. ways.items ≡ flat_map (ways_over (ended cluster.now [])) links.now) }
{
    let mut ways = Vec::new(alloc);
    for link in links {
        add_ways(&mut ways, cluster, link)?;
    }
    Ok(ways)
}

/// Adds both ways over a link, if it is up.
fn add_ways<P: Port, D>(
    ways: &mut Vec<Way>,
    cluster: &Cluster<P, D>,
    link: &Link,
) -> Result<(), NoMemory>
    ensures { OnOk result (ways.new.items ≡ ways.old.items ++ ways_over (ended cluster.now []) link.now) }
{
    if is_up(cluster, link) {
        ways.push(way_between(cluster, link.a, link.b)?)?;
        ways.push(way_between(cluster, link.b, link.a)?)?;
    }
    Ok(())
}

/// The way between two nodes.
fn way_between<P: Port, D>(cluster: &Cluster<P, D>, from: u32, to: u32) -> Result<Way, NoMemory>
    ensures { IfOk result (λ w. w ≡ way_of (ended cluster.now []) from to) }
{
    let posts = posts_at(cluster, from, to)?;
    Ok(Way { from, to, posts })
}

/// Whether the link is lossless, and neither end was marked down.
fn is_up<P: Port, D>(cluster: &Cluster<P, D>, link: &Link) -> bool
    ensures { result ≡ is_up (ended cluster.now []) link.now }
{
    if link.of_a.lossy || link.of_b.lossy {
        return false;
    }
    !(is_down_at(cluster, link.a, link.b) || is_down_at(cluster, link.b, link.a))
}

/// Whether a record of one node towards another was marked down.
fn is_down_at<P: Port, D>(cluster: &Cluster<P, D>, from: u32, to: u32) -> bool
    ensures { result ≡ is_down_at (ended cluster.now []) from to }
{
    match cluster.nodes().get(from as usize) {
        None => false,
        Some(node) => is_down_towards(node.center().records(), to),
    }
}

/// Whether one of these records is towards that node and was marked down.
pub fn is_down_towards<E: End>(records: &[Record<E>], to: u32) -> bool
    ensures { result ≡ list_any (is_down_to to) records.now }
{
    for side in records {
        if is_down_to(side, to) {
            return true;
        }
    }
    false
}

/// Whether the record is towards that node and was marked down.
fn is_down_to<E: End>(side: &Record<E>, to: u32) -> bool
    ensures { result ≡ is_down_to to side.now }
{
    side.place() == to && says_down(side.journal())
}

/// Whether a journal says that its record was marked down.
fn says_down(journal: &EntryList) -> bool
    ensures { result ≡ list_any is_down_entry journal.now.items }
{
    for entry in journal.iter() {
        if let Entry::Down { planned: _ } = entry {
            return true;
        }
    }
    false
}

/// How many posts one node planned towards another. Err: more than the greatest number.
fn posts_at<P: Port, D>(cluster: &Cluster<P, D>, from: u32, to: u32) -> Result<u64, NoMemory>
    ensures { IfOk result (λ n. n ≡ posts_at (ended cluster.now []) from to) }
{
    match cluster.nodes().get(from as usize) {
        None => Ok(0),
        Some(node) => posts_towards(node.center().records(), to),
    }
}

/// How many posts these records planned towards that node. Err: more than the greatest number.
pub fn posts_towards<E: End>(records: &[Record<E>], to: u32) -> Result<u64, NoMemory>
    ensures { IfOk result (λ n. n ≡ sum_by (posts_to to) records.now) }
{
    let mut posts: u64 = 0;
    for side in records {
        posts = sum(posts, posts_to(side, to))?;
    }
    Ok(posts)
}

/// The sum of both. Err: it is above the greatest number.
pub fn sum(a: u64, b: u64) -> Result<u64, NoMemory>
    ensures { IfOk result (λ n. n ≡ a + b) }
{
    a.checked_add(b).ok_or(NoMemory)
}

/// How many posts the record planned, if it is towards that node.
fn posts_to<E: End>(side: &Record<E>, to: u32) -> u64
    ensures { result ≡ posts_to to side.now }
{
    if side.place() == to {
        posts_in(side.plan().as_slice())
    } else {
        0
    }
}

/// How many posts a plan has.
fn posts_in(plan: &[PlanStep]) -> u64
    ensures { result ≡ count_by is_post_step plan.now }
{
    let mut posts = 0;
    for step in plan {
        if let PlanStep::Post(_) = step {
            posts += 1;
        }
    }
    posts
}
