//! How many posts nodes leave.

ghost use Rattle.std.specs.Prelude.{◌≡◌, ◌++◌, IfOk, List, count_by, flat_map, sum_by};
ghost use Rattle.std.specs.List.{list_any};
ghost use Rattle.m2_node.specs.m2_script.m2_center.Center.{CenterNow};
ghost use Rattle.m2_dispatch.specs.Heard.{heard_by, is_message_from};
ghost use Rattle.m2_dispatch.specs.declared.logged.Logged.{Logged};
ghost use Rattle.m2_run.specs.Kept.{ended_as_one, left_of};
ghost use Rattle.m2_node.specs.m2_script.Outcome.{is_down_at, is_up, left_from, left_over, messages_at, posts_at};
ghost use Rattle.m2_node.specs.m2_script.Ways.{is_down_to, posts_to};

use m2_bytes::NoMemory;
use m2_fabric::Port;
use m2_node::{RunCenter, RunNode, is_down_towards, messages_of, posts_towards, sum};
use m2_scenario::Link;

/// How many posts, over the lossless links of which neither end was marked down, the dispatchers of these nodes weren't called
/// with. Err: more than the greatest number.
pub(crate) fn left_at<P: Port>(links: &[Link], all: &[RunNode<'_, P>]) -> Result<u64, NoMemory>
    ensures { IfOk result (λ n. n ≡ left_of links.now all.now) }
{
    let mut left: u64 = 0;
    'links: for link in links {
        left = sum(left, left_on(all, link)?)?;
    }
    Ok(left)
}

/// How many posts over a link, in both directions.
fn left_on<P: Port>(all: &[RunNode<'_, P>], link: &Link) -> Result<u64, NoMemory>
    ensures { IfOk result (λ n. n ≡ left_over heard_by (ended_as_one all.now) link.now) }
{
    if !is_up(all, link) {
        return Ok(0);
    }
    let there = left_from(all, link.a, link.b)?;
    let back = left_from(all, link.b, link.a)?;
    sum(there, back)
}

/// Whether the link is lossless, and neither end was marked down.
fn is_up<P: Port>(all: &[RunNode<'_, P>], link: &Link) -> bool
    ensures { result ≡ is_up (ended_as_one all.now) link.now }
{
    if link.of_a.lossy || link.of_b.lossy {
        return false;
    }
    !(is_down_at(all, link.a, link.b) || is_down_at(all, link.b, link.a))
}

/// Whether a record of one node towards another was marked down.
fn is_down_at<P: Port>(all: &[RunNode<'_, P>], from: u32, to: u32) -> bool
    ensures { result ≡ is_down_at (ended_as_one all.now) from to }
{
    match all.get(from as usize) {
        None => false,
        Some(node) => is_down_in(node.centers(), to),
    }
}

/// The same of the records of these centers.
fn is_down_in<P: Port>(centers: &[RunCenter<P>], to: u32) -> bool
    ensures { result ≡ list_any (is_down_to to) (flat_map (λ (c : CenterNow (List Logged)). c.records) centers.now) }
{
    'centers: for center in centers {
        if is_down_towards(center.records(), to) {
            return true;
        }
    }
    false
}

/// How many posts of one node to another weren't dispatched.
fn left_from<P: Port>(all: &[RunNode<'_, P>], from: u32, to: u32) -> Result<u64, NoMemory>
    ensures { IfOk result (λ n. n ≡ left_from heard_by (ended_as_one all.now) from to) }
{
    let posts = posts_at(all, from, to)?;
    let messages = messages_at(all, from, to)?;
    Ok(posts.saturating_sub(messages))
}

/// How many posts one node planned towards another. Err: more than the greatest number.
fn posts_at<P: Port>(all: &[RunNode<'_, P>], from: u32, to: u32) -> Result<u64, NoMemory>
    ensures { IfOk result (λ n. n ≡ posts_at (ended_as_one all.now) from to) }
{
    match all.get(from as usize) {
        None => Ok(0),
        Some(node) => posts_in(node.centers(), to),
    }
}

/// The same of the records of these centers.
fn posts_in<P: Port>(centers: &[RunCenter<P>], to: u32) -> Result<u64, NoMemory>
    ensures { IfOk result (λ n. n ≡ sum_by (posts_to to) (flat_map (λ (c : CenterNow (List Logged)). c.records) centers.now)) }
{
    let mut posts: u64 = 0;
    'centers: for center in centers {
        posts = sum(posts, posts_towards(center.records(), to)?)?;
    }
    Ok(posts)
}

/// How many messages of one node the dispatchers of another were called with. Err: more than the greatest number.
fn messages_at<P: Port>(all: &[RunNode<'_, P>], from: u32, to: u32) -> Result<u64, NoMemory>
    ensures { IfOk result (λ n. n ≡ messages_at heard_by (ended_as_one all.now) from to) }
{
    match all.get(to as usize) {
        None => Ok(0),
        Some(node) => messages_in(node.centers(), from),
    }
}

/// The same of the dispatchers of these centers.
fn messages_in<P: Port>(centers: &[RunCenter<P>], from: u32) -> Result<u64, NoMemory>
    ensures { IfOk result (λ n. n ≡ count_by (is_message_from from) (heard_by (flat_map (λ (c : CenterNow (List Logged)). c.out.fast) centers.now) ++ heard_by (flat_map (λ (c : CenterNow (List Logged)). c.queued.inner) centers.now))) }
{
    let fast = fast_messages_in(centers, from)?;
    let queued = queued_messages_in(centers, from)?;
    sum(fast, queued)
}

/// Of those of fast kinds.
fn fast_messages_in<P: Port>(centers: &[RunCenter<P>], from: u32) -> Result<u64, NoMemory>
    ensures { IfOk result (λ n. n ≡ count_by (is_message_from from) (heard_by (flat_map (λ (c : CenterNow (List Logged)). c.out.fast) centers.now))) }
{
    let mut count: u64 = 0;
    'centers: for center in centers {
        count = sum(count, messages_of(from, center.fast().log().as_slice()))?;
    }
    Ok(count)
}

/// And of those behind their queues.
fn queued_messages_in<P: Port>(centers: &[RunCenter<P>], from: u32) -> Result<u64, NoMemory>
    ensures { IfOk result (λ n. n ≡ count_by (is_message_from from) (heard_by (flat_map (λ (c : CenterNow (List Logged)). c.queued.inner) centers.now))) }
{
    let mut count: u64 = 0;
    'centers: for center in centers {
        let log = center.queued().inner().log().as_slice();
        count = sum(count, messages_of(from, log))?;
    }
    Ok(count)
}
