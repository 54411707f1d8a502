//! How many posts are left.

ghost use Rattle.std.specs.Prelude.{◌≡◌, IfOk, count_by, sum_by};
ghost use Rattle.m2_dispatch.specs.Heard.{heard_by, is_message_from};
ghost use Rattle.m2_script.specs.Ways.{left_of};

use crate::ways::{Way, sum};
use m2_bytes::NoMemory;
use m2_dispatch::{Logged, LoggedList};

/// How many posts of these ways weren't dispatched, where these are the logs of all nodes. Err: more than the greatest
/// number.
pub(crate) fn left_over(ways: &[Way], logs: &[LoggedList]) -> Result<u64, NoMemory>
    ensures { IfOk result (λ n. n ≡ sum_by (left_of logs.now) ways.now) }
{
    let mut left: u64 = 0;
    for way in ways {
        left = sum(left, left_of(way, logs))?;
    }
    Ok(left)
}

/// How many posts of a way weren't dispatched.
fn left_of(way: &Way, logs: &[LoggedList]) -> u64
    ensures { result ≡ left_of logs.now way.now }
{
    match logs.get(way.to as usize) {
        None => way.posts,
        Some(log) => way
            .posts
            .saturating_sub(messages_of(way.from, log.as_slice())),
    }
}

/// How many messages of a node are among these calls.
pub fn messages_of(node: u32, log: &[Logged]) -> u64
    ensures { result ≡ count_by (is_message_from node) (heard_by log.now) }
{
    let mut count = 0;
    for call in log {
        if call.is_message_from(node as usize) {
            count += 1;
        }
    }
    count
}
