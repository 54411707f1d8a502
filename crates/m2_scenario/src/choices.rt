//! What draws choose for a post.

ghost use Rattle.std.specs.Prelude.{◌≡◌, ◌≢◌, ◌<◌, ◌≤◌, IfOk, OnOk, length, replicate};
ghost use Rattle.m2_message.specs.Message.{content_of};
ghost use Rattle.m2_scenario.specs.Valid.{are_short};
ghost use Rattle.m2_scenario.specs.Draws.{draw, state_after};
ghost use Rattle.m2_scenario.specs.Choices.{from_by, to_by, kind_by, priority_by, message_by};
ghost use Rattle.m2_scenario.specs.Cluster.{all_pairs};
ghost use Rattle.m2_scenario.specs.Draft.{are_joined};

use crate::draws::Draws;
use crate::posted;
use m2_bytes::{Blob, NoMemory};
use m2_message::Message;
use std::alloc::Global;

/// The priorities of posts.
const PRIORITIES: [u16; 4] = [64, 127, 196, 255];

/// The nodes of a post, by their places: the one that posts, and the one that it posts to. They are the choice of the
/// next two draws.
pub(crate) fn nodes(draws: &mut Draws) -> (u32, u32)
    ensures from { result.0 ≡ from_by (draw draws.old 0) }
    ensures to { result.1 ≡ to_by (draw draws.old 0) (draw draws.old 1) }
    ensures draws { draws.new ≡ state_after draws.old 2 }
{
    let first = draws.next();
    let second = draws.next();
    (from(first), to(first, second))
}

/// The message of the post of this number, by the next three draws.
pub(crate) fn message(alloc: Global, number: u32, draws: &mut Draws) -> Result<Message, NoMemory>
    ensures value { IfOk result (λ m. content_of m ≡ message_by number (draw draws.old 0) (draw draws.old 1) (draw draws.old 2)) }
    ensures draws { draws.new ≡ state_after draws.old 3 }
{
    let third = draws.next();
    let fourth = draws.next();
    let fifth = draws.next();
    message_of(alloc, number, third, fourth, fifth)
}

fn from(first: u64) -> u32
    ensures { result ≡ from_by first }
{
    (first % 4) as u32
}

fn to(first: u64, second: u64) -> u32
    ensures { result ≡ to_by first second }
{
    ((first % 4 + 1 + second % 3) % 4) as u32
}

fn kind(third: u64) -> u16
    ensures { result ≡ kind_by third }
{
    1 + (third % 2) as u16
}

fn priority(fourth: u64) -> u16
    ensures { result ≡ priority_by fourth }
{
    PRIORITIES[(fourth % 4) as usize]
}

fn message_of(
    alloc: Global,
    number: u32,
    third: u64,
    fourth: u64,
    fifth: u64,
) -> Result<Message, NoMemory>
    ensures { IfOk result (λ m. content_of m ≡ message_by number third fourth fifth) }
{
    let front = filled(alloc, (fifth % 32) as usize, (number % 256) as u8)?;
    posted(
        kind(third),
        priority(fourth),
        front,
        Blob::empty(alloc),
        Blob::empty(alloc),
    )
}

/// So many bytes of this value.
fn filled(alloc: Global, len: usize, byte: u8) -> Result<Blob, NoMemory>
    ensures { IfOk result (λ b. b.bytes ≡ replicate len byte) }
{
    let mut bytes = Vec::new(alloc);
    bytes.resize(len, byte)?;
    Ok(Blob::from_vec(bytes))
}
