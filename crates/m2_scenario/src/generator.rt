//! The generator.

ghost use Rattle.std.specs.Prelude.{◌≡◌, ◌≤◌, IfOk, OnOk};
ghost use Rattle.m2_scenario.specs.Draft.{IsMade};
ghost use Rattle.m2_scenario.specs.Valid.{IsValid};
ghost use Rattle.m2_scenario.specs.Generated.{generated};

use crate::cluster::cluster;
use crate::draws::Draws;
use crate::lines::{LAST_ROUNDS, push_lines};
use crate::{Line, MOST_POSTS, Scenario};
use m2_bytes::NoMemory;
use std::alloc::Global;

/// The scenario of so many posts that a seed determines. Err comes for want of memory.
pub fn generate(alloc: Global, posts: u32, seed: u64) -> Result<Scenario, NoMemory>
    requires least { 1 ≤ posts }
    requires most { posts ≤ MOST_POSTS }
    ensures made { IfOk result (λ s. IsMade s (generated posts seed)) }
    ensures valid { IfOk result IsValid }
{
    let mut draft = cluster(alloc)?;
    let mut draws = Draws::of(seed);
    'posts: for number in 0..posts {
        push_lines(alloc, &mut draft, number, &mut draws)?;
    }
    draft.push_line(Line::Settle {
        rounds: LAST_ROUNDS,
    })?;
    Ok(draft.into_scenario())
}
