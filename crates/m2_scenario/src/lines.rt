//! The lines of a post and of what follows it.

ghost use Rattle.std.specs.Prelude.{◌≡◌, ◌+◌, ◌<◌, ◌++◌, true, OnOk};
ghost use Rattle.m2_scenario.specs.Draft.{are_joined};
ghost use Rattle.m2_scenario.specs.Counts.{counts_of};
ghost use Rattle.m2_scenario.specs.Draws.{draw, state_after};
ghost use Rattle.m2_scenario.specs.Choices.{post_by, from_by, to_by};
ghost use Rattle.m2_scenario.specs.Cluster.{IsCluster};
ghost use Rattle.m2_scenario.specs.Counted.{AreFew};
ghost use Rattle.m2_scenario.specs.Generated.{is_faulted, fault_after, settle_by, lines_by, with_lines};

use crate::choices::{message, nodes};
use crate::draws::Draws;
use crate::{Draft, Line, MOST_FAULTS, MOST_POSTS};
use m2_bytes::NoMemory;
use std::alloc::Global;

/// Each so many posts a fault follows.
pub(crate) const POSTS_TO_A_FAULT: u32 = 16;

/// Each so many posts a round follows.
pub(crate) const POSTS_TO_A_SETTLE: u32 = 8;

/// How many rounds stand at the end.
pub(crate) const LAST_ROUNDS: u32 = 200;

/// Pushes the post of this number, and what follows it.
pub(crate) fn push_lines(
    alloc: Global,
    draft: &mut Draft,
    number: u32,
    draws: &mut Draws,
) -> Result<(), NoMemory>
    requires number { number < MOST_POSTS }
    requires cluster { IsCluster draft.old }
    requires few { AreFew (counts_of draft.old.lines) number number number }
    ensures lines { OnOk result (draft.new ≡ with_lines draft.old (lines_by number (draw draws.old))) }
    ensures few { OnOk result (AreFew (counts_of draft.new.lines) (number + 1) (number + 1) (number + 1)) }
    ensures draws { OnOk result (draws.new ≡ state_after draws.old 5) }
{
    let (a, b) = nodes(draws);
    let message = message(alloc, number, draws)?;
    draft.push_line(Line::Post { a, b, message })?;
    push_fault(draft, number, a, b)?;
    push_settle(draft, number)
}

/// Pushes a fault where one follows the post of this number.
fn push_fault(draft: &mut Draft, number: u32, a: u32, b: u32) -> Result<(), NoMemory>
    requires number { number < MOST_POSTS }
    requires joined { are_joined draft.old.links a b ≡ true }
    requires few { AreFew (counts_of draft.old.lines) (number + 1) number number }
    ensures lines { OnOk result (draft.new ≡ with_lines draft.old (fault_after number a b)) }
    ensures few { OnOk result (AreFew (counts_of draft.new.lines) (number + 1) (number + 1) number) }
{
    if !is_faulted(number) {
        return Ok(());
    }
    draft.push_line(Line::Fault { a, b, socket: 0 })
}

/// Whether a fault follows the post of this number.
fn is_faulted(number: u32) -> bool
    ensures { result ≡ is_faulted number }
{
    number % POSTS_TO_A_FAULT == POSTS_TO_A_FAULT - 1 && number / POSTS_TO_A_FAULT < MOST_FAULTS
}

/// Pushes a round where one follows the post of this number.
fn push_settle(draft: &mut Draft, number: u32) -> Result<(), NoMemory>
    requires number { number < MOST_POSTS }
    requires few { AreFew (counts_of draft.old.lines) (number + 1) (number + 1) number }
    ensures lines { OnOk result (draft.new ≡ with_lines draft.old (settle_by number)) }
    ensures few { OnOk result (AreFew (counts_of draft.new.lines) (number + 1) (number + 1) (number + 1)) }
{
    if number % POSTS_TO_A_SETTLE != POSTS_TO_A_SETTLE - 1 {
        return Ok(());
    }
    draft.push_line(Line::Settle { rounds: 1 })
}
