//! The lines of `run` alone: `off` and `limit`.

ghost use Rattle.std.specs.Prelude.{◌≡◌, OnOk};
ghost use Rattle.m2_scenario_text.specs.Taking.{Takes};
ghost use Rattle.m2_scenario_text.specs.RunLines.{off_line, limit_line};

use crate::flaw::{LineFlaw, Wanted, counted, number, want, want_first};
use crate::pair::place;
use m2_scenario::{Draft, Words};

/// A run may take at most so many milliseconds.
pub const MOST_LIMIT: u64 = 60_000;

#[tactic(auto, unfolding(crate::specs::RunLines::off_line))]
pub(crate) fn off_line(draft: &mut Draft, mut words: Words<'_>) -> Result<(), LineFlaw>
    ensures { Takes result (off_line draft.old words.entry) draft.new }
{
    counted(1, 1, &words)?;
    let a = place(draft, 0, words.take())?;
    want(0, Wanted::NodeWithoutPlan, !draft.has_step_of(a))?;
    draft.stop(a);
    Ok(())
}

#[tactic(auto, unfolding(crate::specs::RunLines::limit_line))]
pub(crate) fn limit_line(draft: &mut Draft, mut words: Words<'_>) -> Result<(), LineFlaw>
    ensures { Takes result (limit_line draft.old words.entry) draft.new }
{
    counted(1, 1, &words)?;
    want_first(Wanted::LimitOnce, draft.limit().is_none())?;
    let milliseconds = number(0, 1, MOST_LIMIT, words.take())?;
    draft.set_limit(milliseconds);
    Ok(())
}
