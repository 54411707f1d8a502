//! `link A B POLICY POLICY`.

ghost use Rattle.std.specs.Prelude.{◌≡◌, OnOk};
ghost use Rattle.m2_scenario_text.specs.Taking.{Takes};
ghost use Rattle.m2_scenario_text.specs.LinkLine.{link_line};

use crate::flaw::{LineFlaw, Wanted, counted, or_want, want, want_first};
use crate::pair::place;
use crate::vocabulary::policy;
use m2_policy::is_allowed;
use m2_scenario::{Draft, Link, MOST_LINKS, Words};

#[tactic(auto, unfolding(crate::specs::LinkLine::link_line))]
pub(crate) fn link_line(draft: &mut Draft, mut words: Words<'_>) -> Result<(), LineFlaw>
    ensures { Takes result (link_line draft.old words.entry) draft.new }
{
    counted(4, 4, &words)?;
    let first = words.take();
    let second = words.take();
    let of_a = or_want(2, Wanted::PolicyName, policy(words.take()))?;
    let of_b = or_want(3, Wanted::PolicyName, policy(words.take()))?;
    want(3, Wanted::FittingPolicy, is_allowed(&of_a, &of_b))?;
    let a = place(draft, 0, first)?;
    let b = place(draft, 1, second)?;
    want(1, Wanted::OtherNode, a != b)?;
    want(1, Wanted::UnlinkedNode, !draft.joins(a, b))?;
    want_first(Wanted::FewerLinks, draft.links().len() < MOST_LINKS)?;
    draft.push_link(Link { a, b, of_a, of_b })?;
    Ok(())
}
