//! Nodes that a line names.

ghost use Rattle.std.specs.Prelude.{◌≡◌, ◌<◌, ◌≤◌, IfOk, length, drop};
ghost use Rattle.m2_scenario.specs.Text.{word};
ghost use Rattle.m2_scenario_text.specs.Pair.{place_of, pair_of, AreJoined};

use crate::flaw::{Flaw, Wanted, want};
use m2_scenario::{Draft, Words};

/// The place of the node of this name, which is the word behind the first one and so many others.
pub(crate) fn place(draft: &Draft, behind: usize, name: &[u8]) -> Result<u32, Flaw>
    ensures value { result ≡ place_of behind draft.now.nodes name.now }
    ensures below { IfOk result (λ a. a < length draft.now.nodes) }
{
    match draft.place(name) {
        Some(a) => Ok(a),
        None => Err(Flaw::at_word(behind, Wanted::NodeAbove)),
    }
}

/// The places of the two nodes with a link between them that the next two words name, the first behind the first of the
/// line.
#[tactic(auto, unfolding(crate::specs::Pair::pair_of))]
pub(crate) fn pair(draft: &Draft, words: &mut Words<'_>) -> Result<(u32, u32), Flaw>
    requires { 2 ≤ length words.old }
    ensures value { result ≡ pair_of draft.now (word words.old 0) (word words.old 1) }
    ensures joined { IfOk result (AreJoined draft.now) }
    ensures rest { words.new ≡ drop 2 words.old }
{
    let first = words.take();
    let second = words.take();
    let a = place(draft, 0, first)?;
    let b = place(draft, 1, second)?;
    want(1, Wanted::LinkedNode, draft.joins(a, b))?;
    Ok((a, b))
}
