//! The words that scenarios have of their own: entities, policies and lists of kinds of message.

ghost use Rattle.std.specs.Prelude.{◌≡◌, Ok, Err, MatchResult};
ghost use Rattle.m2_scenario_text.specs.Vocabulary.{entity_of, policy_of, kinds_of, kind_added};

use crate::flaw::{Flaw, Wanted, want};
use m2_policy::{FastSet, Policy};
use m2_scenario::{Kind, cut, read_number};

/// The number of an entity's type; none where it is no type of entity.
#[tactic(auto, unfolding(crate::specs::Vocabulary::entity_of))]
pub(crate) fn entity(word: &[u8]) -> Option<u8>
    ensures { result ≡ entity_of word.now }
{
    if word == b"mon".as_slice() {
        Some(1)
    } else if word == b"mds".as_slice() {
        Some(2)
    } else if word == b"osd".as_slice() {
        Some(4)
    } else if word == b"client".as_slice() {
        Some(8)
    } else if word == b"mgr".as_slice() {
        Some(16)
    } else {
        None
    }
}

/// The policy of this name; none where there is none.
#[tactic(auto, unfolding(crate::specs::Vocabulary::policy_of))]
pub(crate) fn policy(word: &[u8]) -> Option<Policy>
    ensures { result ≡ policy_of word.now }
{
    if word == b"lossy_client".as_slice() {
        Some(m2_policy::lossy_client())
    } else if word == b"lossless_client".as_slice() {
        Some(m2_policy::lossless_client())
    } else if word == b"lossless_peer".as_slice() {
        Some(m2_policy::lossless_peer())
    } else if word == b"stateless_server".as_slice() {
        Some(m2_policy::stateless_server())
    } else if word == b"stateful_server".as_slice() {
        Some(m2_policy::stateful_server())
    } else {
        None
    }
}

/// At most 16 kinds of message, with commas between them.
#[tactic(auto, unfolding(crate::specs::Vocabulary::kinds_of))]
pub(crate) fn kinds(behind: usize, word: &[u8]) -> Result<FastSet, Flaw>
    ensures { result ≡ kinds_of behind word.now }
{
    let mut kinds = FastSet::empty();
    let mut rest = word;
    'kinds: while let Some((first, more)) = cut(rest, b',') {
        add_kind(&mut kinds, behind, first)?;
        rest = more;
    }
    add_kind(&mut kinds, behind, rest)?;
    Ok(kinds)
}

#[tactic(auto, unfolding(crate::specs::Vocabulary::kind_added))]
fn add_kind(kinds: &mut FastSet, behind: usize, word: &[u8]) -> Result<(), Flaw>
    ensures { MatchResult result (λ _. kind_added behind kinds.old word.now ≡ Ok kinds.new) (λ f. kind_added behind kinds.old word.now ≡ Err f) }
{
    let Ok(kind) = read_number(Kind::Number, 0, 65535, word) else {
        return Err(Flaw::at_word(behind, Wanted::KindsOfMessage));
    };
    want(behind, Wanted::FewerKinds, kinds.len() < FastSet::MOST)?;
    kinds.add(kind as u16);
    Ok(())
}
