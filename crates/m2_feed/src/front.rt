//! What the frame at the front of a feed says to a side that has asked.

ghost use Rattle.std.specs.Prelude.{◌≡◌, IfSome};
ghost use Rattle.m2_feed.specs.Front.{heard_at};
ghost use Rattle.m2_feed.specs.Heard.{IsBounded};

use crate::Feed;
use crate::heard::Heard;
use crate::hearing_answers::heard_in;
use m2_addr::Addr;
use m2_fabric::End;
use m2_policy::Policy;
use m2_session::Phase;

/// What the frame at the front says to a side in this phase, which dialled its peer at this address under
/// this policy; nothing where no whole frame stands there, or a MESSAGE whose size isn't granted. The frame
/// stays.
#[tactic(auto, using(crate::proofs::AnswerFronts::is_there, crate::proofs::AnswerFronts::none_there))]
pub fn heard_at_front<E: End>(
    feed: &Feed<E>,
    phase: Phase,
    peer: &Addr,
    policy: &Policy,
) -> Option<Heard>
    ensures exact { result ≡ heard_at peer.now policy.now phase feed.now.reading }
    ensures bounded { IfSome result IsBounded }
{
    match feed.look() {
        Some(frame) => Some(heard_in(&frame, phase, peer, policy)),
        None => None,
    }
}
