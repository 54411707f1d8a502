//! The message at the front, accepted.

ghost use Rattle.std.specs.Prelude.{◌≡◌, OnErr};
ghost use Rattle.m2_feed.specs.declared.frame_heard.FrameHeard.TheVariants as heard;
ghost use Rattle.m2_feed.specs.declared.hearer.Hearer.{Hearer};
ghost use Rattle.m2_core.specs.LiveNow.{OnFeedNow};
ghost use Rattle.m2_core.specs.OnFeed.{Hears};
ghost use Rattle.m2_core.specs.LiveAccepting.{LiveAccepts, MovesIfOk};

use crate::live::Live;
use crate::on_feed::take_on;
use m2_bytes::NoMemory;
use m2_fabric::End;
use m2_feed::Feed;
use m2_message::Message;
use m2_shared::PeerGrants;

impl<E: End> Live<E> {
    /// Accepts the message at the front, which is the one with this number, and hands it out with what was
    /// granted for it. Its parts are copied once. Err for want of memory changes nothing.
    pub fn accept_front(&mut self, number: u64) -> Result<(Message, PeerGrants), NoMemory>
        requires heard { (h : Hearer) × OnFeedNow self.old.feed (λ v. Hears h (heard.Brings number) v.reading) }
        ensures { LiveAccepts result number self.old self.new }
    {
        let message = match take_message(&mut self.feed, number) {
            Ok(message) => message,
            Err(NoMemory) => return Err(NoMemory),
        };
        self.last = number;
        Ok((message, self.granted.take()))
    }
}

/// Takes the message at the front of the feed, which has this number.
#[tactic(auto, using(crate::proofs::LiveAccepted::moves, crate::proofs::LiveAccepted::leaves))]
fn take_message<E: End>(feed: &mut Option<Feed<E>>, number: u64) -> Result<Message, NoMemory>
    requires heard { (h : Hearer) × OnFeedNow feed.old (λ v. Hears h (heard.Brings number) v.reading) }
    ensures moves { (h : Hearer) → OnFeedNow feed.old (λ v. Hears h (heard.Brings number) v.reading) → MovesIfOk result h number feed.old feed.new }
    ensures err { OnErr result (feed.new ≡ feed.old) }
{
    m2_feed::what_brings_a_message_is_one();
    take_on(feed)
}
