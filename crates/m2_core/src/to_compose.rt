//! What is to be composed.

ghost use Rattle.std.specs.Prelude.{◌≡◌, nat_lt, length};
ghost use Rattle.std.specs.Option.{is_some};
ghost use Rattle.m2_queues.specs.OutQueues.{next_number};
ghost use Rattle.m2_core.specs.ToCompose.{to_compose};

use crate::side::Core;
use m2_fabric::End;
use m2_feed::Feed;
use m2_session::Phase;

/// A text that is to be composed on a feed.
#[derive(Clone, Copy, Debug, PartialEq, Eq)]
pub enum CoreText {
    /// The ask of this side: [`ask`](Core::ask).
    Ask,
    /// The answer to the first keepalive that isn't answered: [`answer_keepalive`](Core::answer_keepalive).
    KeepaliveAnswer,
    /// The next message: [`number`](Core::number).
    Message,
    /// An acknowledgement: [`acknowledge`](Core::acknowledge).
    Acknowledgement,
}

impl<E: End> Core<E> {
    /// What is to be composed next; none where nothing is, and where the feed can't take it yet.
    pub fn to_compose(&self) -> Option<CoreText>
        ensures { result ≡ to_compose self.now }
    {
        let Some(feed) = self.live.feed.as_ref() else {
            return None;
        };
        if !feed.is_signed() || feed.has_composed() {
            return None;
        }
        if self.live.session.phase == Phase::Connecting {
            return Some(CoreText::Ask);
        }
        if self.live.session.phase != Phase::Ready {
            return None;
        }
        if has_stamp(feed) {
            return Some(CoreText::KeepaliveAnswer);
        }
        if self.has_message() {
            return Some(CoreText::Message);
        }
        if self.owes && !self.policy.lossy {
            return Some(CoreText::Acknowledgement);
        }
        None
    }

    /// Whether a message is to be written.
    fn has_message(&self) -> bool
        ensures { result ≡ is_some (next_number self.now.live.out.queue) }
    {
        self.live.out.peek().is_some()
    }
}

/// Whether a keepalive is to be answered.
fn has_stamp<E: End>(feed: &Feed<E>) -> bool
    ensures { result ≡ nat_lt 0 (length feed.now.stamps) }
{
    feed.has_stamp()
}
