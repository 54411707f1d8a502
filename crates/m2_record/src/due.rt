//! The step that a record takes next.

ghost use Rattle.std.specs.Prelude.{◌≡◌};
ghost use Rattle.m2_session.specs.Table.{first_that_holds};
ghost use Rattle.m2_record.specs.declared.due.Due.TheVariants as due;
ghost use Rattle.m2_record.specs.Due.{due_step, feed_rows, has_plan, may_connect, rests};

use crate::record::Record;
use m2_fabric::End;
use m2_feed::Feed;

/// A step that is due.
#[derive(Clone, Copy, Debug, PartialEq, Eq)]
pub enum Due {
    /// Nothing is to be done.
    Nothing,
    /// The plan's next step; or the session is to be given up, since a number that is needed next is
    /// above the greatest.
    Plan,
    /// A parcel is ready for the dispatcher.
    Hand,
    /// A socket is to be opened to the peer. It was due at that moment, which is at or before now.
    Connect { at: u64 },
    /// Bytes are composed.
    Write,
    /// What was read has an answer: of the opener's half, or a frame; or a resumption acknowledges more than
    /// was written.
    Frame,
    /// The feed is to be read.
    Read,
    /// A text is to be composed.
    Compose,
}

impl<E: End> Record<E> {
    /// The first step that is due at this moment, in the order of [`Due`]'s variants behind Nothing.
    /// Nothing exactly where none is.
    pub fn due(&self, now: u64) -> Due
        ensures { result ≡ due_step now self.now }
    {
        if self.has_plan() {
            return Due::Plan;
        }
        if !self.parcels.is_empty() {
            return Due::Hand;
        }
        if self.may_connect(now) {
            return Due::Connect {
                at: self.waits.next_dial,
            };
        }
        self.due_on_feed()
    }

    /// Whether a step of the plan is left, or a number that is needed next is above the greatest.
    fn has_plan(&self) -> bool
        ensures { result ≡ has_plan self.now }
    {
        (self.steps as usize) < self.plan.len() || self.core.is_exhausted()
    }

    /// Whether a dial is wanted and no wait is on.
    fn may_connect(&self, now: u64) -> bool
        ensures { result ≡ may_connect now self.now }
    {
        self.core.may_dial() && self.waits.next_dial <= now
    }

    /// The first step that is due on the feed.
    fn due_on_feed(&self) -> Due
        ensures { result ≡ first_that_holds (feed_rows self.now) due.Nothing }
    {
        let Some(feed) = self.core.feed() else {
            return Due::Nothing;
        };
        if feed.has_composed() && !self.held {
            return Due::Write;
        }
        if !rests(feed) || self.core.has_resumption() {
            return Due::Frame;
        }
        match self.core.to_compose() {
            Some(_) => Due::Compose,
            None => Due::Read,
        }
    }
}

/// Whether nothing is to be done on a feed before more bytes come.
fn rests<E: End>(feed: &Feed<E>) -> bool
    ensures { result ≡ rests feed.now.reading }
{
    feed.rests()
}
