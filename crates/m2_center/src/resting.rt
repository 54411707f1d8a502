//! Whether a center has something to do.

ghost use Rattle.std.specs.Prelude.{◌≡◌};
ghost use Rattle.std.specs.List.{list_all};
ghost use Rattle.std.specs.Option.{is_some};
ghost use Rattle.m2_center.specs.CenterTurn.{mailing_in};
ghost use Rattle.m2_center.specs.Idle.{are_idle, is_delivered, is_idle, is_unheard};
ghost use Rattle.m2_shared.specs.Throttle.{out_alone};
ghost use Rattle.m2_turn.specs.Mailing.{is_mailed};
ghost use Rattle.m2_turn.specs.RecordsTurn as turns;
ghost use Rattle.m2_shared.specs.Gates.{dispatch, pass_places, words};

use crate::center::Center;
use m2_fabric::{End, Port};
use m2_record::Record;
use m2_turn::is_idle;

impl<P: Port, D> Center<P, D> {
    /// Whether the center has nothing to do at this moment: the port's last accept found no socket, no half has
    /// anything in hand or unread but those whose last write was answered that it can't yet, each record is idle, and
    /// no letter or parcel waits.
    pub fn idle(&self, now: u64) -> bool
        ensures { result ≡ is_idle now self.now }
    {
        self.is_unheard() && self.are_idle(now) && self.is_delivered()
    }

    /// Whether the port's last accept found no socket, and no half is busy.
    fn is_unheard(&self) -> bool
        ensures { result ≡ is_unheard self.now }
    {
        self.port.quiet() && !self.halves.any_busy()
    }

    /// Whether each record is idle at this moment.
    fn are_idle(&self, now: u64) -> bool
        ensures { result ≡ are_idle now self.now }
    {
        all_idle(self.records.as_slice(), now)
    }

    /// How many bytes the throttle of the node's dispatch has out. None exactly where other threads share it.
    pub fn granted(&self) -> Option<u64>
        ensures { result ≡ out_alone self.now.bytes.dispatch }
    {
        self.passes.throttles.dispatch.out()
    }

    /// Whether a letter of a fast kind is held, for which its dispatcher had no memory.
    pub fn is_holding(&self) -> bool
        ensures { result ≡ is_some self.now.out.held }
    {
        self.out.is_holding()
    }

    /// Whether no letter is held or waits, and no parcel is in the mail.
    fn is_delivered(&self) -> bool
        ensures { result ≡ is_delivered self.now }
    {
        !self.out.is_holding() && self.is_mailed()
    }

    /// Whether no letter waits, and no parcel is in the mail.
    pub(crate) fn is_mailed(&self) -> bool
        ensures { result ≡ is_mailed (mailing_in self.now) }
    {
        !self.out.has_mail() && self.queued.is_empty()
    }
}

/// Whether each of these records is idle at this moment.
fn all_idle<E: End>(records: &[Record<E>], now: u64) -> bool
    ensures { result ≡ list_all (turns.is_idle now) records.now }
{
    'idle: for side in records {
        if !is_idle(side, now) {
            return false;
        }
    }
    true
}
