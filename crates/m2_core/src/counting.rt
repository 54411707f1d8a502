//! Acknowledgements that are counted.

ghost use Rattle.std.specs.Prelude.{◌≡◌, ◌<◌, ◌≤◌, true, IfSome};
ghost use Rattle.m2_journal.specs.Items as item;
ghost use Rattle.m2_core.specs.LiveNow.{is_ready};
ghost use Rattle.m2_core.specs.LiveCalls.{after_counted};
ghost use Rattle.m2_core.specs.Agrees.{IsToldTo, LeadsOn, MayCome};
ghost use Rattle.m2_core.specs.Counting.{CountsIf, countable, to_count};
ghost use Rattle.m2_core.specs.Next.{CanCount};

use crate::feed_laws::feed_laws;
use crate::side::Core;
use m2_fabric::End;
use m2_session::Phase;

impl<E: End> Core<E> {
    /// An acknowledgement up to this number, which the feed has told, is counted: the entry Acked. The
    /// messages up to it go. It is above those that have gone, and was written.
    #[tactic(auto, using(crate::proofs::Counted::sound, crate::proofs::Counted::counted, crate::proofs::Counted::may_count))]
    pub fn acked(&mut self, number: u64)
        requires ready { is_ready self.old.live ≡ true }
        requires told { IsToldTo number self.old }
        requires above { self.old.live.out.queue.base < number }
        requires written { number ≤ self.old.live.out.queue.written }
        ensures value { self.new ≡ record self.old { live = after_counted number self.old.live } }
        ensures may { MayCome (item.acked number) self.old }
        ensures leads { LeadsOn (item.acked number) self.old self.new }
    {
        feed_laws();
        self.live.count(number);
    }

    /// Counts what the resumption on the feed acknowledges, where it is above what is counted already and was
    /// written: the entry Acked, and its number. Where there is nothing to count, nothing changes. The step that
    /// takes a resumption calls it.
    pub fn count_resumption(&mut self) -> Option<u64>
        ensures number { result ≡ to_count self.old.live }
        ensures counts { CountsIf result self.old self.new }
    {
        match self.to_count() {
            Some(number) => {
                self.acked(number);
                Some(number)
            }
            None => None,
        }
    }

    /// Up to where the resumption on the feed acknowledges what can be counted.
    #[tactic(auto, using(crate::proofs::Resumed::may_be_counted))]
    fn to_count(&self) -> Option<u64>
        ensures number { result ≡ to_count self.now.live }
        ensures can { IfSome result (λ n. CanCount n self.now) }
    {
        let (acknowledged, written) = (self.live.out.base(), self.live.out.written());
        if self.live.session.phase == Phase::Ready {
            return countable(acknowledged, written, self.live.resumed);
        }
        None
    }
}

/// A number that is above what is counted already, and was written.
fn countable(base: u64, written: u64, number: u64) -> Option<u64>
    ensures { result ≡ countable base written number }
{
    if number > written {
        return None;
    }
    if number > base {
        return Some(number);
    }
    None
}
