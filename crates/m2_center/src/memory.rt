//! That a center's ends are in memory, for contracts alone.

ghost use Rattle.std.specs.Prelude.{IsSome};
ghost use Rattle.std.specs.List.{AllByRecursion, flat_map};
ghost use Rattle.m2_center.specs.Reaching.{all_ends_in};
ghost use Rattle.m2_fabric.specs.Kinds.{IsInMemory};
ghost use Rattle.m2_record.specs.RecordNow.{ends_of, feed_end};

use crate::center::Center;
use m2_fabric::{End, MemoryEnd, MemoryPort, Port, are_in_memory};
use m2_record::Record;
use m2_turn::halves_are_in_memory;

impl<P: MemoryPort, D> Center<P, D>
where
    P::End: MemoryEnd,
{
    /// That its ends are in memory, and those that wait at its port, which tells them, for contracts alone.
    pub fn is_in_memory(&self)
        ensures port { IsSome self.now.port.waiting }
        ensures ends { AllByRecursion IsInMemory (all_ends_in self.now) }
    {
        records_are_in_memory(self.records.as_slice());
        halves_are_in_memory(&self.halves, self.loose.as_slice());
        self.port.waits_in_memory();
    }
}

/// That the ends of these records are in memory.
fn records_are_in_memory<E: MemoryEnd>(records: &[Record<E>])
    ensures { AllByRecursion IsInMemory (flat_map ends_of records.now) }
{
    match records.split_first() {
        None => {}
        Some((first, rest)) => {
            record_is_in_memory(first);
            records_are_in_memory(rest);
        }
    }
}

/// That the ends of this record are in memory.
fn record_is_in_memory<E: MemoryEnd>(side: &Record<E>)
    ensures { AllByRecursion IsInMemory (ends_of side.now) }
{
    feed_is_in_memory(side);
    are_in_memory(side.spent());
}

/// That the end of this record's feed is in memory, where there is one.
fn feed_is_in_memory<E: MemoryEnd>(side: &Record<E>)
    ensures { AllByRecursion IsInMemory (feed_end side.now.core.live.feed) }
{
    match side.feed() {
        Some(end) => end.is_in_memory(),
        None => {}
    }
}
