//! Ports and ends of which more is known.

ghost use Rattle.std.specs.Prelude.{map};
ghost use Rattle.std.specs.List.{AllByRecursion};
ghost use Rattle.m2_fabric.specs.Kinds.{IsInMemory, WaitInMemory};
ghost use Rattle.m2_fabric.specs.Sockets.{IsOfHome};

use crate::end::End;
use crate::port::Port;

/// An end in memory.
pub trait MemoryEnd: End {
    /// That the end tells what it was told of the other side, for contracts alone.
    fn is_in_memory(&self)
        ensures { IsInMemory (Self.seen self.now) };
}

/// A port in memory.
pub trait MemoryPort: Port {
    /// That each socket that the port made comes from the ip and port of its address or goes to it, for
    /// contracts alone.
    fn comes_from_home(&self)
        ensures { AllByRecursion (IsOfHome (Self.seen self.now).at) (Self.seen self.now).made };

    /// That the port tells which ends wait there, and that these are in memory, for contracts alone.
    fn waits_in_memory(&self)
        ensures { WaitInMemory (Self.seen self.now) };
}

/// That each of these ends is in memory, for contracts alone.
pub fn are_in_memory<E: MemoryEnd>(ends: &[E])
    ensures { AllByRecursion IsInMemory (map E.seen ends.now) }
{
    'ends: for end in ends {
        end.is_in_memory();
    }
}
