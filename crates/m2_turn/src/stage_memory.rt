//! That the ends of halves are in memory, for contracts alone.

ghost use Rattle.std.specs.List.{AllByRecursion};
ghost use Rattle.m2_fabric.specs.Kinds.{IsInMemory};
ghost use Rattle.m2_turn.specs.Halves.{halves_of};
ghost use Rattle.m2_turn.specs.Hearing.{IsLooseInMemory, ends_in};

use crate::pending::Pendings;
use m2_fabric::MemoryEnd;
use m2_trail::Loose;

/// That the end of each half is in memory, of those in their turns and of those that are over, for contracts
/// alone.
pub fn halves_are_in_memory<E: MemoryEnd>(halves: &Pendings<E>, loose: &[Loose<E>])
    ensures { AllByRecursion IsInMemory (ends_in (halves_of halves.now loose.now)) }
{
    halves.are_in_memory();
    loose_are_in_memory(loose);
}

/// The same of those that are over.
fn loose_are_in_memory<E: MemoryEnd>(loose: &[Loose<E>])
    ensures { AllByRecursion IsLooseInMemory loose.now }
{
    'halves: for half in loose {
        let end = half.end();
        end.is_in_memory();
    }
}
