//! That the trails of halves are whole, for contracts alone.

ghost use Rattle.std.specs.List.{AllByRecursion};
ghost use Rattle.m2_turn.specs.Halves.{AreWhole, IsWhole, halves_of};

use m2_fabric::End;
use m2_trail::Loose;
use m2_turn::Pendings;

/// That the trail of each half tells all that its end did, of those in their turns and of those that are over,
/// for contracts alone.
pub fn are_whole<E: End>(halves: &Pendings<E>, loose: &[Loose<E>])
    ensures { AreWhole (halves_of halves.now loose.now) }
{
    halves.are_whole();
    loose_are_whole(loose);
}

/// The same of those that are over.
fn loose_are_whole<E: End>(loose: &[Loose<E>])
    ensures { AllByRecursion IsWhole loose.now }
{
    'halves: for half in loose {
        let _trail = half.trail();
    }
}
