//! When two messages are the same. These functions do nothing: each stands for the laws that its
//! contract names.

ghost use Rattle.m2_message.specs.Laws.{SameIsReflexive, SameIsSymmetric, SameIsTransitive, NumbersLeaveTheSame};

/// To be the same message is an equivalence, and the numbers that the runtime writes don't matter.
pub fn being_the_same_is_an_equivalence()
    ensures reflexive { SameIsReflexive }
    ensures symmetric { SameIsSymmetric }
    ensures transitive { SameIsTransitive }
    ensures numbers { NumbersLeaveTheSame }
{}
