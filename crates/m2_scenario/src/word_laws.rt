//! What the definitions promise. These functions do nothing: each stands for the law that its contract
//! names.

ghost use Rattle.m2_scenario.specs.WordLaws.{NumbersDiffer};

/// No two kinds have one number.
pub fn numbers_of_kinds_differ()
    ensures { NumbersDiffer }
{}
