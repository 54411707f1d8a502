//! The numbers that promises cite by the names of constants.

ghost use Rattle.m2_cli.specs.Numbers.{OfFiles, OfLoads, OfNodes};

/// Where definitions of the promise cite constants of the code, these are the numbers that the manuals give.
#[tactic(auto, using(crate::proofs::Generator::loads))]
pub fn the_numbers_are_the_manuals()
    ensures files { OfFiles }
    ensures loads { OfLoads }
    ensures nodes { OfNodes }
{}
