//! What a reader expects of the waits. The function has an empty body: its contract is the law.

ghost use Rattle.m2_core.specs.Laws as laws;

/// The n-th wait since the last Ready, counted from 0, is the first one doubled n times, and no longer than
/// the longest.
#[tactic(auto, using(crate::proofs::Waiting::double))]
pub fn waits_double()
    ensures { laws.WaitsDouble }
{}
