//! What a reader expects of races. The function has an empty body: its contract is the law.

ghost use Rattle.m2_policy.specs.Laws as laws;

/// Of two nodes that aren't servers, with different addresses and the same order of addresses, exactly one
/// keeps the other's connect, so that a race is decided, and both decide it alike.
#[tactic(auto, using(crate::proofs::OneWinner::one_winner))]
pub fn one_wins()
    ensures { laws.OneWins }
{}
