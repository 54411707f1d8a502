//! What a reader expects of halves in their turn. The function has an empty body: its contract is the law.

ghost use Rattle.m2_trail.specs.HalfLaws as laws;

/// A turn leaves the same half: what its end did goes on as it was, the end isn't closed, and nothing was
/// judged or refused.
pub fn turns_leave_the_half()
    ensures { laws.TurnsLeaveTheHalf }
{}
