//! What a reader expects of the orders of addresses. The function has an empty body: its contract is
//! the law.

ghost use Rattle.m2_addr.specs.Laws as laws;

/// Each order of addresses is total: of two different ones exactly one is below the other.
pub fn addresses_are_ordered()
    ensures { laws.AreOrdered }
{}
