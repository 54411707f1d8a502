//! What is known of all calls in memory. The function has an empty body: its contract is the law.

ghost use Rattle.m2_fabric.specs.Laws as laws;

/// But for want of memory the answer of a read, of a write, of a connect and of an accept in memory is a function of
/// what is seen of the end or the port, and so is what is left of it.
#[tactic(auto, using(crate::proofs::Exact::exact))]
pub fn memory_is_exact()
    ensures { laws.MemoryIsExact }
{}
