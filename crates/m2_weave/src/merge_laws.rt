//! What is promised of every merge. These functions do nothing: each stands for the law that its contract
//! names.

ghost use Rattle.m2_weave.specs.Both.{ComeInOrder};
ghost use Rattle.m2_weave.specs.MergeLaws as laws;

/// Where every entry that may come was taken until none may, no order goes further.
pub fn stuck_is_the_end()
    ensures { laws.StuckIsTheEnd }
{}

/// An order that takes any entry that may come, until none may, has all entries exactly where there is an
/// order of all.
pub fn greedy_is_an_order()
    ensures { laws.GreedyIsAnOrder }
{}

/// Two such orders stop at the same cut.
#[tactic(auto, using(crate::proofs::Furthest::stops_are_one))]
pub fn stops_are_one()
    ensures { laws.StopsAreOne }
{}

/// By counters a condition that is met stays met.
#[tactic(auto, using(crate::proofs::CountersMet::counted_stays_met))]
pub fn counted_stays_met()
    ensures { laws.CountedStaysMet }
{}

/// An order of all names each strand as often as it has entries.
pub fn an_order_names_all()
    ensures { laws.OrderNamesAll }
{}

/// Of each two strands the entries come in their own order, as many as the order names of each.
pub fn both_come_in_order<A, B>()
    ensures { ComeInOrder A B }
{}
