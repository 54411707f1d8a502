//! What is promised of the rule by which strands are woven. These functions do nothing: each stands for
//! the law that its contract names.

ghost use Rattle.m2_weave.specs.WeaveLaws as laws;
ghost use Rattle.m2_weave.specs.Tidy.{TidyStopsAreReads};

use crate::greedy_is_an_order;

/// What may come may still come later, while other strands go on. So by `m2_weave` taking whatever may
/// come finds an order of all exactly where there is one.
pub fn rule_stays_met()
    ensures { laws.RuleStaysMet }
{}

/// The rule says of each item whether it may come.
pub fn rule_decides()
    ensures { laws.RuleDecides }
{}

/// Where a greedy order stops before the end, there is no order.
pub fn a_stop_is_no_order()
    ensures { laws.StopIsNoOrder }
{
    greedy_is_an_order();
}

/// A byte that is named unfit is the first one that was read and not written there so.
pub fn unfit_is_the_first()
    ensures { laws.UnfitIsTheFirst }
{}

/// Wherever a lawful order leads, what was read at an end was written at the other end before.
pub fn all_read_was_written()
    ensures { laws.ReadWasWritten }
{}

/// The rule can be had by counters, four of each socket, so that what an entry waits for is one number.
pub fn counters_decide()
    ensures { laws.CountersDecide }
{}

/// Wherever a lawful order leads, no more asks of a socket are judged than were handed on before, and what
/// a half wrote came behind the judgement of all that it had handed on.
pub fn asks_come_first()
    ensures { laws.AsksComeFirst }
{}

/// Where strands wait in no circle, as those of records do, a stop is at a read: it names its socket, its
/// side, the place, and the byte that the other end hasn't written there by then, or has written otherwise.
pub fn tidy_stops_are_reads()
    ensures { TidyStopsAreReads }
{}
