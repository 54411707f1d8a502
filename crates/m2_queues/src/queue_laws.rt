//! What holds of a queue over every list of calls. These functions do nothing: each stands for the
//! law that its contract names.

ghost use Rattle.m2_queues.specs.QueueLaws.{EachPriorityKeepsItsOrder, GreatestPriorityWaitsFirst, KeptAreTheNumbered, EachNumberIsAPlace, NumberedMessagesStay, RenumberFromZeroKeepsTheNumbers, CallsGoOn, NextIsTheCursors, NextKeepsNumbers, NextLeavesTheUnsent, NextIsTheFirstUnsent, NothingNextIsNothingUnsent, SentTakesTheFirstUnsent, AckedLeavesTheUnsent, AcknowledgementsCommute};

/// For each priority, what was posted since the last discard is, in this order, what was dropped
/// before the numbers were last set back, what was numbered since, and what waits.
pub fn each_priority_keeps_its_order()
    ensures { EachPriorityKeepsItsOrder }
{}

/// The message that gets the next number has the greatest priority of those that wait.
pub fn greatest_priority_waits_first()
    ensures { GreatestPriorityWaitsFirst }
{}

/// What is kept is what was numbered since the numbers were last set back, without the first `base`
/// of it.
pub fn kept_messages_are_the_numbered()
    ensures { KeptAreTheNumbered }
{}

/// The message with number i is the i-th that was numbered since the numbers were last set back.
pub fn each_number_is_a_place()
    ensures { EachNumberIsAPlace }
{}

/// A message keeps its number until the numbers are set back.
pub fn numbered_messages_stay()
    ensures { NumberedMessagesStay }
{}

/// Where nothing was acknowledged, numbers that are set back stay what they were: only what was sent
/// is to be sent again.
pub fn renumber_from_zero_keeps_the_numbers()
    ensures { RenumberFromZeroKeepsTheNumbers }
{}

/// More calls go on from what the first ones left.
pub fn calls_go_on()
    ensures { CallsGoOn }
{}

/// The number that is due is that at the cursor, and to give it moves nothing.
pub fn next_is_at_the_cursor()
    ensures number { NextIsTheCursors }
    ensures stays { NextKeepsNumbers }
{}

/// What is still to be sent stays when its first message gets a number, loses that message when it was
/// sent, and stays when what was sent is acknowledged.
pub fn the_unsent_go_one_by_one()
    ensures next { NextLeavesTheUnsent }
    ensures first { NextIsTheFirstUnsent }
    ensures none { NothingNextIsNothingUnsent }
    ensures sent { SentTakesTheFirstUnsent }
    ensures acked { AckedLeavesTheUnsent }
{}

/// Of two acknowledgements the greater one counts.
pub fn acknowledgements_commute()
    ensures { AcknowledgementsCommute }
{}
