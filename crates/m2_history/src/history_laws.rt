//! What is promised of histories. These functions do nothing: each stands for the law that its contract
//! names.

ghost use Rattle.m2_history.specs.Delivered as delivered;
ghost use Rattle.m2_history.specs.HalfStrands as strands;
ghost use Rattle.m2_history.specs.Link as link;

use m2_channel::observed_is_a_run;

/// Wherever an order by the rule of weaving has come: of a half that notes when its asks were judged the
/// first entries have come, each judged ask was judged behind entries that have come, and behind an entry
/// that writes all has been judged that was judged before it.
pub fn orders_give_points()
    ensures { strands.OrdersGivePoints }
{}

/// What is counted of a lawful journal is what its entries post, and the messages that it leaves handed on.
pub fn counts_are_of_the_items()
    ensures { delivered.CountsAreOfTheItems }
{}

/// In every history of a lossless link without a mark-down, of each key what [`dispatched`](crate::dispatched)
/// tells of either side is the first of what [`posted`](crate::posted) tells of the other, in order, each
/// once, and no more than [`accepted`](crate::accepted).
pub fn posted_is_delivered()
    ensures { delivered.PostedIsDelivered }
{
    observed_is_a_run();
}

/// A record's side has an end for each socket that it reads or writes on and for each half that it took, and
/// these halves handed on just the asks that it judged.
pub fn records_are_kept()
    ensures { link.RecordsAreKept }
{}

/// The strands of two records and of the loose halves beside them wait in no circle, and each socket that
/// they name has an end, where the half of each ask that was judged is there.
pub fn strands_are_tidy()
    ensures { link.StrandsAreTidy }
{}
