//! What is promised of a link whose sides are woven. These functions do nothing: each stands for the law that
//! its contract names.

ghost use Rattle.m2_history.specs.Crossed as crossed;
ghost use Rattle.m2_history.specs.WovenLaws as laws;
ghost use Rattle.m2_history.specs.Lossy as lossy;
ghost use Rattle.m2_history.specs.Marked as marked;

use crate::{counts_are_of_the_items, orders_give_points, posted_is_delivered};
use m2_bytes_fit::{bytes_give_fits, lossless_bytes_are_never_reset, trails_tell_each_point};
use m2_channel::{lossy_comes_in_order, observed_is_a_run, observed_is_a_run_to_a_mark};
use m2_weave::{all_read_was_written, asks_come_first};

/// Every record is a side of a link: its entries are lawful one after the other, each socket that became its
/// feed has its end, and each half that it took its trail.
pub fn records_are_sides()
    ensures { laws.RecordsAreSides }
{}

/// Throughout every order of all that two sides and their halves did, by the rule of weaving, bytes fit: what
/// each end has got the other end had put, the asks that were judged are the first that their half has read,
/// and no answer is written before it was judged. Where no node marks its side down, the two journals in it
/// are a history of bytes.
pub fn woven_bytes_fit()
    ensures { laws.WovenBytesFit }
{
    all_read_was_written();
    asks_come_first();
    orders_give_points();
    trails_tell_each_point();
}

/// Of a lossy link, of each key what either side's dispatchers were called with is some of what the other side
/// posted, in order, each message once, whether a node marks its side down or not.
pub fn woven_comes_in_order()
    ensures { lossy.WovenComesInOrder }
{
    all_read_was_written();
    asks_come_first();
    orders_give_points();
    trails_tell_each_point();
    woven_bytes_fit();
    lossy_comes_in_order();
    counts_are_of_the_items();
}

/// So the journals in such an order are a history, and between two lossless nodes without a mark-down nothing
/// was reset.
pub fn woven_is_never_reset()
    ensures { laws.WovenIsNeverReset }
{
    woven_bytes_fit();
    bytes_give_fits();
    lossless_bytes_are_never_reset();
}

/// Of each key what either side's dispatchers were called with is the first of what the other side posted, in
/// order, each once, and no more than was accepted.
pub fn woven_is_delivered()
    ensures { laws.WovenIsDelivered }
{
    all_read_was_written();
    asks_come_first();
    orders_give_points();
    trails_tell_each_point();
    woven_is_never_reset();
    posted_is_delivered();
}

/// Whether a node marks its side down or not: before the first mark-down nothing is reset, and of each key what
/// either side's dispatchers were called with of what it had handed on by then is the first of what the other side
/// posted, in order, each once. And what is observed of all is a run of the ordered channel, in which no reset comes
/// without a mark before it.
pub fn woven_is_a_run_to_a_mark()
    ensures { marked.WovenIsARunToAMark }
{
    all_read_was_written();
    asks_come_first();
    orders_give_points();
    trails_tell_each_point();
    woven_bytes_fit();
    bytes_give_fits();
    lossless_bytes_are_never_reset();
    observed_is_a_run();
    observed_is_a_run_to_a_mark();
    counts_are_of_the_items();
}

/// There is a link of lossless nodes with an order by the rule of weaving in which one side's half has read
/// what the other side wrote.
pub fn a_link_is_woven()
    ensures { laws.ALinkIsWoven }
{}

/// There is such a link of which a side is marked down: a message was posted, accepted, dispatched and counted
/// acknowledged before, and behind the mark the session is reset.
pub fn a_marked_link_is_woven()
    ensures { marked.AMarkedLinkIsWoven }
{}

/// There is one on which a socket is closed behind some bytes of a message and both sides connect at once: the far side, which has
/// opened a socket of its own, tells its peer to ask again, and then goes on over the peer's socket and closes its own. The
/// message is accepted, acknowledged and dispatched once.
pub fn a_crossed_link_is_woven()
    ensures { crossed.ACrossedLinkIsWoven }
{}
