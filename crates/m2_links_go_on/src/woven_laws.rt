//! What is promised of two records whose strands have an order. This function does nothing: it stands for the law that its contract
//! names.

ghost use Rattle.m2_links_go_on.specs.WovenSo as laws;

use m2_history::{
    counts_are_of_the_items, orders_give_points, records_are_sides, woven_bytes_fit,
    woven_comes_in_order, woven_is_a_run_to_a_mark, woven_is_delivered, woven_is_never_reset,
};
use m2_weave::{all_read_was_written, asks_come_first};

/// Two records are sides of a link, and all that an order of their strands says of it is so.
pub fn links_are_woven_so()
    ensures { laws.LinksAreWovenSo }
{
    records_are_sides();
    all_read_was_written();
    asks_come_first();
    orders_give_points();
    counts_are_of_the_items();
    woven_bytes_fit();
    woven_is_never_reset();
    woven_is_delivered();
    woven_is_a_run_to_a_mark();
    woven_comes_in_order();
}
