//! What is promised of the links of a run. These functions do nothing: each stands for the law that its contract
//! names.

ghost use Rattle.m2_promise.specs.DeliveryLaws as laws;
ghost use Rattle.m2_promise.specs.Lossy as lossy;

use m2_dispatch::Dispatcher;
use m2_links_go_on::{links_are_woven_so, links_go_on, logged_are_heard, staying_goes_on};
use m2_lives::{posts_can_be_sent, trails_tell_each_point};

/// Two records of two nodes of a run that are towards each other are a link, with the halves of either node that no
/// record took: each half was told what the record beside it has judged, and no two ends are one.
pub fn runs_have_links()
    ensures { laws.RunsHaveLinks }
{
    links_are_woven_so();
    posts_can_be_sent();
    staying_goes_on();
    links_go_on();
}

/// Where all that was done on a link has an order, that is one by the bytes of its ends.
pub fn links_have_orders()
    ensures { laws.LinksHaveOrders }
{}

/// So in a run, of a lossless link that was not marked down, nothing was reset; what a sender counts as acknowledged
/// was accepted; and of each key what either node's dispatchers were called with is the first of what the other
/// posted, in order, each once, and no more than was accepted.
pub fn links_are_delivered()
    ensures { laws.LinksAreDelivered }
{
    runs_have_links();
    links_have_orders();
    links_are_woven_so();
    trails_tell_each_point();
}

/// Of a lossy link of a run, of each key what either node's dispatchers were called with is some of what the other
/// posted, in order, each message once, whether a side was marked down or not.
pub fn lossy_links_come_in_order()
    ensures { lossy.LossyLinksComeInOrder }
{
    runs_have_links();
    links_have_orders();
    links_are_woven_so();
    trails_tell_each_point();
}

/// Where a node's dispatchers were called with what its records handed on, by their logs each record's peer is
/// heard to send what the record accepted.
pub fn logged_have_heard<D: Dispatcher>()
    ensures { laws.LoggedHaveHeard D }
{
    logged_are_heard::<D>();
}
