//! An inbox between threads: putters hand items over to one taker, through a bounded queue.
//!
//! What it is: [`Inbox`], the queue that threads share; [`PutPass`] and [`GetPass`], which say what a
//! putter has put and what the taker has taken, and cost nothing at run time; [`Rest`], what is left
//! when the threads have ended. Whatever the schedule of the threads, no item is lost and none doubled,
//! the items of each putter keep their order, and each item that comes out belongs to the inbox's owner.
//! Items may be linear. What it isn't: a way to wait. A full inbox gives the item back, an empty one
//! answers None, and the caller decides when to try again.
#![tactic(auto)]

mod full;
mod inbox;
mod laws;
mod passes;
mod rest;
mod rule;
mod slip;
mod view;

pub use full::Full;
pub use inbox::{Inbox, MOST_ARRIVALS, MOST_PARCELS};
pub use laws::{merge_is_cut_where_the_taker_stands, merge_of_one_list_is_the_list};
pub use passes::{GetPass, PutPass};
pub use rest::Rest;
