//! Numbered queues: what one side of a session sends, and which numbers it takes; and the order of priorities.
//!
//! What it is: [`OutQueues`], the messages of one record that are to be sent, sent or not yet acknowledged, with their
//! numbers; [`InNumbers`], the judgement on a number that comes in. Nothing is sent here: [`OutQueues::peek`] shows
//! what is due and changes nothing, [`OutQueues::next`] gives it its number, [`OutQueues::at`] lends the message, and
//! [`OutQueues::sent`] is told that it was written. [`PriorityQueue`] gives its items out the greatest rank first, and
//! inside one rank the oldest first, and [`sort_by_rank`] puts a list into that order; a law says that a queue holds
//! what the stable sort makes of its items. What it isn't: frames, sockets or the session's phase, or a rule of what an
//! item's rank is.
#![tactic(auto)]

mod due;
mod in_numbers;
mod kept_line;
mod out_queues;
mod priority_laws;
mod priority_queue;
mod queue_laws;
mod sort;
mod stable_heap;

pub use due::Due;
pub use in_numbers::{InNumbers, Judge};
pub use out_queues::{BadAck, OutQueues};
pub use priority_laws::{by_rank_is_the_stable_sort, joining_behind_is_the_stable_sort};
pub use priority_queue::PriorityQueue;
pub use queue_laws::{
    acknowledgements_commute, calls_go_on, each_number_is_a_place, each_priority_keeps_its_order,
    greatest_priority_waits_first, kept_messages_are_the_numbered, next_is_at_the_cursor,
    numbered_messages_stay, renumber_from_zero_keeps_the_numbers, the_unsent_go_one_by_one,
};
pub use sort::sort_by_rank;
