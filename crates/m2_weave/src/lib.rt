//! The journals of two sides woven into one order, by the bytes of the sockets between them; and the merging of lists
//! on which that stands.
//!
//! What it is: [`merge`], with its definitions and laws. A *strand* is a list of entries that came one after the other;
//! a *cut* says how many entries of each strand have come; a rule says at each cut of which strands the next entry may
//! come (`specs/Order.antt`). Where a condition that is met stays met while other strands go on, taking any entry that
//! may come, again and again, finds an order of all entries exactly where there is one, and stops at the same cut
//! whichever is taken (`specs/MergeLaws.antt`). [`merge`] does so for rules by counters (`specs/Counted.antt`): a
//! [`CountedEntry`] waits until a counter has reached a value, and adds to a counter once it has come.
//!
//! [`weave`] merges by the rule of bytes. A [`Strand`] is a journal, or what a half did on a socket before a side took
//! it (`specs/Strands.antt`); a [`SocketTable`] has what both ends of each socket have read and written, found by
//! [`SocketNames`]. An entry may come once the other end of its socket has written the bytes that it read; an ask is
//! judged once its half has handed it on; and a half writes once all its asks so far are judged (`specs/Rule.antt`).
//! What may come may still come later, so taking whatever may come finds an order of all entries exactly where there is
//! one. Where that stops at a read, [`first_stop`] names the byte that is [`Unfit`] (`specs/Stops.antt`).
//!
//! Whatever happens in turns can be woven. Nodes that run one after another act in turns: in a turn one node acts, and
//! between turns bytes flow from what one end has put to what the other can read. So whatever is read in a turn had
//! been written before it. `specs/Later.antt` says what that is of strands and of the bytes of their ends, and
//! `specs/TurnLaws.antt` that strands which had an order before a turn have one behind it, and so at each time of a
//! run.
//!
//! What it isn't: what follows from such an order (`m2_never_reset`), or anything that acts in turns.
#![tactic(auto)]

mod counted;
mod counts;
mod merge_laws;
mod merging;
mod stopping;
mod strand;
mod table;
mod tally;
mod turn_laws;
mod unfit;
mod users;
mod weave_laws;
mod weaving;

pub use counted::{CountedEntry, CountedStrand, Need};
pub use merge_laws::{
    an_order_names_all, both_come_in_order, counted_stays_met, greedy_is_an_order, stops_are_one,
    stuck_is_the_end,
};
pub use merging::{Merged, merge};
pub use stopping::first_stop;
pub use strand::{Strand, StrandItem};
pub use table::{EndBytes, SocketBytes, SocketNames, SocketTable};
pub use turn_laws::{a_turn_is_read_in, flowed_was_written, runs_are_woven, turns_are_woven};
pub use unfit::{Unfit, Why};
pub use weave_laws::{
    a_stop_is_no_order, all_read_was_written, asks_come_first, counters_decide, rule_decides,
    rule_stays_met, tidy_stops_are_reads, unfit_is_the_first,
};
pub use weaving::{WovenOrder, are_named, weave};
