//! What the two sides of a link did, from their journals, their ends and the logs of their dispatchers; both woven into
//! one order, in which bytes fit throughout, so a lossless session is never reset, and a lossy one brings over some of
//! what was posted, in order.
//!
//! What it is: [`Side`], a record with what the dispatchers of its node were called with; and what each side posted,
//! accepted and dispatched of a key: [`posted`], [`accepted`], [`dispatched`]. A key is a priority with a dispatch
//! path. In every history of a lossless link what is dispatched is the first of what was posted
//! ([`posted_is_delivered`]). And [`weave`], which finds the [`History`] of two sides, an order of all that their
//! journals and halves tell by the rule of `m2_weave`, exactly where there is one, or names the byte at which there is
//! none ([`WeaveFault`]), and says what such an order says of a link, lossless or lossy; [`weave_sides`] is the finding
//! alone. [`weave_parts`] finds one of [`Parts`] made by hand, of which nothing is known.
//!
//! The laws: `specs/WovenLink.antt` says what two sides of a link are as records and halves keep them
//! ([`records_are_sides`]), and what is asked of them besides; `specs/Order.antt` makes of an order of strands the
//! order of the entries of both journals and of the halves, each with its bytes; `specs/WovenLaws.antt` has the laws,
//! `specs/Marked.antt` those of a link of which a side may be marked down, and `specs/Lossy.antt` those of a lossy one.
//!
//! What it isn't: a run. It looks at what is over, and moves no byte. What follows from bytes that fit is that of
//! `m2_bytes_fit`.
#![tactic(auto)]

mod accepting;
mod dispatching;
mod history;
mod history_laws;
mod keys;
mod link;
mod parts;
mod posting;
mod records;
mod rows;
mod side;
mod sockets;
mod strands;
mod weaving;
mod woven;
mod woven_laws;

pub use accepting::accepted;
pub use dispatching::dispatched;
pub use history::{History, HistoryStep, PartsFault, WeaveFault};
pub use history_laws::{
    counts_are_of_the_items, orders_give_points, posted_is_delivered, records_are_kept,
    strands_are_tidy,
};
pub use keys::MessageList;
pub use link::are_of_link;
pub use parts::Parts;
pub use posting::posted;
pub use records::weave_sides;
pub use side::Side;
pub use weaving::weave_parts;
pub use woven::weave;
pub use woven_laws::{
    a_crossed_link_is_woven, a_link_is_woven, a_marked_link_is_woven, records_are_sides,
    woven_bytes_fit, woven_comes_in_order, woven_is_a_run_to_a_mark, woven_is_delivered,
    woven_is_never_reset,
};
