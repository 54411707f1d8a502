//! From bytes that fit to an order of two journals that fits.
//!
//! What it is: definitions and laws. `specs/Ends.antt` says what a side has got and put on each socket where an order
//! has come: by its journal, and before that by the half on a socket of the peer. `specs/Halves.antt` says when bytes
//! fit there: what each end has got the other had put, the asks that were judged are the first that the half has read,
//! and no answer is written before it was judged. `specs/Orders.antt` says it throughout an order of all entries, and
//! has the laws: such an order of two lawful journals fits as `m2_never_reset` wants it, so a lossless session is never
//! reset. `specs/Trails.antt` says what of that a trail gives at each point.
//!
//! What it isn't: the merge that finds such an order.
#![tactic(auto)]

mod laws;

pub use laws::{
    bytes_can_fit, bytes_give_fits, lossless_bytes_are_never_reset, posts_can_be_sent,
    trails_tell_each_point,
};
