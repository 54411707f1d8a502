//! One side of a session without its journal: the session, the outgoing queue and the feed.
//!
//! What it is: [`Core`], what a record is beside its journal, its plan and its trails; and its calls, of which each
//! says by the replay of journals what it does. Most are one entry, and behind that entry the core stands where the
//! replay does, wherever it did so before ([`Aftermath`] has what the entry leaves for the record). The others make
//! none, and the core stands where it stood: what the opener's half answers, news of the other side, a size that is
//! granted, a text that is passed, and the two texts that no entry names. What it isn't: a record. It writes no
//! journal, knows no plan and no clock, and does nothing by itself.
//!
//! Inside it is [`Live`], what a step can change: the session with its queue, the last accepted number, and the feed
//! with what was granted for it. [`Live::tell`] tells the session of an event and does what the table of steps
//! says then. The functions that end in `_on` are one call of a feed each, where there is one. [`Waits`] says when a
//! side may dial again. By itself it knows no replay, no facts of its side and no rule of when an event may come.
//!
//! `specs/CoreNow.antt` says what contracts see of a core, `specs/Agrees.antt` what it means that it stands where a
//! journal's replay does; `specs/LiveNow.antt`, `specs/Effects.antt` and `specs/OnFeed.antt` say what they see of what
//! is inside, what a step leaves, and what each call of a feed leaves.
#![tactic(auto)]

mod accepting;
mod aftermath;
mod asking;
mod composing;
mod counting;
mod facts;
mod feed_laws;
mod front_laws;
mod granting;
mod hearing;
mod judging;
mod laws;
mod live;
mod live_accepting;
mod live_asking;
mod live_granting;
mod live_numbering;
mod live_passing;
mod news;
mod next;
mod numbering;
mod obeying;
mod on_feed;
mod passing;
mod plan;
mod reading;
mod resting;
mod shaking;
mod side;
mod sockets;
mod taking;
mod to_compose;
mod verdict;
mod waits;

pub use accepting::CoreAccepted;
pub use aftermath::Aftermath;
pub use asking::CoreAsk;
pub use hearing::raise;
pub use laws::waits_double;
pub use live::Live;
pub use live_asking::{ask_len, cookie_at};
pub use m2_queues::OutQueues;
pub use next::{CoreFront, CoreNext};
pub use on_feed::{
    acknowledge_on, answer_on, front_on, grant_on, greet_on, hear_on, next_on, read_on, write_on,
};
pub use reading::CoreRead;
pub use side::Core;
pub use taking::resumed_by_ask;
pub use to_compose::CoreText;
pub use verdict::Verdict;
pub use waits::Waits;
