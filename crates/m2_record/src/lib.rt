//! One side of a session, known by its journal.
//!
//! What it is: [`Record`], a core (`m2_core`) with the plan that it follows, the journal of what it did, the
//! ends that were its feed, and what is ready for a dispatcher. Its type keeps one fact: it is the replay of
//! its journal (`specs/IsRecord.antt`). Each call says how the journal grew, so whoever stands above knows a
//! record by its journal and its logs alone. What it isn't: a thread, a port or a clock. It takes the
//! moment, the numbers and the grants as its caller hands them in, and opens no socket.
//!
//! `specs/Due.antt` has the table of due steps, `specs/Stepping.antt` what each of them does.
//! `specs/RecordNow.antt` says what contracts see of a record, `specs/Sources.antt` what its journal speaks of.
#![tactic(auto)]

mod asks_judged;
mod composing;
mod connecting;
mod counting;
mod due;
mod ending;
mod framing;
mod handing;
mod judging;
mod leaving;
mod moving;
mod news;
mod parts;
mod planned;
mod reading;
mod record;
mod stepped;
mod stepping;
mod work;

pub use asks_judged::behind_judged;
pub use composing::Composed;
pub use due::Due;
pub use framing::Framed;
pub use judging::Judged;
pub use parts::RecordParts;
pub use reading::RecordRead;
pub use record::{MOST_STEPS, Record};
pub use stepped::Stepped;
pub use work::Work;
