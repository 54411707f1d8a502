//! What a step answered.

use m2_dispatch::Parcel;
use m2_feed::WireFault;
use m2_shared::Stage;

/// What a step answered. It may hold a parcel, so it can't be dropped.
pub enum Stepped {
    /// Something was done, or a write answered that it can't yet.
    Moved,
    /// A parcel is handed out.
    Hand(Parcel),
    /// Nothing but a connect is due, or the read of this step answered that nothing is there yet.
    Dry,
    /// So much is out at this stage that a MESSAGE has to wait.
    Full {
        stage: Stage,
        held: u64,
    },
    /// Another thread changed the word of this stage at that moment, or where none is named the counter of
    /// global numbers. One may try again.
    Again {
        stage: Option<Stage>,
        seen: u64,
        now: u64,
    },
    /// No global number is left for an ask.
    Spent,
    /// The feed was closed for this cause.
    Faulted(WireFault),
    /// Nothing was done.
    NoMemory,
}
