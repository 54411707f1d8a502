//! What calls of a side answered.

ghost use Rattle.std.specs.Prelude.{◌≡◌};
ghost use Rattle.m2_record_trace.specs.Steps.{has_moved};

use m2_fabric::SocketId;
use m2_feed::WireFault;

/// What a step of a side answered: what its record did, and where that handed out a parcel, that it was logged.
#[derive(Clone, Copy, Debug, PartialEq, Eq)]
pub enum SideStep {
    /// Something was done, or a write answered that it can't yet.
    Moved,
    /// A parcel was handed out, and what was granted for it is given back.
    Handed,
    /// Nothing but a connect is due, or the read of this step answered that nothing is there yet.
    Dry,
    /// So many bytes are out that the size of a MESSAGE has to wait.
    Full { held: u64 },
    /// The throttle or the counter has changed at that moment: it never comes, since both are alone.
    Again,
    /// No global number is left for an ask.
    Spent,
    /// The feed was closed for this cause.
    Faulted(WireFault),
    /// Nothing was done.
    NoMemory,
}

impl SideStep {
    /// Whether something was done, so that another step may follow at once.
    pub fn has_moved(self) -> bool
        ensures { result ≡ has_moved self }
    {
        matches!(
            self,
            SideStep::Moved | SideStep::Handed | SideStep::Faulted(_)
        )
    }
}

/// What a connect of a side answered.
#[derive(Clone, Copy, Debug, PartialEq, Eq)]
pub enum Connecting {
    /// No connect is due, or no socket to the peer has a name that is new.
    NotDue,
    /// This socket is the feed.
    Opened(SocketId),
    /// Nothing was done.
    NoMemory,
}
