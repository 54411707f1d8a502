//! Whose bytes are being written.

ghost use Rattle.std.specs.Prelude.{◌≡◌};
ghost use Rattle.m2_feed.specs.Calls.{acknowledges, begun};

/// Whose bytes are composed and not put, once both sides have signed.
#[derive(Clone, Copy, Debug, PartialEq, Eq)]
pub enum Writing {
    /// Nobody's: all that was composed is put.
    Nothing,
    /// A frame that has an entry of its own, or the end of a handshake; and whether the frame
    /// acknowledges what was accepted.
    Named { acknowledges: bool },
    /// An acknowledgement up to this number; and whether some of it is put.
    Acknowledgement { number: u64, begun: bool },
    /// The answer to the first keepalive that isn't answered; and whether some of it is put.
    KeepaliveAnswer { begun: bool },
}

impl Writing {
    /// Whether it acknowledges what was accepted.
    pub(crate) fn acknowledges(self) -> bool
        ensures { result ≡ acknowledges self }
    {
        match self {
            Writing::Nothing | Writing::KeepaliveAnswer { begun: _ } => false,
            Writing::Named { acknowledges } => acknowledges,
            Writing::Acknowledgement {
                number: _,
                begun: _,
            } => true,
        }
    }

    /// The same, with some of it put.
    pub(crate) fn begun(self) -> Writing
        ensures { result ≡ begun self }
    {
        match self {
            Writing::Nothing => Writing::Nothing,
            Writing::Named { acknowledges } => Writing::Named { acknowledges },
            Writing::Acknowledgement { number, begun: _ } => Writing::Acknowledgement {
                number,
                begun: true,
            },
            Writing::KeepaliveAnswer { begun: _ } => Writing::KeepaliveAnswer { begun: true },
        }
    }
}
