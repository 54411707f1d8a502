//! What a node may do otherwise than its peer.

ghost use Rattle.std.specs.Prelude.{◌≡◌};
ghost use Rattle.m2_policy.specs.Rules as rules;

use m2_addr::AddrOrder;

/// What an opener's AUTH_REQUEST carries beside its method and modes.
#[derive(Clone, Copy, Debug, PartialEq, Eq)]
pub enum AuthPayload {
    /// No bytes: this project's profile.
    Empty,
    /// An authorizer of the method that asks for none, which real daemons want: its version 1, the
    /// entity type 8 (a client), an id of no bytes, and global id 0; 17 bytes.
    Authorizer,
}

/// Where a dial's connect number is one more than the last.
#[derive(Clone, Copy, Debug, PartialEq, Eq)]
pub enum ConnectRise {
    /// Where the socket was lost in Ready and no connect was made since: this project's profile.
    BehindReady,
    /// Wherever a server cookie is kept, as Ceph does it.
    WhereKept,
}

/// The rules that each node chooses for itself, whatever its peer has chosen.
#[derive(Clone, Copy, Debug, PartialEq, Eq)]
pub struct Rules {
    /// Read where it opens a socket.
    pub auth: AuthPayload,
    /// Read where it dials.
    pub connects: ConnectRise,
    /// Read where connects cross.
    pub order: AddrOrder,
}

/// Those of this project's profile.
pub fn profile() -> Rules
    ensures { result ≡ rules.profile }
{
    Rules {
        auth: AuthPayload::Empty,
        connects: ConnectRise::BehindReady,
        order: AddrOrder::Numbers,
    }
}

/// Those of real daemons.
pub fn of_daemons() -> Rules
    ensures { result ≡ rules.of_daemons }
{
    Rules {
        auth: AuthPayload::Authorizer,
        connects: ConnectRise::WhereKept,
        order: AddrOrder::Bytes,
    }
}
