//! Where a half stands.

use crate::fault::HalfFault;

/// Which end of the socket a half is.
#[derive(Clone, Copy, Debug, PartialEq, Eq)]
pub enum HalfSide {
    /// The end that connected.
    Opener,
    /// The end that accepted.
    Acceptor,
}

/// The frame that a half waits for until it is authed.
#[derive(Clone, Copy, Debug, PartialEq, Eq)]
pub enum Awaited {
    Hello,
    /// AUTH_REQUEST, at an acceptor.
    Request,
    /// AUTH_DONE, at an opener.
    Done,
    Signature,
}

/// Where a half stands.
#[derive(Clone, Copy, Debug, PartialEq, Eq)]
pub enum Stage {
    /// Its banner is still to be written.
    Opening,
    /// It waits for the banner of the other side.
    Banner,
    /// It waits for a frame of the authentication.
    Waits(Awaited),
    /// Both sides have signed. An acceptor waits for an ask.
    Authed,
    /// An acceptor was asked, and owes the reply.
    Asked,
    /// An acceptor has replied that there is no session, and waits for the end.
    Ended,
    /// It has answered a fault, and answers it from then on.
    Faulty(HalfFault),
}
