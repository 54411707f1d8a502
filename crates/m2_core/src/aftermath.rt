//! What a session's step leaves for its caller.

ghost use Rattle.std.specs.Prelude.{◌≡◌, false, None, option_map};

use m2_fabric::End;

/// What a step of the session leaves for its caller: the end of the feed that was left, closed; and what is
/// handed to the dispatcher, a discard and behind it a remote reset.
#[derive(Drop)]
pub struct Aftermath<E: End> {
    /// The end of the feed, where the step closed one.
    pub closed: Option<E>,
    /// What was accepted and isn't dispatched is thrown away.
    pub discarded: bool,
    /// The dispatcher is told that the peer has reset the session.
    pub remote_reset: bool,
}

impl<E: End> Aftermath<E> {
    /// Nothing is left.
    pub fn nothing() -> Aftermath<E>
        ensures closed { option_map E.seen result.closed ≡ None }
        ensures discarded { result.discarded ≡ false }
        ensures remote_reset { result.remote_reset ≡ false }
    {
        Aftermath {
            closed: None,
            discarded: false,
            remote_reset: false,
        }
    }
}
