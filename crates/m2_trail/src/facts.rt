//! The numbers of an ask.

ghost use Rattle.std.specs.Prelude.{◌≡◌};
ghost use Rattle.m2_trail.specs.Asks as asks;

use m2_handshake::Ask;
use m2_session::{AskFacts, facts_of_ident, facts_of_reconnect};

/// The numbers of an ask, as the judges take them.
pub fn facts_of_ask(ask: &Ask) -> AskFacts
    ensures { result ≡ asks.facts_of_ask ask.now }
{
    match ask {
        Ask::Ident(ident) => facts_of_ident(ident),
        Ask::Reconnect(reconnect) => facts_of_reconnect(reconnect),
    }
}
