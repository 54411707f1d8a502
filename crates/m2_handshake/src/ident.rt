//! What each side looks at in the ident of the other before its session does.

ghost use Rattle.std.specs.Prelude.{◌≡◌};
ghost use Rattle.m2_handshake.specs.Ident.{IsCheck, IsServerCheck, client_check, server_check};

use crate::fault::HalfFault;
use m2_addr::Addr;
use m2_control::{ClientIdent, ServerFacts};
use m2_policy::{Policy, missing};

/// What an acceptor found in an ident.
#[derive(Clone, Copy, Debug, PartialEq, Eq)]
pub enum IdentCheck {
    /// Nothing that speaks against it.
    Fine,
    /// The features that are required and not supported, as bits, at least one.
    Missing(u64),
    /// WrongAddress or FlagDisagrees, and the socket is closed.
    Fault(HalfFault),
}

/// Looks whether an ident is meant for this node, agrees with its policy towards the asker, and
/// supports what it requires, in this order.
#[tactic(auto, using(crate::proofs::Idents::same_is, crate::proofs::Idents::other_isnt, crate::proofs::Idents::flag_is, crate::proofs::Idents::flag_isnt))]
pub fn check_ident(i: &ClientIdent, mine: &Addr, policy: &Policy, required: u64) -> IdentCheck
    ensures rows { IsCheck result i.now mine.now policy.now required }
    ensures exact { result ≡ client_check i.now mine.now policy.now required }
{
    if i.target != *mine {
        return IdentCheck::Fault(HalfFault::WrongAddress);
    }
    if (i.flags % 2 == 1) != policy.lossy {
        return IdentCheck::Fault(HalfFault::FlagDisagrees);
    }
    match missing(required, i.supported) {
        0 => IdentCheck::Fine,
        bits => IdentCheck::Missing(bits),
    }
}

/// Looks whether the ident that accepts is of the node that was dialled, and agrees with the opener's
/// policy towards it, in this order: else WrongAddress or FlagDisagrees, and the socket is closed.
#[tactic(auto, using(crate::proofs::Idents::same_is, crate::proofs::Idents::other_isnt, crate::proofs::Idents::flag_is, crate::proofs::Idents::flag_isnt))]
pub fn check_server_ident(i: &ServerFacts, dialled: &Addr, policy: &Policy) -> Result<(), HalfFault>
    ensures rows { IsServerCheck result i.now dialled.now policy.now }
    ensures exact { result ≡ server_check i.now dialled.now policy.now }
{
    if i.main != *dialled {
        return Err(HalfFault::WrongAddress);
    }
    if (i.flags % 2 == 1) != policy.lossy {
        return Err(HalfFault::FlagDisagrees);
    }
    Ok(())
}
