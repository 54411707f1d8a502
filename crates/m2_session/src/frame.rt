//! The frame that is written for an answer.

ghost use Rattle.std.specs.Prelude.{◌≡◌, IfOk, OnErr, true};
ghost use Rattle.m2_session.specs.Frames as frames;

use crate::Answer;
use m2_addr::{Addr, AddrVec};
use m2_bytes::NoMemory;
use m2_control::{
    Control, ServerIdent, SessionReconnectOk, SessionReset, SessionRetry, SessionRetryGlobal, Wait,
};
use std::alloc::Global;

/// What a node says of itself to another in an ident.
#[derive(Clone, Copy, Debug, PartialEq, Eq)]
pub struct Speaker {
    /// Its address, the only one that it writes.
    pub addr: Addr,
    /// Its place among the nodes, from 0, which it writes as its global id.
    pub place: u32,
    /// The features that it supports, a bit each.
    pub supports: u64,
    /// The features that it requires of the other.
    pub requires_: u64,
    /// Its policy towards the other is lossy: bit 0 of the flags.
    pub lossy: bool,
}

/// The numbers that the frame of an answer carries beside those of the answer.
#[derive(Clone, Copy, Debug, PartialEq, Eq)]
pub struct Carried {
    /// The server cookie that was drawn for a SERVER_IDENT.
    pub cookie: u64,
    /// The global number that was drawn for the judgement.
    pub global: u64,
    /// The number of the last message that was accepted.
    pub last: u64,
}

/// The frame that the node writes for the answer; none exactly for
/// [`Close`](Answer::Close). Only an accept, whose SERVER_IDENT has the node's address, takes
/// memory.
pub fn frame_of(
    alloc: Global,
    answer: &Answer,
    node: &Speaker,
    carried: &Carried,
) -> Result<Option<Control>, NoMemory>
    ensures frame { IfOk result (λ f. f ≡ frames.frame_of node.now carried.now answer.now) }
    ensures memory { OnErr result (frames.accepts answer.now ≡ true) }
{
    Ok(Some(match *answer {
        Answer::Close => return Ok(None),
        Answer::Wait => Control::Wait(Wait),
        Answer::Reset { full } => Control::SessionReset(SessionReset { full }),
        Answer::ResetPending => Control::SessionReset(SessionReset { full: false }),
        Answer::RetryGlobal { number } => {
            Control::SessionRetryGlobal(SessionRetryGlobal { global: number })
        }
        Answer::Retry { number } => Control::SessionRetry(SessionRetry { connect: number }),
        Answer::Resume => Control::SessionReconnectOk(SessionReconnectOk { seen: carried.last }),
        Answer::Accept
        | Answer::AcceptOver
        | Answer::AcceptReset { .. }
        | Answer::AcceptAgain
        | Answer::AcceptReplace
        | Answer::AcceptRace => Control::ServerIdent(server_ident(alloc, node, carried)?),
    }))
}

/// The SERVER_IDENT of this node.
fn server_ident(alloc: Global, node: &Speaker, carried: &Carried) -> Result<ServerIdent, NoMemory>
    ensures { IfOk result (λ p. p ≡ frames.server_ident node.now carried.now) }
{
    Ok(ServerIdent {
        addrs: AddrVec::one(alloc, node.addr)?,
        gid: node.place as i64,
        global: carried.global,
        supported: node.supports,
        required: node.requires_,
        flags: node.lossy as u64,
        cookie: carried.cookie,
    })
}
