//! What a side's dispatchers were called with.

ghost use Rattle.std.specs.Prelude.{◌≡◌, ◌∷◌, ◌++◌, [], map, IfOk, OnOk};
ghost use Rattle.m2_channel.specs.Observed.{all_of};
ghost use Rattle.m2_dispatch.specs.Heard as heard;
ghost use Rattle.m2_dispatch.specs.Heard.{heard_by, heard_of};
ghost use Rattle.m2_history.specs.Counted.{logs_of};
ghost use Rattle.m2_message.specs.Message.{content_of};

use crate::keys::{MessageList, is_key, push_copy};
use crate::side::Side;
use m2_bytes::{Items, NoMemory};
use m2_dispatch::Logged;
use m2_fabric::End;
use m2_policy::Key;
use std::alloc::Global;

/// The messages of a peer, its place among the nodes, that a side's dispatchers were called with, of this
/// key, in order.
pub fn dispatched<E: End>(
    alloc: Global,
    side: &Side<'_, E>,
    peer: u32,
    key: Key,
) -> Result<MessageList, NoMemory>
    ensures { IfOk result (λ l. map content_of l.items ≡ heard.of_key peer key (all_of (logs_of side.now.fast.now.items side.now.log.now.items))) }
{
    let mut all = Items::empty(alloc);
    add_all(&mut all, side.fast.as_slice(), peer, key)?;
    add_all(&mut all, side.log.as_slice(), peer, key)?;
    Ok(all)
}

/// Those of a log.
fn add_all(all: &mut MessageList, log: &[Logged], peer: u32, key: Key) -> Result<(), NoMemory>
    ensures { OnOk result (map content_of all.new.items ≡ map content_of all.old.items ++ heard.of_key peer key (heard_by log.now)) }
{
    for call in log {
        add_one(all, call, peer, key)?;
    }
    Ok(())
}

/// That of a call, if it is one.
fn add_one(all: &mut MessageList, call: &Logged, peer: u32, key: Key) -> Result<(), NoMemory>
    ensures { OnOk result (map content_of all.new.items ≡ map content_of all.old.items ++ heard.of_key peer key (heard_of call.now ∷ [])) }
{
    match call {
        Logged::Message {
            peer: from,
            key: its_key,
            number: _,
            life: _,
            message,
        } => {
            let same_key = is_key(*its_key, key);
            if *from == peer && same_key {
                push_copy(all, message)
            } else {
                Ok(())
            }
        }
        Logged::Reset { peer: _ } => Ok(()),
    }
}
