//! Keys of messages, and lists of messages of a key.

ghost use Rattle.std.specs.Prelude.{◌≡◌, ◌∷◌, ◌++◌, [], map, OnOk};
ghost use Rattle.m2_dispatch.specs.Heard as heard;
ghost use Rattle.m2_history.specs.Counted.{key_at};
ghost use Rattle.m2_message.specs.Message.{content_of};

use m2_bytes::{Items, NoMemory};
use m2_message::Message;
use m2_policy::{FastSet, Key, Path};

/// Messages, in order.
pub type MessageList = Items<Message>;

/// The key of a message at a node that dispatches these kinds at once.
pub(crate) fn key_at(to: &FastSet, message: &Message) -> Key
    ensures { result ≡ key_at to.now (content_of message.now) }
{
    Key {
        priority: message.header.priority,
        path: Path::of(message.header.kind, to),
    }
}

fn is_path(a: Path, b: Path) -> bool
    ensures { result ≡ heard.is_path a b }
{
    match (a, b) {
        (Path::Fast, Path::Fast) | (Path::Queued, Path::Queued) => true,
        (Path::Fast, Path::Queued) | (Path::Queued, Path::Fast) => false,
    }
}

pub(crate) fn is_key(a: Key, b: Key) -> bool
    ensures { result ≡ heard.is_key a b }
{
    let same_path = is_path(a.path, b.path);
    a.priority == b.priority && same_path
}

/// Appends a copy of a message.
pub(crate) fn push_copy(all: &mut MessageList, message: &Message) -> Result<(), NoMemory>
    ensures { OnOk result (map content_of all.new.items ≡ map content_of all.old.items ++ content_of message.now ∷ []) }
{
    let copy = message.copy()?;
    match all.push(copy) {
        Ok(()) => Ok(()),
        Err(_) => Err(NoMemory),
    }
}
