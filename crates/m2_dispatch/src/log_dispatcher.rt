//! A dispatcher that writes down what it was called with.

ghost use Rattle.std.specs.Prelude.{◌≡◌, [], ◌∷◌, ◌++◌, OnOk, OnErr, IfErr};
ghost use Rattle.m2_dispatch.specs.Heard.{heard_by};
ghost use Rattle.m2_dispatch.specs.declared.logged.Logged.TheVariants as logged;

use crate::dispatcher::Dispatcher;
use crate::{Logged, LoggedList};
use m2_bytes::NoMemory;
use m2_message::Message;
use m2_policy::Key;
use std::alloc::Global;
use std::marker::Model;

/// A dispatcher that appends each call to its log. Contracts see the log.
#[derive(Debug, Drop)]
pub struct LogDispatcher {
    log: LoggedList,
}

impl Model for LogDispatcher {
    ghost use Rattle.std.specs.Prelude.{List};
    ghost use Rattle.m2_dispatch.specs.declared.logged.Logged.{Logged};

    ghost Value = { List Logged };

    ghost view = { λ d. d.log.items };
}

impl LogDispatcher {
    /// An empty log. Takes no memory.
    pub fn new(alloc: Global) -> LogDispatcher
        ensures { result ≡ [] }
    {
        LogDispatcher {
            log: LoggedList::empty(alloc),
        }
    }

    /// The calls, in order.
    pub fn log(&self) -> &LoggedList
        ensures { result.now.items ≡ self.now }
    {
        &self.log
    }

    /// The same, where no more calls are to come.
    pub fn into_log(self) -> LoggedList
        ensures { result.items ≡ self }
    {
        self.log
    }
}

impl Dispatcher for LogDispatcher {
    ghost heard = { heard_by };

    fn message(
        &mut self,
        peer: u32,
        key: Key,
        number: u64,
        life: u64,
        message: Message,
    ) -> Result<(), Message>
        ensures logs { OnOk result (self.new ≡ self.old ++ logged.Message peer key number life message ∷ []) }
        ensures back { IfErr result (λ back. back ≡ message) }
        ensures stays { OnErr result (self.new ≡ self.old) }
    {
        if self.log.reserve(1).is_err() {
            return Err(message);
        }
        self.log.push_reserved(Logged::Message {
            peer,
            key,
            number,
            life,
            message,
        });
        Ok(())
    }

    fn reset(&mut self, peer: u32) -> Result<(), NoMemory>
        ensures logs { OnOk result (self.new ≡ self.old ++ logged.Reset peer ∷ []) }
        ensures stays { OnErr result (self.new ≡ self.old) }
    {
        self.log.reserve(1)?;
        self.log.push_reserved(Logged::Reset { peer });
        Ok(())
    }
}
