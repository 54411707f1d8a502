//! Which calls of a network are to fail.

ghost use Rattle.std.specs.Prelude.{◌≡◌, ◌<◌, length, IfSome, IfOk};
ghost use Rattle.m2_mem_fabric.specs.Failing.{none_fails};

use crate::call::MemCall;
use crate::failing::FailingCalls;
use m2_bytes::NoMemory;
use std::alloc::Global;

/// Which reads and writes of an end are to fail.
#[derive(Drop)]
pub(crate) struct EndPlan {
    pub(crate) reads: FailingCalls,
    pub(crate) writes: FailingCalls,
}

impl EndPlan {
    /// None is to fail. Takes no memory.
    pub(crate) fn none(alloc: Global) -> EndPlan
        ensures reads { result.reads ≡ none_fails }
        ensures writes { result.writes ≡ none_fails }
    {
        EndPlan {
            reads: FailingCalls::none(alloc),
            writes: FailingCalls::none(alloc),
        }
    }
}

/// What is planned for the first socket that a node opens.
#[derive(Drop)]
struct FirstSocket {
    node: u32,
    end: EndPlan,
}

/// Which calls of a network are to fail. The calls of a kind are counted over all nodes.
#[derive(Drop)]
pub(crate) struct Plan {
    alloc: Global,
    pub(crate) listens: FailingCalls,
    pub(crate) connects: FailingCalls,
    pub(crate) accepts: FailingCalls,
    pub(crate) polls: FailingCalls,
    /// Of the nodes that opened none so far.
    first_sockets: Vec<FirstSocket>,
}

/// The place of what is planned for a node's first socket.
fn place_of(planned: &[FirstSocket], node: u32) -> Option<usize>
    ensures { IfSome result (λ place. place < length planned.now) }
{
    planned.iter().position(|first| first.node == node)
}

/// The place of what is planned for a node's first socket, which is nothing so far where it is new.
fn place_or_new(alloc: Global, planned: &mut Vec<FirstSocket>, node: u32) -> Result<usize, NoMemory>
    ensures { IfOk result (λ place. place < length planned.new.items) }
{
    if let Some(place) = place_of(planned.as_slice(), node) {
        return Ok(place);
    }
    let place = planned.len();
    planned.push(FirstSocket {
        node,
        end: EndPlan::none(alloc),
    })?;
    Ok(place)
}

impl Plan {
    /// None is to fail. Takes no memory.
    pub(crate) fn new(alloc: Global) -> Plan {
        Plan {
            alloc,
            listens: FailingCalls::none(alloc),
            connects: FailingCalls::none(alloc),
            accepts: FailingCalls::none(alloc),
            polls: FailingCalls::none(alloc),
            first_sockets: Vec::new(alloc),
        }
    }

    /// The call at a place, counted from 1, is to fail too.
    pub(crate) fn add(&mut self, call: MemCall, at: u32) -> Result<(), NoMemory> {
        match call {
            MemCall::Listen => self.listens.add(at),
            MemCall::Connect => self.connects.add(at),
            MemCall::Accept => self.accepts.add(at),
            MemCall::Poll => self.polls.add(at),
            MemCall::Read { node } => {
                let place = place_or_new(self.alloc, &mut self.first_sockets, node)?;
                self.first_sockets[place].end.reads.add(at)
            }
            MemCall::Write { node } => {
                let place = place_or_new(self.alloc, &mut self.first_sockets, node)?;
                self.first_sockets[place].end.writes.add(at)
            }
        }
    }

    /// What is planned for a socket that a node opens: something for its first alone.
    pub(crate) fn opens(&mut self, node: u32) -> EndPlan {
        match place_of(self.first_sockets.as_slice(), node) {
            Some(place) => self.first_sockets.swap_remove(place).end,
            None => EndPlan::none(self.alloc),
        }
    }
}
