//! The dispatcher of a node.

ghost use Rattle.std.specs.Prelude.{◌≡◌, ◌∷◌, [], false};
ghost use Rattle.std.specs.Bool.{OnTrue};
ghost use Rattle.m2_dispatch.specs.Letters.{AreOwned};
ghost use Rattle.m2_dispatch.specs.Parcel.{IsOwned};
ghost use Rattle.m2_dispatch.specs.m2_shared.Gates.{ArePassesOf, Return, places};
ghost use Rattle.m2_script.specs.m2_record.Calls.{granted_in};
ghost use Rattle.m2_node.specs.Dispatching.{DispatchesFirst, HasDispatched, Returns};

use m2_dispatch::{Dispatch, DispatchTurn, Letter, LogDispatcher, Logged, LoggedList, Parcel};
use m2_shared::{TakePasses, Throttles};
use std::alloc::Global;
use std::marker::Model;

/// The dispatcher of a node, behind its queue, with a right of its own to give back what the node's throttles have granted.
/// Contracts see the places of these throttles, what the dispatcher was called with, and whether memory ran out, in which case something wasn't
/// dispatched. It can't be dropped, since letters can't.
pub struct NodeDispatcher<'s> {
    queue: Dispatch<LogDispatcher>,
    throttles: &'s Throttles,
    passes: TakePasses,
    is_lost: bool,
}

impl<'s> Model for NodeDispatcher<'s> {
    ghost use Rattle.std.specs.Prelude.{◌≡◌, [], false};
    ghost use Rattle.m2_dispatch.specs.Letters.{AreOwned};
    ghost use Rattle.m2_dispatch.specs.m2_shared.Gates.{ArePassesOf, places};
    ghost use Rattle.m2_node.specs.Dispatching.{DispatcherNow};

    ghost Value = { DispatcherNow };

    ghost view = { λ d. record { throttles = d.throttles.now; log = d.queue.inner; lost = d.is_lost } };

    ghost invariant = { λ d. ArePassesOf d.throttles.now d.passes × AreOwned (places d.throttles.now) d.queue.waiting
        × (d.is_lost ≡ false → d.queue.waiting ≡ []) };
}

impl<'s> NodeDispatcher<'s> {
    /// One that was called with nothing, by this right to give back.
    pub(crate) fn new(
        alloc: Global,
        throttles: &'s Throttles,
        passes: TakePasses,
    ) -> NodeDispatcher<'s>
        requires { ArePassesOf throttles.now passes }
        ensures { result ≡ record { throttles = throttles.now; log = []; lost = false } }
    {
        NodeDispatcher {
            queue: Dispatch::new(alloc, LogDispatcher::new(alloc)),
            throttles,
            passes,
            is_lost: false,
        }
    }

    /// What it was called with, in order.
    pub(crate) fn log(&self) -> &[Logged]
        ensures { result.now ≡ self.now.log }
    {
        self.queue.inner().log().as_slice()
    }

    /// Whether memory ran out.
    pub fn is_lost(&self) -> bool
        ensures { result ≡ self.now.lost }
    {
        self.is_lost
    }

    /// Puts a parcel into the queue, and dispatches until nothing waits there. What was granted for a letter is given back. Where
    /// memory runs out the parcel is thrown away, or waits.
    pub(crate) fn dispatch(&mut self, parcel: Parcel)
        requires { IsOwned (places self.old.throttles) parcel }
        ensures { HasDispatched (parcel ∷ []) self.old self.new }
    {
        match self.queue.put(parcel, self.throttles, &mut self.passes) {
            Ok(()) => {
                if !turn_all(&mut self.queue, self.throttles, &mut self.passes) {
                    self.is_lost = true;
                }
            }
            Err(parcel) => {
                self.is_lost = true;
                give_back(parcel, self.throttles, &mut self.passes);
            }
        }
    }

    /// Ends it, and gives what it was called with.
    pub fn into_log(self) -> LoggedList
        ensures { result.items ≡ self.entry.log }
    {
        let NodeDispatcher {
            queue,
            throttles,
            mut passes,
            is_lost: _,
        } = self;
        queue.finish(throttles, &mut passes).into_log()
    }
}

/// Dispatches until no letter waits: whether memory lasted.
fn turn_all(
    queue: &mut Dispatch<LogDispatcher>,
    throttles: &Throttles,
    passes: &mut TakePasses,
) -> bool
    requires passes { ArePassesOf throttles.now passes.old }
    requires letters { AreOwned (places throttles.now) queue.old.waiting }
    ensures some { DispatchesFirst queue.old queue.new }
    ensures all { OnTrue result (queue.new.waiting ≡ []) }
    ensures letters { AreOwned (places throttles.now) queue.new.waiting }
    ensures passes { ArePassesOf throttles.now passes.new }
{
    'turning: loop {
        match queue.turn(throttles, passes) {
            DispatchTurn::One => {}
            DispatchTurn::Nothing => return true,
            DispatchTurn::NoMemory => return false,
        }
    }
}

/// Gives back what was granted for a parcel, and throws it away.
pub(crate) fn give_back(parcel: Parcel, throttles: &Throttles, passes: &mut TakePasses)
    requires passes { ArePassesOf throttles.now passes.old }
    requires owned { IsOwned (places throttles.now) parcel }
    ensures passes { ArePassesOf throttles.now passes.new }
    ensures word { Return (granted_in parcel) throttles.now passes.old passes.new }
    ensures given { Returns throttles.now parcel passes.old passes.new }
{
    match parcel {
        Parcel::Letter(letter) => {
            let Letter {
                peer: _,
                key: _,
                number: _,
                life: _,
                message: _,
                grants,
            } = letter;
            grants.back(throttles, passes);
        }
        Parcel::Discard { peer: _ } => {}
        Parcel::RemoteReset { peer: _ } => {}
    }
}
