//! The queue before a dispatcher.

ghost use Rattle.std.specs.Prelude.{◌≡◌, ◌==◌, [], ◌∷◌, ◌++◌, length, map, OnOk, OnErr, IfErr};
ghost use Rattle.m2_queues.specs.ByRank.{IsFalling};
ghost use Rattle.m2_shared.specs.Gates.{ArePassesOf, Places, Return, places};
ghost use Rattle.m2_dispatch.specs.Letters.{AreOwned, granted, heard_in, letter_priority};
ghost use Rattle.m2_dispatch.specs.Parcel.{AllOwned, IsOwned, after_put, heard_at_put, letters_on, thrown_away};
ghost use Rattle.m2_dispatch.specs.Turn.{IsTurn, dispatched};

use crate::dispatcher::Dispatcher;
use crate::letter::Letter;
use crate::parcel::Parcel;
use crate::thrown;
use crate::turn::DispatchTurn;
use crate::waiting::{self, Waiting};
use m2_bytes::NoMemory;
use m2_shared::{TakePasses, Throttles};
use std::alloc::Global;
use std::collections::VecDeque;
use std::marker::Model;

/// The letters that wait for a dispatcher, and the dispatcher. Contracts see the letters in the order in
/// which they will be dispatched: the greatest priority first, and inside one the oldest first. It can't be
/// dropped, since letters can't: it ends by [`finish`](Dispatch::finish).
///
/// In: [`put`](Dispatch::put). Out: [`turn`](Dispatch::turn), or [`hand_on`](Dispatch::hand_on), where another
/// dispatcher is to be called with the letter. Looks: [`inner`](Dispatch::inner), [`is_empty`](Dispatch::is_empty). The
/// end: [`finish`](Dispatch::finish). Each call that takes throttles and passes has the condition that the passes and
/// the grants of all letters were made from these throttles, and leaves it so.
pub struct Dispatch<D> {
    waiting: Waiting,
    inner: D,
    alloc: Global,
}

impl<D> Model for Dispatch<D> {
    ghost use Rattle.m2_dispatch.specs.Dispatch.{Queued};
    ghost use Rattle.m2_dispatch.specs.Waiting.{IsOrdered, letters_in};

    ghost Value = { Queued D };

    ghost view = { λ w. record { waiting = letters_in w.waiting.items; inner = w.inner } };

    ghost invariant = { λ w. IsOrdered w.waiting.items };
}

impl<D> Dispatch<D> {
    /// No letter waits for d. Takes no memory.
    pub fn new(alloc: Global, d: D) -> Dispatch<D>
        ensures { result ≡ record { waiting = []; inner = d } }
    {
        Dispatch {
            waiting: Waiting::empty(alloc),
            inner: d,
            alloc,
        }
    }

    /// The dispatcher.
    pub fn inner(&self) -> &D
        ensures { result.now ≡ self.now.inner }
    {
        &self.inner
    }

    /// Whether no letter waits.
    pub fn is_empty(&self) -> bool
        ensures { result ≡ (length self.now.waiting == 0) }
    {
        self.waiting.is_empty()
    }

    /// Gives back the grants of the letters that wait, throws them away, and gives the dispatcher.
    pub fn finish(self, throttles: &Throttles, passes: &mut TakePasses) -> D
        requires passes { ArePassesOf throttles.now passes.old }
        requires letters { AreOwned (places throttles.now) self.waiting }
        ensures inner { result ≡ self.inner }
        ensures passes { ArePassesOf throttles.now passes.new }
        ensures word { Return (granted self.waiting) throttles.now passes.old passes.new }
    {
        let Dispatch {
            mut waiting,
            inner,
            alloc: _,
        } = self;
        thrown::give_all(&mut waiting, throttles, passes);
        waiting.destroy_empty();
        inner
    }
}

impl<D: Dispatcher> Dispatch<D> {
    /// Takes a parcel. A letter goes behind all that wait with its priority. A discard throws the waiting
    /// letters of its peer away, and no other, and gives their grants back. A remote reset is told to the
    /// dispatcher at once. Err for want of memory hands the parcel back.
    pub fn put(
        &mut self,
        parcel: Parcel,
        throttles: &Throttles,
        passes: &mut TakePasses,
    ) -> Result<(), Parcel>
        requires passes { ArePassesOf throttles.now passes.old }
        requires letters { AreOwned (places throttles.now) self.old.waiting }
        requires parcel { IsOwned (places throttles.now) parcel }
        ensures waiting { OnOk result (self.new.waiting ≡ after_put parcel self.old.waiting) }
        ensures heard { OnOk result (D.heard self.new.inner ≡ D.heard self.old.inner ++ heard_at_put parcel) }
        ensures word { OnOk result (Return (granted (thrown_away parcel self.old.waiting)) throttles.now passes.old passes.new) }
        ensures back { IfErr result (λ back. back ≡ parcel) }
        ensures err_waiting { OnErr result (self.new.waiting ≡ self.old.waiting) }
        ensures err_heard { OnErr result (D.heard self.new.inner ≡ D.heard self.old.inner) }
        ensures err_passes { OnErr result (passes.new ≡ passes.old) }
        ensures passes { ArePassesOf throttles.now passes.new }
        ensures letters { AreOwned (places throttles.now) self.new.waiting }
    {
        match parcel {
            Parcel::Letter(letter) => match waiting::add(&mut self.waiting, letter) {
                Ok(()) => Ok(()),
                Err(letter) => Err(Parcel::Letter(letter)),
            },
            Parcel::Discard { peer } => {
                let alloc = self.alloc;
                match thrown::discard(alloc, &mut self.waiting, peer, throttles, passes) {
                    Ok(()) => Ok(()),
                    Err(_) => Err(Parcel::Discard { peer }),
                }
            }
            Parcel::RemoteReset { peer } => match self.inner.reset(peer) {
                Ok(()) => Ok(()),
                Err(_) => Err(Parcel::RemoteReset { peer }),
            },
        }
    }

    /// Dispatches the message of the first letter that waits, the oldest of the greatest priority, and gives
    /// its grants back. `Nothing` comes exactly where no letter waits. After `NoMemory` all is as before.
    pub fn turn(&mut self, throttles: &Throttles, passes: &mut TakePasses) -> DispatchTurn
        requires passes { ArePassesOf throttles.now passes.old }
        requires letters { AreOwned (places throttles.now) self.old.waiting }
        ensures waiting { IsTurn result self.old.waiting self.new.waiting }
        ensures greatest { IsFalling letter_priority self.old.waiting }
        ensures heard { D.heard self.new.inner
            ≡ D.heard self.old.inner ++ map heard_in (dispatched result self.old.waiting) }
        ensures word { Return (granted (dispatched result self.old.waiting)) throttles.now passes.old passes.new }
        ensures passes { ArePassesOf throttles.now passes.new }
        ensures letters { AreOwned (places throttles.now) self.new.waiting }
    {
        if self.waiting.is_empty() {
            return DispatchTurn::Nothing;
        }
        if self.waiting.reserve(1).is_err() {
            return DispatchTurn::NoMemory;
        }
        let Some(letter) = waiting::take(&mut self.waiting) else {
            return DispatchTurn::Nothing;
        };
        let Letter {
            peer,
            key,
            number,
            life,
            message,
            grants,
        } = letter;
        match self.inner.message(peer, key, number, life, message) {
            Ok(()) => {
                grants.back(throttles, passes);
                DispatchTurn::One
            }
            Err(message) => {
                let letter = Letter {
                    peer,
                    key,
                    number,
                    life,
                    message,
                    grants,
                };
                waiting::put_back(&mut self.waiting, letter);
                DispatchTurn::NoMemory
            }
        }
    }
    /// Calls the dispatcher with the message of the first letter that waits, as [`turn`](Dispatch::turn) does, and puts
    /// the letter last among these parcels, grants and all, for another dispatcher. `Nothing` comes exactly where no letter
    /// waits. After `NoMemory` all is as before.
    pub fn hand_on(&mut self, into: &mut VecDeque<Parcel>) -> DispatchTurn
        ensures waiting { IsTurn result self.old.waiting self.new.waiting }
        ensures greatest { IsFalling letter_priority self.old.waiting }
        ensures heard { D.heard self.new.inner
            ≡ D.heard self.old.inner ++ map heard_in (dispatched result self.old.waiting) }
        ensures into { into.new.items ≡ into.old.items ++ letters_on (dispatched result self.old.waiting) }
        ensures letters { (places : Places) → AreOwned places self.old.waiting → AreOwned places self.new.waiting × AllOwned places (letters_on (dispatched result self.old.waiting)) }
    {
        if self.waiting.is_empty() {
            return DispatchTurn::Nothing;
        }
        if self.waiting.reserve(1).is_err() || into.reserve(1).is_err() {
            return DispatchTurn::NoMemory;
        }
        let Some(letter) = waiting::take(&mut self.waiting) else {
            return DispatchTurn::Nothing;
        };
        match call(&mut self.inner, &letter) {
            Ok(()) => {
                into.push_back_reserved(Parcel::Letter(letter));
                DispatchTurn::One
            }
            Err(NoMemory) => {
                waiting::put_back(&mut self.waiting, letter);
                DispatchTurn::NoMemory
            }
        }
    }
}

/// Calls a dispatcher with a copy of a letter's message. Err for want of memory changes nothing that it was called with.
fn call<D: Dispatcher>(inner: &mut D, letter: &Letter) -> Result<(), NoMemory>
    ensures ok { OnOk result (D.heard inner.new ≡ D.heard inner.old ++ heard_in letter.now ∷ []) }
    ensures err { OnErr result (D.heard inner.new ≡ D.heard inner.old) }
{
    let message = letter.message.copy()?;
    match inner.message(letter.peer, letter.key, letter.number, letter.life, message) {
        Ok(()) => Ok(()),
        Err(_) => Err(NoMemory),
    }
}
