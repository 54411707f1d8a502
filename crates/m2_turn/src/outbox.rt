//! Where the parcels of a center's records go.

ghost use Rattle.std.specs.Prelude.{◌≡◌, ◌<◌, ◌-◌, not, [], None, length, true, IfOk, IfErr, IfSome};
ghost use Rattle.std.specs.Option.{is_some};
ghost use Rattle.m2_record.specs.Calls as calls;
ghost use Rattle.m2_dispatch.specs.Letters.{IsOwnedLetter};
ghost use Rattle.m2_dispatch.specs.Parcel.{IsOwned};
ghost use Rattle.m2_shared.specs.Gates.{ArePassesOf, Places, Return, places};
ghost use Rattle.m2_turn.specs.declared.outbox.TheConstants.{MOST_MAIL};
ghost use Rattle.m2_turn.specs.Mailing.{back_in_mail, is_none};
ghost use Rattle.m2_turn.specs.Outbox.{Dispatches, IsFast, OwnsAll, Puts, Retries, Takes, granted_in, is_free, returned, returned_again, returned_for};

use m2_dispatch::{Dispatcher, Letter, Parcel};
use m2_policy::Path;
use m2_shared::{TakePasses, Throttles};
use std::alloc::Global;
use std::collections::VecDeque;
use std::marker::Model;

/// How many parcels the mail holds at most.
pub const MOST_MAIL: usize = 1024;

/// Where the parcels of a center's records go: a letter of a fast kind is dispatched at once, each other
/// parcel goes into the mail. A letter that the dispatcher couldn't take for want of memory is held, and
/// nothing more is put before it has gone. It can't be dropped, since letters can't.
///
/// Maker: [`new`](Outbox::new). Looks: [`is_free`](Outbox::is_free), [`has_mail`](Outbox::has_mail),
/// [`is_holding`](Outbox::is_holding), [`fast`](Outbox::fast). In: [`put`](Outbox::put), and
/// [`retry`](Outbox::retry) for the letter that is held. Out: [`take`](Outbox::take), and
/// [`put_back`](Outbox::put_back) for what was taken. The ends: [`finish`](Outbox::finish), which hands all on, and
/// [`clear`](Outbox::clear), which gives all grants back.
pub struct Outbox<D> {
    fast: D,
    mail: VecDeque<Parcel>,
    held: Option<Letter>,
}

impl<D> Model for Outbox<D> {
    ghost use Rattle.std.specs.Prelude.{◌≤◌, length};
    ghost use Rattle.std.specs.VecDeque.{deque_capacity};
    ghost use Rattle.m2_turn.specs.Outbox.{OutboxNow, IsFastHeld};
    ghost use Rattle.m2_turn.specs.declared.outbox.TheConstants.{MOST_MAIL};

    ghost Value = { OutboxNow D };

    ghost view = { λ o. record { fast = o.fast; mail = o.mail.items; held = o.held } };

    ghost invariant = { λ o. (MOST_MAIL ≤ deque_capacity o.mail) × IsFastHeld o.held × (length o.mail.items ≤ MOST_MAIL) };
}

impl<D> Outbox<D> {
    /// Nothing was put. Err hands the dispatcher of fast kinds back, for want of memory.
    pub fn new(alloc: Global, fast: D) -> Result<Outbox<D>, D>
        ensures ok { IfOk result (λ o. o ≡ record { fast = fast; mail = []; held = None }) }
        ensures err { IfErr result (λ back. back ≡ fast) }
    {
        let mut mail = VecDeque::new(alloc);
        if mail.reserve(MOST_MAIL).is_err() {
            mail.destroy_empty();
            return Err(fast);
        }
        Ok(Outbox {
            fast,
            mail,
            held: None,
        })
    }

    /// The dispatcher of fast kinds.
    pub fn fast(&self) -> &D
        ensures { result.now ≡ self.now.fast }
    {
        &self.fast
    }

    /// Whether a parcel may be put: no letter is held, and the mail isn't full.
    pub fn is_free(&self) -> bool
        ensures { result ≡ is_free self.now }
    {
        self.held.is_none() && self.mail.len() < MOST_MAIL
    }

    /// Whether a parcel is in the mail.
    pub fn has_mail(&self) -> bool
        ensures { result ≡ not (is_none self.now.mail) }
    {
        !self.mail.is_empty()
    }

    /// Whether a letter is held.
    pub fn is_holding(&self) -> bool
        ensures { result ≡ is_some self.now.held }
    {
        self.held.is_some()
    }

    /// The parcel that is first in the mail goes; none exactly where the mail is empty.
    pub fn take(&mut self) -> Option<Parcel>
        ensures takes { Takes result self.old self.new }
        ensures room { IfSome result (λ x. length self.new.mail < MOST_MAIL) }
        ensures owned { (places : Places) → OwnsAll places self.old → IfSome result (IsOwned places) × OwnsAll places self.new }
    {
        self.mail.pop_front()
    }

    /// Puts a parcel first in the mail, which isn't full. Takes no memory.
    pub fn put_back(&mut self, parcel: Parcel)
        requires { length self.old.mail < MOST_MAIL }
        ensures back { self.new ≡ back_in_mail parcel self.old }
        ensures owned { (places : Places) → IsOwned places parcel → OwnsAll places self.old → OwnsAll places self.new }
    {
        self.mail.push_front_reserved(parcel);
    }

    /// The dispatcher of fast kinds, and all parcels that it wasn't called with: those of the mail in order,
    /// and the letter that is held.
    pub fn finish(self) -> (D, VecDeque<Parcel>, Option<Letter>)
        ensures fast { result.0 ≡ self.fast }
        ensures mail { result.1.items ≡ self.mail }
        ensures held { result.2 ≡ self.held }
    {
        let Outbox { fast, mail, held } = self;
        (fast, mail, held)
    }

    /// Gives back what was granted for all that is held and in the mail, throws that away, and gives the
    /// dispatcher of fast kinds.
    pub fn clear(self, throttles: &Throttles, passes: &mut TakePasses) -> D
        requires passes { ArePassesOf throttles.now passes.old }
        requires all { OwnsAll (places throttles.now) self }
        ensures fast { result ≡ self.fast }
        ensures passes { ArePassesOf throttles.now passes.new }
        ensures word { Return (granted_in self) throttles.now passes.old passes.new }
    {
        let Outbox {
            fast,
            mut mail,
            held,
        } = self;
        'giving: while let Some(parcel) = mail.pop_front() {
            give_back(parcel, throttles, passes);
        }
        mail.destroy_empty();
        if let Some(letter) = held {
            give_back(Parcel::Letter(letter), throttles, passes);
        }
        fast
    }
}

/// Gives back what was granted for a parcel, and throws it away.
fn give_back(parcel: Parcel, throttles: &Throttles, passes: &mut TakePasses)
    requires passes { ArePassesOf throttles.now passes.old }
    requires owned { IsOwned (places throttles.now) parcel }
    ensures passes { ArePassesOf throttles.now passes.new }
    ensures word { Return (calls.granted_in parcel) throttles.now passes.old passes.new }
{
    match parcel {
        Parcel::Letter(letter) => {
            let Letter {
                peer: _,
                key: _,
                number: _,
                life: _,
                message: _,
                grants,
            } = letter;
            grants.back(throttles, passes);
        }
        Parcel::Discard { peer: _ } => {}
        Parcel::RemoteReset { peer: _ } => {}
    }
}

impl<D: Dispatcher> Outbox<D> {
    /// Takes a parcel. A letter of a fast kind is dispatched, and its grants given back; where the dispatcher
    /// lacks memory it is held. Each other parcel is last in the mail.
    pub fn put(&mut self, parcel: Parcel, throttles: &Throttles, passes: &mut TakePasses)
        requires free { is_free self.old ≡ true }
        requires passes { ArePassesOf throttles.now passes.old }
        requires owned { IsOwned (places throttles.now) parcel }
        requires all { OwnsAll (places throttles.now) self.old }
        ensures puts { Puts D.heard parcel self.old self.new }
        ensures all { OwnsAll (places throttles.now) self.new }
        ensures passes { ArePassesOf throttles.now passes.new }
        ensures word { Return (returned parcel self.new.held) throttles.now passes.old passes.new }
    {
        match parcel {
            Parcel::Letter(letter) => match letter.key.path {
                Path::Fast => self.dispatch(letter, throttles, passes),
                Path::Queued => self.mail.push_back_reserved(Parcel::Letter(letter)),
            },
            Parcel::Discard { peer } => self.mail.push_back_reserved(Parcel::Discard { peer }),
            Parcel::RemoteReset { peer } => {
                self.mail.push_back_reserved(Parcel::RemoteReset { peer })
            }
        }
    }
}

impl<D: Dispatcher> Outbox<D> {
    /// Tries the letter that is held again, where one is.
    pub fn retry(&mut self, throttles: &Throttles, passes: &mut TakePasses)
        requires passes { ArePassesOf throttles.now passes.old }
        requires all { OwnsAll (places throttles.now) self.old }
        ensures retries { Retries D.heard self.old self.new }
        ensures all { OwnsAll (places throttles.now) self.new }
        ensures passes { ArePassesOf throttles.now passes.new }
        ensures word { Return (returned_again self.old.held self.new.held) throttles.now passes.old passes.new }
    {
        if let Some(letter) = self.held.take() {
            self.dispatch(letter, throttles, passes);
        }
    }

    /// Dispatches a letter of a fast kind, or holds it.
    fn dispatch(&mut self, letter: Letter, throttles: &Throttles, passes: &mut TakePasses)
        requires none { self.old.held ≡ None }
        requires kind { IsFast letter }
        requires passes { ArePassesOf throttles.now passes.old }
        requires owned { IsOwnedLetter (places throttles.now) letter }
        requires all { OwnsAll (places throttles.now) self.old }
        ensures dispatches { Dispatches D.heard letter self.old self.new }
        ensures all { OwnsAll (places throttles.now) self.new }
        ensures passes { ArePassesOf throttles.now passes.new }
        ensures word { Return (returned_for letter self.new.held) throttles.now passes.old passes.new }
    {
        let Letter {
            peer,
            key,
            number,
            life,
            message,
            grants,
        } = letter;
        match self.fast.message(peer, key, number, life, message) {
            Ok(()) => grants.back(throttles, passes),
            Err(message) => {
                let letter = Letter {
                    peer,
                    key,
                    number,
                    life,
                    message,
                    grants,
                };
                match self.held.replace(letter) {
                    None => {}
                    Some(_) => unreachable!(),
                }
            }
        }
    }
}
