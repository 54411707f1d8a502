//! A socket on its way to the event thread with which its peer is at home.

ghost use Rattle.std.specs.Prelude.{◌≡◌, ◌==◌, ◌<◌, [], IfErr, IfOk, IfSome};
ghost use Rattle.m2_handover.specs.End.{shown};
ghost use Rattle.m2_handover.specs.Handed.{IsOnItsWay, left_behind};
ghost use Rattle.m2_handover.specs.Home.{begun_again};
ghost use Rattle.m2_trail.specs.Asks.{IsMain};
ghost use Rattle.m2_trail.specs.Home.{home_of};

use crate::end::HandedEnd;
use m2_addr::Addr;
use m2_fabric::{End, SocketId};
use m2_shared::Item;
use m2_trail::{Arrival, HomeOf, Loose, Trail};
use std::alloc::Global;
use std::marker::Model;

/// A socket on its way to the event thread with which its peer is at home: its end, which is open; what the half did on it
/// that shook hands there, which is all that the end did, and nothing of which was judged; and the address that asked.
#[derive(Drop)]
pub struct Handed<E: End> {
    pub(crate) end: E,
    pub(crate) trail: Trail,
    peer: Addr,
}

impl<E: End> Model for Handed<E> {
    ghost use Rattle.m2_handover.specs.Handed.{IsOnItsWay, OnItsWay};
    ghost use Rattle.m2_trail.specs.Trails.{trail_now};

    ghost Value = { OnItsWay };

    ghost view = { λ h. record { end = E.seen h.end; trail = trail_now h.trail; peer = h.peer } };

    ghost invariant = { λ h. IsOnItsWay (record { end = E.seen h.end; trail = trail_now h.trail; peer = h.peer }) };
}

/// It belongs to the home of the address that asked.
impl<E: End> Item for Handed<E> {
    type Owner = HomeOf;

    ghost use Rattle.std.specs.Prelude.{◌≡◌};
    ghost use Rattle.m2_trail.specs.Home.{home_of};

    ghost belongs = { λ home h. home_of h.peer home.centers ≡ home.center };
}

impl<E: End> Handed<E> {
    /// A socket that was asked, by the main address of its ask, and of which nothing was judged. Takes no memory.
    pub(crate) fn of(arrival: Arrival<E>) -> Handed<E>
        requires { arrival.trail.judged ≡ [] }
        ensures end { result.end ≡ arrival.end }
        ensures trail { result.trail ≡ arrival.trail }
        ensures peer { IfSome arrival.ask (λ ask. IsMain ask result.peer) }
    {
        arrival.is_arrival();
        let peer = arrival.peer();
        let (end, trail) = arrival.leave().into_parts();
        Handed { end, trail, peer }
    }

    /// What it keeps, for contracts alone.
    pub fn is_on_its_way(&self)
        ensures { IsOnItsWay self.now }
    {
        let _ = &self.end;
    }

    /// The half of a socket with which nobody went on, as it was left at the door. Takes no memory.
    pub fn into_loose(self) -> Loose<E>
        ensures { result ≡ left_behind self }
    {
        Loose::new(self.end, self.trail)
    }

    /// Its end, which begins anew. It comes back for want of memory.
    pub(crate) fn begin_again(self, alloc: Global) -> Result<HandedEnd<E>, Handed<E>>
        ensures ok { IfOk result (λ end. shown end ≡ begun_again self.end) }
        ensures err { IfErr result (λ back. back ≡ self) }
    {
        let Handed {
            end,
            mut trail,
            peer,
        } = self;
        if trail.entries.reserve(1).is_err() {
            return Err(Handed { end, trail, peer });
        }
        Ok(HandedEnd::again(alloc, end, trail))
    }

    /// The socket's name.
    pub(crate) fn id(&self) -> SocketId
        ensures { result ≡ self.now.end.id }
    {
        self.end.id()
    }

    /// Whether it is at home there.
    pub(crate) fn is_at_home(&self, home: &HomeOf) -> bool
        ensures { result ≡ (home_of self.now.peer home.now.centers == home.now.center) }
    {
        home_of(&self.peer, home.centers) == home.center
    }
}

/// At which of so many threads an address is at home: its port and nonce together, modulo how many there are.
fn home_of(peer: &Addr, centers: u32) -> u32
    requires { 0 < centers }
    ensures { result ≡ home_of peer.now centers }
{
    ((u64::from(peer.port) + u64::from(peer.nonce)) % u64::from(centers)) as u32
}
