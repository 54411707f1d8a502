//! A half that no record took.

ghost use Rattle.std.specs.Prelude.{◌≡◌, OnOk, OnErr};
ghost use Rattle.m2_fabric.specs.End.{after_news};
ghost use Rattle.m2_trail.specs.Arrivals.{LooseNow};
ghost use Rattle.m2_trail.specs.Trails.{IsWholeTrail, trail_now};

use crate::trail::Trail;
use m2_bytes::{Items, NoMemory};
use m2_fabric::{End, News, SocketId};
use std::marker::Model;

/// A half that no record took: its end, closed or as it was left, and its trail, which tells all that the
/// end did. Contracts see both.
#[derive(Drop)]
pub struct Loose<E: End> {
    end: E,
    trail: Trail,
}

/// Such halves, in order.
pub type LooseList<E> = Items<Loose<E>>;

impl<E: End> Model for Loose<E> {
    ghost use Rattle.m2_trail.specs.Arrivals.{LooseNow};
    ghost use Rattle.m2_trail.specs.Trails.{IsWholeTrail, trail_now};

    ghost Value = { LooseNow };

    ghost view = { λ l. record { end = E.seen l.end; trail = trail_now l.trail } };

    ghost invariant = { λ l. IsWholeTrail (trail_now l.trail) (E.seen l.end) };
}

impl<E: End> Loose<E> {
    /// A half of this end, of which the trail tells all that it did. Takes no memory.
    pub fn new(end: E, trail: Trail) -> Loose<E>
        requires { IsWholeTrail (trail_now trail) (E.seen end) }
        ensures { result ≡ record { end = E.seen end; trail = trail_now trail } }
    {
        Loose { end, trail }
    }

    /// The socket's name.
    pub fn id(&self) -> SocketId
        ensures { result ≡ self.now.end.id }
    {
        self.end.id()
    }

    /// What the half did: all that its end did, with the two facts of a trail.
    pub fn trail(&self) -> &Trail
        ensures trail { trail_now result.now ≡ self.now.trail }
        ensures whole { IsWholeTrail self.now.trail self.now.end }
    {
        &self.trail
    }

    pub fn end(&self) -> &E
        ensures { E.seen result.now ≡ self.now.end }
    {
        &self.end
    }

    /// Tells an end in memory of the other side.
    pub fn hear(&mut self, bytes: &[u8], news: News) -> Result<(), NoMemory>
        ensures ok { OnOk result (self.new ≡ record self.old { end = after_news news bytes.now self.old.end }) }
        ensures err { OnErr result (self.new ≡ self.old) }
    {
        self.end.hear(bytes, news)
    }

    /// Both parts.
    pub fn into_parts(self) -> (E, Trail)
        ensures end { E.seen result.0 ≡ self.end }
        ensures trail { trail_now result.1 ≡ self.trail }
        ensures whole { IsWholeTrail self.trail self.end }
    {
        (self.end, self.trail)
    }
}
