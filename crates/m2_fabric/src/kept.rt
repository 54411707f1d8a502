//! One socket between two nodes.

ghost use Rattle.std.specs.Prelude.{◌≡◌, ◌<◌, OnOk};
ghost use Rattle.m2_fabric.specs.Kept.{back, both, cleared, fresh_kept, there};
ghost use Rattle.m2_fabric.specs.News.{AreTold, kept_after, logs_of, told_to};
ghost use Rattle.m2_fabric.specs.Over.{is_over};

use crate::direction::{Direction, Progress};
use crate::passing::Passing;
use crate::{Holder, SocketId};
use m2_bytes::{Blob, NoMemory};

/// A socket between two nodes, of which one is called the first.
#[derive(Clone, Copy, Debug, PartialEq, Eq)]
pub(crate) struct Kept {
    pub(crate) id: SocketId,
    /// From the first node to the second.
    pub(crate) there: Progress,
    /// From the second node to the first.
    pub(crate) back: Progress,
}

impl Kept {
    /// A socket of which nothing flowed.
    pub(crate) fn new(id: SocketId) -> Kept
        ensures { result ≡ fresh_kept id }
    {
        let none = Progress {
            flowed: 0,
            over: false,
        };
        Kept {
            id,
            there: none,
            back: none,
        }
    }

    /// Whether nothing is passed on any more, either way.
    pub(crate) fn is_over(&self) -> bool
        ensures { result ≡ is_over self.now }
    {
        self.there.over && self.back.over
    }

    /// The direction from the first node to the second.
    fn there(&self, first: u32, second: u32) -> Direction
        ensures { result ≡ there first second self.now }
    {
        Direction {
            from: first,
            to: second,
            id: self.id,
            progress: self.there,
        }
    }

    /// The direction from the second node to the first.
    fn back(&self, first: u32, second: u32) -> Direction
        ensures { result ≡ back first second self.now }
    {
        Direction {
            from: second,
            to: first,
            id: self.id,
            progress: self.back,
        }
    }

    /// Passes on what both directions do, as far as `what` is about them. `piece` is room for what flows.
    pub(crate) fn pass<H: Holder>(
        &mut self,
        h: &mut H,
        piece: &mut Blob,
        first: u32,
        second: u32,
        what: &Passing,
    ) -> Result<(), NoMemory>
        requires first { first < (H.seen h.old).nodes }
        requires second { second < (H.seen h.old).nodes }
        ensures same { cleared self.new ≡ cleared self.old }
        ensures kept { OnOk result (self.new ≡ kept_after what.now (logs_of (H.seen h.old)) first second self.old) }
        ensures told { OnOk result (AreTold (told_to what.now (logs_of (H.seen h.old)) (both first second self.old)) (H.seen h.old) (H.seen h.new)) }
        ensures rest { H.rest h.new ≡ H.rest h.old }
    {
        let there = what.pass(h, piece, &self.there(first, second))?;
        let back = what.pass(h, piece, &self.back(first, second))?;
        self.there = there;
        self.back = back;
        Ok(())
    }
}
