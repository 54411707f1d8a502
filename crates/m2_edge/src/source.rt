//! Where bytes come from.

ghost use Rattle.std.specs.Prelude.{◌≡◌, ◌<◌, ◌≤◌, ◌↔◌, IsTrue, length, IfOk, OnOk};
ghost use Rattle.m2_edge.specs.Faults.{HasCause};
ghost use Rattle.m2_edge.specs.Source.{SeenSource, BeginsInput, GivesItsInput, ReadsPiece, finds_end};

use crate::failed::Failed;

/// A giver of named inputs, one at a time, each read from its start.
///
/// Every source tells contracts what its reads gave since an input was begun, and whether they found
/// its end. It may also tell what its inputs hold, as [`MemSource`](crate::MemSource) does, or not, as
/// a file can't; what it tells of that never changes.
pub trait Source {
    /// What contracts see.
    ghost seen: { Self → SeenSource };

    /// Starts the input of that name, of which nothing was read yet. After [`Failed`] the one that was
    /// begun before stays where it was.
    fn begin(&mut self, name: &str) -> Result<(), Failed>
        ensures causes { HasCause result (seen self.old).faults (seen self.new).faults }
        ensures inputs { (seen self.new).inputs ≡ (seen self.old).inputs }
        ensures begins { BeginsInput result name.now (seen self.old) (seen self.new) };

    /// Reads the next bytes into the first part of `into` and says how many: 0 for a piece that isn't
    /// empty comes only at the end of the input. After [`Failed`] nothing was read.
    fn read(&mut self, into: &mut [u8]) -> Result<usize, Failed>
        ensures causes { HasCause result (seen self.old).faults (seen self.new).faults }
        ensures inputs { (seen self.new).inputs ≡ (seen self.old).inputs }
        ensures fits { IfOk result (λ n. n ≤ length into.old) }
        ensures reads { ReadsPiece result into.new (seen self.old) (seen self.new) }
        ensures known { OnOk result (GivesItsInput (seen self.new)) };
}

/// Whether a read that gave so many bytes for a piece found the end: none, though there was room.
pub(crate) fn finds_end(count: usize, piece: &[u8]) -> bool
    ensures test { result ≡ finds_end count piece.now }
    ensures means { IsTrue result ↔ ((count ≡ 0) × (0 < length piece.now)) }
{
    count == 0 && !piece.is_empty()
}
