//! Where bytes go.

ghost use Rattle.std.specs.Prelude.{◌≡◌, ◌<◌, ◌≤◌, length, IfOk};
ghost use Rattle.m2_edge.specs.Faults.{HasCause};
ghost use Rattle.m2_edge.specs.Sink.{SeenSink, FlushesAll, WritesPiece};

use crate::failed::Failed;

/// A taker of bytes.
///
/// Every sink tells contracts what its writes took and what its flushes passed on, whether it is kept
/// in memory or stands over a file. Where the bytes go from there is no matter of contracts.
pub trait Sink {
    /// What contracts see.
    ghost seen: { Self → SeenSink };

    /// Takes the first bytes and says how many: at least one, unless the piece is empty. After
    /// [`Failed`] what was taken stays.
    fn write(&mut self, bytes: &[u8]) -> Result<usize, Failed>
        ensures causes { HasCause result (seen self.old).faults (seen self.new).faults }
        ensures fits { IfOk result (λ n. n ≤ length bytes.now) }
        ensures some { IfOk result (λ n. 0 < length bytes.now → 0 < n) }
        ensures writes { WritesPiece result bytes.now (seen self.old) (seen self.new) }
        ensures flushed { (seen self.new).flushed ≡ (seen self.old).flushed };

    /// Passes on what was taken. What was taken stays.
    fn flush(&mut self) -> Result<(), Failed>
        ensures causes { HasCause result (seen self.old).faults (seen self.new).faults }
        ensures taken { (seen self.new).taken ≡ (seen self.old).taken }
        ensures flushes { FlushesAll result (seen self.old) (seen self.new) };
}
