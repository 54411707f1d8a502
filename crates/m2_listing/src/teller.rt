//! What is written of frames.

ghost use Rattle.std.specs.Prelude.{◌≡◌, ◌++◌, ℕ, List, OnOk};
ghost use Rattle.m2_frame.specs.Reading.{Item, whole, dropped};
ghost use Rattle.m2_frame.specs.View.{parts_seen};

use m2_bytes::{Blob, NoMemory};
use m2_frame::FrameView;

/// What is written of each frame of a stream: a line, by the frame and by its place, which is how many bytes of frames
/// stand before it.
pub trait Teller {
    /// The line of an item at its place.
    ghost line: { Self → ℕ → Item → List ℕ };

    /// Appends the line of a frame.
    fn put_frame(&self, out: &mut Blob, place: u64, frame: &FrameView<'_>) -> Result<(), NoMemory>
        ensures { OnOk result (out.new.bytes ≡ out.old.bytes ++ line self.now place (whole (parts_seen frame.now))) };

    /// Appends the line of a frame that its sender gave up.
    fn put_aborted(&self, out: &mut Blob, place: u64, tag: u8) -> Result<(), NoMemory>
        ensures { OnOk result (out.new.bytes ≡ out.old.bytes ++ line self.now place (dropped tag)) };
}
