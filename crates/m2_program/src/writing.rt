//! Writing a text whole.

ghost use Rattle.m2_edge.specs.Faults.{HasCause};
ghost use Rattle.m2_program.specs.Writing.{PrintsText};

use m2_edge::{Failed, Sink, write_whole};

/// Writes a text and passes it on. After a fault some of its first bytes were taken.
pub fn write_text<K: Sink>(sink: &mut K, text: &[u8]) -> Result<(), Failed>
    ensures causes { HasCause result (K.seen sink.old).faults (K.seen sink.new).faults }
    ensures prints { PrintsText result text.now (K.seen sink.old) (K.seen sink.new) }
{
    write_whole(sink, text)?;
    sink.flush()
}
