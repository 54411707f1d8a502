//! What holds of what frames say. The functions do nothing: they stand for the laws that their contracts name.

ghost use Rattle.m2_frame_facts.specs.Laws.{MessagesAreReadBack, PayloadsAreReadBack};
ghost use Rattle.m2_frame_facts.specs.ReadOnce.{LinesAreReadInOneWay};

use m2_bytes::hex_is_read_again;

/// What a frame says is read back from it, and nothing is made up: of a message the text of the header is the frame's
/// first segment, and the sizes are those of the others; of another frame the first segment is a text of the payload,
/// whose tag it has.
pub fn facts_are_read_back()
    ensures messages { MessagesAreReadBack }
    ensures payloads { PayloadsAreReadBack }
{}

/// A line is read in one way, of words and as an object: two lines with the same text tell of a frame at the same place, with
/// the same tag, and with the same value of each of its fields, whatever stands behind them.
pub fn lines_are_read_in_one_way()
    ensures lines { LinesAreReadInOneWay }
{
    hex_is_read_again();
}
