//! The next frame of a stream before there is a session.

ghost use Rattle.std.specs.Prelude.{◌≡◌, ◌+◌, false, length};
ghost use Rattle.m2_frame.specs.Frame.{message_tag};
ghost use Rattle.m2_handshake.specs.declared.fault.HalfFault.TheVariants as faults;
ghost use Rattle.m2_handshake.specs.declared.halt.Halt.TheVariants as halts;
ghost use Rattle.m2_handshake.specs.Reading.{Takes};

use crate::fault::HalfFault;
use crate::halt::Halt;
use m2_frame::{Decoder, Frame, Got, Tag, no_text_begins_another};

/// Takes the next frame. A MESSAGE is refused at its preamble, and nothing is granted for it: its body is never
/// waited for, and none is met that its sender gave up.
#[tactic(auto, using(crate::proofs::Sizes::taken_frame, crate::proofs::Sizes::taken_start, crate::proofs::Sizes::taken_bad, crate::proofs::Sizes::taken_size, crate::proofs::Sizes::taken_none))]
pub fn take(decoder: &mut Decoder) -> Result<Frame, Halt>
    requires { decoder.old.granted ≡ false }
    ensures exact { Takes result decoder.old decoder.new }
    ensures ungranted { decoder.new.granted ≡ false }
    ensures counted { decoder.new.place + length decoder.new.rest ≡ decoder.old.place + length decoder.old.rest }
{
    no_text_begins_another();
    match decoder.next() {
        Got::Frame(frame) => Ok(frame),
        Got::Size(_) => Err(early_message()),
        Got::NotYet => Err(Halt::NotYet),
        Got::Fault(fault) => Err(Halt::Fault(HalfFault::Frame(fault))),
        Got::NoMemory => Err(Halt::NoMemory),
        Got::Aborted { tag: _ } => unreachable!(),
    }
}

/// The refusal of a MESSAGE, whose preamble is there.
fn early_message() -> Halt
    ensures { result ≡ halts.Fault (faults.Unexpected message_tag) }
{
    Halt::Fault(HalfFault::Unexpected {
        tag: Tag::Message.number(),
    })
}
