//! The replies to judged asks.

ghost use Rattle.std.specs.Prelude.{◌≡◌};
ghost use Rattle.std.specs.Option.{option_to_list};
ghost use Rattle.m2_trail.specs.Replies as replies;

use m2_control::{Control, SessionReset, SessionRetry, SessionRetryGlobal, Wait};
use m2_session::Answer;

/// The frame that a half replies to an ask with this answer: none where the answer takes the socket,
/// and none for [`Close`](Answer::Close), which is said by closing. Takes no memory.
pub fn reply_to(answer: &Answer) -> Option<Control>
    ensures { option_to_list result ≡ replies.reply_to answer.now }
{
    Some(match *answer {
        Answer::Wait => Control::Wait(Wait),
        Answer::Reset { full } => Control::SessionReset(SessionReset { full }),
        Answer::ResetPending => Control::SessionReset(SessionReset { full: false }),
        Answer::RetryGlobal { number } => {
            Control::SessionRetryGlobal(SessionRetryGlobal { global: number })
        }
        Answer::Retry { number } => Control::SessionRetry(SessionRetry { connect: number }),
        Answer::Accept
        | Answer::AcceptOver
        | Answer::AcceptReset { full: _ }
        | Answer::AcceptAgain
        | Answer::AcceptReplace
        | Answer::AcceptRace
        | Answer::Close
        | Answer::Resume => return None,
    })
}
