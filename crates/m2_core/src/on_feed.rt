//! One call of a feed, where there is one.

ghost use Rattle.std.specs.Prelude.{◌≡◌, ◌≤◌, ℕ, None, true, false, length, option_map, IfSome, IsNone, OnErr, OnOk};
ghost use Rattle.std.specs.Option.{is_some};
ghost use Rattle.m2_control.specs.Control.{IsWritable, text_of};
ghost use Rattle.m2_feed.specs.Calls.{HasFrame, HasMessage, Owes, acknowledgement, is_empty};
ghost use Rattle.m2_feed.specs.FeedNow.{CanCompose, is_framing};
ghost use Rattle.m2_feed.specs.declared.writing.Writing.TheVariants as writing;
ghost use Rattle.m2_frame.specs.declared.frame.TheConstants.{CONTROL_LIMIT};
ghost use Rattle.m2_handshake.specs.Texts.{frame_text};
ghost use Rattle.m2_core.specs.LiveNow.{OnFeedNow};
ghost use Rattle.m2_core.specs.Effects.{closed_of};
ghost use Rattle.m2_core.specs.OnFeed.{AnswersStamp, CanAsk, CanWrite, ChangesRoom, ComposesAsk, ComposesFeed, GivesFeed, GreetsFeed, HasNoFrame, HasStamp, Hears, NotesFeed, PassesFeed, ReadsFeed, TakesFeed, WritesFeed, feed_after_news, granted_feed};

use m2_bytes::NoMemory;
use m2_control::{Control, Keepalive};
use m2_fabric::{End, EndRead, News};
use m2_feed::{Feed, FeedWrite, FrameHeard, Hearer, hear};
use m2_frame::Got;
use m2_handshake::HalfStep;
use m2_message::Message;

/// Closes the feed.
pub(crate) fn close_on<E: End>(feed: &mut Option<Feed<E>>) -> Option<E>
    ensures feed { feed.new ≡ None }
    ensures closed { option_map E.seen result ≡ closed_of feed.old }
{
    match feed.take() {
        Some(left) => Some(left.close()),
        None => None,
    }
}

/// One answer of the feed's half.
pub fn greet_on<E: End>(feed: &mut Option<Feed<E>>) -> HalfStep
    requires { OnFeedNow feed.old (λ v. is_framing v.reading ≡ false) }
    ensures { GreetsFeed result feed.old feed.new }
{
    match feed {
        Some(feed) => feed.greet(),
        None => unreachable!(),
    }
}

/// Reads the feed's end once.
pub fn read_on<E: End>(feed: &mut Option<Feed<E>>) -> EndRead
    requires { is_some feed.old ≡ true }
    ensures { ReadsFeed result feed.old feed.new }
{
    match feed {
        Some(feed) => feed.read(),
        None => unreachable!(),
    }
}

/// Writes to the feed's end once what is composed there.
pub fn write_on<E: End>(feed: &mut Option<Feed<E>>) -> FeedWrite
    requires { OnFeedNow feed.old (λ v. is_empty v.composed ≡ false) }
    ensures { WritesFeed result feed.old feed.new }
{
    match feed {
        Some(feed) => feed.write(),
        None => unreachable!(),
    }
}

/// Tells the end of a feed, where there is one, of the other side.
pub fn hear_on<E: End>(feed: &mut Option<Feed<E>>, bytes: &[u8], news: News) -> Result<(), NoMemory>
    ensures ok { OnOk result (feed.new ≡ feed_after_news news bytes.now feed.old) }
    ensures err { OnErr result (feed.new ≡ feed.old) }
{
    match feed {
        Some(feed) => feed.hear(bytes, news),
        None => Ok(()),
    }
}

/// What the whole frame at the front of the feed says, where there is one.
#[tactic(auto, using(crate::proofs::LiveFronts::hears))]
pub fn front_on<E: End>(feed: &Option<Feed<E>>, hearer: &Hearer) -> Option<FrameHeard>
    requires signed { OnFeedNow feed.now (λ v. is_framing v.reading ≡ true) }
    ensures some { IfSome result (λ heard. OnFeedNow feed.now (λ v. Hears hearer.now heard v.reading)) }
    ensures none { IsNone result → HasNoFrame feed.now }
{
    let Some(feed) = feed else { unreachable!() };
    match feed.look() {
        Some(frame) => Some(hear(&frame, hearer)),
        None => None,
    }
}

/// One answer of the feed's decoder.
pub fn next_on<E: End>(feed: &mut Option<Feed<E>>) -> Got
    requires { OnFeedNow feed.old (λ v. is_framing v.reading ≡ true) }
    ensures { GivesFeed result feed.old feed.new }
{
    match feed {
        Some(feed) => feed.next(),
        None => unreachable!(),
    }
}

/// Takes the message that the frame at the front of the feed brings, a MESSAGE with a whole header.
pub(crate) fn take_on<E: End>(feed: &mut Option<Feed<E>>) -> Result<Message, NoMemory>
    requires { OnFeedNow feed.old (λ v. HasMessage v.reading) }
    ensures { TakesFeed result feed.old feed.new }
{
    match feed {
        Some(feed) => feed.take_message(),
        None => unreachable!(),
    }
}

/// Passes the frame at the front of the feed.
pub(crate) fn pass_on<E: End>(feed: &mut Option<Feed<E>>)
    requires { OnFeedNow feed.old (λ v. HasFrame v.reading) }
    ensures { PassesFeed feed.old feed.new }
{
    match feed {
        Some(feed) => feed.pass(),
        None => unreachable!(),
    }
}

/// Passes the keepalive at the front of the feed, and notes its stamp.
pub(crate) fn note_on<E: End>(feed: &mut Option<Feed<E>>, stamp: Keepalive) -> Result<(), NoMemory>
    requires { OnFeedNow feed.old (λ v. HasFrame v.reading) }
    ensures { NotesFeed result stamp feed.old feed.new }
{
    match feed {
        Some(feed) => feed.pass_keepalive(stamp),
        None => unreachable!(),
    }
}

/// Tells the feed that the size is granted for which the MESSAGE at its front asks.
pub fn grant_on<E: End>(feed: &mut Option<Feed<E>>)
    requires { OnFeedNow feed.old (λ v. (n : ℕ) × Owes v.reading n) }
    ensures { feed.new ≡ granted_feed feed.old }
{
    match feed {
        Some(feed) => feed.grant(),
        None => unreachable!(),
    }
}

/// Makes the room on the feed that an ask takes.
pub(crate) fn reserve_on<E: End>(feed: &mut Option<Feed<E>>, len: usize) -> Result<(), NoMemory>
    requires feed { OnFeedNow feed.old CanAsk }
    requires short { len ≤ CONTROL_LIMIT }
    ensures same { ChangesRoom feed.old feed.new }
    ensures can { OnFeedNow feed.new CanAsk }
    ensures room { OnOk result (OnFeedNow feed.new (λ v. CanCompose v len)) }
{
    match feed {
        Some(feed) => feed.reserve_control(len),
        None => unreachable!(),
    }
}

/// Composes the frame of a payload on the feed, in the room that was made.
pub(crate) fn compose_on<E: End>(feed: &mut Option<Feed<E>>, c: &Control)
    requires feed { OnFeedNow feed.old CanAsk }
    requires writable { IsWritable c.now }
    requires short { length (text_of c.now) ≤ CONTROL_LIMIT }
    requires room { OnFeedNow feed.old (λ v. CanCompose v (length (text_of c.now))) }
    ensures { ComposesAsk (frame_text c.now) feed.old feed.new }
{
    match feed {
        Some(feed) => feed.compose_control(c),
        None => unreachable!(),
    }
}

/// Composes an acknowledgement on the feed.
pub fn acknowledge_on<E: End>(feed: &mut Option<Feed<E>>, number: u64) -> Result<(), NoMemory>
    requires { OnFeedNow feed.old CanWrite }
    ensures { ComposesFeed result (writing.Acknowledgement number false) (frame_text (acknowledgement number)) feed.old feed.new }
{
    match feed {
        Some(feed) => feed.compose_acknowledgement(number),
        None => unreachable!(),
    }
}

/// Composes the answer to the first keepalive on the feed.
pub fn answer_on<E: End>(feed: &mut Option<Feed<E>>) -> Result<(), NoMemory>
    requires { OnFeedNow feed.old HasStamp }
    ensures { AnswersStamp result feed.old feed.new }
{
    match feed {
        Some(feed) => feed.compose_keepalive_answer(),
        None => unreachable!(),
    }
}
