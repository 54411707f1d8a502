//! What a reader expects of journals and their replay, and of a stream that comes in pieces. Each
//! function has an empty body: its contract is the law.

ghost use Rattle.m2_journal.specs.Laws as laws;

/// The replayed session goes by the table of steps: at each entry it is told the event of that entry,
/// or nothing, and nothing else changes it.
#[tactic(auto, using(crate::proofs::Sessions::goes))]
pub fn session_goes_by_the_table()
    ensures { laws.SessionGoesByTheTable }
{}

/// A life begins at each entry whose step sets message numbers back, and is named by the server cookie that
/// the session keeps behind it; nothing else names one.
#[tactic(auto, using(crate::proofs::Lives::are_named))]
pub fn lives_begin_where_numbers_do()
    ensures { laws.LivesBeginWhereNumbersDo }
{}

/// What a journal is replayed to stays so as the logs of the ends and the plan grow.
#[tactic(auto, using(crate::proofs::Growing::replays_stay))]
pub fn replays_stay()
    ensures { laws.ReplaysStay }
{}

/// A replay goes on with one entry more, where that is lawful.
#[tactic(auto, using(crate::proofs::Growing::one_more))]
pub fn one_more_entry_leads_on()
    ensures { laws.OneMoreLeadsOn }
{}

/// The whole texts at the front of a stream and the rest behind them are its one reading.
#[tactic(auto, using(crate::proofs::Splitting::is_the_reading))]
pub fn a_split_is_the_one_reading()
    ensures { laws.SplitIsTheReading }
{}

/// A stream that comes in pieces is read as it would be as a whole.
#[tactic(auto, using(crate::proofs::Splitting::in_pieces))]
pub fn a_stream_is_read_in_pieces()
    ensures { laws.ReadsInPieces }
{}

/// The texts of any prefix of what was written are those of the first frames that were written.
#[tactic(auto, using(crate::proofs::Splitting::prefixes_are_frames))]
pub fn prefixes_are_the_first_frames()
    ensures { laws.PrefixesAreFrames }
{}

/// Where an acknowledgement is owed on a feed, one of the last accepted number may be put there.
#[tactic(auto, using(crate::proofs::Paying::can_be_paid))]
pub fn acknowledgements_can_be_paid()
    ensures { laws.AcknowledgementsCanBePaid }
{}

/// The frame of an answer is the one that is written for it.
#[tactic(auto, using(crate::proofs::Answering::are_written))]
pub fn answers_are_written()
    ensures { laws.AnswersAreWritten }
{}

/// Wherever lawful entries have led there is a feed exactly where the session's phase has one, and the
/// event of the next lawful entry has a row in the table of steps.
#[tactic(auto, using(crate::proofs::Fed::are_lawful))]
pub fn events_are_lawful()
    ensures { laws.EventsAreLawful }
{}

/// Wherever lawful entries have led, the session is that of the facts and has the cookies of its
/// policy; the queue is what calls have made of a new one; no frame that was sent carries a global
/// number above the greatest; and the feed was opened or taken, no socket was spent twice, nor the
/// feed.
#[tactic(auto, using(crate::proofs::Sound::are_sound))]
pub fn replays_are_sound()
    ensures { laws.ReplaysAreSound }
{}
