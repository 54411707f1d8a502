//! What a reader expects of trails and of the asks in them. Each function has an empty body: its
//! contract is the law.

ghost use Rattle.m2_trail.specs.TrailLaws as laws;

/// The asks of an acceptor's half keep the bounds of their fields: each that says the same of the session
/// as a policy can be read by it, and the numbers of a trail's judged asks are bounded.
pub fn asks_can_be_read()
    ensures { laws.AsksCanBeRead }
{}

/// The reply to an answer that takes no socket is its frame, and each reply is one that a half may give.
pub fn replies_are_frames()
    ensures { laws.RepliesAreFrames }
{}

/// As the log of an end grows, its trail is still one, what its half left unread is the same, and a half
/// that was taken was so.
pub fn trails_stay()
    ensures { laws.TrailsStay }
{}

/// The runs of the trail of an end that no record took are those of its log, to the last byte.
pub fn trails_cover()
    ensures { laws.TrailsCover }
{}
