//! What a reader expects of the tables. Each function has an empty body: its contract is the law.

ghost use Rattle.m2_session.specs.SessionLaws as laws;

/// In each table a row gives its answer where its condition holds and no earlier row's does.
#[tactic(auto, using(crate::proofs::Rows::are_read_in_order))]
pub fn rows_are_read_in_order()
    ensures { laws.AreReadInOrder }
{}

/// An answer that takes the socket leaves the session Ready.
#[tactic(auto, using(crate::proofs::Answers::taken_is_ready_lem))]
pub fn taken_is_ready()
    ensures { laws.TakenIsReady }
{}

/// What a session is told of its own answer is an event that the table has a row for.
#[tactic(auto, using(crate::proofs::Answers::answers_are_lawful_lem))]
pub fn answers_are_lawful()
    ensures { laws.AnswersAreLawful }
{}

/// No answer lowers the global number that is known of the peer, and no event but
/// [`TookReconnect`](crate::Event::TookReconnect) does: that one sets the number of the reconnect,
/// which is no lower where the reconnect was judged.
#[tactic(auto, using(crate::proofs::Answers::never_falls))]
pub fn peer_global_never_falls()
    ensures { laws.PeerGlobalNeverFalls }
{}

/// A step leaves a phase that has a feed only with `close`, and enters one only by
/// [`Dialled`](crate::Event::Dialled) or by an answer that takes the socket: there is at most one
/// feed.
#[tactic(auto, using(crate::proofs::Feeds::one_feed))]
pub fn at_most_one_feed()
    ensures { laws.AtMostOneFeed }
{}

/// After a step the connect number is at most one above the one that was kept or read.
#[tactic(auto, using(crate::proofs::Events::rises_by_one))]
pub fn connect_rises_by_one()
    ensures { laws.ConnectRisesByOne }
{}

/// A reconnect is never resumed with another cookie.
#[tactic(auto, using(crate::proofs::Answers::resumed_only))]
pub fn resumed_only_with_its_cookies()
    ensures { laws.ResumedOnlyWithItsCookies }
{}

/// After ResetPending no socket is left on which an answer could still come.
#[tactic(auto, using(crate::proofs::Events::nothing_pending))]
pub fn pending_leaves_nothing_pending()
    ensures { laws.PendingLeavesNothingPending }
{}

/// Which events throw messages away, which only begin their numbers again, and that every other
/// one leaves both alone.
#[tactic(auto, using(crate::proofs::Events::lost_only_so))]
pub fn messages_are_lost_only_so()
    ensures { laws.LostOnlySo }
{}

/// A session that is marked down has no cookie and no feed.
#[tactic(auto, using(crate::proofs::Events::forgets))]
pub fn mark_down_forgets()
    ensures { laws.MarkDownForgets }
{}
