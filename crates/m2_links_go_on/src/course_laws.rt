//! What is promised of an event thread on its course. These functions do nothing: each stands for the law that its
//! contract names.

ghost use Rattle.m2_links_go_on.specs.CourseLaws as laws;

use m2_edge::Clock;

/// A turn plans nothing: the records have the peers, facts and plans with which they were made.
pub fn made_stays<D, E>()
    ensures { laws.MadeStays D E }
{}

/// No socket that the port made is lost in a turn: each is that of an end of a record or of a half.
pub fn sockets_stay_held<D, E>()
    ensures { laws.SocketsStayHeld D E }
{}

/// No socket is made twice: one that is accepted or dialled is new to the port.
pub fn sockets_stay_apart<D, E>()
    ensures { laws.SocketsStayApart D E }
{}

/// What the records have missed in a turn the port has counted, as long as its count hasn't come to its end.
pub fn missed_stay_counted<D, E>()
    ensures { laws.MissedStayCounted D E }
{}

/// The moment of a record's last productive entry stays one that the clock may give.
pub fn lasts_stay_given<D, E, C: Clock>()
    ensures { laws.LastsStayGiven D E C C.may_give }
{}

/// No connect waits longer than the longest wait of its node, from the turn's moment on.
pub fn dials_stay_in_time<D, E>()
    ensures { laws.DialsStayInTime D E }
{}

/// So a turn at a moment that the clock may give, and that isn't before the last one, leaves a center on its course.
pub fn turns_stay_on_course<D, E, C: Clock>()
    ensures { laws.TurnsStayOnCourse D E C C.may_give }
{}

/// A center that waits at its port stays on its course.
pub fn polls_stay_on_course<D, C: Clock>()
    ensures { laws.PollsStayOnCourse D C C.may_give }
{}

/// So it does where time passes.
pub fn waiting_stays_on_course<D, C: Clock>()
    ensures { laws.WaitingStaysOnCourse D C C.may_give }
{}

/// A new record is begun, and is so when its plan is filled and room is made.
pub fn records_begin()
    ensures { laws.RecordsBegin }
{}

/// A new center of such records is on its course.
pub fn centers_begin_on_course<D, C: Clock>()
    ensures { laws.CentersBeginOnCourse D C C.may_give }
{}

/// What is left of a center that was on its course keeps what it kept; its sockets are those of its ends, each of one.
pub fn centers_run_their_course<D, C: Clock>()
    ensures { laws.CentersRunTheirCourse D C C.may_give }
{}
