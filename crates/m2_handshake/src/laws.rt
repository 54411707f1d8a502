//! What a reader expects of a half, in functions that do nothing.

ghost use Rattle.m2_handshake.specs.Course.{course_move};
ghost use Rattle.m2_handshake.specs.Greeting.{GreetingIsAsked, GreetingIsSigned, OpenerGreets};
ghost use Rattle.m2_handshake.specs.Laws.{AnswersAtRest, AsksBeforeReplies, GoesOneWay, KeepsItsFault, KeepsLittle, LeadsOn, MoreWritesMore, RefusesMessages, RestsAtItsCourse, RestsExactly, RestsThere, SignsOnce, Stays, TellsMemoryApart, UnreadIsTheEnd};
ghost use Rattle.m2_handshake.specs.Moves.{ask_move_of, move_of};

/// A half that moves does so whatever is fed behind.
pub fn moves_stay()
    ensures moves { Stays move_of }
    ensures asks { Stays ask_move_of }
    ensures course { Stays course_move }
{}

/// A half rests where it waits for bytes, owes a reply or has come to a fault, and an opener where both
/// sides have signed. After an answer of NotYet or of a fault it rests.
pub fn where_a_half_rests()
    ensures there { RestsThere }
    ensures answered { AnswersAtRest }
{}

/// A half that [`rests`](crate::Half::rests) answers NotYet and stays as it is, and after that answer it
/// rests. So it is true exactly where [`Half::next`](crate::Half::next), or
/// [`Half::ask`](crate::Half::ask) where it can be asked, has nothing to do.
pub fn a_half_at_rest_answers_not_yet()
    ensures { RestsExactly }
{}

/// A half has one way to go by the replies that it is given, which stays as more is fed.
pub fn one_way()
    ensures { GoesOneWay }
{}

/// Each call of a half leads on from where it has come to: [`Half::feed`](crate::Half::feed),
/// [`Half::next`](crate::Half::next), [`Half::ask`](crate::Half::ask) and
/// [`Half::reply`](crate::Half::reply) tell its course.
pub fn calls_lead_on()
    ensures { LeadsOn }
{}

/// Where a half rests, what it has written, what it was asked and where it stands is computed from its
/// bytes and its replies.
pub fn a_rest_is_computed()
    ensures { RestsAtItsCourse }
{}

/// By the same bytes and replies a half signs with the same text, which stays from then on.
pub fn it_signs_once()
    ensures { SignsOnce }
{}

/// What a half writes by a prefix of its bytes and replies is a prefix of what it writes by all.
pub fn more_bytes_write_more()
    ensures { MoreWritesMore }
{}

/// The unread bytes are the end of what was fed, and what was used stays used.
pub fn unread_bytes_are_the_end()
    ensures { UnreadIsTheEnd }
{}

/// The n-th reply is written after the n-th ask, and an opener has none.
pub fn asks_come_before_replies()
    ensures { AsksBeforeReplies }
{}

/// A half that has answered a fault answers it from then on, and writes nothing more.
pub fn a_fault_stays()
    ensures { KeepsItsFault }
{}

/// No fault that a half answers is want of memory, which is an answer of its own.
pub fn memory_is_no_fault()
    ensures { TellsMemoryApart }
{}

/// An opener that signs has written its banner, HELLO, AUTH_REQUEST and AUTH_SIGNATURE and nothing more,
/// whatever brought it there.
pub fn an_opener_writes_its_greeting()
    ensures { OpenerGreets }
{}

/// What an opener writes until it has signed, whatever its AUTH_REQUEST carries, is read by an acceptor as
/// signed, with exactly what follows, its ask, unread.
pub fn a_greeting_is_signed()
    ensures { GreetingIsSigned }
{}

/// What an opener has written when it signed, and behind it its ask, are read by an acceptor as signed and
/// then as exactly this ask: [`Half::ask`](crate::Half::ask) answers it, with exactly what follows unread.
pub fn an_ask_behind_a_greeting_is_asked()
    ensures { GreetingIsAsked }
{}

/// A half that reads a frame next answers Unexpected exactly where its unread bytes begin with the preamble of a
/// MESSAGE, whatever follows it: it never waits for a MESSAGE's body.
pub fn a_message_is_refused_at_its_preamble()
    ensures { RefusesMessages }
{}

/// A half that reads a frame next, and waits for more bytes, has fewer unread than the longest control frame
/// has.
pub fn a_waiting_half_keeps_little()
    ensures { KeepsLittle }
{}
