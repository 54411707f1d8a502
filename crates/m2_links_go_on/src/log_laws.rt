//! What is promised of the stages of a turn. These functions do nothing: each stands for the law that its contract
//! names.

ghost use Rattle.m2_links_go_on.specs.LogLaws as laws;

use m2_dispatch::Dispatcher;
use m2_fabric::End;

/// At first nothing was handed on, and the dispatchers weren't called.
pub fn begin_logged<D: Dispatcher>()
    ensures { laws.BeginLogged D }
{}

/// Behind the turns of halves what the dispatchers were called with is still what the records handed on.
pub fn halves_stay_logged<D: Dispatcher, E: End>()
    ensures { laws.HalvesStayLogged D E }
{}

/// So it is behind those of records: what they hand on is dispatched, or held, or goes to the mail.
pub fn records_stay_logged<D: Dispatcher>()
    ensures { laws.RecordsStayLogged D }
{}

/// And where the mail is emptied into the queue, and that dispatches.
pub fn mail_stays_logged<D: Dispatcher>()
    ensures { laws.MailStaysLogged D }
{}

/// So it is behind all of a center's turn.
pub fn turns_stay_logged<D: Dispatcher, E: End>()
    ensures { laws.TurnsStayLogged D E }
{}

/// And where ends are told of the other side, or a socket comes to the port.
pub fn rest_stays_logged<D: Dispatcher>()
    ensures { laws.RestStaysLogged D }
{}

/// And where a step is planned and taken.
pub fn plans_stay_logged<D: Dispatcher>()
    ensures { laws.PlansStayLogged D }
{}

/// So of each record its peer is heard to send of each key some of what the record accepted, in order, each
/// once, and the first ones of it as long as nothing was thrown away.
pub fn logged_are_heard<D: Dispatcher>()
    ensures { laws.LoggedAreHeard D }
{}
