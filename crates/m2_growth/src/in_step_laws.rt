//! What is promised of ends in memory where nodes take their turns, and of what is passed between them. These functions do
//! nothing: each stands for the law that its contract names.

ghost use Rattle.m2_growth.specs.InStepLaws as laws;

use m2_dispatch::Dispatcher;

/// Behind turns of nodes what an open end has got, followed by what is readable there, is still what flowed of what
/// the other end has put.
pub fn turns_stay_in_step()
    ensures { laws.TurnsStayInStep }
{}

/// And all that came to an end, open or closed, the other end had put.
pub fn turns_stay_met()
    ensures { laws.TurnsStayMet }
{}

/// Each socket that a port made has its end still, and those that wait are open.
pub fn turns_keep_ends()
    ensures { laws.TurnsKeepEnds }
{}

/// Behind what is passed on all that came to an end the other end had put.
pub fn passing_stays_met()
    ensures { laws.PassingStaysMet }
{}

/// So it is behind a fault.
pub fn faults_stay_met()
    ensures { laws.FaultsStayMet }
{}

/// So it is where sockets come to be kept: both ends of each are there.
pub fn entering_stays_met()
    ensures { laws.EnteringStaysMet }
{}

/// So it is behind a meeting of a node.
pub fn meetings_stay_met()
    ensures { laws.MeetingsStayMet }
{}

/// So it is behind a flow.
pub fn flows_stay_met()
    ensures { laws.FlowsStayMet }
{}

/// Behind each of these each socket that a port made has its end still, and those that wait are open.
pub fn calls_keep_ends()
    ensures { laws.CallsKeepEnds }
{}

/// Where a port accepts, each socket that it made since has its end, and of those that waited the others wait still.
pub fn accepts_stand()
    ensures { laws.AcceptsStand }
{}

/// So it is where records take their turns and dial.
pub fn record_turns_stand<D: Dispatcher>()
    ensures { laws.RecordTurnsStand D }
{}

/// And one after another; an end that waits behind them waited so before.
pub fn standing_goes_on()
    ensures { laws.StandingGoesOn }
{}
