//! What is promised of nodes that are on their way. These functions do nothing: each stands for the law that its
//! contract names.

ghost use Rattle.m2_node.specs.WayLaws as laws;

use m2_dispatch::LogDispatcher;
use m2_edge::Clock;
use m2_fabric::End;
use m2_links_go_on::{
    coming_stays, polls_stay_on_course, turn_grows, turns_stay_logged, turns_stay_of_peers,
    turns_stay_on_course, waiting_stays_on_course,
};

/// In a turn a node goes on, also where memory runs out: it stays on its course, each ask that was judged came of its
/// peer, and its dispatchers were called with what its records handed on.
pub fn turns_go_on<E: End, C: Clock>()
    ensures { laws.TurnsGoOn E C C.may_give }
{
    turns_stay_on_course::<LogDispatcher, E, C>();
    turn_grows::<LogDispatcher, E>();
    coming_stays();
    turns_stay_logged::<LogDispatcher, E>();
    turns_stay_of_peers::<LogDispatcher, E>();
}

/// So it does where its thread waits at its port.
pub fn polls_go_on<C: Clock>()
    ensures { laws.PollsGoOn C C.may_give }
{
    polls_stay_on_course::<LogDispatcher, C>();
}

/// And where time passes.
pub fn waiting_goes_on<C: Clock>()
    ensures { laws.WaitingGoesOn C C.may_give }
{
    waiting_stays_on_course::<LogDispatcher, C>();
}

/// So it goes on in a turn behind which its thread may wait.
pub(crate) fn steps_go_on<E: End, C: Clock>()
    ensures { laws.StepsGoOn E C C.may_give }
{
    turns_go_on::<E, C>();
    polls_go_on::<C>();
}
