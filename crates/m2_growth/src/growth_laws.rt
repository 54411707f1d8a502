//! What is promised of the stages of a turn. These functions do nothing: each stands for the law that its contract
//! names.

ghost use Rattle.m2_growth.specs.GrowthLaws as laws;

use m2_dispatch::Dispatcher;
use m2_fabric::End;

/// Behind the accepts of a turn nothing that was done is undone, and each socket has one end still.
pub fn accepts_grow()
    ensures { laws.AcceptsGrow }
{}

/// Nor is it behind the turns of halves: what a record takes it has from then on.
pub fn halves_grow<E: End>()
    ensures { laws.HalvesGrow E }
{}

/// Nor behind those of records: a socket that is dialled is a new one.
pub fn record_turns_grow<D: Dispatcher>()
    ensures { laws.RecordTurnsGrow D }
{}

/// Nor where a step is planned and taken.
pub fn plans_grow()
    ensures { laws.PlansGrow }
{}

/// And so it is of one stage after another.
pub fn growth_goes_on()
    ensures { laws.GrowthGoesOn }
{}

/// Each record has a feed exactly where its phase has one.
pub fn records_are_fed()
    ensures { laws.RecordsAreFed }
{}
