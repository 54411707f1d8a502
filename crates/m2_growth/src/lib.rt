//! What becomes of a center's records, halves and ends where it acts: of what was done nothing is undone, each ask came
//! of the record's own peer, and ends in memory stay in step with what flowed between them.
//!
//! What it is: definitions and laws. `specs/Ends.antt`, `specs/Records.antt` and `specs/Halves.antt` say what the same
//! end, the same record and the same half are later; `specs/Holding.antt` says it of all that a center has of the
//! sockets of its port, each of which has one end; and `specs/GrowthLaws.antt` has the laws: so it is behind each stage
//! of a turn, over a port of any kind. What an end in memory has got, followed by what is readable there, a turn leaves
//! as it was; and what the half of a judged ask had got its end has got still.
//!
//! `specs/AskLaws.antt` says that on a socket which a record has opened nobody asks but that record, so that where each
//! half is given to the record towards the address that asks, it is given to no other. Why it holds: what a record puts
//! on a socket that it opened is its greeting, and behind it the texts of frames of which the first is an ask: before
//! both sides have signed it puts no frame, and frames that ask nothing it puts there in Ready alone, to which it comes
//! by an answer to an ask. So it is along every lawful journal. The payload of an ask begins with the node's address,
//! and is read so or refused, whatever numbers stand behind that. And a half refuses each later ask that is under
//! another address than its first.
//!
//! `specs/Turn.antt` says what turns leave of all ends in memory, and `specs/InStepLaws.antt` that they stay in step,
//! as `m2_fabric` asks before each of its calls; and that all which came to an end, also to one that is closed since,
//! the other end had put. So it is behind meetings, flows and faults too, where each socket that a port made has its
//! end and those that wait are open: `specs/Passed.antt` says what of that is asked, and the laws that it stays so;
//! `specs/Ports.antt` says what the parts of a node's turn leave of its port.
//!
//! What it isn't: anything that runs, or a law of two journals in one order.
#![tactic(auto)]

mod ask_laws;
mod growth_laws;
mod in_step_laws;

pub use ask_laws::{arrivals_are_the_openers, askers_are_the_openers, asks_are_the_openers};
pub use growth_laws::{
    accepts_grow, growth_goes_on, halves_grow, plans_grow, record_turns_grow, records_are_fed,
};
pub use in_step_laws::{
    accepts_stand, calls_keep_ends, entering_stays_met, faults_stay_met, flows_stay_met,
    meetings_stay_met, passing_stays_met, record_turns_stand, standing_goes_on, turns_keep_ends,
    turns_stay_in_step, turns_stay_met,
};
