//! What is promised of whom the calls of a node's dispatchers are of. These functions do nothing: each stands for the law that
//! its contract names.

ghost use Rattle.m2_links_go_on.specs.PeerLaws as laws;

use m2_fabric::End;

/// At first the dispatchers weren't called, and nothing is on its way to them: so all calls are of peers of the records.
pub fn begin_of_peers<D>()
    ensures { laws.BeginOfPeers D }
{}

/// Behind a center's turn all calls are of peers of its records, where they were before it, also where memory ran out.
pub fn turns_stay_of_peers<D, E: End>()
    ensures { laws.TurnsStayOfPeers D E }
{}

/// And so it is where ends are told of the other side, or a socket comes to the port.
pub fn rest_stays_of_peers<D>()
    ensures { laws.RestStaysOfPeers D }
{}

/// And where a step is planned and taken.
pub fn plans_stay_of_peers<D>()
    ensures { laws.PlansStayOfPeers D }
{}
