//! The promise of a script's run: over each lossless link of which neither end was marked down, messages come in order,
//! each once, and nothing is reset; over a lossy one some of them come, in order.
//!
//! What it is: definitions and laws, from nodes in memory to the lines of a scenario.
//!
//! - `specs/Running.antt`: what holds always of nodes in memory and of the sockets between them: each node is at its
//!   place, each socket is between the two nodes whose addresses it names, an ask came from the peer of the record that
//!   judged it, and ends are in step with what flowed. Where a node acts that stays so, and of each link there is an
//!   order of all that its two records and the halves beside them did, in which each byte is read after it was written
//!   (`specs/RunLaws.antt`).
//! - `specs/Beginning.antt` and `specs/Acting.antt`: what nodes are before the first deed of a run, and what a cluster
//!   is as such nodes. New nodes of a cluster begin a run, and where one of them takes a turn or plans a step, one node
//!   of the run acts (`specs/BeginningLaws.antt`).
//! - `specs/Passed.antt`: what nodes hold where their ends are told of one another. Behind a meeting, a flow and a
//!   fault each link has its order still, and a run stays at rest (`specs/PassingLaws.antt`).
//! - `specs/Delivered.antt`: what is asked of the two records of a link in a run, and what then holds of them: they are
//!   a link as `m2_history` asks for one; so nothing is reset, what a sender counts as acknowledged was accepted, and
//!   of each key what either node's dispatchers were called with is the first of what the other posted
//!   (`specs/DeliveryLaws.antt`); of a lossy link it is some of that (`specs/Lossy.antt`).
//! - `specs/Planned.antt`: what the nodes of a script's run keep along its deeds, and how plans go on: by the steps
//!   that deeds plan, and by no others (`specs/PlanLaws.antt`).
//! - `specs/Kept.antt`: what a script's run keeps between any two deeds; so all lines of a valid scenario can be done
//!   (`specs/KeepingLaws.antt`).
//! - `specs/Started.antt`: where such a run begins and ends. New nodes keep all that, so where the lines lead it is
//!   kept still, and each record's plan is what the lines have planned for it (`specs/StartLaws.antt`).
//! - `specs/AtEnd.antt`: nodes of a scenario where a run of them has ended, whatever drove it.
//! - `specs/Posted.antt`: what is promised of them, in the words of the lines and of the dispatchers' calls
//!   (`m2_scenario`), and of the records and journals of each link (`m2_channel`); and the laws that it is kept, by nodes
//!   that have ended and so by a script's run (`specs/PostLaws.antt`). [`lines_fit`] says what they ask of lines and every
//!   list of lines keeps.
//!
//! What it isn't: anything that runs. `m2_script` makes the nodes and does the lines.
#![tactic(auto)]

mod beginning_laws;
mod delivery_laws;
mod keeping_laws;
mod passing_laws;
mod plan_laws;
mod post_laws;
mod run_laws;
mod start_laws;
mod types;

pub use beginning_laws::{
    beginnings_have_orders, beginnings_run, clusters_hold_all, new_centers_are_new,
    new_clusters_begin, new_records_are_unused, one_plan_acts, one_turn_acts,
};
pub use delivery_laws::{
    links_are_delivered, links_have_orders, logged_have_heard, lossy_links_come_in_order,
    runs_have_links,
};
pub use keeping_laws::{deeds_stay_kept, kept_can_be_done, scripts_can_be_done, scripts_stay_kept};
pub use m2_script::{
    Center, Cluster, MemoryCluster, MemoryNode, Record, Run, addresses, clear_all, cluster_of,
};
pub use passing_laws::{
    fault_keeps_running, flow_keeps_running, hearing_keeps_orders, hearing_stays_at,
    meeting_keeps_running, nothing_is_heard, rest_stays, told_nodes_hear,
};
pub use plan_laws::{deeds_keep_nodes, plans_go_on_further};
pub use post_laws::{
    calls_are_noted, deeds_note_calls, ends_are_promised, kept_is_promised, promises_are_kept,
};
pub use run_laws::{a_node_acts, acting_keeps_orders, acting_keeps_running};
pub use start_laws::{first_can_be_done, first_is_kept, first_stays_apart, script_run_is_kept};
pub use types::lines_fit;
