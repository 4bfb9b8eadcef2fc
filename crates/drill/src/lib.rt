//! The scenario of `drill N`, and the laws of its counts.
//!
//! A drill has four clients, each linked to an echo, and each with one access policy on its chain. `specs/Drill.antt`
//! states the whole plan, and [`drill_plan`] makes it for a number of calls. The result is that plan, and it is valid.
//!
//! The laws are functions that do nothing; their contracts are the laws. Each accepted call is counted exactly once
//! more, as sent, refused or pending ([`each_call_is_counted_once`]). If no policy ever holds a call, none is pending
//! at the end ([`none_pending_unheld`]). So the counts of a drill add up ([`drills_add_up`]). Each of its connections
//! was bound if no link failed and the two ends of each have met ([`drills_are_bound`]), as those of a link in memory
//! have ([`links_in_memory_meet`]).
//!
//! The plan depends on `run_plan` for plans and on `policy_access` for the rules, which it reads as the scenario reader
//! does. The laws depend on `run_driver` for reports, `run_report` for counts, `service` for connections, `mem_fabric`
//! for the ends of a link, and `conn_core` for the invariant of a connection. They use the laws of histories in
//! `call_history`, of frames in `frame_transport` and of hellos in `schema_binding`. The layer above prints the counts
//! in the line of a drill.
#![tactic(auto)]

mod application;
mod laws;
mod plan;
mod policy;
mod schema;

pub use laws::{
    drills_add_up, drills_are_bound, each_call_is_counted_once, links_in_memory_meet,
    none_pending_unheld,
};
pub use plan::{MAX_CALLS, drill_plan};
