//! Scenarios: the configuration of a run, as a TOML table.
//!
//! `specs/Scenarios.antt` defines which plan a table means, entry by entry, and which faults each entry has; the
//! first fault counts. The crate has these definitions, the reasons of faults, the keys of entries, the table of a
//! schema, and tenants; `scenario_reader` reads whole texts. The crate depends on the kit's `toml`, on `proto_schema`
//! and `schema_resolve` for schemas, and on `policy_access` and `policy_redact` for the lines of policies. It also
//! depends on `scenario_toml` for values at keys, on `scenario_lines` for the lines of programs and operators, and on
//! `run_plan`.
#![tactic(auto)]

mod entry_words;
mod fault;
mod first_reason;
pub mod keys;
mod schema;
mod tenant;

pub use entry_words::{PolicyKind, RoleWord};
pub use fault::{FaultyEntry, ScenarioFault, ScenarioReason};
pub use first_reason::{earlier, first_with, reason_if, reason_of_line, reason_of_policy_line};
pub use schema::table_in;
pub use tenant::tenant_in;
