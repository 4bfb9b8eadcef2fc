//! A run of a plan over the links of a fabric, and its report.
//!
//! [`serve_plan`] serves the connections of a plan, makes the report of the run, and gives each link back to the
//! fabric. [`count_plan`] does so too, but makes only the counts of the report. Everything else that connections own
//! is left to the end of the process. `specs/Running.antt` defines what they did. The crate depends on `service` for
//! the run and on `run_report` for the report. The layer above uses one contract, `HasRun`. Each connection of the plan
//! was served or left unbound, and the text is that of these connections, by ascending number. The counts are those of
//! its lines, and the fabric has the links of the connections back.
#![tactic(auto)]

mod ordering;
mod reporting;
mod return_links;
mod running;

pub use running::{RunCounts, RunReport, count_plan, serve_plan};
