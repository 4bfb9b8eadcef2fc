//! Whole scenarios: the plan that a TOML text means, or its first fault.
//!
//! [`read_scenario`] reads the keys of the top table, then tenants, policies, applications, links and operators, each
//! list in order. It returns the plan if no entry has a fault, else the first faulty entry with its first reason. By
//! a law of `scenario_laws` the plan is valid (`IsPlan` of `run_plan`). The crate depends on `scenario`, whose
//! definitions its contract cites, and on the readers of single lists in `scenario_entries`. [`count_in`] is for
//! diagnostics of operators' steps.
#![tactic(auto)]

mod app_context;
mod application;
mod attaching;
mod names;
mod operator;
mod own;
mod reader;
mod steps;
mod top;
mod walk;

pub use reader::read_scenario;
pub use steps::count_in;
