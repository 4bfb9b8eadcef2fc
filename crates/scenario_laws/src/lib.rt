//! Laws of whole scenarios. These functions do nothing; their contracts are the laws.
//!
//! The plan of a scenario is valid: each guarantee of `IsPlan` in `run_plan` follows because no entry has a fault, with
//! a lemma for each reason (`proofs/`). A text means at most one plan. A text never has neither a plan nor a fault: if
//! it has no first fault, no entry has a fault, and each entry has a meaning by itself.
//!
//! The crate reads nothing. It depends on the definitions of `scenario`, and on the laws of declarations and faults in
//! `scenario_entries`. It uses the laws of chains in `engine_core`, of words in `script_grammar`, and of the texts of
//! policies in `policy_access` and `policy_redact`. The layers above use one contract: a plan that a text means may be
//! run.
#![tactic(auto)]

mod laws;
mod totality;

pub use laws::{parsed_plan_is_valid, scenario_is_unique};
pub use totality::plan_or_fault;
