//! Engines: each enforces one policy on a chain, and decides for one call after another whether it continues.
//!
//! An [`Engine`] has a policy of one kind ([`Policy`]). It works on pending calls ([`Standing`]), which carry marks
//! of the engines that they passed. So if an engine gets a call again, it neither charges nor counts it again, nor
//! draws another ticket for it. An engine is decomposed to a [`State`], which can be moved but not copied, and
//! restored from it with another policy of its kind. `specs/Answers.antt` defines the answer of a chain's entry to a
//! call, in the terms of the audit, and `specs/Chains.antt` the effect of an operation on a chain. The crate depends
//! on `policy_access`, `policy_rate`, `policy_redact`, `mrpc_base` and `mrpc_table`. The layers above use one
//! contract: the outcome of an engine's turn is the one that the answers of its entry define.
#![tactic(auto)]

mod call_row;
mod engine;
mod engines;
mod laws;
mod mark;
mod op;
mod outcome;
mod policy;
mod standing;
mod work;

pub use call_row::{CallRow, MAX_CALLS};
pub use engine::{Engine, State};
pub use engines::{clock_all, insert_within_capacity, position_named, position_of};
pub use laws::{
    allows_at_any_time, answer_is_unique, change_or_rejection, change_preserves_chain,
    changed_is_the_change, denied_by_a_rule, engine_charges_are_bounded, outcome_is_unique,
    passed_is_allowed, unmarked_is_true,
};
pub use op::Op;
pub use outcome::{Noted, Outcome, Why};
pub use policy::Policy;
pub use standing::Standing;

/// The maximum number of engines of a chain, and so of marks of a call.
pub const MAX_ENGINES: usize = 8;
