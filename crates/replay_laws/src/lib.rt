//! Laws of replays that no crate uses. These functions do nothing; their contracts are the laws.
//!
//! What follows from a script is defined line by line (`specs/Follows.antt` of `replay_run`): a copy is made, a turn
//! has an outcome, a drain runs until no call advances. Each such step exists from every state that earlier lines lead
//! to. So each script has a history, and one for each point at which a send of it can fail ([`unique_history_exists`]);
//! `replay_run` proves that it has at most one.
//!
//! If all operations come before the first call, and attach only access and count policies, no call is held: the
//! verdicts on the copies alone decide what is sent. That is a law of histories ([`allowed_calls_are_sent`]) and of
//! scripts ([`allowed_calls_of_a_script_are_sent`]).
//!
//! The crate depends on `replay_run` and its dependencies. No layer is above it.
#![tactic(auto)]

mod existence;
mod sent_calls;

pub use existence::unique_history_exists;
pub use sent_calls::{allowed_calls_are_sent, allowed_calls_of_a_script_are_sent};
