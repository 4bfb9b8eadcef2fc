//! Chains: the engines of a connection with their pending calls.
//!
//! A [`Chain`] keeps its calls in one row by ascending number, and their positions as cuts. The cut of a position is
//! the number of calls at it or at a later one. So a change of engines moves no call, and no call is ever ahead of
//! one with a smaller number. `specs/Chains.antt` defines the chain as contracts see it. The crate depends on
//! `engine_core` for engines and their policies, on `policy_rate` for the levels of rates, on `mrpc_base` for the
//! tickets of quotas, and on `mrpc_table` for names and tables. The layers above use one contract: the invariant of
//! chains (`IsChainState`).
#![tactic(auto)]

mod attaching;
mod chain;
mod cuts;
mod fault;
mod turned;

pub use chain::Chain;
pub use fault::{ChainFault, PushFault};
pub use turned::Turned;
