//! The plan of a run: tenants, policies, applications, links between them, and operations of operators.
//!
//! A [`Plan`] is plain data. The record `IsPlan` of `specs/Plans.antt` states what each valid plan guarantees:
//! - Each connection is in one link, and each link has a client at one end.
//! - No chain refuses an operation.
//! - Programs are within their limits and fit their heaps.
//! - Tables are valid, and each policy was read under every table by which it judges.
//!
//! A run checks none of this again. `specs/Chains.antt` defines which operations each chain gets. The crate depends
//! on `mrpc_table`, `policy_access`, `policy_redact`, `engine_core`, `policy_declarations` and `app_program`.
#![tactic(auto)]

mod application;
mod chain_ops;
mod laws;
mod limits;
mod operator;
mod plan;

pub use application::{Application, OwnPolicy, OwnSchema, Role};
pub use laws::{chains_never_refuse, peers_are_mutual};
pub use limits::{MAX_CONNECTIONS, MAX_RING, MAX_STEPS, MAX_WEIGHT, MAX_WORK, MAX_WORKERS};
pub use operator::{Operator, OperatorStep, StepLine};
pub use plan::{LinkPlan, Plan};
