//! Access policies: rules that allow or deny a call by its method, its kind (request or reply) and its tree.
//!
//! [`read_access`] reads a policy from its lines, or returns the first line at fault. [`Access::judge`] gives the
//! verdict on a call. `specs/Verdict.antt` defines which rule decides and when a rule matches, `specs/Texts.antt`
//! which lines are the text of a policy, and `specs/Faults.antt` the faults of other lines. The crate depends on
//! `mrpc_table`. The layers above use one contract. The first rule that matches decides, otherwise the default. Lines
//! are the text of one policy or have one first fault.
#![tactic(auto)]

mod access;
mod condition;
mod copied;
mod fault;
mod form;
mod laws;
mod limits;
mod line;
mod names;
mod read;
mod resolve;
mod rule;
mod value;
mod verdict;

pub use access::Access;
pub use laws::{first_fault_is_unique, policy_is_unique, text_or_fault};
pub use limits::{MAX_RULES, MAX_TEXT_VALUE};
pub use read::read_access;
pub use verdict::Verdict;
