//! Redacting policies: fields that are cleared from the trees of calls.
//!
//! [`read_redact`] reads a policy from its lines, or returns the first line at fault. [`Redact::clear`] removes the
//! listed fields from the tree of a call. `specs/Redacting.antt` defines the tree after the clears,
//! `specs/Texts.antt` which lines are the text of a policy, and `specs/Faults.antt` the faults of other lines. The
//! crate depends on `mrpc_table`. The layers above use one contract. The result is the tree without the fields at the
//! listed paths, in whatever order the lines are. Lines are the text of one policy or have one first fault.
#![tactic(auto)]

mod form;
mod laws;
mod limits;
mod line;
mod read;
mod redact;
mod remove;

pub use laws::{
    clear_is_idempotent, clear_preserves_normal_form, clear_shrinks_tree, clears_commute,
    first_fault_is_unique, policy_is_unique, text_or_fault,
};
pub use limits::MAX_CLEARS;
pub use read::read_redact;
pub use redact::{Clear, Redact};
