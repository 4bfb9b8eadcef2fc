//! Operations on a chain.

use crate::policy::Policy;
use mrpc_table::Name;

/// An operator's operation. `label` is the name under which the policy was declared.
#[derive(Drop)]
pub enum Op {
    /// Attaches a policy at a position of the chain, from 0, under a name.
    Attach {
        at: u32,
        name: Name,
        label: Name,
        policy: Policy,
    },
    /// Detaches the entry with a name.
    Detach {
        name: Name,
    },
    /// Replaces the policy of the entry with a name by another one of its kind.
    Upgrade {
        name: Name,
        label: Name,
        policy: Policy,
    },
}
