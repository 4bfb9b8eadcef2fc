//! Tenants, policies, and declarations.

use engine_core::Policy;
use mrpc_table::Name;

/// A tenant. Its quotas count tickets per window.
pub struct Tenant {
    pub name: Name,
    /// The length of a window in milliseconds, 1 to 86400000.
    pub per: u64,
}

// Written by hand, so that a drop is one call, not one call per field.
impl Drop for Tenant {
    fn drop(self) {
        let Tenant {
            name: _name,
            per: _,
        } = self;
    }
}

/// A policy with its declared name.
pub struct NamedPolicy {
    pub name: Name,
    pub policy: Policy,
}

// Written by hand, so that a drop is one call, not one call per field.
impl Drop for NamedPolicy {
    fn drop(self) {
        let NamedPolicy {
            name: _name,
            policy: _policy,
        } = self;
    }
}

/// One declaration: a tenant or a policy.
#[derive(Drop)]
pub enum Declaration {
    Tenant(Tenant),
    Policy(NamedPolicy),
}
