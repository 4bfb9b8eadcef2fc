//! The policies that an engine enforces.

ghost use Rattle.std.specs.Prelude.{◌≡◌, IfOk};
ghost use Rattle.engine_core.specs.Policies.{is_same_kind};

use mrpc_table::Memory;
use policy_access::Access;
use policy_rate::Rate;
use policy_redact::Redact;
use std::alloc::Global;

/// A policy that an operator attaches to a chain. `IsPolicy` of `specs/Policies.antt` has the ranges of its numbers.
pub enum Policy {
    /// Calls are allowed or denied by rules.
    Access(Access),
    /// A limited number of calls passes in a period; others are held or refused.
    Rate(Rate),
    /// Each call draws a ticket in the current window. It is refused if the ticket isn't below the cap.
    Quota {
        /// The tenant whose windows these are.
        tenant: u32,
        /// The length of a window in milliseconds, 1 to 86400000. Window 1023 is the last and has no end.
        per: u64,
        /// Tickets below it pass.
        cap: u64,
    },
    /// Calls are counted, and pass.
    Count,
    /// Fields are cleared from calls.
    Redact(Redact),
}

// Written by hand, so that a drop is one call instead of one for each field.
impl Drop for Policy {
    fn drop(self) {
        match self {
            Policy::Access(_a) => {}
            Policy::Rate(_a) => {}
            Policy::Quota {
                tenant: _,
                per: _,
                cap: _,
            } => {}
            Policy::Count => {}
            Policy::Redact(_a) => {}
        }
    }
}

impl Policy {
    /// Whether a policy may replace another one: it is of the same kind, and a quota has the same tenant.
    pub fn is_same_kind(&self, other: &Policy) -> bool
        ensures { result ≡ is_same_kind self.now other.now }
    {
        match self {
            Policy::Access(_) => matches!(other, Policy::Access(_)),
            Policy::Rate(_) => matches!(other, Policy::Rate(_)),
            Policy::Quota { tenant: ours, .. } => {
                matches!(other, Policy::Quota { tenant: theirs, .. } if ours == theirs)
            }
            Policy::Count => matches!(other, Policy::Count),
            Policy::Redact(_) => matches!(other, Policy::Redact(_)),
        }
    }

    /// An equal policy.
    pub fn copied(&self, alloc: Global) -> Result<Policy, Memory>
        ensures { IfOk result (λ p. p ≡ self.now) }
    {
        match self {
            Policy::Access(access) => Ok(Policy::Access(access.copied(alloc)?)),
            Policy::Rate(rate) => Ok(Policy::Rate(*rate)),
            Policy::Quota { tenant, per, cap } => Ok(Policy::Quota {
                tenant: *tenant,
                per: *per,
                cap: *cap,
            }),
            Policy::Count => Ok(Policy::Count),
            Policy::Redact(redact) => Ok(Policy::Redact(redact.copied(alloc)?)),
        }
    }
}
