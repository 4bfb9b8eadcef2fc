//! The scheduled operations on a chain.

ghost use Rattle.std.specs.Prelude.{◌≡◌, IfOk};

use engine_core::Op;
use mrpc_table::Memory;
use std::alloc::Global;

/// An operation of an operator, due once `count` calls were taken and before another is.
#[derive(Drop)]
pub struct ScheduledOp {
    pub count: u64,
    pub step: Op,
}

impl ScheduledOp {
    // A copy of the operation, for a chain.
    pub(crate) fn copied(&self, alloc: Global) -> Result<Op, Memory>
        ensures { IfOk result (λ op. op ≡ self.now.step) }
    {
        match &self.step {
            Op::Attach {
                at,
                name,
                label,
                policy,
            } => Ok(Op::Attach {
                at: *at,
                name: name.copied(alloc)?,
                label: label.copied(alloc)?,
                policy: policy.copied(alloc)?,
            }),
            Op::Detach { name } => Ok(Op::Detach {
                name: name.copied(alloc)?,
            }),
            Op::Upgrade {
                name,
                label,
                policy,
            } => Ok(Op::Upgrade {
                name: name.copied(alloc)?,
                label: label.copied(alloc)?,
                policy: policy.copied(alloc)?,
            }),
        }
    }
}
