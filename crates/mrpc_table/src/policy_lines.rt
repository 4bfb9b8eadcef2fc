//! The lines of policies, and why lines are no policy.

ghost use Rattle.std.specs.Prelude.{◌≡◌, ◌+◌, ◌^◌, ◌<◌};
ghost use Rattle.mrpc_table.specs.declared.policy_lines.RuleFault.TheVariants.{Memory as NoMemory};

use crate::memory::Memory;
use crate::sequence::{Bytes, Sequence};
use std::alloc::{AllocError, AllocFailed};
use std::fmt;
use thiserror::Error;

/// The lines of a policy, without their line feeds.
pub type Lines = Sequence<Bytes>;

/// What is wrong with a line. If a line has several reasons, the first of this list counts.
#[derive(Clone, Copy, Debug)]
pub enum RuleReason {
    /// A line or its value has the wrong form, it is a 65th rule or clear, or there is no clear at all.
    Word,
    /// An index is above 65535, or a value is out of the range of its kind.
    Number,
    /// The name of a rule is no name of at most 64 bytes, or is `default`.
    Name,
    /// The name of a rule occurs on an earlier line.
    Known,
    /// The table lacks the method or the field, or OP doesn't apply to the field.
    Path,
    /// A line follows the default, or there is no default.
    Default,
}

impl fmt::Display for RuleReason {
    fn fmt<W: fmt::Write>(&self, f: &mut fmt::Formatter<W>) -> fmt::Result {
        f.write_str(match self {
            RuleReason::Word => "word",
            RuleReason::Number => "number",
            RuleReason::Name => "name",
            RuleReason::Known => "known",
            RuleReason::Path => "path",
            RuleReason::Default => "default",
        })
    }
}

impl std::error::Error for RuleReason {}

/// Why no policy was read.
#[derive(Clone, Copy, Debug, Error)]
pub enum RuleFault {
    /// The first line at fault, from 1, with its first reason.
    #[error("line {line}: {reason}")]
    At { line: u64, reason: RuleReason },
    /// Out of memory.
    #[error("out of memory")]
    Memory,
}

impl RuleFault {
    /// The fault of the line at an index, counted from 0.
    pub fn at(place: usize, reason: RuleReason) -> RuleFault
        requires { place < 2 ^ 63 }
        ensures { result ≡ RuleFault.At (place + 1) reason }
    {
        RuleFault::At {
            line: place as u64 + 1,
            reason,
        }
    }
}

impl From<Memory> for RuleFault {
    ghost from_gives = { λ _ e. e ≡ NoMemory };

    fn from(_: Memory) -> RuleFault {
        RuleFault::Memory
    }
}

impl From<AllocError> for RuleFault {
    ghost from_gives = { λ _ e. e ≡ NoMemory };

    fn from(_: AllocError) -> RuleFault {
        RuleFault::Memory
    }
}

impl<T: Drop> From<AllocFailed<T>> for RuleFault {
    ghost from_gives = { λ _ e. e ≡ NoMemory };

    fn from(_: AllocFailed<T>) -> RuleFault {
        RuleFault::Memory
    }
}
