//! Why an input is not a set of files.

ghost use Rattle.std.specs.Prelude.{◌≡◌};
ghost use Rattle.proto_set.specs.declared.bundle_fault.BundleFault.TheVariants.{Memory as NoMemory};

use std::alloc::AllocFailed;
use thiserror::Error;

/// Why no set of files was read. Files are counted from 1.
#[derive(Clone, Copy, Debug, Error)]
pub enum BundleFault {
    /// The first file that can't be read: its header line is malformed, or fewer bytes follow than it states. If the
    /// set has no file at all, `file` is 1. If any byte follows the 64th file, `file` is 65.
    #[error("file {file} doesn't stand there")]
    Bundle { file: u32 },
    /// Out of memory.
    #[error("out of memory")]
    Memory,
}

impl<T: Drop> From<AllocFailed<T>> for BundleFault {
    ghost from_gives = { λ _ e. e ≡ NoMemory };

    fn from(_: AllocFailed<T>) -> BundleFault {
        BundleFault::Memory
    }
}
