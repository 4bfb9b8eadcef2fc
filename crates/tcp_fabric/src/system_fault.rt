//! The system's first error, for the message that reports a failure.
ghost use Rattle.std.specs.Prelude.{◌≢◌, None, IfSome};
ghost use Rattle.std.specs.IoError.{raw_os_error};

use std::alloc::{AllocError, Global};
use std::io;
use std::sync::Arc;
use std::sync::atomic::{AtomicI32, Ordering};

// No error code.
const NONE: i32 = 0;

/// The first system error that was noted, if any. Threads share it, and its calls never block.
#[derive(Drop)]
pub struct SystemFault {
    code: Arc<AtomicI32, Global>,
}

impl SystemFault {
    /// Nothing noted yet.
    pub fn new(alloc: Global) -> Result<SystemFault, AllocError> {
        Ok(SystemFault {
            code: Arc::new(alloc, AtomicI32::new(NONE))?,
        })
    }

    /// Another handle to the same fault.
    pub fn try_clone(&self) -> Result<SystemFault, AllocError> {
        Ok(SystemFault {
            code: Arc::try_clone(&self.code)?,
        })
    }

    /// Notes an error, unless one was noted before or it isn't a system error. Never allocates.
    pub fn note(&self, error: &io::Error) {
        if let Some(code) = error.raw_os_error() {
            let _ = self
                .code
                .compare_exchange(NONE, code, Ordering::SeqCst, Ordering::SeqCst);
        }
    }

    /// The error that was noted; it prints as the system's message.
    pub fn first(&self) -> Option<io::Error>
        ensures { IfSome result (λ error. raw_os_error error ≢ None) }
    {
        match self.code.load(Ordering::SeqCst) {
            NONE => None,
            code => Some(io::Error::from_raw_os_error(code)),
        }
    }
}
