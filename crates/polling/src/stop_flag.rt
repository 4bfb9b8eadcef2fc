//! The stop flag of a run.
//!
//! The threads of a run share one flag. A thread that is out of memory sets it, and all others then end where they
//! wait. [`StopFlag`] is the trait that the threads use, [`RunFlag`] the flag of a run, and [`NeverStops`] a flag that
//! is never found set.

ghost use Rattle.std.specs.Prelude.{IsTrue};

use std::alloc::{AllocError, Global};
use std::sync::Arc;
use std::sync::atomic::{AtomicBool, Ordering};

/// A flag that the threads of a run share.
pub trait StopFlag: Sync {
    /// The flag may be found set.
    ghost may_be_set: { Self → Type 0 };

    /// Whether the flag was set. Never blocks.
    fn is_set(&self) -> bool
        ensures { IsTrue result → may_be_set self.now };

    /// Sets the flag. Never blocks.
    fn set(&self);
}

/// The flag of a run, over an atomic bit that threads share. It may be found set at any time.
#[derive(Drop)]
pub struct RunFlag {
    bit: Arc<AtomicBool, Global>,
}

impl RunFlag {
    /// A flag that isn't set.
    pub fn new(alloc: Global) -> Result<RunFlag, AllocError> {
        Ok(RunFlag {
            bit: Arc::new(alloc, AtomicBool::new(false))?,
        })
    }

    /// Another handle to the same flag, for another thread.
    pub fn try_clone(&self) -> Result<RunFlag, AllocError> {
        Ok(RunFlag {
            bit: Arc::try_clone(&self.bit)?,
        })
    }
}

impl StopFlag for RunFlag {
    ghost may_be_set = { λ _. Unit {0} };

    fn is_set(&self) -> bool {
        self.bit.load(Ordering::SeqCst)
    }

    fn set(&self) {
        self.bit.store(true, Ordering::SeqCst);
    }
}

/// A flag that is never found set: setting it does nothing.
#[derive(Clone, Copy)]
pub struct NeverStops;

impl StopFlag for NeverStops {
    ghost may_be_set = { λ _. ⊥ };

    fn is_set(&self) -> bool {
        false
    }

    fn set(&self) {}
}
