//! The counters.

use std::alloc::{AllocError, Global};
use std::sync::Arc;
use std::sync::atomic::{AtomicU64, Ordering};

/// How many frames were sent on links, and how many were received. Threads share it.
#[derive(Drop)]
pub struct FrameCounters {
    counts: Arc<CounterCells, Global>,
}

#[derive(Drop)]
struct CounterCells {
    sent: AtomicU64,
    received: AtomicU64,
}

impl FrameCounters {
    /// Counters at 0.
    pub fn new(alloc: Global) -> Result<FrameCounters, AllocError> {
        let counts = CounterCells {
            sent: AtomicU64::new(0),
            received: AtomicU64::new(0),
        };
        Ok(FrameCounters {
            counts: Arc::new(alloc, counts)?,
        })
    }

    /// Another handle to the same counters.
    pub fn try_clone(&self) -> Result<FrameCounters, AllocError> {
        Ok(FrameCounters {
            counts: Arc::try_clone(&self.counts)?,
        })
    }

    /// How many frames were sent.
    pub fn sent(&self) -> u64 {
        self.counts.sent.load(Ordering::SeqCst)
    }

    /// How many whole frames were received.
    pub fn received(&self) -> u64 {
        self.counts.received.load(Ordering::SeqCst)
    }

    // Counts a sent frame.
    pub(crate) fn count_sent(&self) {
        self.counts.sent.fetch_add(1, Ordering::SeqCst);
    }

    // Counts received frames.
    pub(crate) fn count_received(&self, frames: u64) {
        if frames > 0 {
            self.counts.received.fetch_add(frames, Ordering::SeqCst);
        }
    }
}
