//! What a worker does when it finds nothing to do.

use polling::Backoff;
use std::sync::Wait;

// The idle visits of one worker since it last did something. It pauses after as many idle visits in a row as there
// are unfinished items, and whenever the queue is empty.
#[derive(Drop)]
pub(crate) struct Idle {
    // The idle visits since the last pause.
    visits: u64,
    pauses: Backoff,
}

impl Idle {
    pub(crate) fn new() -> Idle {
        Idle {
            visits: 0,
            pauses: Backoff::new(),
        }
    }

    // Something was done.
    pub(crate) fn reset(&mut self) {
        self.visits = 0;
        self.pauses.reset();
    }

    // An item had nothing to do; `left` items are unfinished.
    pub(crate) fn after_visit<R: Wait>(&mut self, rt: &R, left: u64) {
        self.visits = self.visits.saturating_add(1);
        if self.visits >= left {
            self.wait(rt);
        }
    }

    // No item has anything to do now.
    pub(crate) fn wait<R: Wait>(&mut self, rt: &R) {
        self.visits = 0;
        self.pauses.wait(rt);
    }
}
