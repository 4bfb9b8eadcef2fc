//! The progress of a run on a terminal.

ghost use Rattle.std.specs.Prelude.{IsTrue};

use link_counters::FrameCounters;
use mrpc_base::Gate;
use std::alloc::{AllocError, Global};
use std::io::Eprint;
use std::sync::atomic::{AtomicBool, AtomicU64, Ordering};
use std::time::{Clock, Instant};

// The interval at which the line is rewritten, in milliseconds.
const EVERY: u64 = 1000;

// The progress of a run, on standard error if that is a terminal: one line, rewritten by the worker that
// calls the gate when it is due, and at the end a line that stays. Otherwise it prints nothing.
pub(crate) struct RunProgress<'r, R> {
    rt: &'r R,
    // `None` if the system returned no time then.
    start: Option<Instant>,
    tally: FrameCounters,
    is_shown: bool,
    // When the first round started, if one did, and when the line is due.
    began: AtomicU64,
    due: AtomicU64,
    // Whether the line is on the terminal.
    stands: AtomicBool,
}

// Written by hand, so that a drop is one call, not a drop of each part.
impl<'r, R> Drop for RunProgress<'r, R> {
    fn drop(self) {
        let RunProgress {
            rt: _,
            start: _,
            tally: _tally,
            is_shown: _,
            began: _,
            due: _,
            stands: _,
        } = self;
    }
}

// No round has started.
const NEVER: u64 = u64::MAX;

impl<'r, R: Eprint + Clock> RunProgress<'r, R> {
    // The progress of a run that hasn't started.
    pub(crate) fn new(
        rt: &'r R,
        alloc: Global,
        is_shown: bool,
    ) -> Result<RunProgress<'r, R>, AllocError> {
        Ok(RunProgress {
            rt,
            start: Instant::now(rt).ok(),
            tally: FrameCounters::new(alloc)?,
            is_shown,
            began: AtomicU64::new(NEVER),
            due: AtomicU64::new(0),
            stands: AtomicBool::new(false),
        })
    }

    // The milliseconds since the start, or 0 if the system returns no time.
    fn now(&self) -> u64 {
        let Some(start) = self.start else {
            return 0;
        };
        let Ok(passed) = start.elapsed(self.rt) else {
            return 0;
        };
        u64::try_from(passed.as_millis()).unwrap_or(u64::MAX)
    }

    // The counters of the run's frames.
    pub(crate) fn tally(&self) -> &FrameCounters {
        &self.tally
    }

    // Writes the line, if it is due. One of several workers does.
    fn show(&self) {
        let now = self.now();
        let due = self.due.load(Ordering::SeqCst);
        let next = now.saturating_add(EVERY);
        if now < due
            || self
                .due
                .compare_exchange(due, next, Ordering::SeqCst, Ordering::SeqCst)
                .is_err()
        {
            return;
        }
        if self
            .began
            .compare_exchange(NEVER, now, Ordering::SeqCst, Ordering::SeqCst)
            .is_ok()
        {
            return;
        }
        self.stands.store(true, Ordering::SeqCst);
        let _written = eprint!(self.rt;
            "\r\x1b[Kmrpc: {} frames sent, {} received",
            self.tally.sent(),
            self.tally.received()
        );
    }

    // Clears the line, if it is there, so that others can write to the terminal.
    pub(crate) fn clear(&self) {
        if self.stands.swap(false, Ordering::SeqCst) {
            let _written = eprint!(self.rt; "\r\x1b[K");
        }
    }

    // Prints for a finished run how many calls there were, and how many per second. Prints nothing if nothing
    // was run.
    pub(crate) fn close(&self, calls: u64) {
        let began = self.began.load(Ordering::SeqCst);
        let now = self.now();
        if !self.is_shown || began > now {
            return;
        }
        let took = now - began;
        let (sent, received) = (self.tally.sent(), self.tally.received());
        let _written = eprintln!(self.rt;
            "mrpc: {calls} calls in {}.{:03} s, {} calls a second; {sent} frames sent, {received} received",
            took / 1000,
            took % 1000,
            a_second(calls, took)
        );
    }
}

// The number per second, given a count in some milliseconds.
fn a_second(count: u64, millis: u64) -> u64 {
    match count.saturating_mul(1000).checked_div(millis) {
        Some(rate) => rate,
        None => count,
    }
}

impl<'r, R: Eprint + Clock + Sync> Gate for RunProgress<'r, R> {
    // It is always open.
    fn open(&self, _conn: u32) -> bool
        ensures { IsTrue result }
    {
        if self.is_shown {
            self.show();
        }
        true
    }
}
