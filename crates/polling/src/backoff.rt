//! Backoff of a thread that polls and finds nothing to do.
//!
//! The thread yields a few times first, to react quickly. Then it sleeps, twice as long each time up to a limit, to
//! cost little when idle. Nobody wakes a sleeper, since each sleep is short. A thread that need not react soon skips
//! the yields.

ghost use Rattle.std.specs.Prelude.{◌≡◌, ◌<◌, ◌≤◌, ◌+◌, ◌*◌, min};
ghost use Rattle.polling.specs.declared.backoff.TheConstants.{FIRST_SLEEP, MAX_SLEEP, MAX_YIELDS};

use std::sync::Wait;
use std::sync::atomic::AtomicU64;
use std::thread;
use std::time::Duration;

/// How many times in a row a thread yields before it sleeps.
pub const MAX_YIELDS: u32 = 8;

/// The first sleep after the yields, in microseconds. Each further sleep is twice as long, up to the longest.
pub const FIRST_SLEEP: u64 = 16;

/// The longest sleep, in microseconds.
pub const MAX_SLEEP: u64 = 1000;

/// A step of the backoff.
#[derive(Clone, Copy, PartialEq, Eq)]
pub enum BackoffStep {
    /// Yields the processor to other threads that are ready.
    Yield,
    /// Sleeps for this many microseconds.
    Sleep(u64),
}

/// The backoff of one thread since it last found something to do.
#[derive(Drop)]
pub struct Backoff {
    /// How many times the thread has yielded.
    pub yields: u32,
    /// The length of the next sleep, in microseconds.
    pub sleep: u64,
    // The word that a sleeper waits on.
    word: AtomicU64,
}

impl Backoff {
    /// The backoff of a thread that has just found something to do.
    pub fn new() -> Backoff
        ensures yields { result.yields ≡ 0 }
        ensures sleep { result.sleep ≡ FIRST_SLEEP }
    {
        Backoff {
            yields: 0,
            sleep: FIRST_SLEEP,
            word: AtomicU64::new(0),
        }
    }

    /// A backoff without yields, for a thread that need not react soon. Its first sleep takes `first` microseconds, but
    /// no longer than the longest sleep.
    pub fn sleeping(first: u64) -> Backoff
        ensures yields { result.yields ≡ MAX_YIELDS }
        ensures sleep { result.sleep ≡ min MAX_SLEEP first }
    {
        Backoff {
            yields: MAX_YIELDS,
            sleep: MAX_SLEEP.min(first),
            word: AtomicU64::new(0),
        }
    }

    /// Starts over, after something was found to do.
    pub fn reset(&mut self)
        ensures yields { self.new.yields ≡ 0 }
        ensures sleep { self.new.sleep ≡ FIRST_SLEEP }
    {
        self.yields = 0;
        self.sleep = FIRST_SLEEP;
    }

    /// Makes the next step, and returns which it was.
    pub fn wait<R: Wait>(&mut self, rt: &R) -> BackoffStep
        ensures awake { self.old.yields < MAX_YIELDS → (result ≡ BackoffStep.Yield)
            × (self.new.yields ≡ self.old.yields + 1) × (self.new.sleep ≡ self.old.sleep) }
        ensures asleep { MAX_YIELDS ≤ self.old.yields → (result ≡ BackoffStep.Sleep self.old.sleep)
            × (self.new.yields ≡ self.old.yields) × (self.new.sleep ≡ min MAX_SLEEP (2 * min MAX_SLEEP self.old.sleep)) }
    {
        if self.yields < MAX_YIELDS {
            self.yields += 1;
            thread::yield_now();
            return BackoffStep::Yield;
        }
        let sleep = self.sleep;
        self.word.park_timeout(rt, 0, Duration::from_micros(sleep));
        self.sleep = MAX_SLEEP.min(2 * MAX_SLEEP.min(sleep));
        BackoffStep::Sleep(sleep)
    }
}
