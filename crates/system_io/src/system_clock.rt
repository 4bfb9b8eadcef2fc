//! The system's clock.

use mrpc_base::Clock;
use std::time;
use std::time::Instant;

/// The system's clock, in milliseconds since it was made. It never goes back. Nothing is proved of its timestamps,
/// which are the system's.
#[derive(Drop)]
pub struct SystemClock<'r, T> {
    time: &'r T,
    // `None` if the system's clock failed then; such a clock always returns 0.
    start: Option<Instant>,
}

impl<'r, T: time::Clock> SystemClock<'r, T> {
    /// A clock that starts at 0 now.
    pub fn new(time: &'r T) -> Self {
        SystemClock {
            time,
            start: Instant::now(time).ok(),
        }
    }
}

impl<'r, T: time::Clock + Sync> Clock for SystemClock<'r, T> {
    ghost use Rattle.std.specs.Prelude.{⊤};

    ghost least = { λ _. 0 };

    ghost gives = { λ _ _. ⊤ };

    /// The milliseconds since the clock was made, or 0 if the system's clock fails.
    fn now(&self) -> u64 {
        let Some(start) = self.start else {
            return 0;
        };
        let Ok(passed) = start.elapsed(self.time) else {
            return 0;
        };
        u64::try_from(passed.as_millis()).unwrap_or(u64::MAX)
    }
}
