//! What a thread that polls uses: a backoff, and the stop flag of a run.
//!
//! A [`Backoff`] determines the next step while a thread finds no work: to yield, or to sleep. The threads of a run
//! share one flag. A thread that is out of memory sets it, and all others then end where they wait. [`StopFlag`] is the
//! trait of such a flag, [`RunFlag`] the flag of a run, and [`NeverStops`] one that is never found set. The crate
//! depends on the standard library alone. The layers above use two contracts: which step of the backoff comes next, and
//! that a flag is found set only if it may be. No clause is about time.
#![tactic(auto)]

mod backoff;
mod stop_flag;

pub use backoff::{Backoff, BackoffStep, FIRST_SLEEP, MAX_SLEEP, MAX_YIELDS};
pub use stop_flag::{NeverStops, RunFlag, StopFlag};
