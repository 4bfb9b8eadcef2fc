//! What a plain service takes from an application.
ghost use Rattle.std.specs.Prelude.{◌≡◌};

use crate::discard;
use descriptor_ring::{Receiver, Taken};
use polling::{RunFlag, StopFlag};
use std::sync::Wait;
use std::thread;

/// What was taken from an application.
#[derive(Clone, Copy)]
pub struct TakenCalls {
    /// The number of calls.
    pub calls: u64,
    /// The sum of their numbers, modulo 2^64.
    pub numbers: u64,
}

// What a ring returned.
#[derive(Clone, Copy)]
enum TakeOutcome {
    Item,
    Nothing,
    Closing,
}

#[derive(Drop)]
pub(crate) struct SideReader {
    pub(crate) calls: Receiver,
    pub(crate) found: TakenCalls,
}

impl SideReader {
    pub(crate) fn new(calls: Receiver) -> SideReader
        ensures calls { result.calls ≡ calls }
    {
        let found = TakenCalls {
            calls: 0,
            numbers: 0,
        };
        SideReader { calls, found }
    }

    // Takes a call if there is one, and otherwise yields. True once the ring is closed; `None` once the flag
    // is set.
    pub(crate) fn turn<R: Wait>(&mut self, rt: &R, stop: &RunFlag) -> Option<bool> {
        let came = self.take_call(rt);
        if stop.is_set() {
            return None;
        }
        match came {
            TakeOutcome::Closing => return Some(true),
            TakeOutcome::Item => {}
            TakeOutcome::Nothing => thread::yield_now(),
        }
        Some(false)
    }

    fn take_call<R: Wait>(&mut self, rt: &R) -> TakeOutcome {
        let taken = self.calls.take(rt);
        let came = self.count(&taken);
        discard(taken);
        came
    }

    fn count(&mut self, taken: &Taken) -> TakeOutcome {
        match taken {
            Taken::Item(call) => {
                self.found.calls = self.found.calls.wrapping_add(1);
                self.found.numbers = self.found.numbers.wrapping_add(u64::from(call.number));
                TakeOutcome::Item
            }
            Taken::Closed => TakeOutcome::Closing,
            Taken::Empty(_) => TakeOutcome::Nothing,
        }
    }
}
