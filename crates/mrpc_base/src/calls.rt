//! A call counter for devices in memory: how many calls there were, which are to fail, and how many failed.

ghost use Rattle.std.specs.Prelude.{◌≡◌, ◌≤◌, ◌↔◌, Contains, IsPermutation, IsTrue};
ghost use Rattle.mrpc_base.specs.Failures.{raised};

use std::marker::Model;

#[derive(Drop)]
pub(crate) struct CallCounter {
    // In ascending order, for the binary search.
    failing: Vec<u64>,
    calls: u64,
    failures: u64,
}

impl Model for CallCounter {
    ghost use Rattle.std.specs.List.Sorted.{IsNonDecreasing};
    ghost use Rattle.mrpc_base.specs.Calls.{CallCount};

    ghost Value = { CallCount };

    ghost view = { λ c. record { failing = c.failing.items; calls = c.calls; failures = c.failures } };

    ghost invariant = { λ c. IsNonDecreasing c.failing.items };
}

impl CallCounter {
    // A counter before any call. `failing` holds the numbers of the calls that are to fail, in any order.
    pub(crate) fn new(mut failing: Vec<u64>) -> Self
        ensures failing { IsPermutation failing.items result.failing }
        ensures calls { result.calls ≡ 0 }
        ensures failures { result.failures ≡ 0 }
    {
        failing.sort_unstable();
        CallCounter {
            failing,
            calls: 0,
            failures: 0,
        }
    }

    pub(crate) fn calls(&self) -> u64
        ensures { result ≡ self.now.calls }
    {
        self.calls
    }

    pub(crate) fn failures(&self) -> u64
        ensures { result ≡ self.now.failures }
    {
        self.failures
    }

    // Counts a call, and returns whether it is to fail.
    pub(crate) fn next(&mut self) -> bool
        ensures calls { self.new.calls ≡ raised self.old.calls }
        ensures fails { IsTrue result ↔ Contains self.old.failing self.new.calls }
        ensures failing { self.new.failing ≡ self.old.failing }
        ensures failures { self.new.failures ≡ self.old.failures }
    {
        self.calls = self.calls.saturating_add(1);
        self.failing.binary_search(&self.calls).is_ok()
    }

    // Counts a call that failed.
    pub(crate) fn count_failure(&mut self)
        ensures failures { self.new.failures ≡ raised self.old.failures }
        ensures never_falls { self.old.failures ≤ self.new.failures }
        ensures calls { self.new.calls ≡ self.old.calls }
        ensures failing { self.new.failing ≡ self.old.failing }
    {
        self.failures = self.failures.saturating_add(1);
    }
}
