//! A source in memory, whose reads can be made short or made to fail.

ghost use Rattle.std.specs.Prelude.{◌≡◌, ◌≢◌, ◌<◌, ◌≤◌, ◌↔◌, [], ◌++◌, All, Contains, IsPermutation, length, min, slice_get, take, drop};
ghost use Rattle.mrpc_base.specs.Failures.{HasCause, raised};
ghost use Rattle.mrpc_base.specs.Sources.{OnBytes, OnNoBytes, given_count};

use crate::calls::CallCounter;
use crate::supply::Supply;
use crate::{Got, Source};
use std::marker::Model;

/// A source over bytes in memory. Contracts see it as a `MemSourceState`: the remaining bytes, the lengths and the numbers of
/// failing reads that it was made with, and how many reads there were and failed.
#[derive(Drop)]
pub struct MemSource {
    supply: Supply,
    lengths: Vec<usize>,
    calls: CallCounter,
}

impl Model for MemSource {
    ghost use Rattle.std.specs.Prelude.{◌<◌, All};
    ghost use Rattle.mrpc_base.specs.Sources.{MemSourceState};

    ghost Value = { MemSourceState };

    ghost view = { λ s. record {
      left = s.supply.left;
      lengths = s.lengths.items;
      failing = s.calls.failing;
      calls = s.calls.calls;
      failures = s.calls.failures;
    } };

    ghost invariant = { λ s. All (λ most. 0 < most) s.lengths.items };
}

// The length listed for the read that follows `calls` reads, if there is one.
pub(crate) fn listed_length(lengths: &[usize], calls: u64) -> Option<usize>
    ensures { result ≡ slice_get lengths.now calls }
{
    lengths.get(calls as usize).copied()
}

// How many bytes a read gives; `most` is the length listed for it, if there is one.
pub(crate) fn count_to_give(most: Option<usize>, room: usize, left: usize) -> usize
    ensures { result ≡ given_count most room left }
{
    match most {
        Some(most) => most.min(room.min(left)),
        None => room.min(left),
    }
}

impl MemSource {
    /// A source with these bytes to read. The read of each number in `failing`, counted from 1, fails. The k-th read
    /// gives at most the k-th of `lengths` bytes, each at least 1. A read past that list fills the buffer as far as it
    /// can.
    pub fn new(bytes: Vec<u8>, failing: Vec<u64>, lengths: Vec<usize>) -> Self
        requires { All (λ most. 0 < most) lengths.items }

        ensures left { result.left ≡ bytes.items }
        ensures lengths { result.lengths ≡ lengths.items }
        // In ascending order, for the binary search.
        ensures failing { IsPermutation failing.items result.failing }
        ensures calls { result.calls ≡ 0 }
        ensures failures { result.failures ≡ 0 }
    {
        MemSource {
            supply: Supply::new(bytes),
            lengths,
            calls: CallCounter::new(failing),
        }
    }

    /// The bytes that were not read yet.
    pub fn left(&self) -> &[u8]
        ensures { result.now ≡ self.now.left }
    {
        self.supply.left()
    }

    /// How many reads failed. It saturates at 2^64 - 1.
    pub fn failures(&self) -> u64
        ensures { result ≡ self.now.failures }
    {
        self.calls.failures()
    }

    /// How many reads there were, including failed ones and those at the end. It saturates at 2^64 - 1.
    pub fn calls(&self) -> u64
        ensures { result ≡ self.now.calls }
    {
        self.calls.calls()
    }
}

impl Source for MemSource {
    ghost use Rattle.std.specs.Prelude.{Some};

    ghost left = { λ s. Some s.left };

    ghost failures = { λ s. s.failures };

    fn read(&mut self, buf: &mut [u8]) -> Got
        requires room { 0 < length buf.old }

        // A read fails exactly if its number is listed. Otherwise it returns `End` exactly if no bytes remain.
        ensures fails { (result ≡ Got.Failed) ↔ Contains self.old.failing self.new.calls }
        ensures ends { (result ≡ Got.End) ↔ (self.old.left ≡ []) × (result ≢ Got.Failed) }
        ensures exact { OnBytes result (λ n.
            n ≡ given_count (slice_get self.old.lengths self.old.calls) (length buf.old) (length self.old.left)) }

        // The bytes read are the next ones.
        ensures count { OnBytes result (λ n. (0 < n) × (n ≤ length buf.old)) }
        ensures next { OnBytes result (λ n. self.old.left ≡ take n buf.new ++ self.new.left) }
        ensures kept { OnNoBytes result (self.new.left ≡ self.old.left) }

        // The counts, and what is unchanged.
        ensures behind { OnBytes result (λ n. drop n buf.new ≡ drop n buf.old) }
        ensures untouched { OnNoBytes result (buf.new ≡ buf.old) }
        ensures lengths { self.new.lengths ≡ self.old.lengths }
        ensures failing { self.new.failing ≡ self.old.failing }
        ensures calls { self.new.calls ≡ raised self.old.calls }
        ensures failures { result ≡ Got.Failed → self.new.failures ≡ raised self.old.failures }
        ensures cause { HasCause (result ≡ Got.Failed) self.old.failures self.new.failures }
    {
        let before = self.calls.calls();
        if self.calls.next() {
            self.calls.count_failure();
            return Got::Failed;
        }
        let left = self.supply.left().len();
        if left == 0 {
            return Got::End;
        }
        let most = listed_length(&self.lengths, before);
        let count = count_to_give(most, buf.len(), left);
        self.supply.give(buf, count);
        Got::Bytes(count)
    }
}
