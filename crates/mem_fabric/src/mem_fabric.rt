//! An in-memory fabric.

ghost use Rattle.std.specs.Prelude.{◌≡◌, ◌<◌, ◌+◌, ◌≤◌, ◌↔◌, [], ◌∷◌, false, Contains, IfOk, IsErrOf, IsPermutation, OnErr, length, slice_get};
ghost use Rattle.mrpc_base.specs.Failures.{HasCause, raised};
ghost use Rattle.mem_fabric.specs.Fabric.{IsNewEnd, failing_calls_of};
ghost use Rattle.mem_fabric.specs.Pair.{ArePair};

use crate::PairLink;
use crate::injected::{InjectedCalls, InjectedConns, raise};
use crate::pair_link::new_pair;
use mrpc_base::{Fabric, OpenFault};
use std::alloc::{AllocError, Global};
use std::marker::Model;
use std::sync::Wait;

/// Injected failures: the calls of an in-memory fabric and its links that shall fail, each counted from 1, in any
/// order.
#[derive(Drop)]
pub struct InjectedFailures {
    /// Openings, by number.
    pub openings: Vec<u64>,
    /// Sends, by connection and number.
    pub sends: Vec<(u32, u64)>,
    /// Receives, by connection and number.
    pub receives: Vec<(u32, u64)>,
}

/// An in-memory fabric. Contracts see it as a `MemFabricState`: the links that it keeps, how many of its links are
/// in use, the calls that shall fail, and how many openings were made and failed.
pub struct MemFabric<'r, R> {
    rt: &'r R,
    alloc: Global,
    // With capacity for the links in use, too.
    back: Vec<(u32, PairLink<'r, R>)>,
    away: usize,
    openings: InjectedCalls,
    listed: InjectedConns,
    failures: u64,
}

// By hand, so that each drop is one call, and not a drop of every field.
impl<'r, R> Drop for MemFabric<'r, R> {
    fn drop(self) {
        let MemFabric {
            rt: _,
            alloc: _,
            back: _back,
            away: _,
            openings: _openings,
            listed: _listed,
            failures: _,
        } = self;
    }
}

impl<'r, R> Model for MemFabric<'r, R> {
    ghost use Rattle.std.specs.Prelude.{◌+◌, ◌≤◌, vec_len, vec_capacity};
    ghost use Rattle.mem_fabric.specs.Fabric.{MemFabricState};

    ghost Value = { MemFabricState };

    ghost view = { λ f. record {
      back = f.back.items;
      away = f.away;
      failing_openings = f.openings.failing;
      failing_sends = f.listed.sends.items;
      failing_receives = f.listed.receives.items;
      openings = f.openings.calls;
      failures = f.failures;
    } };

    ghost invariant = { λ f. vec_len f.back + f.away ≤ vec_capacity f.back };
}

impl<'r, R: Wait> MemFabric<'r, R> {
    /// A fabric that has opened nothing.
    pub fn new(rt: &'r R, alloc: Global, failures: InjectedFailures) -> MemFabric<'r, R>
        ensures back { result.back ≡ [] }
        ensures away { result.away ≡ 0 }
        ensures failing_openings { IsPermutation failures.openings.items result.failing_openings }
        ensures failing_sends { result.failing_sends ≡ failures.sends.items }
        ensures failing_receives { result.failing_receives ≡ failures.receives.items }
        ensures openings { result.openings ≡ 0 }
        ensures failures { result.failures ≡ 0 }
    {
        MemFabric {
            rt,
            alloc,
            back: Vec::new(alloc),
            away: 0,
            openings: InjectedCalls::new(failures.openings),
            listed: InjectedConns {
                sends: failures.sends,
                receives: failures.receives,
            },
            failures: 0,
        }
    }

    /// The links that it keeps, each with its connection.
    pub fn links(&self) -> &[(u32, PairLink<'r, R>)]
        ensures { result.now ≡ self.now.back }
    {
        self.back.as_slice()
    }

    /// How many openings failed; saturates at 2^64 - 1.
    pub fn failures(&self) -> u64
        ensures { result ≡ self.now.failures }
    {
        self.failures
    }

    /// Returns a link that it keeps to use again, with its connection. Two ends of one pair that were returned like
    /// this can be reconciled by [`meet`](crate::meet).
    pub fn take_kept(&mut self, at: usize) -> (u32, PairLink<'r, R>)
        requires { at < length self.old.back }
        ensures link { slice_get self.old.back at ≡ Some result }
        ensures back { IsPermutation self.old.back (result ∷ self.new.back) }
        ensures away { self.new.away ≡ self.old.away + 1 }
        ensures same { self.new ≡ record self.old { back = self.new.back; away = self.new.away } }
    {
        self.away += 1;
        self.back.swap_remove(at)
    }
}

impl<'r, R: Wait + Sync> Fabric for MemFabric<'r, R> {
    type L = PairLink<'r, R>;

    ghost back = { λ f. f.back };

    ghost away = { λ f. f.away };

    ghost failures = { λ f. f.failures };

    // Each end pushes into the queue that the other pops from.
    ghost pair = { ArePair };

    ghost use mathlib.Core.Path.{sym, ◌∙◌};

    ghost stays_pair = { λ _ _ _ _ pair first second.
        (first.0 ∙ (pair.0 ∙ sym second.1), second.0 ∙ (pair.1 ∙ sym first.1)) };

    fn open_pair(&mut self, a: u32, b: u32) -> Result<(PairLink<'r, R>, PairLink<'r, R>), OpenFault>
        // An opening fails exactly if its number is listed.
        ensures fails { IsErrOf result OpenFault.Failed ↔ Contains self.old.failing_openings self.new.openings }
        ensures pair { IfOk result (λ ends. ArePair ends.0 ends.1) }
        ensures handed { IfOk result (λ ends. (ends.0.handed ≡ []) × (ends.1.handed ≡ [])) }
        ensures given { IfOk result (λ ends. (ends.0.given ≡ []) × (ends.1.given ≡ [])) }
        ensures not_ended { IfOk result (λ ends. (ends.0.ended ≡ false) × (ends.1.ended ≡ false)) }
        ensures no_faults { IfOk result (λ ends. (ends.0.failures ≡ 0) × (ends.1.failures ≡ 0)) }
        ensures first { IfOk result (λ ends.
            IsNewEnd (failing_calls_of a self.old.failing_sends) (failing_calls_of a self.old.failing_receives) ends.0) }
        ensures second { IfOk result (λ ends.
            IsNewEnd (failing_calls_of b self.old.failing_sends) (failing_calls_of b self.old.failing_receives) ends.1) }

        ensures away { IfOk result (λ ends. self.new.away ≡ self.old.away + 2) }
        ensures same_away { OnErr result (self.new.away ≡ self.old.away) }
        ensures openings { self.new.openings ≡ raised self.old.openings }
        ensures cause { HasCause (IsErrOf result OpenFault.Failed) self.old.failures self.new.failures }
        ensures same { self.new ≡ record self.old {
          away = self.new.away;
          openings = self.new.openings;
          failures = self.new.failures;
        } }
    {
        if self.openings.next() {
            self.failures = raise(self.failures);
            return Err(OpenFault::Failed);
        }
        if self.back.reserve(self.away + 2).is_err() {
            return Err(OpenFault::Memory);
        }
        match new_pair(self.rt, self.alloc, &self.listed, a, b) {
            Ok(ends) => {
                self.away += 2;
                Ok(ends)
            }
            Err(AllocError) => Err(OpenFault::Memory),
        }
    }

    fn keep(&mut self, conn: u32, link: PairLink<'r, R>)
        requires opened { 0 < self.old.away }
        ensures back { IsPermutation self.new.back ((conn, link.entry) ∷ self.old.back) }
        ensures away { self.new.away + 1 ≡ self.old.away }
        ensures same { self.new ≡ record self.old { back = self.new.back; away = self.new.away } }
    {
        self.back.push_reserved((conn, link));
        self.away -= 1;
    }
}
