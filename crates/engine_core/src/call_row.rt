//! The pending calls of a chain, in one row.

ghost use Rattle.std.specs.Prelude.{◌≡◌, ◌<◌, ◌≤◌, ◌++◌, ◌∷◌, ◌↔◌, [], ℕ, List, Some, IfOk, IsTrue, length, remove, slice_get};
ghost use Rattle.std.specs.Bool.{OnFalse, OnTrue};
ghost use Rattle.mrpc_table.specs.Calls.{IsCallOf};

use crate::engine::Engine;
use crate::outcome::Outcome;
use crate::standing::Standing;
use mrpc_base::Tickets;
use mrpc_table::{Memory, Table};
use std::alloc::Global;
use std::collections::VecDeque;
use std::marker::Model;

/// The maximum number of pending calls of a chain.
pub const MAX_CALLS: usize = 64;

/// The pending calls of a chain, in order. It is a ring buffer, so the first call leaves without shifting the others.
/// Contracts see it as the list of the calls.
#[derive(Drop)]
pub struct CallRow {
    calls: VecDeque<Standing>,
}

impl Model for CallRow {
    ghost use Rattle.std.specs.Prelude.{◌≤◌, List, length};
    ghost use Rattle.engine_core.specs.declared.call_row.TheConstants.{MAX_CALLS};
    ghost use Rattle.std.specs.VecDeque.{deque_capacity};
    ghost use Rattle.engine_core.specs.Marks.{PendingCall};

    ghost Value = { List PendingCall };

    ghost use Rattle.std.specs.Coded.{codes};
    ghost use Rattle.mrpc_table.specs.contracts.call.Call as c;

    ghost coded = { Prim.hlevel (codes, c.the_row.coded) };

    ghost view = { λ r. r.calls.items };

    ghost invariant = { λ r. (length r.calls.items ≤ MAX_CALLS) × (MAX_CALLS ≤ deque_capacity r.calls) };
}

impl CallRow {
    ghost use Rattle.engine_core.specs.declared.call_row.TheConstants.{MAX_CALLS};
    ghost use Rattle.engine_core.specs.Policies.{KnowsTenantOf};
    ghost use Rattle.engine_core.specs.Turns.{noted_in};
    ghost use Rattle.engine_core.specs.Working.{HasOnlyMarksOf, AreTicketsAfterTurn, HasWorked};
    ghost use Rattle.engine_core.specs.Engines.{EngineParts};
    ghost use Rattle.engine_core.specs.Marks.{PendingCall};
    ghost use Rattle.engine_core.specs.declared.outcome.Noted.TheVariants.{Nothing};
    ghost use Rattle.engine_core.specs.declared.outcome.Outcome.TheVariants.{Passed};

    /// An empty row. It allocates room for `MAX_CALLS`, so no later call of a row allocates.
    pub fn open(alloc: Global) -> Result<CallRow, Memory>
        ensures { IfOk result (λ row. row ≡ []) }
    {
        Ok(CallRow {
            calls: VecDeque::with_capacity(alloc, MAX_CALLS)?,
        })
    }

    /// The number of pending calls.
    pub fn len(&self) -> usize
        ensures count { result ≡ length self.now }
        ensures few { result ≤ MAX_CALLS }
    {
        self.calls.len()
    }

    /// Returns true if no call is pending.
    pub fn is_empty(&self) -> bool
        ensures { IsTrue result ↔ (self.now ≡ []) }
    {
        self.calls.is_empty()
    }

    /// The call at an index.
    pub fn at(&self, place: usize) -> &Standing
        requires { place < length self.now }
        ensures { slice_get self.now place ≡ Some result.now }
    {
        &self.calls[place]
    }

    /// Appends a call. There must be fewer than `MAX_CALLS`.
    pub fn push(&mut self, call: Standing)
        requires { length self.old < MAX_CALLS }
        ensures { self.new ≡ self.old ++ call ∷ [] }
    {
        self.calls.push_back_reserved(call);
    }

    /// Removes and returns the call at an index. Removing the first one shifts no others.
    pub fn take(&mut self, place: usize) -> Standing
        requires { place < length self.old }
        ensures call { slice_get self.old place ≡ Some result }
        ensures rest { self.new ≡ remove self.old place }
    {
        self.calls.remove(place).unwrap()
    }

    /// Like `take`, but drops the call. Dropping the first one shifts no others.
    pub fn drop_at(&mut self, place: usize)
        requires { place < length self.old }
        ensures { self.new ≡ remove self.old place }
    {
        if place == 0 {
            let _ = self.calls.pop_front();
        } else {
            let _ = self.calls.remove(place);
        }
    }

    /// Drops all calls.
    pub fn clear(&mut self)
        ensures { self.new ≡ [] }
    {
        self.calls.truncate(0);
    }

    /// Passes the call at index `place` through the engine at position `at`, if there is nothing to note. That is so
    /// if the access policy allows the call or already did in this version, or if the rate or the count has noted it.
    /// If it returns false, nothing has changed, and a turn decides.
    pub fn pass_unnoted(
        &mut self,
        place: usize,
        engines: &[Engine],
        at: usize,
        table: &Table,
    ) -> bool
        requires place { place < length self.old }
        requires engine { at < length engines.now }
        requires few { length engines.now ≤ 8 }
        requires call { (s : PendingCall) → slice_get self.old place ≡ Some s → IsCallOf table.now s.call }
        requires marks { (s : PendingCall) → slice_get self.old place ≡ Some s → HasOnlyMarksOf engines.now s }
        ensures passed { OnTrue result ((moment : ℕ)
            → HasWorked engines.now self.old at place moment (Passed Nothing) engines.now self.new) }
        ensures as_before { OnFalse result (self.new ≡ self.old) }
    {
        let call = &mut self.calls[place];
        call.few_others(engines, at);
        engines[at].pass_unnoted(call, at, table)
    }

    /// The engine at position `at` works on the call at index `place`. `alone` means that the call is known to have
    /// marks of these engines alone; otherwise the marks of other engines are removed first. It allocates nothing.
    pub fn work<Q: Tickets>(
        &mut self,
        place: usize,
        engines: &mut [Engine],
        at: usize,
        table: &Table,
        now: u64,
        tickets: &mut Q,
        alone: bool,
    ) -> Outcome
        requires place { place < length self.old }
        requires engine { at < length engines.old }
        requires few { length engines.old ≤ 8 }
        requires call { (s : PendingCall) → slice_get self.old place ≡ Some s → IsCallOf table.now s.call }
        requires alone { OnTrue alone ((s : PendingCall) → slice_get self.old place ≡ Some s
            → HasOnlyMarksOf engines.old s) }
        requires known { (e : EngineParts) → slice_get engines.old at ≡ Some e
            → KnowsTenantOf (Q.knows tickets.old) e.entry.policy }
        ensures works { HasWorked engines.old self.old at place now result engines.new self.new }
        ensures tickets { (e : EngineParts) → slice_get engines.old at ≡ Some e
            → AreTicketsAfterTurn Q.knows Q.drawn Q.since e.entry.policy (noted_in result) tickets.old tickets.new }
    {
        let call = &mut self.calls[place];
        call.drop_other_marks(engines, alone);
        call.few_others(engines, at);
        let engine = &mut engines[at];
        engine.work(call, table, now, tickets)
    }
}
