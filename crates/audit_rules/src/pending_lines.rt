//! Checks the lines of pending calls.

ghost use Rattle.std.specs.Bool.{OnFalse, OnTrue};
ghost use Rattle.std.specs.Prelude.{◌≡◌, ◌≢◌, ◌↔◌, ◌<◌, ◌≤◌, ◌∷◌, ◌++◌, [], ℕ, List, IsTrue, Some, length, map};
ghost use Rattle.std.specs.Prelude.{slice_get};
ghost use Rattle.mrpc_table.specs.Valid.{IsValid};
ghost use Rattle.mrpc_table.specs.declared.table.Table.{Table as TheTable};
ghost use Rattle.call_history.specs.Trace.{Trace, pending_calls};
ghost use Rattle.call_history.specs.Legal.{HasNoObligation};
ghost use Rattle.call_history.specs.declared.happening.AcceptedCall.{AcceptedCall};
ghost use Rattle.engine_core.specs.Marks.{seqs_of};
ghost use Rattle.audit_rules.specs.Asking.{HasPassedFirst};
ghost use Rattle.audit_rules.specs.CheckerState.{IsCheckerAfter, KnowsListed, checker_context};
ghost use Rattle.audit_rules.specs.PendingLines.{IsHoldingOf, IsNextPending, entry_name_at};
ghost use Rattle.audit_rules.specs.declared.checker.Checker.{Checker as TheChecker};

use crate::ask::{reaches, seq_at};
use crate::checker::Checker;
use call_history::{chain_after_event, ties_after_event};
use engine_core::{Engine, answer_is_unique};
use mrpc_table::Table;

impl Checker {
    /// Checks a line of the next pending call: its number, its position, the name of the entry there (`-` at the end of
    /// the chain), and the level and cost if it is held. Returns true if the line is legal.
    pub fn check_stands(
        &mut self,
        table: &Table,
        seq: u32,
        position: u32,
        name: &[u8],
        held: Option<(u64, u64)>,
    ) -> bool
        requires valid { IsValid table.now }
        requires known { (past : Trace) × (positions : List ℕ) × KnowsListed table.now past positions self.old }
        ensures tells { (past : Trace) (positions : List ℕ) → KnowsListed table.now past positions self.old
            → IsTrue result ↔ IsNextPending (checker_context table.now self.old) past positions seq position name.now
            held }
        ensures told { (past : Trace) (positions : List ℕ) → KnowsListed table.now past positions self.old
            → IsTrue result → KnowsListed table.now past (positions ++ position ∷ []) self.new }
        ensures same { (T : TheTable) → checker_context T self.new ≡ checker_context T self.old }
    {
        answer_is_unique();
        let at = position as usize;
        if !self.is_next_listed(seq, at) {
            return false;
        }
        if !self.reaches_place(table, at) {
            return false;
        }
        if !is_named_at(&self.engines, at, name) {
            return false;
        }
        if !is_same_hold(self.held_at(at), held) {
            return false;
        }
        self.told += 1;
        self.position = at;
        true
    }

    // Returns true if the next unlisted call has this number, and the position is legal by the chain's length and the
    // calls listed before.
    fn is_next_listed(&self, seq: u32, at: usize) -> bool
        ensures next { OnTrue result (slice_get (seqs_of self.now.calls) self.now.told ≡ Some seq) }
        ensures within { OnTrue result (at ≤ length self.now.engines.items) }
        ensures falls { OnTrue result (at ≤ self.now.position) }
        ensures few { OnTrue result (self.now.told < 64) }
        ensures not_next { OnFalse result (slice_get (seqs_of self.now.calls) self.now.told ≡ Some seq
            → at ≤ length self.now.engines.items → at ≤ self.now.position → ⊥) }
    {
        if self.told >= self.calls.len() || seq_at(&self.calls, self.told) != seq {
            return false;
        }
        at <= self.engines.len() && at <= self.position
    }

    // Returns true if every entry before a position lets the next unlisted call pass.
    fn reaches_place(&mut self, table: &Table, at: usize) -> bool
        requires known { (past : Trace) × (positions : List ℕ) × KnowsListed table.now past positions self.old }
        requires call { self.old.told < length self.old.calls }
        requires engine { at ≤ length self.old.engines.items }
        ensures passes { (past : Trace) (positions : List ℕ) (seq : ℕ) → KnowsListed table.now past positions self.old
            → slice_get (seqs_of self.old.calls) self.old.told ≡ Some seq
            → OnTrue result (HasPassedFirst (checker_context table.now self.old) past seq at) }
        ensures stops { (past : Trace) (positions : List ℕ) (seq : ℕ) → KnowsListed table.now past positions self.old
            → slice_get (seqs_of self.old.calls) self.old.told ≡ Some seq
            → OnFalse result (HasPassedFirst (checker_context table.now self.old) past seq at → ⊥) }
        ensures told { (past : Trace) (positions : List ℕ) → KnowsListed table.now past positions self.old
            → OnTrue result (KnowsListed table.now past positions self.new) }
        ensures numbers { seqs_of self.new.calls ≡ seqs_of self.old.calls }
        ensures entries { map (λ e. e.entry) self.new.engines.items ≡ map (λ e. e.entry) self.old.engines.items }
        ensures rest { self.new ≡ record self.old { engines = self.new.engines; calls = self.new.calls } }
    {
        ties_after_event();
        chain_after_event();
        let from = self.reached[self.told];
        reaches(
            &mut self.calls,
            self.told,
            &mut self.engines,
            from,
            at,
            table,
            self.moment,
        )
    }

    // Returns true if no listed call is at a position.
    fn is_first_at(&self, at: usize) -> bool
        ensures first { OnTrue result (0 < self.now.told → at ≢ self.now.position) }
        ensures not_first { OnFalse result (at ≡ self.now.position) }
    {
        self.told == 0 || at != self.position
    }

    // The level and cost at which the next unlisted call is held at a position, if it is the first there and held.
    fn held_at(&self, at: usize) -> Option<(u64, u64)>
        requires call { self.now.told < length self.now.calls }
        ensures { (T : TheTable) (past : Trace) (positions : List ℕ) (call : AcceptedCall)
            → KnowsListed T past positions self.now
            → slice_get (pending_calls past) self.now.told ≡ Some call → at ≤ self.now.position
            → IsHoldingOf (checker_context T self.now) past positions call at result }
    {
        if !self.is_first_at(at) {
            return None;
        }
        let engine = self.engines.get(at)?;
        engine.held(self.calls.at(self.told))
    }

    /// Returns true if all pending calls were listed.
    pub fn are_all_listed(&self) -> bool
        ensures { (T : TheTable) (past : Trace) (positions : List ℕ) → KnowsListed T past positions self.now
            → IsTrue result ↔ (length positions ≡ length (pending_calls past)) }
    {
        self.told == self.calls.len()
    }
}

/// If there is no obligation, the pending calls can be listed from the first one on. A law; it does nothing.
pub fn listing_can_start()
    ensures { (T : TheTable) (past : Trace) (c : TheChecker) → HasNoObligation past → IsCheckerAfter T past c
        → KnowsListed T past [] c }
{}

// Returns true if the entry at a position has this name; the end of the chain has the name `-`.
fn is_named_at(engines: &[Engine], at: usize, name: &[u8]) -> bool
    ensures { IsTrue result ↔ (name.now ≡ entry_name_at (map (λ e. e.entry) engines.now) at) }
{
    match engines.get(at) {
        Some(engine) => name == engine.name().as_slice(),
        None => name == b"-".as_slice(),
    }
}

// Returns true if both are held at the same level and cost, or neither is held.
fn is_same_hold(one: Option<(u64, u64)>, other: Option<(u64, u64)>) -> bool
    ensures { IsTrue result ↔ (one ≡ other) }
{
    one == other
}
