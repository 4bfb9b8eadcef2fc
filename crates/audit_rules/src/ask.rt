//! Finds the answer of an entry to a pending call.

ghost use Rattle.std.specs.Prelude.{◌≡◌, ◌≢◌, ◌<◌, ◌≤◌, ℕ, List, All, Contains, IfNone, IfSome, Some, length, map, slice_get};
ghost use Rattle.std.specs.Bool.{OnFalse, OnTrue};
ghost use Rattle.std.specs.VecDeque.{deque_capacity};
ghost use Rattle.mrpc_table.specs.Calls.{IsCallOf};
ghost use Rattle.engine_core.specs.Answers.{pass};
ghost use Rattle.engine_core.specs.Chains.{Entry};
ghost use Rattle.engine_core.specs.Marks.{seqs_of};
ghost use Rattle.engine_core.specs.Turns.{noted_in};
ghost use Rattle.engine_core.specs.Working.{HasWorked};
ghost use Rattle.call_history.specs.Trace.{Trace, timestamp, pending_calls};
ghost use Rattle.call_history.specs.Legal.{IsLegalPrefix};
ghost use Rattle.call_history.specs.Rules.{IsAt, JudgeContext};
ghost use Rattle.call_history.specs.Ties.{AreNumbersApart, AreTied};
ghost use Rattle.audit_rules.specs.Asking.{IsEntryOutcome, IsRising, IsRowOfTrace, HasPassedFirst, answer_of};

use crate::drawn::DrawTrace;
use crate::fixed_ticket::FixedTicket;
use call_history::{chain_after_event, ties_after_event};
use engine_core::{CallRow, Engine, Noted, Outcome, answer_is_unique, position_named};
use mrpc_table::Table;
use std::collections::VecDeque;

// A pending call, the entry of a name that it has reached, and the outcome of that entry's turn.
#[derive(Clone, Copy)]
pub(crate) struct EntryOutcome {
    pub place: usize,
    pub at: usize,
    pub outcome: Outcome,
}

// The number of the call at an index.
pub(crate) fn seq_at(calls: &CallRow, place: usize) -> u32
    requires { place < length calls.now }
    ensures { slice_get (seqs_of calls.now) place ≡ Some result }
{
    calls.at(place).call().seq
}

// Returns the index of the call with a number. It tries the distance from the first call's number, then binary search.
pub(crate) fn place_of_call(calls: &CallRow, seq: u32) -> Option<usize>
    requires { (top : ℕ) × IsRising 0 top (seqs_of calls.now) }
    ensures found { IfSome result (λ place. slice_get (seqs_of calls.now) place ≡ Some seq) }
    ensures none { IfNone result (Contains (seqs_of calls.now) seq → ⊥) }
{
    if calls.is_empty() {
        return None;
    }
    let guess = seq.saturating_sub(seq_at(calls, 0)) as usize;
    if guess < calls.len() && seq_at(calls, guess) == seq {
        return Some(guess);
    }
    search_call(calls, seq)
}

// Like `place_of_call`, by binary search alone.
fn search_call(calls: &CallRow, seq: u32) -> Option<usize>
    requires { (top : ℕ) × IsRising 0 top (seqs_of calls.now) }
    ensures found { IfSome result (λ place. slice_get (seqs_of calls.now) place ≡ Some seq) }
    ensures none { IfNone result (Contains (seqs_of calls.now) seq → ⊥) }
{
    let mut low = 0;
    let mut high = calls.len();
    while low < high {
        let middle = low + (high - low) / 2;
        if seq_at(calls, middle) < seq {
            low = middle + 1;
        } else {
            high = middle;
        }
    }
    if low < calls.len() && seq_at(calls, low) == seq {
        Some(low)
    } else {
        None
    }
}

// Runs a turn of the engine at a position for the call at an index. The engine draws `ticket` if it draws one.
pub(crate) fn work(
    calls: &mut CallRow,
    place: usize,
    engines: &mut [Engine],
    at: usize,
    table: &Table,
    now: u64,
    ticket: u64,
) -> Outcome
    requires place { place < length calls.old }
    requires engine { at < length engines.old }
    requires few { length engines.old ≤ 8 }
    requires of_table { All (λ s. IsCallOf table.now s.call) calls.old }
    ensures works { HasWorked engines.old calls.old at place now result engines.new calls.new }
    ensures drawn { (window drawn : ℕ) → noted_in result ≡ Noted.Drawn window drawn → drawn ≡ ticket }
{
    let draws = DrawTrace::new();
    let mut prepared = FixedTicket { ticket, draws };
    calls.work(place, engines, at, table, now, &mut prepared, false)
}

// Returns true if every engine before a position lets the call at an index pass. Those before `from` are known to.
pub(crate) fn reaches(
    calls: &mut CallRow,
    place: usize,
    engines: &mut [Engine],
    from: usize,
    at: usize,
    table: &Table,
    now: u64,
) -> bool
    requires place { place < length calls.old }
    requires engine { at ≤ length engines.old }
    requires few { length engines.old ≤ 8 }
    requires of_table { All (λ s. IsCallOf table.now s.call) calls.old }
    ensures passes { (u : JudgeContext) (past : Trace) (attached seq : ℕ) → IsLegalPrefix u past
        → AreTied u.conn past engines.old attached calls.old → AreNumbersApart calls.old → now ≡ timestamp past
        → slice_get (seqs_of calls.old) place ≡ Some seq → HasPassedFirst u past seq from
        → OnTrue result (HasPassedFirst u past seq at) }
    ensures stops { (u : JudgeContext) (past : Trace) (attached seq : ℕ) → IsLegalPrefix u past
        → AreTied u.conn past engines.old attached calls.old → AreNumbersApart calls.old → now ≡ timestamp past
        → slice_get (seqs_of calls.old) place ≡ Some seq → HasPassedFirst u past seq from
        → OnFalse result (HasPassedFirst u past seq at → ⊥) }
    ensures ties { OnTrue result ((u : JudgeContext) (past : Trace) (attached : ℕ) → IsLegalPrefix u past
        → AreTied u.conn past engines.old attached calls.old → AreNumbersApart calls.old
        → AreTied u.conn past engines.new attached calls.new) }
    ensures numbers { seqs_of calls.new ≡ seqs_of calls.old }
    ensures entries { map (λ e. e.entry) engines.new ≡ map (λ e. e.entry) engines.old }
    ensures of_table { All (λ s. IsCallOf table.now s.call) calls.new }
{
    ties_after_event();
    answer_is_unique();
    for next in from..at {
        let outcome = work(calls, place, engines, next, table, now, 0);
        if !is_pass(outcome) {
            return false;
        }
    }
    true
}

// Returns true if the call passes with nothing to note.
fn is_pass(outcome: Outcome) -> bool
    ensures passes { OnTrue result (outcome ≡ Outcome.Passed Noted.Nothing) }
    ensures another { OnFalse result (answer_of outcome ≢ pass) }
{
    matches!(outcome, Outcome::Passed(Noted::Nothing))
}

// Runs a turn of the entry of a name for the call with a number, if every earlier entry lets the call pass. The entry
// draws `ticket` if it draws one.
pub(crate) fn ask(
    calls: &mut CallRow,
    reached: &mut VecDeque<usize>,
    engines: &mut [Engine],
    seq: u32,
    name: &[u8],
    table: &Table,
    now: u64,
    ticket: u64,
) -> Option<EntryOutcome>
    requires rising { (top : ℕ) × IsRising 0 top (seqs_of calls.old) }
    requires few { length engines.old ≤ 8 }
    requires of_table { All (λ s. IsCallOf table.now s.call) calls.old }
    requires reached { length reached.old.items ≡ length calls.old }
    ensures asked { (u : JudgeContext) (past : Trace) (attached : ℕ)
        → IsRowOfTrace u past engines.old attached calls.old reached.old.items now
        → seqs_of calls.old ≡ map (λ call. call.seq) (pending_calls past)
        → IfSome result (λ a. IsEntryOutcome u past attached seq name.now a calls.old engines.new calls.new
        reached.new.items) }
    ensures none { (u : JudgeContext) (past : Trace) (attached : ℕ)
        → IsRowOfTrace u past engines.old attached calls.old reached.old.items now
        → seqs_of calls.old ≡ map (λ call. call.seq) (pending_calls past)
        → IfNone result ((e : Entry) → IsAt u past seq name.now e → ⊥) }
    ensures drawn { IfSome result (λ a. (window drawn : ℕ) → noted_in a.outcome ≡ Noted.Drawn window drawn
        → drawn ≡ ticket) }
    ensures numbers { seqs_of calls.new ≡ seqs_of calls.old }
    ensures entries { map (λ e. e.entry) engines.new ≡ map (λ e. e.entry) engines.old }
    ensures of_table { All (λ s. IsCallOf table.now s.call) calls.new }
    ensures places { length reached.new.items ≡ length reached.old.items }
    ensures capacity { deque_capacity reached.new ≡ deque_capacity reached.old }
{
    chain_after_event();
    ties_after_event();
    let place = place_of_call(calls, seq)?;
    let at = position_named(engines, name)?;
    let from = reached[place];
    if !reaches(calls, place, engines, from, at, table, now) {
        return None;
    }
    reached[place] = at;
    let outcome = work(calls, place, engines, at, table, now, ticket);
    Some(EntryOutcome { place, at, outcome })
}
