//! Laws of histories. These functions do nothing; their clauses hold.

ghost use Rattle.std.specs.Prelude.{◌≡◌, ◌≢◌, ◌<◌, ◌≤◌, ◌+◌, ◌-◌, ◌==◌, ℕ, true, not, List, [], ◌∷◌, ◌++◌, All, Contains, count_by, filter, length, map, option_map};
ghost use Rattle.std.specs.List.{list_any};
ghost use Rattle.mrpc_table.specs.declared.table.Table.{Table};
ghost use Rattle.mrpc_table.specs.Calls.{IsCallOf};
ghost use Rattle.mrpc_table.specs.Valid.{IsValid};
ghost use Rattle.mrpc_table.specs.declared.call.Call.{Call};
ghost use Rattle.policy_redact.specs.Redacting.{cleared_call};
ghost use Rattle.policy_redact.specs.declared.redact.Clear.{Clear};
ghost use Rattle.engine_core.specs.Answers.{nothing, charged, drawn, counted, note, ticket_in};
ghost use Rattle.engine_core.specs.Chains.{Chain, HasChanged, Entry, IsChain};
ghost use Rattle.engine_core.specs.Policies.{initial_level};
ghost use Rattle.engine_core.specs.Turns.{noted_in};
ghost use Rattle.engine_core.specs.declared.outcome.Outcome.{Outcome};
ghost use Rattle.engine_core.specs.declared.op.Op.{Op as Step};
ghost use Rattle.engine_core.specs.declared.op.Op.TheVariants.{Attach, Upgrade};
ghost use Rattle.engine_core.specs.declared.policy.Policy.{Policy};
ghost use Rattle.call_history.specs.Trace.{Trace, chain, converted, copied, filled, form, is_fate_of, level_in_trace, timestamp, noted, policy_in_trace, redacted, pending_calls, taken};
ghost use Rattle.engine_core.specs.Chains.{changed};
ghost use Rattle.call_history.specs.Clears.{cleared_in};
ghost use Rattle.call_history.specs.Draining.{HasPartlyDrained, HasDrained, HasFailedDrain};
ghost use Rattle.call_history.specs.Transitions.{ConnState, Transition, IsTransition, IsEntryTurn, AreTransitions, IsValidState, initial_state, refused_for_link};
ghost use Rattle.call_history.specs.Frames.{frames, frames_sent_by};
ghost use Rattle.call_history.specs.Legal.{HasForm, HasNoCopy, History, IsLegal, IsLegalTrace, IsLegalPrefix, trace_of};
ghost use Rattle.call_history.specs.Positions.{IsSettled};
ghost use Rattle.call_history.specs.Rules.{JudgeContext, CanFollow, payload};
ghost use Rattle.call_history.specs.declared.happening.Cause.{Cause};
ghost use Rattle.call_history.specs.declared.happening.Cause.TheVariants as cause;
ghost use Rattle.call_history.specs.declared.happening.ConnectionEvent.{ConnectionEvent};
ghost use Rattle.call_history.specs.declared.happening.Happening.TheVariants.{Took, Op, Moment, Charged, Drawn, Counted, Redacted, Sent, Refused};
ghost use Rattle.call_history.specs.declared.happening.AcceptedCall.{AcceptedCall};
ghost use Rattle.engine_core.specs.declared.call_row.TheConstants.{MAX_CALLS};

use engine_core::{change_preserves_chain, outcome_is_unique};
use policy_redact::{clear_is_idempotent, clear_preserves_normal_form, clears_commute};

/// The trace of a connection after events are appended to a history.
pub fn histories_after_event()
    ensures joined { (conn : ℕ) (h k : History) → trace_of conn (h ++ k) ≡ trace_of conn k ++ trace_of conn h }
    ensures one_more { (conn : ℕ) (h : History) (x : ConnectionEvent) → x.conn ≡ conn
        → trace_of conn (h ++ x ∷ []) ≡ x.what ∷ trace_of conn h }
    ensures prefix { (u : JudgeContext) (h : History) (x : ConnectionEvent) → x.conn ≡ u.conn → IsLegalPrefix u (trace_of u.conn h)
        → CanFollow u (trace_of u.conn h) x.what → IsLegalPrefix u (trace_of u.conn (h ++ x ∷ [])) }
    ensures earlier { (u : JudgeContext) (h : History) (x : ConnectionEvent) → x.conn ≡ u.conn
        → IsLegalPrefix u (trace_of u.conn (h ++ x ∷ [])) → IsLegalPrefix u (trace_of u.conn h) }
    ensures may { (u : JudgeContext) (h : History) (x : ConnectionEvent) → x.conn ≡ u.conn
        → IsLegalPrefix u (trace_of u.conn (h ++ x ∷ [])) → CanFollow u (trace_of u.conn h) x.what }
{}

/// The sent frames after one more event: the earlier ones, then what the event sends on its own connection.
pub fn frames_after_event()
    ensures { (T : Table) (h : History) (x : ConnectionEvent)
        → frames T (h ++ x ∷ []) ≡ frames T h ++ frames_sent_by T x.conn x.what (trace_of x.conn h) }
{}

/// Events of other connections don't affect a connection: neither its trace nor whether the trace is legal.
pub fn connections_are_independent()
    ensures behind { (conn : ℕ) (h k : History) → All (λ x. x.conn ≢ conn) k → trace_of conn (h ++ k) ≡ trace_of conn h }
    ensures legal { (u : JudgeContext) (h k : History) → All (λ x. x.conn ≢ u.conn) k → IsLegalTrace u (trace_of u.conn h)
        → IsLegalTrace u (trace_of u.conn (h ++ k)) }
    ensures one { (T : Table) (limit conn : ℕ) (h k : History) → IsLegal T limit h → All (λ x. x.conn ≡ conn) k
        → IsLegalTrace (record { conn = conn; table = T; limit = limit }) (trace_of conn (h ++ k))
        → IsLegal T limit (h ++ k) }
{}

/// The chain after an operation.
pub fn chain_after_event()
    ensures step { (past : Trace) (step : Step) → chain (Op step ∷ past) ≡ changed step (chain past) }
    ensures computes { (before after : Chain) (step : Step) → IsChain before → HasChanged before step after
        → after ≡ changed step before }
    ensures is_chain { (u : JudgeContext) (past : Trace) → IsLegalPrefix u past → IsChain (chain past) }
{
    change_preserves_chain();
}

/// The level of a name's bucket after one more event.
pub fn levels_after_event()
    ensures attached { (past : Trace) (at : ℕ) (name label : List ℕ) (policy : Policy)
        → level_in_trace name (Op (Attach at name label policy) ∷ past) ≡ initial_level policy }
    ensures attached_other { (past : Trace) (at : ℕ) (name other label : List ℕ) (policy : Policy) → name ≢ other
        → level_in_trace other (Op (Attach at name label policy) ∷ past) ≡ level_in_trace other past }
    ensures upgraded { (past : Trace) (name label : List ℕ) (policy : Policy)
        → level_in_trace name (Op (Upgrade name label policy) ∷ past)
        ≡ converted (policy_in_trace name past) policy (level_in_trace name past) }
    ensures upgraded_other { (past : Trace) (name other label : List ℕ) (policy : Policy) → name ≢ other
        → level_in_trace other (Op (Upgrade name label policy) ∷ past) ≡ level_in_trace other past }
    ensures filled { (past : Trace) (ms : ℕ) (name : List ℕ)
        → level_in_trace name (Moment ms ∷ past) ≡ filled (policy_in_trace name past) (ms - timestamp past) (level_in_trace name past) }
    ensures charged { (past : Trace) (seq left : ℕ) (name : List ℕ)
        → level_in_trace name (Charged seq name left ∷ past) ≡ left }
    ensures charged_other { (past : Trace) (seq left : ℕ) (name other : List ℕ) → name ≢ other
        → level_in_trace other (Charged seq name left ∷ past) ≡ level_in_trace other past }
{}

/// What the entry with a name noted of a call, after one more event.
pub fn notes_after_event()
    ensures attached { (past : Trace) (at seq : ℕ) (name label : List ℕ) (policy : Policy)
        → noted name seq (Op (Attach at name label policy) ∷ past) ≡ nothing }
    ensures attached_other { (past : Trace) (at seq : ℕ) (name other label : List ℕ) (policy : Policy) → name ≢ other
        → noted other seq (Op (Attach at name label policy) ∷ past) ≡ noted other seq past }
    ensures charged { (past : Trace) (seq left : ℕ) (name : List ℕ)
        → noted name seq (Charged seq name left ∷ past) ≡ charged }
    ensures charged_another { (past : Trace) (seq s left : ℕ) (name other : List ℕ) → seq ≢ s
        → noted other s (Charged seq name left ∷ past) ≡ noted other s past }
    ensures charged_elsewhere { (past : Trace) (seq s left : ℕ) (name other : List ℕ) → name ≢ other
        → noted other s (Charged seq name left ∷ past) ≡ noted other s past }
    ensures drawn { (past : Trace) (seq window ticket : ℕ) (name : List ℕ)
        → noted name seq (Drawn seq name window ticket ∷ past) ≡ drawn ticket }
    ensures drawn_another { (past : Trace) (seq s window ticket : ℕ) (name other : List ℕ) → seq ≢ s
        → noted other s (Drawn seq name window ticket ∷ past) ≡ noted other s past }
    ensures drawn_elsewhere { (past : Trace) (seq s window ticket : ℕ) (name other : List ℕ) → name ≢ other
        → noted other s (Drawn seq name window ticket ∷ past) ≡ noted other s past }
    ensures counted { (past : Trace) (seq : ℕ) (name : List ℕ) → noted name seq (Counted seq name ∷ past) ≡ counted }
    ensures counted_another { (past : Trace) (seq s : ℕ) (name other : List ℕ) → seq ≢ s
        → noted other s (Counted seq name ∷ past) ≡ noted other s past }
    ensures counted_elsewhere { (past : Trace) (seq s : ℕ) (name other : List ℕ) → name ≢ other
        → noted other s (Counted seq name ∷ past) ≡ noted other s past }
{}

/// The form of a call after an acceptance or a redaction.
pub fn forms_after_event()
    ensures taken { (conn : ℕ) (past : Trace) (call : AcceptedCall)
        → form conn call.seq (Took call ∷ past) ≡ copied conn call call.copy }
    ensures taken_another { (conn seq : ℕ) (past : Trace) (call : AcceptedCall) → call.seq ≢ seq
        → form conn seq (Took call ∷ past) ≡ form conn seq past }
    ensures cleared { (conn seq version : ℕ) (name : List ℕ) (past : Trace)
        → form conn seq (Redacted seq name version ∷ past)
        ≡ option_map (redacted (policy_in_trace name past)) (form conn seq past) }
    ensures cleared_another { (conn seq s version : ℕ) (name : List ℕ) (past : Trace) → seq ≢ s
        → form conn s (Redacted seq name version ∷ past) ≡ form conn s past }
{}

/// The pending calls after a call is accepted, sent or refused.
pub fn pending_after_event()
    ensures taken { (u : JudgeContext) (past : Trace) (call : AcceptedCall) → IsLegalPrefix u past
        → call.seq ≡ length (taken past) + 1 → pending_calls (Took call ∷ past) ≡ pending_calls past ++ call ∷ [] }
    ensures malformed { (u : JudgeContext) (past : Trace) (call : AcceptedCall) → IsLegalPrefix u past
        → call.seq ≡ length (taken past) + 1
        → pending_calls (Refused call.seq cause.Malformed ∷ Took call ∷ past) ≡ pending_calls past }
    ensures sent { (past : Trace) (seq bytes : ℕ)
        → pending_calls (Sent seq bytes ∷ past) ≡ filter (λ call. not (seq == call.seq)) (pending_calls past) }
    ensures sent_first { (u : JudgeContext) (past : Trace) (call : AcceptedCall) (others : List AcceptedCall) (bytes : ℕ) → IsLegalPrefix u past
        → pending_calls past ≡ call ∷ others → pending_calls (Sent call.seq bytes ∷ past) ≡ others }
    ensures refused { (past : Trace) (seq : ℕ) (why : Cause)
        → pending_calls (Refused seq why ∷ past) ≡ filter (λ call. not (seq == call.seq)) (pending_calls past) }
    ensures link_failed { (u : JudgeContext) (past : Trace) → IsLegalTrace u past
        → pending_calls (refused_for_link (pending_calls past) past) ≡ [] }
{}

/// In a legal history a call has at most one fate, and only accepted calls have one.
pub fn fate_is_unique()
    ensures once { (T : Table) (limit conn seq : ℕ) (h : History) → IsLegal T limit h
        → count_by (is_fate_of seq) (trace_of conn h) ≤ 1 }
    ensures accepted { (T : Table) (limit conn seq : ℕ) (h : History) → IsLegal T limit h
        → list_any (is_fate_of seq) (trace_of conn h) ≡ true → seq ≤ length (taken (trace_of conn h)) }
{}

/// In a legal history the calls of a connection are sent in the order of their numbers.
pub fn sent_in_order()
    ensures { (T : Table) (limit conn m n a b : ℕ) (h : History) (later between earlier : Trace) → IsLegal T limit h
        → trace_of conn h ≡ later ++ Sent n b ∷ between ++ Sent m a ∷ earlier → m < n }
{}

/// In a legal history at most `MAX_CALLS` calls of a connection are pending. Each has a copy, and a form of its
/// method and kind with a normal tree.
pub fn pending_calls_have_forms()
    ensures few { (T : Table) (limit conn : ℕ) (h : History) → IsLegal T limit h
        → length (pending_calls (trace_of conn h)) ≤ MAX_CALLS }
    ensures copies { (u : JudgeContext) (past : Trace) (call : AcceptedCall) → IsLegalTrace u past → Contains (pending_calls past) call
        → HasNoCopy call.copy → ⊥ }
    ensures forms { (u : JudgeContext) (past : Trace) (call : AcceptedCall) → IsLegalTrace u past → Contains (pending_calls past) call
        → HasForm u past call }
{
    clear_preserves_normal_form();
}

/// In a legal history no call is charged, drawn for or counted twice since one attachment.
pub fn noted_once()
    ensures charged { (T : Table) (limit conn seq left : ℕ) (name : List ℕ) (h : History) (later earlier : Trace)
        → IsLegal T limit h → trace_of conn h ≡ later ++ Charged seq name left ∷ earlier
        → noted name seq earlier ≡ nothing }
    ensures drawn { (T : Table) (limit conn seq window ticket : ℕ) (name : List ℕ) (h : History)
        (later earlier : Trace)
        → IsLegal T limit h → trace_of conn h ≡ later ++ Drawn seq name window ticket ∷ earlier
        → noted name seq earlier ≡ nothing }
    ensures counted { (T : Table) (limit conn seq : ℕ) (name : List ℕ) (h : History) (later earlier : Trace)
        → IsLegal T limit h → trace_of conn h ≡ later ++ Counted seq name ∷ earlier
        → noted name seq earlier ≡ nothing }
{
    change_preserves_chain();
}

/// In a legal history no call is redacted twice under one attachment and version.
pub fn redacted_once()
    ensures { (T : Table) (limit conn seq version : ℕ) (name : List ℕ) (h : History) (later earlier : Trace)
        → IsLegal T limit h → trace_of conn h ≡ later ++ Redacted seq name version ∷ earlier
        → Contains (cleared_in name seq earlier) version → ⊥ }
{
    change_preserves_chain();
    clear_is_idempotent();
    clears_commute();
}

/// The invariant of a connection holds initially, and each transition preserves it. So after any list of
/// transitions the history is legal, and the row has the pending calls, in order, at legal positions.
pub fn transitions_preserve_invariant()
    ensures beginning { (u : JudgeContext) → IsValidState u initial_state }
    ensures event { (u : JudgeContext) (old new : ConnState) (event : Transition) → IsValidState u old → IsTransition u old event new
        → IsValidState u new }
    ensures events { (u : JudgeContext) (old new : ConnState) (events : List Transition) → IsValidState u old → AreTransitions u old events new
        → IsValidState u new }
{
    change_preserves_chain();
}

/// A transition leads from a state to at most one other. The outcome of a turn follows from the state, up to the
/// ticket that it draws.
pub fn transitions_are_deterministic()
    ensures end { (u : JudgeContext) (old new other : ConnState) (event : Transition) → IsTransition u old event new
        → IsTransition u old event other → new ≡ other }
    ensures turn { (u : JudgeContext) (c : ConnState) (position s t : ℕ) (a b : Outcome) (d e : Entry)
        → IsEntryTurn u c position s a d → IsEntryTurn u c position t b e → (s ≡ t) × (d ≡ e)
        × (ticket_in (note (noted_in a)) ≡ ticket_in (note (noted_in b)) → a ≡ b) }
{
    outcome_is_unique();
}

/// A drain preserves the invariant of a connection. A complete drain settles it: no call is ready, and the first
/// call at each position is held there.
pub fn drains_settle()
    ensures begins { (u : JudgeContext) (old new : ConnState) → IsValidState u old → HasPartlyDrained u old new → IsValidState u new }
    ensures whole { (u : JudgeContext) (old new : ConnState) → IsValidState u old → HasDrained u old new → IsValidState u new }
    ensures fails { (u : JudgeContext) (old new : ConnState) → IsValidState u old → HasFailedDrain u old new → IsValidState u new }
    ensures settled { (u : JudgeContext) (old new : ConnState) → IsValidState u old → HasDrained u old new
        → IsSettled u new.past (map (λ call. call.1) new.row) }
{
    change_preserves_chain();
}

/// For a valid table, a call's encoding after a redaction is never longer than before.
pub fn clears_shorten()
    ensures { (T : Table) (clears : List Clear) (call : Call) → IsValid T → IsCallOf T call
        → length (payload T (cleared_call clears call)) ≤ length (payload T call) }
{}
