//! Laws of answers, of marks and of chains. The functions have no effect: each clause is a law.

ghost use Rattle.std.specs.Prelude.{◌≡◌, ◌+◌, ◌-◌, ◌*◌, ◌/◌, ◌≤◌, ◌++◌, ◌⊎◌, ℕ, List, None, length};
ghost use Rattle.mrpc_table.specs.declared.call.Call.{Call};
ghost use Rattle.policy_access.specs.Verdict.{AccessPolicy};
ghost use Rattle.policy_rate.specs.Level.{BucketEvent, HasNoUpgrade, charges, rate_after};
ghost use Rattle.policy_rate.specs.declared.rate.Rate.{Rate};
ghost use Rattle.engine_core.specs.Answers.{IsAllowedBy, Answer, IsEntryAnswer, Past, deny, note, past_after, ticket_in};
ghost use Rattle.engine_core.specs.Chains.{Chain, HasChanged, Entry, IsChain, Refusal, IsRejection, changed};
ghost use Rattle.engine_core.specs.Engines.{EngineParts, IsHistoryOfBucket};
ghost use Rattle.engine_core.specs.Marks.{IsTrueFor, PendingCall, note_of};
ghost use Rattle.engine_core.specs.Policies.{IsNoting, IsPolicy};
ghost use Rattle.engine_core.specs.Turns.{IsTurnOutcome, noted_in};
ghost use Rattle.engine_core.specs.declared.op.Op.{Op};
ghost use Rattle.engine_core.specs.declared.outcome.Noted.{Noted};
ghost use Rattle.engine_core.specs.declared.outcome.Outcome.{Outcome};
ghost use Rattle.engine_core.specs.declared.policy.Policy.{Policy};

use policy_rate::charges_are_bounded;

/// An entry has exactly one answer to a call, except that the ticket of a draw may be any.
pub fn answer_is_unique()
    ensures at_most { (policy : Policy) (level moment : ℕ) (form : Call) (past : Past) (a b : Answer)
        → IsEntryAnswer policy level moment form past a → IsEntryAnswer policy level moment form past b
        → ticket_in a ≡ ticket_in b → a ≡ b }
    ensures at_least { (policy : Policy) (level moment : ℕ) (form : Call) (past : Past)
        → (answer : Answer) × IsEntryAnswer policy level moment form past answer }
{}

/// A turn has at most one outcome, except that the ticket of a draw may be any.
pub fn outcome_is_unique()
    ensures { (policy : Policy) (level moment : ℕ) (form : Call) (past : Past) (a b : Outcome)
        → IsTurnOutcome policy level moment form past a → IsTurnOutcome policy level moment form past b
        → ticket_in (note (noted_in a)) ≡ ticket_in (note (noted_in b)) → a ≡ b }
{}

/// A call that passed is allowed after the turn, with what was noted of it.
pub fn passed_is_allowed()
    ensures { (policy : Policy) (level moment other later : ℕ) (form : Call) (past : Past) (noted : Noted)
        → IsTurnOutcome policy level moment form past (Outcome.Passed noted)
        → IsAllowedBy policy other later form (past_after noted past) }
{}

/// Whether an entry allows a call depends neither on the level of its bucket nor on the timestamp. For a policy that
/// notes calls, it depends on the notes alone.
pub fn allows_at_any_time()
    ensures at_any_time { (policy : Policy) (level moment other later : ℕ) (form : Call) (past : Past)
        → IsAllowedBy policy level moment form past → IsAllowedBy policy other later form past }
    ensures by_notes { (policy : Policy) (level moment other later : ℕ) (form another : Call) (past : Past)
        → IsNoting policy → IsAllowedBy policy level moment form past → IsAllowedBy policy other later another past }
{}

/// An access policy denies a call by one of its rules, or by its default.
pub fn denied_by_a_rule()
    ensures { (p : AccessPolicy) (level moment rule : ℕ) (form : Call) (past : Past)
        → IsEntryAnswer (Policy.Access p) level moment form past (deny rule) → rule ≤ length p.rules }
{}

/// Between two timestamps without an upgrade, an engine of a rate policy charges at most as many calls as a full
/// bucket and the time between them pay for.
pub fn engine_charges_are_bounded()
    ensures { (before after : EngineParts) (first : Rate) (start : ℕ) (past recent : List BucketEvent)
        → IsPolicy before.entry.policy → IsHistoryOfBucket before first start past → IsHistoryOfBucket after first start (recent ++ past)
        → HasNoUpgrade recent
        → let rate = rate_after first past in
        charges recent ≤ (rate.burst * rate.per + rate.amount * (after.last - before.last)) / rate.per }
{
    charges_are_bounded();
}

/// If a call has no mark of an entry's attachment, its marks are true for the entry.
pub fn unmarked_is_true()
    ensures { (e : Entry) (s : PendingCall) → note_of s.marks e.attach ≡ None → IsTrueFor e s }
{}

/// An operation changes a chain in exactly one way or is rejected for exactly one reason, never both.
pub fn change_or_rejection()
    ensures one_chain { (before after other : Chain) (op : Op) → IsChain before → HasChanged before op after
        → HasChanged before op other → after ≡ other }
    ensures one_refusal { (chain : Chain) (op : Op) (r s : Refusal) → IsRejection chain op r → IsRejection chain op s → r ≡ s }
    ensures either { (before : Chain) (op : Op) → IsChain before
        → ((after : Chain) × HasChanged before op after) ⊎ ((refusal : Refusal) × IsRejection before op refusal) }
    ensures not_both { (before after : Chain) (op : Op) (refusal : Refusal) → HasChanged before op after
        → IsRejection before op refusal → ⊥ }
{}

/// After an operation there are at most eight entries, with distinct names and attachments.
pub fn change_preserves_chain()
    ensures { (before after : Chain) (op : Op) → IsChain before → HasChanged before op after → IsChain after }
{}

/// A chain after an operation is `changed`, unless there is a reason to reject the operation.
pub fn changed_is_the_change()
    ensures only { (before after : Chain) (op : Op) → IsChain before → HasChanged before op after
        → after ≡ changed op before }
    ensures unless_refused { (before : Chain) (op : Op) → IsChain before
        → ((refusal : Refusal) → IsRejection before op refusal → ⊥) → HasChanged before op (changed op before) }
{}
