//! Engines, and the states in which they are moved.

ghost use Rattle.std.specs.Prelude.{◌≡◌, ◌+◌, ◌-◌, ◌<◌, ◌≤◌, ◌^◌, ℕ, true, false, max, List, [], ◌∷◌, length, IfSome, IfNone};

use crate::outcome::{Noted, Outcome};
use crate::policy::Policy;
use crate::standing::Standing;
use crate::work::{allow, allows, charge, clear, count, draw, has_note, is_noted, judge};
use mrpc_base::{Tickets, WINDOWS};
use mrpc_table::{Name, Table};
use policy_rate::Bucket;
use std::marker::Model;

/// An engine: it enforces the policy of one entry of a chain. Contracts see it as `EngineParts` of
/// `specs/Engines.antt`.
#[derive(Drop)]
pub struct Engine {
    name: Name,
    attach: u32,
    version: u32,
    policy: Policy,
    // The bucket of a rate policy. It is empty for other kinds of policies.
    bucket: Bucket,
}

/// The state of a decomposed engine. It does nothing until it is restored. It can be moved but not copied.
#[derive(Drop)]
pub struct State {
    engine: Engine,
}

impl Model for Engine {
    ghost use Rattle.engine_core.specs.Engines.{EngineParts};
    ghost use Rattle.engine_core.specs.Policies.{IsPolicy};

    ghost Value = { EngineParts };

    ghost view = { λ e. record {
      entry = record { name = e.name; attach = e.attach; version = e.version; policy = e.policy };
      level = e.bucket.level;
      last = e.bucket.last;
    } };

    ghost invariant = { λ e. IsPolicy e.policy };
}

impl Model for State {
    ghost use Rattle.engine_core.specs.Engines.{EngineParts};

    ghost Value = { EngineParts };

    ghost view = { λ s. s.engine };
}

impl Engine {
    ghost use Rattle.mrpc_table.specs.Calls.{IsCallOf};
    ghost use Rattle.policy_rate.specs.Level.{BucketEvent, moment, upgrade};
    ghost use Rattle.policy_rate.specs.declared.rate.Rate.{Rate as RatePolicy};
    ghost use Rattle.engine_core.specs.Policies.{IsPolicy, KnowsTenantOf, initial_level, is_same_kind, level_after_time, level_after_upgrade};
    ghost use Rattle.engine_core.specs.Chains.{new_entry, upgraded};
    ghost use Rattle.engine_core.specs.Engines.{IsHistoryOfBucket};
    ghost use Rattle.engine_core.specs.Answers.{IsEntryAnswer, hold};
    ghost use Rattle.engine_core.specs.Marks.{IsTrueFor, PendingCall, other_marks, past_of};
    ghost use Rattle.std.specs.Bool.{OnFalse, OnTrue};
    ghost use Rattle.engine_core.specs.EngineSteps.{IsEngineStep};
    ghost use Rattle.engine_core.specs.declared.outcome.Noted.TheVariants.{Nothing};
    ghost use Rattle.engine_core.specs.declared.outcome.Outcome.TheVariants.{Passed};
    ghost use Rattle.engine_core.specs.Turns.{IsElsewhere, IsRecordedDraw, is_draw, noted_in};
    ghost use Rattle.engine_core.specs.Working.{IsTurn, IsCallAfter, IsEngineAfter, AreMarksAfterTurn, AreTicketsAfterTurn};

    /// An engine for a policy that is attached at the timestamp `now`, in milliseconds. It has version 1 and a full
    /// bucket. Like every call of an engine, it allocates nothing.
    pub fn new(name: Name, attach: u32, policy: Policy, now: u64) -> Engine
        requires { IsPolicy policy }
        ensures entry { result.entry ≡ new_entry name attach policy }
        ensures level { result.level ≡ initial_level policy }
        ensures last { result.last ≡ now }
        ensures past { (rate : RatePolicy) → policy ≡ Policy.Rate rate → IsHistoryOfBucket result rate now [] }
    {
        let bucket = match &policy {
            Policy::Rate(rate) => Bucket::full(rate, now),
            Policy::Access(_) | Policy::Quota { .. } | Policy::Count | Policy::Redact(_) => Bucket {
                level: 0,
                last: now,
            },
        };
        Engine {
            name,
            attach,
            version: 1,
            policy,
            bucket,
        }
    }

    /// The name of its entry.
    pub fn name(&self) -> &Name
        ensures { result.now ≡ self.now.entry.name }
    {
        &self.name
    }

    /// The version: 1 plus the number of upgrades of its entry.
    pub fn version(&self) -> u32
        ensures { result ≡ self.now.entry.version }
    {
        self.version
    }

    /// The policy that it enforces.
    pub fn policy(&self) -> &Policy
        ensures policy { result.now ≡ self.now.entry.policy }
        ensures ranges { IsPolicy result.now }
    {
        &self.policy
    }

    // The number of its attachment.
    pub(crate) fn attach(&self) -> u32
        ensures { result ≡ self.now.entry.attach }
    {
        self.attach
    }

    /// Advances its bucket to a timestamp. An earlier timestamp counts as the last one.
    pub fn clock(&mut self, now: u64)
        ensures level { self.new.level ≡ level_after_time self.old.entry.policy self.old.level (now - self.old.last) }
        ensures last { self.new.last ≡ max self.old.last now }
        ensures entry { self.new.entry ≡ self.old.entry }
        ensures past { (first : RatePolicy) (start : ℕ) (past : List BucketEvent)
            → IsHistoryOfBucket self.old first start past → IsHistoryOfBucket self.new first start (moment now ∷ past) }
    {
        match &self.policy {
            Policy::Rate(rate) => self.bucket.clock(rate, now),
            Policy::Access(_) | Policy::Quota { .. } | Policy::Count | Policy::Redact(_) => {
                self.bucket.last = self.bucket.last.max(now);
            }
        }
    }

    /// Works on a call of the table, which has marks of at most seven other engines. If the mark of this version is
    /// true, each turn is one of the engine's entry. It first notes what is due. Then the call passes, is held or is
    /// refused; or fields are cleared and it starts over. The bucket's level is that of the last `clock`; a quota's
    /// window is that of `now`.
    pub fn work<Q: Tickets>(
        &mut self,
        call: &mut Standing,
        table: &Table,
        now: u64,
        tickets: &mut Q,
    ) -> Outcome
        requires call { IsCallOf table.now call.old.call }
        requires room { length (other_marks self.old.entry.attach call.old.marks) ≤ 7 }
        requires known { KnowsTenantOf (Q.knows tickets.old) self.old.entry.policy }

        // The outcome, and the effects of the turn.
        ensures comes_out { IsTurn self.old now call.old result }
        ensures engine { IsEngineAfter result self.old self.new }
        ensures call { IsCallAfter self.old.entry.policy result call.old.call call.new.call }
        ensures marks { AreMarksAfterTurn self.old.entry result call.old call.new }
        ensures tickets { AreTicketsAfterTurn Q.knows Q.drawn Q.since self.old.entry.policy (noted_in result)
            tickets.old tickets.new }
    {
        self.turn(call, table, now, tickets)
    }

    // Passes a call of the table, if there is nothing to note. That is so if the access policy allows the call or
    // already did in this version, or if the rate or the count has noted it. If it returns false, nothing has
    // changed, and a turn decides. The search for the engine's mark starts at the index `likely`.
    pub(crate) fn pass_unnoted(&self, call: &mut Standing, likely: usize, table: &Table) -> bool
        requires call { IsCallOf table.now call.old.call }
        requires room { length (other_marks self.now.entry.attach call.old.marks) ≤ 7 }
        ensures passed { OnTrue result ((moment : ℕ) → IsEngineStep self.now.entry.policy self.now.entry.attach
            self.now.entry.version self.now.level moment call.old call.new self.now.level (Passed Nothing)) }
        ensures as_before { OnFalse result (call.new ≡ call.old) }
    {
        let note = call.note_at(likely, self.attach);
        match &self.policy {
            Policy::Access(access) => {
                allows(note, self.version)
                    || allow(access, self.attach, self.version, note, call, table)
            }
            Policy::Rate(_) => has_note(note),
            Policy::Count => has_note(note),
            Policy::Quota { .. } | Policy::Redact(_) => false,
        }
    }

    // A turn, case by case.
    fn turn<Q: Tickets>(
        &mut self,
        call: &mut Standing,
        table: &Table,
        now: u64,
        tickets: &mut Q,
    ) -> Outcome
        requires call { IsCallOf table.now call.old.call }
        requires room { length (other_marks self.old.entry.attach call.old.marks) ≤ 7 }
        requires known { KnowsTenantOf (Q.knows tickets.old) self.old.entry.policy }
        ensures step { IsEngineStep self.old.entry.policy self.old.entry.attach self.old.entry.version
            self.old.level now call.old call.new self.new.level result }
        ensures last { self.new.last ≡ self.old.last }
        ensures entry { self.new.entry ≡ self.old.entry }
        ensures drawn { IsRecordedDraw (Q.drawn tickets.old) (Q.drawn tickets.new) self.old.entry.policy (noted_in result) }
        ensures elsewhere { (t w : ℕ) → Q.knows tickets.old t → w < WINDOWS
            → IsElsewhere self.old.entry.policy (noted_in result) t w
            → Q.drawn tickets.new t w ≡ Q.drawn tickets.old t w }
        ensures knows { (t : ℕ) → Q.knows tickets.old t → Q.knows tickets.new t }
        ensures undrawn { is_draw (noted_in result) ≡ false → tickets.new ≡ tickets.old }
        ensures since { (first : Q) → Q.since first tickets.old → Q.since first tickets.new }
    {
        match &self.policy {
            Policy::Access(access) => judge(access, self.attach, self.version, call, table),
            Policy::Rate(rate) => charge(rate, &mut self.bucket, self.attach, call),
            Policy::Quota { tenant, per, cap } => {
                draw(*tenant, *per, *cap, self.attach, call, now, tickets)
            }
            Policy::Count => count(self.attach, call),
            Policy::Redact(redact) => clear(redact, call),
        }
    }

    /// The level and the cost for which it holds a call, or `None`. It holds a call if its rate policy holds calls,
    /// the call has no mark of it, and the level is below the cost.
    pub fn held(&self, call: &Standing) -> Option<(u64, u64)>
        ensures holds { IfSome result (λ h. (moment : ℕ)
            → IsEntryAnswer self.now.entry.policy self.now.level moment call.now.call
            (past_of call.now.marks self.now.entry.attach) (hold h.0 h.1)) }
        ensures none { IfNone result ((moment level cost : ℕ)
            → IsEntryAnswer self.now.entry.policy self.now.level moment call.now.call
            (past_of call.now.marks self.now.entry.attach) (hold level cost) → ⊥) }
    {
        match &self.policy {
            Policy::Rate(rate) if rate.hold && self.bucket.level < rate.per => {
                if is_noted(call, self.attach) {
                    return None;
                }
                Some((self.bucket.level, rate.per))
            }
            Policy::Access(_)
            | Policy::Rate(_)
            | Policy::Quota { .. }
            | Policy::Count
            | Policy::Redact(_) => None,
        }
    }

    /// Decomposes the engine, so that it can be restored with another policy.
    pub fn decompose(self) -> State
        ensures { result ≡ self }
    {
        State { engine: self }
    }

    /// Restores the engine of a state with a policy of the same kind, as the next version. Its level pays for as many
    /// calls as before, rounded down and up to a full bucket. Everything else is unchanged.
    pub fn restore(policy: Policy, state: State) -> Engine
        requires ranges { IsPolicy policy }
        requires kind { is_same_kind state.entry.policy policy ≡ true }
        requires number { state.entry.version + 1 < 2 ^ 32 }
        ensures entry { result.entry ≡ upgraded state.entry policy }
        ensures level { result.level ≡ level_after_upgrade state.entry.policy policy state.level }
        ensures last { result.last ≡ state.last }
        ensures past { (first rate : RatePolicy) (start : ℕ) (past : List BucketEvent)
            → policy ≡ Policy.Rate rate → IsHistoryOfBucket state first start past
            → IsHistoryOfBucket result first start (upgrade rate ∷ past) }

        // Marks that were true for the previous version are true for the new one.
        ensures stays_true { (s : PendingCall) → IsTrueFor state.entry s → IsTrueFor result.entry s }
    {
        let old = state.engine;
        let mut bucket = old.bucket;
        match (&old.policy, &policy) {
            (Policy::Rate(before), Policy::Rate(after)) => bucket.convert(before, after),
            (
                Policy::Access(_)
                | Policy::Rate(_)
                | Policy::Quota { .. }
                | Policy::Count
                | Policy::Redact(_),
                _,
            ) => {}
        }
        Engine {
            name: old.name,
            attach: old.attach,
            version: old.version + 1,
            policy,
            bucket,
        }
    }
}
