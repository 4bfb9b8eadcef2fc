//! The chain of a connection.

ghost use Rattle.std.specs.Prelude.{◌≡◌, ◌+◌, ◌-◌, ◌<◌, ◌≤◌, ◌^◌, ◌↔◌, ◌++◌, ◌∷◌, [], ℕ, List, All, Contains, IfErr, IfNone, IfOk, IfSome, IsErr, IsSomeAnd, MatchOption, None, OnErr, OnOk, Some, filter, insert, length, map, max, nat_le, remove, set, slice_get};
ghost use Rattle.std.specs.Bool.{OnFalse, OnTrue};
ghost use Rattle.mrpc_table.specs.Calls.{IsCallOf};
ghost use Rattle.engine_core.specs.declared.op.Op.{Op};

use crate::attaching::may_attach;
use crate::cuts::{Cuts, without};
use crate::fault::{ChainFault, PushFault};
use crate::turned::Turned;
use engine_core::{
    CallRow, Engine, MAX_CALLS, MAX_ENGINES, Noted, Outcome, Policy, Standing,
    change_preserves_chain, changed_is_the_change, clock_all, insert_within_capacity, position_of,
    unmarked_is_true,
};
use mrpc_base::Tickets;
use mrpc_table::{Memory, Name, Table};
use std::alloc::Global;
use std::marker::Model;

/// A chain of engines with its pending calls. Contracts see it as `ChainParts` of `specs/Chains.antt`.
#[derive(Drop)]
pub struct Chain {
    engines: Vec<Engine>,
    attached: u32,
    row: CallRow,
    cuts: Cuts,
    // The number of calls, from the first of the row, that may have marks of detached engines: those that were
    // pending at the last detachment.
    stale: u32,
}

impl Model for Chain {
    ghost use Rattle.std.specs.Prelude.{vec_capacity};
    ghost use Rattle.engine_core.specs.Marks.{seqs_of};
    ghost use Rattle.chain_upgrade.specs.Chains.{ChainParts};
    ghost use Rattle.chain_upgrade.specs.Cuts.{row_from};
    ghost use Rattle.chain_upgrade.specs.Kept.{HasOnlyMarksInSuffix, IsKept};

    ghost Value = { ChainParts };

    ghost use Rattle.std.specs.Coded.{codes};
    ghost use Rattle.mrpc_table.specs.contracts.call.Call as c;

    ghost coded = { Prim.hlevel (codes, c.the_row.coded) };

    ghost view = { λ c. record {
      engines = c.engines.items;
      attached = c.attached;
      calls = c.row;
      row = row_from 0 c.cuts.behind (seqs_of c.row);
    } };

    ghost invariant = { λ c. IsKept c.engines.items (vec_capacity c.engines) c.attached c.row c.cuts.behind
        × HasOnlyMarksInSuffix c.engines.items c.stale c.row };
}

impl Chain {
    ghost use Rattle.policy_rate.specs.declared.rate.Rate.{Rate as RatePolicy};
    ghost use Rattle.policy_rate.specs.Level.{BucketEvent, moment, upgrade};
    ghost use Rattle.engine_core.specs.declared.call_row.TheConstants.{MAX_CALLS};
    ghost use Rattle.engine_core.specs.Answers.{IsEntryAnswer, hold};
    ghost use Rattle.engine_core.specs.Chains.{HasChanged, IsRejection, new_entry, upgraded};
    ghost use Rattle.engine_core.specs.Engines.{EngineParts, IsHistoryOfBucket, clocked};
    ghost use Rattle.engine_core.specs.Marks.{PendingCall, past_of};
    ghost use Rattle.engine_core.specs.Moves.{returned_to, first_at, moved_up, position_of as place_in};
    ghost use Rattle.engine_core.specs.Policies.{IsPolicy, KnowsTenantOf, initial_level, level_after_upgrade};
    ghost use Rattle.engine_core.specs.Turns.{noted_in};
    ghost use Rattle.engine_core.specs.declared.outcome.Noted.TheVariants.{Nothing};
    ghost use Rattle.engine_core.specs.declared.outcome.Outcome.TheVariants.{Passed};
    ghost use Rattle.engine_core.specs.Working.{AreTicketsAfterTurn, HasWorked};
    ghost use Rattle.chain_upgrade.specs.Kept.{remaining_calls};
    ghost use Rattle.chain_upgrade.specs.Chains.{IsEngineTurn, IsChainState, OnTurn, IsUnnotedPass, chain_of_state, refusal_in, row_after};

    /// A chain without engines and without calls. It allocates room for all of them, so no later call of a chain
    /// allocates.
    pub fn open(alloc: Global) -> Result<Chain, Memory>
        ensures { IfOk result (λ c. c ≡ record { engines = []; attached = 0; calls = []; row = [] }) }
    {
        Ok(Chain {
            engines: Vec::with_capacity(alloc, MAX_ENGINES)?,
            attached: 0,
            row: CallRow::open(alloc)?,
            cuts: Cuts::new(),
            stale: 0,
        })
    }

    /// A law; the function has no effect. The invariant of chains.
    pub fn is_chain_state(&self)
        ensures { IsChainState self.now }
    {
        let _ = &self.cuts;
    }

    // ---- calls

    /// Appends a call, at position 0. Returns it if `MAX_CALLS` are pending.
    pub fn push(&mut self, call: Standing) -> Result<(), PushFault>
        requires unmarked { call.marks ≡ [] }
        requires greater { All (λ s. s.call.seq < call.call.seq) self.old.calls }
        ensures full { IsErr result ↔ (length self.old.calls ≡ MAX_CALLS) }
        ensures given_back { IfErr result (λ fault. fault ≡ PushFault.Standing call) }
        ensures as_before { OnErr result (self.new ≡ self.old) }
        ensures stands { OnOk result (self.new ≡ record self.old {
          calls = self.old.calls ++ call ∷ [];
          row = self.old.row ++ (call.call.seq, 0) ∷ [];
        }) }
    {
        unmarked_is_true();
        if self.row.len() == MAX_CALLS {
            return Err(PushFault::Standing(call));
        }
        self.row.push(call);
        Ok(())
    }

    /// The pending calls, by ascending number.
    pub fn calls(&self) -> &CallRow
        ensures { result.now ≡ self.now.calls }
    {
        &self.row
    }

    /// The number of calls pending at position `i` or a later one. The number of engines is the position for
    /// transport.
    pub fn cut(&self, i: u32) -> u32
        requires { i ≤ length self.now.engines }
        ensures { result ≡ length (filter (λ call. nat_le i call.1) self.now.row) }
    {
        if i == 0 {
            self.row.len() as u32
        } else {
            self.cuts.behind[i as usize - 1]
        }
    }

    /// The number and the position of the pending call at an index, by ascending number.
    pub fn standing(&self, i: u32) -> Option<(u32, u32)>
        ensures { result ≡ slice_get self.now.row i }
    {
        if i as usize >= self.row.len() {
            return None;
        }
        let seq = self.row.at(i as usize).call().seq;
        Some((seq, self.cuts.position(i)))
    }

    /// The first call that is ready for transport.
    pub fn head(&self) -> Option<&Standing>
        ensures none { IfNone result (first_at (length self.now.engines) self.now.row ≡ None) }
        ensures call { IfSome result (λ s. slice_get self.now.calls 0 ≡ Some s.now) }
        ensures ready { IfSome result (λ s. first_at (length self.now.engines) self.now.row
            ≡ Some (s.now.call.seq, length self.now.engines)) }
    {
        if self.cut(self.engines()) == 0 {
            return None;
        }
        Some(self.row.at(0))
    }

    /// Takes the first call that is ready for transport.
    pub fn pop_ready(&mut self) -> Option<Standing>
        ensures none { IfNone result (first_at (length self.old.engines) self.old.row ≡ None) }
        ensures as_before { IfNone result (self.new ≡ self.old) }
        ensures call { IfSome result (λ s. self.old.calls ≡ s ∷ self.new.calls) }
        ensures ready { IfSome result (λ s. self.old.row ≡ (s.call.seq, length self.old.engines) ∷ self.new.row) }
        ensures engines { self.new.engines ≡ self.old.engines }
        ensures attached { self.new.attached ≡ self.old.attached }
    {
        if self.cut(self.engines()) == 0 {
            return None;
        }
        self.cuts.remove_call(0);
        self.stale = without(self.stale, 0);
        Some(self.row.take(0))
    }

    /// Drops all calls.
    pub fn drop_all(&mut self)
        ensures { self.new ≡ record self.old { calls = []; row = [] } }
    {
        self.cuts.lower_to(0);
        self.stale = 0;
        self.row.clear();
    }

    // ---- engines

    /// The number of engines.
    pub fn engines(&self) -> u32
        ensures count { result ≡ length self.now.engines }
        ensures few { result ≤ 8 }
    {
        self.engines.len() as u32
    }

    /// The engine at a position.
    pub fn engine(&self, at: u32) -> &Engine
        requires { at < length self.now.engines }
        ensures { slice_get self.now.engines at ≡ Some result.now }
    {
        &self.engines[at as usize]
    }

    /// The level and the cost for which the engine at a position holds the first call there, or `None`.
    pub fn held(&self, at: u32) -> Option<(u64, u64)>
        requires { at < length self.now.engines }
        ensures holds { IfSome result (λ h. (e : EngineParts) (s : PendingCall) (moment : ℕ)
            → slice_get self.now.engines at ≡ Some e → first_at at self.now.row ≡ Some (s.call.seq, at)
            → Contains self.now.calls s
            → IsEntryAnswer e.entry.policy e.level moment s.call (past_of s.marks e.entry.attach) (hold h.0 h.1)) }
        ensures stands { IfSome result (λ _. first_at at self.now.row ≡ None → ⊥) }
        ensures none { IfNone result ((e : EngineParts) (s : PendingCall) (moment level cost : ℕ)
            → slice_get self.now.engines at ≡ Some e → first_at at self.now.row ≡ Some (s.call.seq, at)
            → Contains self.now.calls s
            → IsEntryAnswer e.entry.policy e.level moment s.call (past_of s.marks e.entry.attach) (hold level cost) → ⊥) }
    {
        let place = self.first_index(at)?;
        self.engines[at as usize].held(self.row.at(place as usize))
    }

    /// Advances every bucket to a timestamp. An earlier timestamp counts as the last one.
    pub fn clock(&mut self, now: u64)
        ensures engines { self.new.engines ≡ map (λ e. clocked now e) self.old.engines }
        ensures past { (at : ℕ) (before after : EngineParts) (first : RatePolicy) (start : ℕ)
            (past : List BucketEvent)
            → slice_get self.old.engines at ≡ Some before → slice_get self.new.engines at ≡ Some after
            → IsHistoryOfBucket before first start past → IsHistoryOfBucket after first start (moment now ∷ past) }
        ensures attached { self.new.attached ≡ self.old.attached }
        ensures calls { self.new.calls ≡ self.old.calls }
        ensures row { self.new.row ≡ self.old.row }
    {
        clock_all(self.engines.as_mut_slice(), now);
    }

    // ---- operations

    /// Attaches a policy at a position, with a full bucket at the timestamp `now`, in milliseconds. Calls past the
    /// position return to it.
    pub fn attach(
        &mut self,
        at: u32,
        name: Name,
        policy: Policy,
        now: u64,
    ) -> Result<(), ChainFault>
        requires ranges { IsPolicy policy }
        requires number { self.old.attached + 1 < 2 ^ 32 }
        ensures refused { IfErr result (λ fault. (label : List ℕ) → IsSomeAnd (refusal_in fault) (λ refusal.
            IsRejection (chain_of_state self.old) (Op.Attach at name label policy) refusal)) }
        ensures as_before { OnErr result (self.new ≡ self.old) }
        ensures changes { OnOk result ((label : List ℕ)
            → HasChanged (chain_of_state self.old) (Op.Attach at name label policy) (chain_of_state self.new)) }
        ensures engines { OnOk result (self.new.engines ≡ insert self.old.engines at (record {
          entry = new_entry name (self.old.attached + 1) policy;
          level = initial_level policy;
          last = now;
        })) }
        ensures past { OnOk result ((e : EngineParts) (rate : RatePolicy) → slice_get self.new.engines at ≡ Some e
            → policy ≡ Policy.Rate rate → IsHistoryOfBucket e rate now []) }
        ensures attached { OnOk result (self.new.attached ≡ self.old.attached + 1) }
        ensures calls { self.new.calls ≡ self.old.calls }
        ensures row { OnOk result (self.new.row ≡ returned_to at self.old.row) }
    {
        unmarked_is_true();
        changed_is_the_change();
        change_preserves_chain();
        let name = may_attach(&self.engines, at, name)?;
        let attached = self.attached + 1;
        insert_within_capacity(
            &mut self.engines,
            at as usize,
            Engine::new(name, attached, policy, now),
        );
        self.attached = attached;
        self.cuts.zero_after(at as usize);
        Ok(())
    }

    /// Detaches the policy with a name. Calls past it move up by one.
    pub fn detach(&mut self, name: Name) -> Result<(), ChainFault>
        ensures refused { IfErr result (λ fault. IsSomeAnd (refusal_in fault) (λ refusal.
            IsRejection (chain_of_state self.old) (Op.Detach name) refusal)) }
        ensures as_before { OnErr result (self.new ≡ self.old) }
        ensures changes { OnOk result (HasChanged (chain_of_state self.old) (Op.Detach name) (chain_of_state self.new)) }
        ensures engines { OnOk result
            (self.new.engines ≡ remove self.old.engines (place_in name (chain_of_state self.old).entries)) }
        ensures attached { self.new.attached ≡ self.old.attached }
        ensures calls { self.new.calls ≡ self.old.calls }
        ensures row { OnOk result (self.new.row ≡ moved_up (place_in name (chain_of_state self.old).entries) self.old.row) }
    {
        changed_is_the_change();
        change_preserves_chain();
        let Some(place) = position_of(&self.engines, &name) else {
            return Err(ChainFault::NoSuch { name });
        };
        let _ = self.engines.remove(place);
        self.cuts.close_up(place);
        self.stale = self.row.len() as u32;
        Ok(())
    }

    /// Replaces the policy with a name by another one of its kind. The level pays for as many calls as before,
    /// rounded down and up to a full bucket. Calls past the policy's position return to that position.
    pub fn upgrade(&mut self, name: Name, policy: Policy) -> Result<(), ChainFault>
        requires ranges { IsPolicy policy }
        requires number { All (λ e. e.entry.version + 1 < 2 ^ 32) self.old.engines }
        ensures refused { IfErr result (λ fault. (label : List ℕ) → IsSomeAnd (refusal_in fault) (λ refusal.
            IsRejection (chain_of_state self.old) (Op.Upgrade name label policy) refusal)) }
        ensures as_before { OnErr result (self.new ≡ self.old) }
        ensures changes { OnOk result ((label : List ℕ)
            → HasChanged (chain_of_state self.old) (Op.Upgrade name label policy) (chain_of_state self.new)) }
        ensures engines { OnOk result ((e : EngineParts)
            → slice_get self.old.engines (place_in name (chain_of_state self.old).entries) ≡ Some e
            → self.new.engines ≡ set self.old.engines (place_in name (chain_of_state self.old).entries) (record {
              entry = upgraded e.entry policy;
              level = level_after_upgrade e.entry.policy policy e.level;
              last = e.last;
            })) }
        ensures past { OnOk result ((before after : EngineParts) (first rate : RatePolicy) (start : ℕ)
            (past : List BucketEvent)
            → slice_get self.old.engines (place_in name (chain_of_state self.old).entries) ≡ Some before
            → slice_get self.new.engines (place_in name (chain_of_state self.old).entries) ≡ Some after
            → policy ≡ Policy.Rate rate → IsHistoryOfBucket before first start past
            → IsHistoryOfBucket after first start (upgrade rate ∷ past)) }
        ensures attached { self.new.attached ≡ self.old.attached }
        ensures calls { self.new.calls ≡ self.old.calls }
        ensures row { OnOk result (self.new.row ≡ returned_to (place_in name (chain_of_state self.old).entries) self.old.row) }
    {
        changed_is_the_change();
        change_preserves_chain();
        let Some(place) = position_of(&self.engines, &name) else {
            return Err(ChainFault::NoSuch { name });
        };
        if !self.engines[place].policy().is_same_kind(&policy) {
            return Err(ChainFault::OtherKind { name });
        }
        let state = self.engines.remove(place).decompose();
        insert_within_capacity(&mut self.engines, place, Engine::restore(policy, state));
        self.cuts.zero_after(place);
        Ok(())
    }

    // ---- turns

    /// Advances the first call at a position past the engine there, if the call passes and there is nothing to note.
    /// That counts as a turn. If it returns false, nothing has changed, and a turn decides. It always returns false
    /// for a call that was pending when an engine was detached, and at each quota and redacting policy, which judge a
    /// call anew each time.
    pub fn pass_unnoted(&mut self, at: u32, table: &Table) -> bool
        requires at { at < length self.old.engines }
        requires calls { All (λ s. IsCallOf table.now s.call) self.old.calls }
        ensures passed { OnTrue result (IsUnnotedPass self.old at self.new) }
        ensures as_before { OnFalse result (self.new ≡ self.old) }
    {
        let Some(place) = self.first_index(at) else {
            return false;
        };
        self.is_chain_state();
        if !self.passes_unnoted(place, at, table) {
            return false;
        }
        self.settle(place, at, Outcome::Passed(Noted::Nothing));
        true
    }

    /// Runs a turn of the engine at a position with the first call there. The call's marks of detached engines are
    /// removed first. It allocates nothing.
    pub fn turn<Q: Tickets>(&mut self, at: u32, table: &Table, now: u64, tickets: &mut Q) -> Turned
        requires at { at < length self.old.engines }
        requires calls { All (λ s. IsCallOf table.now s.call) self.old.calls }
        requires known { All (λ e. KnowsTenantOf (Q.knows tickets.old) e.entry.policy) self.old.engines }
        ensures idle { (result ≡ Turned.Idle) ↔ (first_at at self.old.row ≡ None) }
        ensures as_before { result ≡ Turned.Idle → (self.new ≡ self.old) × (tickets.new ≡ tickets.old) }
        ensures first { OnTurn result (λ seq outcome. first_at at self.old.row ≡ Some (seq, at)) }
        ensures turn { OnTurn result (λ seq outcome. IsEngineTurn self.old at now seq outcome self.new) }
        ensures row { OnTurn result (λ seq outcome. self.new.row ≡ row_after seq outcome self.old.row) }
        ensures attached { self.new.attached ≡ self.old.attached }
        ensures tickets { OnTurn result (λ seq outcome. (e : EngineParts) → slice_get self.old.engines at ≡ Some e
            → AreTicketsAfterTurn Q.knows Q.drawn Q.since e.entry.policy (noted_in outcome) tickets.old tickets.new) }
    {
        let Some(place) = self.first_index(at) else {
            return Turned::Idle;
        };
        self.is_chain_state();
        let seq = self.row.at(place as usize).call().seq;
        let outcome = self.work(place, at, table, now, tickets);
        self.settle(place, at, outcome);
        Turned::turned_as(seq, outcome)
    }

    // The index of the first call at a position, if there is one: after all calls at later positions.
    fn first_index(&self, at: u32) -> Option<u32>
        requires { at < length self.now.engines }
        ensures none { IfNone result (first_at at self.now.row ≡ None) }
        ensures place { IfSome result (λ place. place ≡ length (filter (λ call. nat_le (at + 1) call.1) self.now.row)) }
        ensures below { IfSome result (λ place. place < length (filter (λ call. nat_le at call.1) self.now.row)) }
        ensures within { IfSome result (λ place. place < length self.now.calls) }
        ensures first { IfSome result (λ place. (s : PendingCall) → slice_get self.now.calls place ≡ Some s
            → first_at at self.now.row ≡ Some (s.call.seq, at)) }
    {
        let place = self.cuts.behind[at as usize];
        if place < self.cut(at) {
            Some(place)
        } else {
            None
        }
    }

    // Whether the call at an index passes the engine at a position with nothing to note.
    fn passes_unnoted(&mut self, place: u32, at: u32, table: &Table) -> bool
        requires place { place < length self.old.calls }
        requires at { at < length self.old.engines }
        requires calls { All (λ s. IsCallOf table.now s.call) self.old.calls }
        ensures works { OnTrue result ((moment : ℕ) → HasWorked self.old.engines self.old.calls at place moment
            (Passed Nothing) self.new.engines self.new.calls) }
        ensures as_before { OnFalse result (self.new ≡ self.old) }
        ensures attached { self.new.attached ≡ self.old.attached }
        ensures row { self.new.row ≡ self.old.row }
    {
        if place < self.stale {
            return false;
        }
        let engines = self.engines.as_slice();
        self.row
            .pass_unnoted(place as usize, engines, at as usize, table)
    }

    // The engine at a position works on the call at an index. The call's marks of detached engines are removed first.
    fn work<Q: Tickets>(
        &mut self,
        place: u32,
        at: u32,
        table: &Table,
        now: u64,
        tickets: &mut Q,
    ) -> Outcome
        requires place { place < length self.old.calls }
        requires at { at < length self.old.engines }
        requires calls { All (λ s. IsCallOf table.now s.call) self.old.calls }
        requires known { All (λ e. KnowsTenantOf (Q.knows tickets.old) e.entry.policy) self.old.engines }
        ensures works { HasWorked self.old.engines self.old.calls at place now result self.new.engines self.new.calls }
        ensures attached { self.new.attached ≡ self.old.attached }
        ensures row { self.new.row ≡ self.old.row }
        ensures tickets { (e : EngineParts) → slice_get self.old.engines at ≡ Some e
            → AreTicketsAfterTurn Q.knows Q.drawn Q.since e.entry.policy (noted_in result) tickets.old tickets.new }
    {
        let alone = place >= self.stale;
        self.row.work(
            place as usize,
            self.engines.as_mut_slice(),
            at as usize,
            table,
            now,
            tickets,
            alone,
        )
    }

    // Moves the call at an index, the first one at a position, by the outcome of its turn.
    fn settle(&mut self, place: u32, at: u32, outcome: Outcome)
        requires at { at < length self.old.engines }
        requires place { place ≡ length (filter (λ call. nat_le (at + 1) call.1) self.old.row) }
        requires below { place < length (filter (λ call. nat_le at call.1) self.old.row) }
        ensures row { (s : PendingCall) → slice_get self.old.calls place ≡ Some s
            → self.new.row ≡ row_after s.call.seq outcome self.old.row }
        ensures calls { self.new.calls ≡ remaining_calls outcome place self.old.calls }
        ensures engines { self.new.engines ≡ self.old.engines }
        ensures attached { self.new.attached ≡ self.old.attached }
    {
        match outcome {
            Outcome::Passed(_) => self.cuts.raise(at as usize),
            Outcome::Held { .. } => {}
            Outcome::Refused(..) => {
                self.cuts.remove_call(place);
                self.stale = without(self.stale, place);
                self.row.drop_at(place as usize);
            }
            Outcome::Redacted => self.cuts.lower_to(place),
        }
    }
}
