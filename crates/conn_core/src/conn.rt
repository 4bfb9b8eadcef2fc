//! A connection.

ghost use Rattle.std.specs.Prelude.{◌≡◌, ◌≢◌, ◌↔◌, ◌+◌, ◌<◌, ◌≤◌, ◌^◌, ◌++◌, ◌⊎◌, [], All, Err, IfErr, IfOk, IsSomeAnd, IsTrue, None, OnErr, OnOk, false, length, map, true};
ghost use Rattle.std.specs.Bool.{OnFalse, OnTrue};
ghost use Rattle.mrpc_base.specs.Failures.{HasCause};
ghost use Rattle.mrpc_table.specs.Valid.{IsValid};
ghost use Rattle.mrpc_table.specs.declared.limits.TheConstants.{MAX_HEAP, MAX_LOADS, MIN_HEAP};

use crate::answers::{AcceptFault, Ask, Drained, Sending};
use crate::changing::{change, reserve};
use crate::copying::{copy_submission, make_pending};
use crate::draining::{pass_all, send_all};
use crate::noting::{record_turn, refuse_all};
use crate::sending::{remove_sent, send_call};
use call_history::{
    History, HistoryRecord, clears_shorten, drains_settle, pending_calls_have_forms,
    transitions_preserve_invariant,
};
use chain_upgrade::{Chain, ChainFault, Turned};
use engine_core::{MAX_CALLS, MAX_ENGINES, Op, change_preserves_chain, changed_is_the_change};
use frame_transport::HEADER_LEN;
use mrpc_base::{Handed, Link, Tickets, Words};
use mrpc_table::{Bytes, Memory, Table};
use policy_redact::{clear_is_idempotent, clears_commute};
use std::alloc::Global;
use std::marker::Model;
use wire_encode::BackwardBuffer;

// The most records that a pending call can still need: one for each engine, and its fate.
const RECORDS: usize = MAX_ENGINES + 1;

/// A connection, which one thread owns. Contracts see it as `Connection` of `specs/Connections.antt`.
pub struct Conn<'t> {
    conn: u32,
    table: &'t Table,
    limit: u64,
    chain: Chain,
    // By position, the index of the operation that set each engine's policy.
    steps: Vec<usize>,
    history: History,
    // How many calls were accepted.
    accepted: u32,
    moment: u64,
    ended: bool,
    // Buffers that are reused for each encoding and each frame.
    payload: BackwardBuffer,
    frame: Bytes,
}

// By hand, so that each drop is one call, and not a drop of every field.
impl<'t> Drop for Conn<'t> {
    fn drop(self) {
        let Conn {
            conn: _,
            table: _,
            limit: _,
            chain: _chain,
            steps: _steps,
            history: _history,
            accepted: _,
            moment: _,
            ended: _,
            payload: _payload,
            frame: _frame,
        } = self;
    }
}

impl<'t> Model for Conn<'t> {
    ghost use Rattle.conn_core.specs.Connections.{Connection};
    ghost use Rattle.conn_core.specs.Invariant.{HasConnInvariant, connection_of};

    ghost Value = { Connection };

    ghost use Rattle.std.specs.Coded.{codes};
    ghost use Rattle.mrpc_table.specs.contracts.tree.Tree as t;

    ghost coded = { Prim.hlevel (codes, t.the_row.coded) };

    ghost view = { λ c. connection_of c.conn c.table.now c.limit c.chain c.history c.ended };

    ghost invariant = { λ c. HasConnInvariant (connection_of c.conn c.table.now c.limit c.chain c.history c.ended)
        c.steps.items
        c.history c.accepted c.moment };
}

impl<'t> Conn<'t> {
    ghost use Rattle.engine_core.specs.Chains.{IsRejection};
    ghost use Rattle.engine_core.specs.Moves.{first_at};
    ghost use Rattle.engine_core.specs.Policies.{IsPolicy, KnowsTenantOf};
    ghost use Rattle.chain_upgrade.specs.Chains.{OnTurn, chain_of_state, refusal_in};
    ghost use Rattle.graph_copy.specs.Copies.{loads_since};
    ghost use Rattle.call_history.specs.Trace.{taken};
    ghost use Rattle.call_history.specs.Draining.{HasPartlyDrained, HasDrained, IsPass};
    ghost use Rattle.call_history.specs.Transitions.{fails, operates, shows, turns, turns_away};
    ghost use Rattle.call_history.specs.Positions.{IsSettled};
    ghost use Rattle.conn_core.specs.Connections.{IsConnection, IsSameConnection, conn_trace, conn_state, judge_context};
    ghost use Rattle.conn_core.specs.Invariant.{HasPassedUnnoted};
    ghost use Rattle.conn_core.specs.ConnectionSteps.{IsAcceptance, HasDrawnTickets, HasFailedInDrain, HasFailedSend, HasHandedOver, IfPolicy, OnSent, IsReadBy, IsSend, IsStep, conn_parts, redactions};

    /// A connection without calls, with this number, timestamp 0 and an empty chain. `table` is used to check and
    /// encode all its calls. Each call is copied by at most `limit` loads, 1 to 16384.
    pub fn open(alloc: Global, conn: u32, table: &'t Table, limit: u64) -> Result<Conn<'t>, Memory>
        requires valid { IsValid table.now }
        requires least_limit { 1 ≤ limit }
        requires greatest_limit { limit ≤ MAX_LOADS }
        ensures { IfOk result (λ c. c ≡ record {
          conn = conn;
          table = table.now;
          limit = limit;
          chain = record { engines = []; attached = 0; calls = []; row = [] };
          happenings = [];
          ended = false;
        }) }
    {
        transitions_preserve_invariant();
        change_preserves_chain();
        Ok(Conn {
            conn,
            table,
            limit,
            chain: Chain::open(alloc)?,
            steps: Vec::with_capacity(alloc, MAX_ENGINES)?,
            history: History::new(alloc),
            accepted: 0,
            moment: 0,
            ended: false,
            payload: BackwardBuffer::new(alloc)?,
            frame: Bytes::new(alloc),
        })
    }

    /// A law; it does nothing. The invariant of a connection: its history is legal and its calls are at legal
    /// positions. Its chain, levels and marks are those that follow from the history.
    pub fn is_connection(&self)
        ensures { IsConnection self.now }
    {
        let _ = &self.chain;
    }

    /// A law; it does nothing. Three counters of a connection are at most the number of its events: accepted calls,
    /// attached policies, and the version of each policy.
    pub fn counters_are_bounded(&self)
        ensures calls { length (taken (conn_trace self.now)) ≤ length self.now.happenings }
        ensures attachments { self.now.chain.attached ≤ length self.now.happenings }
        ensures versions { All (λ e. e.entry.version ≤ length self.now.happenings) self.now.chain.engines }
    {
        self.is_connection();
    }

    // ---- calls

    /// Accepts a submission: assigns the call its number, copies its message, and queues it at position 0 of the
    /// chain. A malformed call is refused at once.
    ///
    /// Checked before any load: `Standing` exactly if 64 calls are pending; otherwise `Ended` exactly if the link has
    /// failed. After `Memory` the connection is unchanged, but words may have been loaded.
    pub fn accept<W: Words>(
        &mut self,
        alloc: Global,
        words: &mut W,
        ask: Ask,
    ) -> Result<u32, AcceptFault>
        requires least_heap { MIN_HEAP ≤ W.size words.old }
        requires greatest_heap { W.size words.old ≤ MAX_HEAP }
        requires numbers { length (taken (conn_trace self.old)) + 1 < 2 ^ 32 }

        ensures accepted { IfOk result (λ seq. IsAcceptance (W.size words.old) ask seq
            (loads_since (W.loads words.old) (W.loads words.new)) self.old self.new) }
        ensures standing { (result ≡ Err AcceptFault.Standing) ↔ (length self.old.chain.calls ≡ MAX_CALLS) }
        ensures ended { (result ≡ Err AcceptFault.Ended)
            ↔ ((length self.old.chain.calls < MAX_CALLS) × (self.old.ended ≡ true)) }
        ensures as_before { OnErr result (self.new ≡ self.old) }
        ensures same { IsSameConnection self.old self.new }

        // Whatever the result, the heap's reader is unchanged, or it reserved memory and then made these loads.
        ensures size { W.size words.new ≡ W.size words.old }
        ensures adds { W.loads words.new ≡ W.loads words.old ++ loads_since (W.loads words.old) (W.loads words.new) }
        ensures reads { IsReadBy W.after_room W.after_load words.old
            (loads_since (W.loads words.old) (W.loads words.new))
            words.new }
        ensures unread { (result ≡ Err AcceptFault.Standing) ⊎ (result ≡ Err AcceptFault.Ended)
            → words.new ≡ words.old }
    {
        if self.chain.calls().len() == MAX_CALLS {
            return Err(AcceptFault::Standing);
        }
        if self.ended {
            return Err(AcceptFault::Ended);
        }
        transitions_preserve_invariant();
        let seq = self.accepted + 1;
        let submission = copy_submission(
            alloc, words, self.table, self.limit, self.conn, seq, ask,
        )?;
        self.history
            .reserve(RECORDS * (self.chain.calls().len() + 1) + 2)?;
        make_pending(&mut self.chain, &mut self.history, submission);
        self.chain.is_chain_state();
        self.accepted = seq;
        Ok(seq)
    }

    /// Records a submission that is rejected because 64 calls are pending. `Memory` changes nothing.
    pub fn record_away(&mut self, ask: Ask) -> Result<(), Memory>
        requires { length self.old.chain.calls ≡ MAX_CALLS }
        ensures away { OnOk result (IsStep self.old (turns_away ask.method ask.number ask.addr) self.new) }
        ensures as_before { OnErr result (self.new ≡ self.old) }
        ensures same { IsSameConnection self.old self.new }
    {
        transitions_preserve_invariant();
        self.history
            .reserve(RECORDS * self.chain.calls().len() + 1)?;
        self.history.push(HistoryRecord::Away {
            method: ask.method,
            number: ask.number,
            addr: ask.addr,
        });
        Ok(())
    }

    // ---- operators and the clock

    /// Applies an operation and records it, unless the chain rejects it. `Memory` changes nothing.
    pub fn operate(&mut self, alloc: Global, step: Op) -> Result<(), ChainFault>
        requires ranges { IfPolicy step IsPolicy }
        requires attachments { self.old.chain.attached + 1 < 2 ^ 32 }
        requires versions { All (λ e. e.entry.version + 1 < 2 ^ 32) self.old.chain.engines }
        ensures operated { OnOk result (IsStep self.old (operates step) self.new) }
        ensures refused { IfErr result (λ fault. fault ≢ ChainFault.Memory
            → IsSomeAnd (refusal_in fault) (IsRejection (chain_of_state self.old.chain) step)) }
        ensures as_before { OnErr result (self.new ≡ self.old) }
        ensures same { IsSameConnection self.old self.new }
    {
        transitions_preserve_invariant();
        changed_is_the_change();
        let records = RECORDS * self.chain.calls().len() + 1;
        let Ok(()) = reserve(&mut self.history, &mut self.steps, records) else {
            return Err(ChainFault::Memory);
        };
        let place = self.history.steps();
        change(
            alloc,
            &mut self.chain,
            &mut self.steps,
            &step,
            place,
            self.moment,
        )?;
        self.history.operate(step);
        self.chain.is_chain_state();
        Ok(())
    }

    /// Advances the connection's clock to a timestamp in milliseconds. Records the timestamp exactly if it is later
    /// than the last one. `Memory` changes nothing.
    pub fn clock(&mut self, now: u64) -> Result<(), Memory>
        ensures shown { OnOk result (IsStep self.old (shows now) self.new) }
        ensures as_before { OnErr result (self.new ≡ self.old) }
        ensures same { IsSameConnection self.old self.new }
    {
        if now <= self.moment {
            return Ok(());
        }
        transitions_preserve_invariant();
        self.history
            .reserve(RECORDS * self.chain.calls().len() + 1)?;
        self.history.push(HistoryRecord::Moment { ms: now });
        self.chain.clock(now);
        self.chain.is_chain_state();
        self.moment = now;
        Ok(())
    }

    // ---- turns and sends

    /// The engine at a position has a turn with the first call there. Never allocates.
    pub fn turn<Q: Tickets>(&mut self, at: u32, tickets: &mut Q) -> Turned
        requires at { at < length self.old.chain.engines }
        requires known { All (λ e. KnowsTenantOf (Q.knows tickets.old) e.entry.policy) self.old.chain.engines }
        ensures idle { (result ≡ Turned.Idle) ↔ (first_at at self.old.chain.row ≡ None) }
        ensures as_before { result ≡ Turned.Idle → (self.new ≡ self.old) × (tickets.new ≡ tickets.old) }
        ensures turned { OnTurn result (λ seq outcome. IsStep self.old (turns at seq outcome) self.new) }
        ensures smaller { OnTurn result (λ seq outcome. conn_parts self.new + redactions outcome
            ≤ conn_parts self.old) }
        ensures draws { HasDrawnTickets Q.knows Q.drawn Q.since self.old self.new tickets.old tickets.new }
        ensures same { IsSameConnection self.old self.new }
    {
        transitions_preserve_invariant();
        pending_calls_have_forms();
        clears_shorten();
        clear_is_idempotent();
        clears_commute();
        let version = self.chain.engine(at).version();
        let turned = self.chain.turn(at, self.table, self.moment, tickets);
        let step = self.steps[at as usize];
        record_turn(&mut self.history, step, version, turned);
        self.chain.is_chain_state();
        turned
    }

    // Advances the first call at a position if it passes the engine there and nothing is to be noted, which is a
    // turn. If it returns false, nothing has changed, and `turn` decides.
    pub(crate) fn pass_unnoted(&mut self, at: u32) -> bool
        requires at { at < length self.old.chain.engines }
        ensures passed { OnTrue result (HasPassedUnnoted at self.old self.new) }
        ensures as_before { OnFalse result (self.new ≡ self.old) }
    {
        transitions_preserve_invariant();
        pending_calls_have_forms();
        clears_shorten();
        clear_is_idempotent();
        clears_commute();
        let passed = self.chain.pass_unnoted(at, self.table);
        self.chain.is_chain_state();
        passed
    }

    /// Runs each engine in order until no call can advance, as a drain does before it sends. After a turn that clears
    /// fields it starts over at the first engine. Never allocates.
    pub fn judge<Q: Tickets>(&mut self, tickets: &mut Q)
        requires known { All (λ e. KnowsTenantOf (Q.knows tickets.old) e.entry.policy) self.old.chain.engines }
        ensures judged { IsPass (judge_context self.old) 0 (conn_state self.old) (conn_state self.new) }
        ensures draws { HasDrawnTickets Q.knows Q.drawn Q.since self.old self.new tickets.old tickets.new }
        ensures same { IsSameConnection self.old self.new }
    {
        self.is_connection();
        pass_all(self, tickets);
        self.is_connection();
    }

    /// Encodes the first ready call and sends its frame. Returns `Nothing` exactly if no call is ready, so `Failed`
    /// and `Memory` only if one is. If the link fails, the connection ends, as after `fail`. After `Memory` the
    /// call is still ready.
    pub fn send_ready<L: Link>(&mut self, link: &mut L) -> Sending
        ensures nothing { (result ≡ Sending.Nothing)
            ↔ (first_at (length self.old.chain.engines) self.old.chain.row ≡ None) }
        ensures ready { (result ≡ Sending.Failed) ⊎ (result ≡ Sending.Memory)
            → first_at (length self.old.chain.engines) self.old.chain.row ≢ None }
        ensures sent { OnSent result (λ seq. IsSend self.old seq self.new) }
        ensures failed { result ≡ Sending.Failed → IsStep self.old fails self.new }
        ensures refused { result ≡ Sending.Failed → HasFailedSend L.refused self.old link.old link.new }
        ensures as_before { (result ≡ Sending.Nothing) ⊎ (result ≡ Sending.Memory) → self.new ≡ self.old }
        ensures untouched { result ≡ Sending.Nothing → link.new ≡ link.old }
        ensures same { IsSameConnection self.old self.new }

        ensures handed { HasHandedOver self.old self.new (L.handed link.old) (L.handed link.new) }
        ensures given { L.given link.new ≡ L.given link.old }
        ensures link_ended { L.ended link.new ≡ L.ended link.old }
        ensures same_link { (first : L) → L.since first link.old → L.since first link.new }
        ensures cause { HasCause (result ≡ Sending.Failed) (L.failures link.old) (L.failures link.new) }
    {
        transitions_preserve_invariant();
        pending_calls_have_forms();
        let Some(head) = self.chain.head() else {
            return Sending::Nothing;
        };
        match send_call(
            &mut self.payload,
            &mut self.frame,
            self.table,
            head.call(),
            link,
        ) {
            Handed::Done => {
                let bytes = (HEADER_LEN + self.payload.as_slice().len()) as u64;
                let seq = remove_sent(&mut self.chain, &mut self.history, bytes);
                self.chain.is_chain_state();
                Sending::Sent { seq }
            }
            Handed::Failed => {
                self.fail();
                Sending::Failed
            }
            Handed::Memory => Sending::Memory,
        }
    }

    /// Runs each engine in order until no call can advance, then sends all ready calls. After a turn that clears
    /// fields it starts over at the first engine. `Memory` and `Failed`, returned only if a call is ready, keep the
    /// turns and sends made so far.
    pub fn drain<Q: Tickets, L: Link>(&mut self, tickets: &mut Q, link: &mut L) -> Drained
        requires known { All (λ e. KnowsTenantOf (Q.knows tickets.old) e.entry.policy) self.old.chain.engines }
        ensures done { result ≡ Drained.Done
            → HasDrained (judge_context self.old) (conn_state self.old) (conn_state self.new) }
        ensures settled { result ≡ Drained.Done
            → IsSettled (judge_context self.new) (conn_trace self.new) (map (λ call. call.1) self.new.chain.row) }
        ensures failed { result ≡ Drained.Failed
            → HasFailedInDrain L.refused L.handed L.failures L.since self.old self.new link.old link.new }
        ensures memory { result ≡ Drained.Memory
            → HasPartlyDrained (judge_context self.old) (conn_state self.old) (conn_state self.new) }
        ensures still_ready { result ≡ Drained.Memory
            → first_at (length self.new.chain.engines) self.new.chain.row ≢ None }
        ensures same { IsSameConnection self.old self.new }

        ensures draws { HasDrawnTickets Q.knows Q.drawn Q.since self.old self.new tickets.old tickets.new }
        ensures handed { HasHandedOver self.old self.new (L.handed link.old) (L.handed link.new) }
        ensures given { L.given link.new ≡ L.given link.old }
        ensures link_ended { L.ended link.new ≡ L.ended link.old }
        ensures same_link { (first : L) → L.since first link.old → L.since first link.new }
        ensures cause { HasCause (result ≡ Drained.Failed) (L.failures link.old) (L.failures link.new) }
    {
        drains_settle();
        self.is_connection();
        pass_all(self, tickets);
        self.is_connection();
        let drained = send_all(self, link);
        self.is_connection();
        drained
    }

    /// Ends the connection after its link failed: refuses the pending calls, in order. Never allocates.
    pub fn fail(&mut self)
        ensures failed { IsStep self.old fails self.new }
        ensures same { IsSameConnection self.old self.new }
    {
        transitions_preserve_invariant();
        refuse_all(&mut self.history, self.chain.calls());
        self.chain.drop_all();
        self.chain.is_chain_state();
        self.ended = true;
    }

    // ---- state

    /// The number of the connection.
    pub fn number(&self) -> u32
        ensures { result ≡ self.now.conn }
    {
        self.conn
    }

    /// The events so far, in order.
    pub fn history(&self) -> &History
        ensures { result.now.happenings ≡ self.now.happenings }
    {
        &self.history
    }

    /// The chain with the pending calls.
    pub fn chain(&self) -> &Chain
        ensures { result.now ≡ self.now.chain }
    {
        &self.chain
    }

    /// Whether its link has failed.
    pub fn ended(&self) -> bool
        ensures { IsTrue result ↔ (self.now.ended ≡ true) }
    {
        self.ended
    }
}
