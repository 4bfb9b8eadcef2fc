//! The calls of a connection's application, round by round.

ghost use Rattle.std.specs.Prelude.{◌≡◌, ◌≢◌, ◌↔◌, ◌≤◌, ◌<◌, ◌+◌, ℕ, [], true, false, All, IfOk, OnOk, length, map};
ghost use Rattle.std.specs.Bool.{OnFalse, OnTrue};
ghost use Rattle.mrpc_base.specs.Failures.{HasCause};
ghost use Rattle.mrpc_table.specs.declared.limits.TheConstants.{MAX_HEAP, MIN_HEAP};
ghost use Rattle.call_history.specs.Positions.{IsSettled};
ghost use Rattle.call_history.specs.Tickets.{tickets_of_trace};
ghost use Rattle.conn_core.specs.Connections.{conn_trace, conn_frames, judge_context};
ghost use Rattle.conn_core.specs.ConnectionSteps.{HasDrawnTickets, HasHandedOver};
ghost use Rattle.service_loop.specs.Calls.{timestamps_at_calls, timestamps_in};
ghost use Rattle.service_loop.specs.Serving.{AreSameSubmissions, IsServed, IsServing};
ghost use Rattle.service_loop.specs.ScheduledOps.{AreScheduledOps, KnowTenants};
ghost use Rattle.service_loop.specs.Within.{IsDrainAdvance, HasTakenLast, IsDue, HasNoneDue, HasOnlyAppliedOps, HasTimestamp, IsSilentAdvance, HasTakenNow};

use crate::round_outcome::RoundOutcome;
use crate::scheduled_op::ScheduledOp;
use chain_upgrade::ChainFault;
use conn_core::{AcceptFault, Ask, Conn, Drained};
use descriptor_ring::{Descriptor, Receiver, Taken};
use engine_core::MAX_CALLS;
use mrpc_base::{Clock, Link, Tickets};
use mrpc_table::Memory;
use shared_heap::{Reader, calls_are_fresh, loads_preserve_reader};
use std::alloc::Global;
use std::sync::Wait;

/// The calls of a connection's application, with all that one thread needs to take, judge and send them.
pub struct Submissions<'t> {
    /// The connection, with its pending calls.
    pub conn: Conn<'t>,
    /// The reader of the application's heap.
    pub reader: Reader,
    /// The ring that carries its calls.
    pub calls: Receiver,
    /// The operators' operations for its chain, in order.
    pub steps: &'t [ScheduledOp],
    /// How many of them were applied.
    pub applied: usize,
    /// The number of accepted calls.
    pub accepted: u32,
    /// Whether the last drain is done, after the closing of the ring.
    pub finished: bool,
}

// Written by hand so that a drop is one call, not a drop of each field.
impl<'t> Drop for Submissions<'t> {
    fn drop(self) {
        let Submissions {
            conn: _conn,
            reader: _reader,
            calls: _calls,
            steps: _,
            applied: _,
            accepted: _,
            finished: _,
        } = self;
    }
}

// What was taken from the ring of calls.
#[derive(Clone, Copy, PartialEq, Eq)]
enum TakenItem {
    // Nothing, or there was no room for a call.
    Nothing,
    // A call, which was accepted, or rejected because the link has failed.
    Call,
    // The closing.
    Closing,
}

// Whether anything was done: something was taken from the ring, operations were applied, or calls advanced.
fn was_busy(next: TakenItem, stepped: bool, went: bool) -> bool {
    next != TakenItem::Nothing || stepped || went
}

impl<'t> Submissions<'t> {
    /// Submissions of which none was taken, on a connection without events, and with a heap from which nothing was
    /// loaded.
    pub fn new(
        conn: Conn<'t>,
        reader: Reader,
        calls: Receiver,
        steps: &'t [ScheduledOp],
    ) -> Submissions<'t>
        requires new_conn { (conn.happenings ≡ []) × (conn.chain.row ≡ []) }
        requires least_heap { MIN_HEAP ≤ reader.heap.words }
        requires greatest_heap { reader.heap.words ≤ MAX_HEAP }
        requires new_heap { reader.loads ≡ [] }
        requires one_heap { calls.heap ≡ reader.heap }
        requires new_ring { (calls.taken ≡ []) × (calls.closed ≡ false) }
        requires steps { AreScheduledOps steps.now }
        ensures served { IsServed result }
        ensures conn { result.conn ≡ conn.entry }
        ensures reader { result.reader ≡ reader }
        ensures calls { result.calls ≡ calls }
        ensures steps { result.steps.now ≡ steps.now }
    {
        Submissions {
            conn,
            reader,
            calls,
            steps,
            applied: 0,
            accepted: 0,
            finished: false,
        }
    }

    /// Makes the part of a round that concerns calls. It applies the operations that are due, and passes the clock's
    /// timestamp to the connection. It takes at most one call if there is room for another pending one, and judges and
    /// sends what can advance. After the closing of the ring it applies all remaining operations and ends the link's
    /// sending side; from then on there is nothing to do. If the link has no room for all that could be sent, it does
    /// nothing until a later round, so that no send blocks. A link that fails ends the connection, and further
    /// submissions are rejected. After `Memory` the heap and the ring are the same ones, and nothing more is known of
    /// them.
    pub fn round<R: Wait, C: Clock, Q: Tickets, L: Link>(
        &mut self,
        rt: &R,
        alloc: Global,
        clock: &C,
        tickets: &mut Q,
        link: &mut L,
    ) -> RoundOutcome
        requires served { IsServed self.old }
        requires known { KnowTenants (Q.knows tickets.old) self.old.steps.now }

        // The invariant between rounds holds again.
        ensures served { result ≢ RoundOutcome.Memory → IsServed self.new }
        ensures same { AreSameSubmissions self.old self.new }

        // Its timestamps are the clock's, and no call is taken before the clock's least one.
        ensures moments { result ≢ RoundOutcome.Memory
            → All (C.gives clock.now) (timestamps_in (conn_trace self.old.conn))
            → All (C.gives clock.now) (timestamps_in (conn_trace self.new.conn)) }
        ensures least { result ≢ RoundOutcome.Memory
            → All (λ ms. C.least clock.now ≤ ms) (timestamps_at_calls (conn_trace self.old.conn))
            → All (λ ms. C.least clock.now ≤ ms) (timestamps_at_calls (conn_trace self.new.conn)) }

        // The link was handed the frames of the history, and the tickets of the history were drawn.
        ensures handed { result ≢ RoundOutcome.Memory
            → HasHandedOver self.old.conn self.new.conn (L.handed link.old) (L.handed link.new) }
        ensures draws { result ≢ RoundOutcome.Memory
            → HasDrawnTickets Q.knows Q.drawn Q.since self.old.conn self.new.conn tickets.old tickets.new }

        // The connection ends exactly if the link's count of failures rises.
        ensures cause { result ≢ RoundOutcome.Memory
            → HasCause ((self.old.conn.ended ≡ false) × (self.new.conn.ended ≡ true)) (L.failures link.old)
            (L.failures link.new) }
        ensures stays_ended { result ≢ RoundOutcome.Memory → self.old.conn.ended ≡ true → self.new.conn.ended ≡ true }

        ensures given { L.given link.new ≡ L.given link.old }
        ensures link_ended { L.ended link.new ≡ L.ended link.old }
        ensures same_link { (first : L) → L.since first link.old → L.since first link.new }
        ensures same_quotas { (first : Q) → Q.since first tickets.old → Q.since first tickets.new }
        ensures knows { (tenant : ℕ) → Q.knows tickets.old tenant → Q.knows tickets.new tenant }

        // A round accepts at most one call.
        ensures one { result ≢ RoundOutcome.Memory → self.new.accepted ≤ self.old.accepted + 1 }

        // After the last drain nothing changes.
        ensures idle { self.old.finished ≡ true → (result ≡ RoundOutcome.Idle) × (self.new ≡ self.old)
            × (link.new ≡ link.old) × (tickets.new ≡ tickets.old) }
    {
        if self.finished || !self.has_room(link) {
            return RoundOutcome::Idle;
        }
        match self.take_and_send(rt, alloc, clock, tickets, link) {
            Ok(true) => RoundOutcome::Busy,
            Ok(false) => RoundOutcome::Idle,
            Err(Memory) => RoundOutcome::Memory,
        }
    }

    // Whether the link has room for all that a round can send: the pending calls, and the one that it takes.
    fn has_room<L: Link>(&self, link: &mut L) -> bool
        ensures { link.new ≡ link.old }
    {
        let stand = self.conn.chain().calls().len();
        link.has_room(stand.min(MAX_CALLS - 1) + 1)
    }

    // Like `round`, while the last drain isn't done. Returns whether anything was done.
    fn take_and_send<R: Wait, C: Clock, Q: Tickets, L: Link>(
        &mut self,
        rt: &R,
        alloc: Global,
        clock: &C,
        tickets: &mut Q,
        link: &mut L,
    ) -> Result<bool, Memory>
        requires served { IsServed self.old }
        requires known { KnowTenants (Q.knows tickets.old) self.old.steps.now }
        requires unfinished { self.old.finished ≡ false }
        ensures served { OnOk result (IsServed self.new) }
        ensures same { AreSameSubmissions self.old self.new }
        ensures moments { OnOk result (All (C.gives clock.now) (timestamps_in (conn_trace self.old.conn))
            → All (C.gives clock.now) (timestamps_in (conn_trace self.new.conn))) }
        ensures least { OnOk result (All (λ ms. C.least clock.now ≤ ms) (timestamps_at_calls (conn_trace self.old.conn))
            → All (λ ms. C.least clock.now ≤ ms) (timestamps_at_calls (conn_trace self.new.conn))) }
        ensures handed { OnOk result (HasHandedOver self.old.conn self.new.conn (L.handed link.old) (L.handed link.new)) }
        ensures draws { OnOk result
            (HasDrawnTickets Q.knows Q.drawn Q.since self.old.conn self.new.conn tickets.old tickets.new) }
        ensures cause { OnOk result (HasCause ((self.old.conn.ended ≡ false) × (self.new.conn.ended ≡ true))
            (L.failures link.old) (L.failures link.new)) }
        ensures stays_ended { OnOk result (self.old.conn.ended ≡ true → self.new.conn.ended ≡ true) }
        ensures given { L.given link.new ≡ L.given link.old }
        ensures link_ended { L.ended link.new ≡ L.ended link.old }
        ensures same_link { (first : L) → L.since first link.old → L.since first link.new }
        ensures same_quotas { (first : Q) → Q.since first tickets.old → Q.since first tickets.new }
        ensures knows { (tenant : ℕ) → Q.knows tickets.old tenant → Q.knows tickets.new tenant }
        ensures one { OnOk result (self.new.accepted ≤ self.old.accepted + 1) }
    {
        let applied = self.applied;
        self.apply_due(alloc, false)?;
        self.set_timestamp(clock.now())?;
        let next = self.take_call(rt, alloc)?;
        let stood = self.conn.chain().calls().len();
        self.advance(alloc, next == TakenItem::Closing, tickets, link)?;
        let stands = self.conn.chain().calls().len();
        Ok(was_busy(next, self.applied != applied, stood != stands))
    }

    // Applies the operations that are due: those whose count of calls is reached, or all after the closing.
    fn apply_due(&mut self, alloc: Global, closing: bool) -> Result<(), Memory>
        requires serving { IsServing self.old }
        requires closing { closing ≡ self.old.calls.closed }
        ensures serving { OnOk result (IsServing self.new) }
        ensures none_due { OnOk result (HasNoneDue closing self.new) }
        ensures only { OnOk result (HasOnlyAppliedOps self.old self.new) }
        ensures same { AreSameSubmissions self.old self.new }
    {
        'steps: while self.is_due(closing) {
            self.apply(alloc)?;
        }
        Ok(())
    }

    // Whether the first remaining operation is due.
    fn is_due(&self, closing: bool) -> bool
        requires serving { IsServing self.now }
        requires closing { closing ≡ self.now.calls.closed }
        ensures due { OnTrue result (IsDue self.now) }
        ensures none { OnFalse result (HasNoneDue closing self.now) }
    {
        self.applied < self.steps.len()
            && (closing || self.steps[self.applied].count <= u64::from(self.accepted))
    }

    // Applies the first remaining operation.
    fn apply(&mut self, alloc: Global) -> Result<(), Memory>
        requires serving { IsServing self.old }
        requires due { IsDue self.old }
        ensures serving { OnOk result (IsServing self.new) }
        ensures applied { OnOk result (self.new.applied ≡ self.old.applied + 1) }
        ensures only { OnOk result (HasOnlyAppliedOps self.old self.new) }
        ensures same { AreSameSubmissions self.old self.new }
    {
        self.conn.is_connection();
        let step = self.steps[self.applied].copied(alloc)?;
        match self.conn.operate(alloc, step) {
            Ok(()) => {}
            Err(fault) => match fault {
                ChainFault::Memory => return Err(Memory),
                _ => unreachable!(),
            },
        }
        self.applied += 1;
        Ok(())
    }

    // Passes a timestamp to the connection.
    fn set_timestamp(&mut self, now: u64) -> Result<(), Memory>
        requires serving { IsServing self.old }
        ensures serving { OnOk result (IsServing self.new) }
        ensures none_due { OnOk result (HasNoneDue false self.old → HasNoneDue false self.new) }
        ensures shown { OnOk result (HasTimestamp now self.old.conn self.new.conn) }
        ensures same { AreSameSubmissions self.old self.new }
        ensures calls { self.new.calls ≡ self.old.calls }
        ensures finished { self.new.finished ≡ self.old.finished }
        ensures accepted { self.new.accepted ≡ self.old.accepted }
    {
        self.conn.clock(now)
    }

    // Takes the next call from the ring, unless the maximum number of calls is pending.
    fn take_call<R: Wait>(&mut self, rt: &R, alloc: Global) -> Result<TakenItem, Memory>
        requires serving { IsServing self.old }
        requires open { self.old.calls.closed ≡ false }
        requires none_due { HasNoneDue false self.old }
        ensures serving { OnOk result (IsServing self.new) }
        ensures closing { IfOk result (λ next. (next ≡ TakenItem.Closing) ↔ (self.new.calls.closed ≡ true)) }
        ensures beside { OnOk result (IsSilentAdvance self.old.conn self.new.conn) }
        ensures now { OnOk result (HasTakenNow self.old.conn self.new.conn) }
        ensures same { AreSameSubmissions self.old self.new }
        ensures finished { self.new.finished ≡ self.old.finished }
        ensures one { OnOk result (self.new.accepted ≤ self.old.accepted + 1) }
    {
        if self.conn.chain().calls().len() == MAX_CALLS {
            return Ok(TakenItem::Nothing);
        }
        match self.calls.take(rt) {
            Taken::Item(call) => {
                self.accept(alloc, call)?;
                Ok(TakenItem::Call)
            }
            Taken::Closed => Ok(TakenItem::Closing),
            Taken::Empty(_) => Ok(TakenItem::Nothing),
        }
    }

    // Accepts a call that was taken, or rejects it if the link has failed.
    fn accept(&mut self, alloc: Global, call: Descriptor) -> Result<(), Memory>
        requires taken { HasTakenLast call self.old }
        requires open { self.old.calls.closed ≡ false }
        requires none_due { HasNoneDue false self.old }
        requires few { length self.old.conn.chain.calls < MAX_CALLS }
        ensures serving { OnOk result (IsServing self.new) }
        ensures beside { OnOk result (IsSilentAdvance self.old.conn self.new.conn) }
        ensures now { OnOk result (HasTakenNow self.old.conn self.new.conn) }
        ensures same { AreSameSubmissions self.old self.new }
        ensures calls { self.new.calls ≡ self.old.calls }
        ensures finished { self.new.finished ≡ self.old.finished }
        ensures one { OnOk result (self.new.accepted ≤ self.old.accepted + 1) }
    {
        if self.conn.ended() {
            return Ok(());
        }
        let Descriptor {
            kind: _,
            method,
            number,
            addr,
            stores,
            note,
        } = call;
        self.reader.meet(note);
        let ask = Ask {
            method,
            number,
            addr,
            after: stores,
        };
        calls_are_fresh();
        loads_preserve_reader();
        match self.conn.accept(alloc, &mut self.reader, ask) {
            Ok(seq) => {
                self.accepted = seq;
                Ok(())
            }
            Err(AcceptFault::Memory) => Err(Memory),
            Err(AcceptFault::Standing | AcceptFault::Ended) => unreachable!(),
        }
    }

    // Advances the pending calls as far as possible; for the last time after the closing of the ring.
    fn advance<Q: Tickets, L: Link>(
        &mut self,
        alloc: Global,
        closing: bool,
        tickets: &mut Q,
        link: &mut L,
    ) -> Result<(), Memory>
        requires serving { IsServing self.old }
        requires known { KnowTenants (Q.knows tickets.old) self.old.steps.now }
        requires unfinished { self.old.finished ≡ false }
        requires closing { (closing ≡ true) ↔ (self.old.calls.closed ≡ true) }
        ensures served { OnOk result (IsServed self.new) }
        ensures drained { OnOk result (IsDrainAdvance self.old.conn self.new.conn) }
        ensures handed { OnOk result (HasHandedOver self.old.conn self.new.conn (L.handed link.old) (L.handed link.new)) }
        ensures draws { OnOk result
            (HasDrawnTickets Q.knows Q.drawn Q.since self.old.conn self.new.conn tickets.old tickets.new) }
        ensures cause { OnOk result (HasCause ((self.old.conn.ended ≡ false) × (self.new.conn.ended ≡ true))
            (L.failures link.old) (L.failures link.new)) }
        ensures same { AreSameSubmissions self.old self.new }
        ensures given { L.given link.new ≡ L.given link.old }
        ensures link_ended { L.ended link.new ≡ L.ended link.old }
        ensures same_link { (first : L) → L.since first link.old → L.since first link.new }
        ensures same_quotas { (first : Q) → Q.since first tickets.old → Q.since first tickets.new }
        ensures knows { (tenant : ℕ) → Q.knows tickets.old tenant → Q.knows tickets.new tenant }
        ensures accepted { OnOk result (self.new.accepted ≡ self.old.accepted) }
    {
        if closing {
            self.finish(alloc, tickets, link)
        } else {
            self.drain(tickets, link)
        }
    }

    // After the closing of the ring: applies the remaining operations, advances the calls for the last time, and ends
    // the link's sending side.
    fn finish<Q: Tickets, L: Link>(
        &mut self,
        alloc: Global,
        tickets: &mut Q,
        link: &mut L,
    ) -> Result<(), Memory>
        requires serving { IsServing self.old }
        requires known { KnowTenants (Q.knows tickets.old) self.old.steps.now }
        requires closed { self.old.calls.closed ≡ true }
        ensures served { OnOk result (IsServed self.new) }
        ensures drained { OnOk result (IsDrainAdvance self.old.conn self.new.conn) }
        ensures handed { OnOk result (HasHandedOver self.old.conn self.new.conn (L.handed link.old) (L.handed link.new)) }
        ensures draws { OnOk result
            (HasDrawnTickets Q.knows Q.drawn Q.since self.old.conn self.new.conn tickets.old tickets.new) }
        ensures cause { OnOk result (HasCause ((self.old.conn.ended ≡ false) × (self.new.conn.ended ≡ true))
            (L.failures link.old) (L.failures link.new)) }
        ensures same { AreSameSubmissions self.old self.new }
        ensures given { L.given link.new ≡ L.given link.old }
        ensures link_ended { L.ended link.new ≡ L.ended link.old }
        ensures same_link { (first : L) → L.since first link.old → L.since first link.new }
        ensures same_quotas { (first : Q) → Q.since first tickets.old → Q.since first tickets.new }
        ensures knows { (tenant : ℕ) → Q.knows tickets.old tenant → Q.knows tickets.new tenant }
        ensures accepted { OnOk result (self.new.accepted ≡ self.old.accepted) }
    {
        self.apply_due(alloc, true)?;
        self.drain(tickets, link)?;
        link.finish();
        self.finished = true;
        Ok(())
    }

    // Advances the pending calls as far as possible.
    fn drain<Q: Tickets, L: Link>(&mut self, tickets: &mut Q, link: &mut L) -> Result<(), Memory>
        requires serving { IsServing self.old }
        requires known { KnowTenants (Q.knows tickets.old) self.old.steps.now }
        ensures serving { OnOk result (IsServing self.new) }
        ensures settled { OnOk result (IsSettled (judge_context self.new.conn) (conn_trace self.new.conn)
            (map (λ call. call.1) self.new.conn.chain.row)) }
        ensures drained { OnOk result (IsDrainAdvance self.old.conn self.new.conn) }
        ensures handed { OnOk result (HasHandedOver self.old.conn self.new.conn (L.handed link.old) (L.handed link.new)) }
        ensures draws { OnOk result
            (HasDrawnTickets Q.knows Q.drawn Q.since self.old.conn self.new.conn tickets.old tickets.new) }
        ensures cause { OnOk result (HasCause ((self.old.conn.ended ≡ false) × (self.new.conn.ended ≡ true))
            (L.failures link.old) (L.failures link.new)) }
        ensures same { AreSameSubmissions self.old self.new }
        ensures calls { self.new.calls ≡ self.old.calls }
        ensures applied { self.new.applied ≡ self.old.applied }
        ensures finished { self.new.finished ≡ self.old.finished }
        ensures given { L.given link.new ≡ L.given link.old }
        ensures link_ended { L.ended link.new ≡ L.ended link.old }
        ensures same_link { (first : L) → L.since first link.old → L.since first link.new }
        ensures same_quotas { (first : Q) → Q.since first tickets.old → Q.since first tickets.new }
        ensures knows { (tenant : ℕ) → Q.knows tickets.old tenant → Q.knows tickets.new tenant }
        ensures accepted { OnOk result (self.new.accepted ≡ self.old.accepted) }
    {
        self.conn.is_connection();
        if self.conn.ended() {
            return Ok(());
        }
        let drained = self.conn.drain(tickets, link);
        self.conn.is_connection();
        match drained {
            Drained::Done | Drained::Failed => Ok(()),
            Drained::Memory => Err(Memory),
        }
    }

    /// Ends the connection because its link failed, unless it has ended: refuses the pending calls, and rejects all
    /// later submissions. Doesn't allocate.
    pub fn fail(&mut self)
        requires served { IsServed self.old }
        ensures served { IsServed self.new }
        ensures ended { self.new.conn.ended ≡ true }
        ensures same { AreSameSubmissions self.old self.new }
        ensures calls { self.new.calls ≡ self.old.calls }
        ensures frames { conn_frames self.new.conn ≡ conn_frames self.old.conn }
        ensures tickets { (tenant window : ℕ) → tickets_of_trace tenant window (conn_trace self.new.conn)
            ≡ tickets_of_trace tenant window (conn_trace self.old.conn) }
        ensures moments { timestamps_in (conn_trace self.new.conn) ≡ timestamps_in (conn_trace self.old.conn) }
        ensures at_calls { timestamps_at_calls (conn_trace self.new.conn)
            ≡ timestamps_at_calls (conn_trace self.old.conn) }
        ensures finished { self.new.finished ≡ self.old.finished }
        ensures accepted { self.new.accepted ≡ self.old.accepted }
    {
        self.conn.is_connection();
        if !self.conn.ended() {
            self.conn.fail();
        }
        self.conn.is_connection();
    }
}
