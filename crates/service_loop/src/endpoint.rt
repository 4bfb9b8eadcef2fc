//! A connection with all that belongs to it.

ghost use Rattle.std.specs.Prelude.{◌≡◌, ◌≢◌, ◌≤◌, ◌<◌, ◌^◌, ◌+◌, ◌-◌, ◌↔◌, ◌⊎◌, [], ℕ, true, false, IfSome, IsTrue, OnOk, length};
ghost use Rattle.call_history.specs.Tickets.{tickets_of_trace};
ghost use Rattle.conn_core.specs.Connections.{conn_trace, conn_frames};
ghost use Rattle.qos_order.specs.Account.{IsWithinGrant, kept_rounds, after_visit};
ghost use Rattle.service_loop.specs.Serving.{IsServed};
ghost use Rattle.service_loop.specs.ScheduledOps.{KnowTenants};
ghost use Rattle.service_loop.specs.Delivering.{AreDelivering, IsCountedAsEnded};
ghost use Rattle.service_loop.specs.Within.{CanCount, IsVisitCounted};
ghost use Rattle.service_loop.specs.Rounds.{HasAdvanced, IsGrantedByWeight, HasVisitAccount, IsEndpoint, IsNewVisitAccount, IsFinished, HasSameIdentity, IsConsistent};

use crate::delivering::Deliveries;
use crate::round_outcome::RoundOutcome;
use crate::submissions::Submissions;
use crate::visit_account::VisitAccount;
use crate::visit_summary::{VisitOutcome, VisitSummary};
use message_delivery::StreamState;
use mrpc_base::{Clock, Gate, Link, ReadyOrder, Tickets};
use mrpc_table::Memory;
use qos_order::Ending;
use std::alloc::Global;
use std::sync::Wait;

/// All that belongs to one connection. One thread at a time owns it.
#[derive(Drop)]
pub struct Endpoint<'t, C, Q, L> {
    pub submissions: Submissions<'t>,
    pub deliveries: Deliveries<'t>,
    pub link: L,
    pub tickets: Q,
    pub clock: &'t C,
    /// The buffer into which bytes are received.
    pub buffer: Vec<u8>,
    /// Rounds of earlier grants that later visits may still use.
    pub kept: u64,
    /// Its weight and account, if rounds go by weight.
    pub share: Option<VisitAccount>,
    /// Whether it ran out of memory. Then it makes no further round.
    pub memory: bool,
}

impl<'t, C: Clock, Q: Tickets, L: Link> Endpoint<'t, C, Q, L> {
    /// A connection without submissions, on a link that hasn't failed.
    pub fn new(
        submissions: Submissions<'t>,
        deliveries: Deliveries<'t>,
        link: L,
        tickets: Q,
        clock: &'t C,
        buffer: Vec<u8>,
        share: Option<VisitAccount>,
    ) -> Endpoint<'t, C, Q, L>
        requires served { IsServed submissions }
        requires nothing { submissions.conn.happenings ≡ [] }
        requires not_ended { submissions.conn.ended ≡ false }
        requires known { KnowTenants (Q.knows tickets) submissions.steps.now }
        requires delivering { AreDelivering deliveries }
        requires working { deliveries.arrivals.stream ≢ StreamState.Failed }
        requires finished { deliveries.arrivals.stream ≡ StreamState.Ended → IsTrue (L.ended link) }
        requires room { 0 < length buffer.items }
        requires most { length buffer.items ≤ 2 ^ 32 }
        requires share { IfSome share IsNewVisitAccount }
        ensures whole { IsConsistent C.Clock Q.Tickets L.Link result }
        ensures memory { result.memory ≡ false }
        ensures submissions { result.submissions ≡ submissions.entry }
        ensures deliveries { result.deliveries ≡ deliveries.entry }
        ensures link { result.link ≡ link }
        ensures tickets { result.tickets ≡ tickets }
        ensures clock { result.clock.now ≡ clock.now }
        ensures kept { result.kept ≡ 0 }
        ensures share { result.share ≡ share }
        ensures has_share { HasVisitAccount result }
    {
        Endpoint {
            submissions,
            deliveries,
            link,
            tickets,
            clock,
            buffer,
            kept: 0,
            share,
            memory: false,
        }
    }

    /// Makes a round: takes, judges and sends submissions, reclaims the blocks that the application gives back, and
    /// delivers what the link gives. A link that fails ends the connection.
    pub fn round<R: Wait>(&mut self, rt: &R, alloc: Global) -> RoundOutcome
        requires whole { IsConsistent C.Clock Q.Tickets L.Link self.old }
        requires memory { self.old.memory ≡ false }

        // The invariant between rounds holds again, and the connection has advanced.
        ensures whole { result ≢ RoundOutcome.Memory → IsConsistent C.Clock Q.Tickets L.Link self.new }
        ensures goes_on { result ≢ RoundOutcome.Memory → HasAdvanced C.Clock Q.Tickets L.Link self.old self.new }

        ensures same { HasSameIdentity C.Clock Q.Tickets L.Link self.old self.new }
        ensures memory { (self.new.memory ≡ true) ↔ (result ≡ RoundOutcome.Memory) }
        ensures kept { self.new.kept ≡ self.old.kept }
        ensures share { self.new.share ≡ self.old.share }
        ensures one { result ≢ RoundOutcome.Memory → self.new.submissions.accepted ≤ self.old.submissions.accepted + 1 }
    {
        match self.make_round(rt, alloc) {
            Ok(true) => RoundOutcome::Busy,
            Ok(false) => RoundOutcome::Idle,
            Err(Memory) => {
                self.memory = true;
                RoundOutcome::Memory
            }
        }
    }

    // Like `round`, but returns whether anything was done.
    fn make_round<R: Wait>(&mut self, rt: &R, alloc: Global) -> Result<bool, Memory>
        requires { IsConsistent C.Clock Q.Tickets L.Link self.old }
        ensures whole { OnOk result (IsConsistent C.Clock Q.Tickets L.Link self.new) }
        ensures goes_on { OnOk result (HasAdvanced C.Clock Q.Tickets L.Link self.old self.new) }
        ensures same { HasSameIdentity C.Clock Q.Tickets L.Link self.old self.new }
        ensures memory { self.new.memory ≡ self.old.memory }
        ensures kept { self.new.kept ≡ self.old.kept }
        ensures share { self.new.share ≡ self.old.share }
        ensures one { OnOk result (self.new.submissions.accepted ≤ self.old.submissions.accepted + 1) }
    {
        let submitted = self.submit(rt, alloc)?;
        let delivered = self.deliver(rt)?;
        Ok(submitted | delivered)
    }

    // Makes the round of the submissions. After the link failed, it delivers nothing more.
    fn submit<R: Wait>(&mut self, rt: &R, alloc: Global) -> Result<bool, Memory>
        requires { IsConsistent C.Clock Q.Tickets L.Link self.old }
        ensures whole { OnOk result (IsConsistent C.Clock Q.Tickets L.Link self.new) }
        ensures goes_on { OnOk result (HasAdvanced C.Clock Q.Tickets L.Link self.old self.new) }
        ensures same { HasSameIdentity C.Clock Q.Tickets L.Link self.old self.new }
        ensures memory { self.new.memory ≡ self.old.memory }
        ensures kept { self.new.kept ≡ self.old.kept }
        ensures share { self.new.share ≡ self.old.share }
        ensures one { OnOk result (self.new.submissions.accepted ≤ self.old.submissions.accepted + 1) }
    {
        let busy = was_busy(
            self.submissions
                .round(rt, alloc, self.clock, &mut self.tickets, &mut self.link),
        )?;
        if self.submissions.conn.ended() {
            self.deliveries.stop();
            return Ok(busy);
        }
        Ok(busy)
    }

    // Makes the round of the deliveries. If the link fails, it ends the connection.
    fn deliver<R: Wait>(&mut self, rt: &R) -> Result<bool, Memory>
        requires { IsConsistent C.Clock Q.Tickets L.Link self.old }
        ensures whole { OnOk result (IsConsistent C.Clock Q.Tickets L.Link self.new) }
        ensures goes_on { OnOk result (HasAdvanced C.Clock Q.Tickets L.Link self.old self.new) }
        ensures same { HasSameIdentity C.Clock Q.Tickets L.Link self.old self.new }
        ensures memory { self.new.memory ≡ self.old.memory }
        ensures kept { self.new.kept ≡ self.old.kept }
        ensures share { self.new.share ≡ self.old.share }
        ensures accepted { self.new.submissions.accepted ≡ self.old.submissions.accepted }
    {
        let delivered = self
            .deliveries
            .round(rt, &mut self.link, self.buffer.as_mut_slice())?;
        if self.deliveries.has_failed() {
            self.submissions.fail();
            return Ok(delivered);
        }
        Ok(delivered)
    }

    /// Ends the connection because its link failed, as its joined writer reports: refuses the pending calls. Doesn't
    /// allocate.
    pub fn fail(&mut self)
        requires { IsConsistent C.Clock Q.Tickets L.Link self.old }
        ensures whole { IsConsistent C.Clock Q.Tickets L.Link self.new }
        ensures ended { self.new.submissions.conn.ended ≡ true }
        ensures frames { conn_frames self.new.submissions.conn ≡ conn_frames self.old.submissions.conn }
        ensures drawn { (tenant window : ℕ) → tickets_of_trace tenant window (conn_trace self.new.submissions.conn)
            ≡ tickets_of_trace tenant window (conn_trace self.old.submissions.conn) }
        ensures calls { self.new.submissions.calls ≡ self.old.submissions.calls }
        ensures finished { self.new.submissions.finished ≡ self.old.submissions.finished }
        ensures deliveries { IsCountedAsEnded self.old.deliveries.arrivals → self.new.deliveries ≡ self.old.deliveries }
        ensures same { HasSameIdentity C.Clock Q.Tickets L.Link self.old self.new }
        ensures link { self.new.link ≡ self.old.link }
        ensures tickets { self.new.tickets ≡ self.old.tickets }
        ensures memory { self.new.memory ≡ self.old.memory }
        ensures kept { self.new.kept ≡ self.old.kept }
        ensures share { self.new.share ≡ self.old.share }
        ensures accepted { self.new.submissions.accepted ≡ self.old.submissions.accepted }
    {
        self.submissions.fail();
        self.deliveries.stop();
    }

    /// Whether it gets no further round. Then both rings of the application were taken to their closing, the last
    /// drain is done, and the rings of notices and of block numbers were closed.
    pub fn is_finished(&self) -> bool
        ensures { result ≡ true → IsFinished C.Clock Q.Tickets L.Link self.now }
    {
        self.submissions.finished
            && self.deliveries.reclaims.closed
            && self.deliveries.notices.is_closed()
    }

    /// Makes the rounds of a visit: as many as the order grants, while there is something to do and the gate is open.
    /// Rounds of the grant that a closed gate leaves are kept. A connection with a `VisitAccount` counts the visit in its
    /// account.
    pub fn visit<R: Wait, G: Gate, O: ReadyOrder>(
        &mut self,
        rt: &R,
        alloc: Global,
        gate: &G,
        order: &O,
    ) -> VisitSummary
        requires endpoint { IsEndpoint C.Clock Q.Tickets L.Link self.old }
        // The order grants rounds by the weight of its visit account.
        requires order { IsGrantedByWeight (O.grant_of order.now) self.old }
        ensures endpoint { IsEndpoint C.Clock Q.Tickets L.Link self.new }
        ensures order { IsGrantedByWeight (O.grant_of order.now) self.new }
        ensures goes_on { self.new.memory ≡ false → HasAdvanced C.Clock Q.Tickets L.Link self.old self.new }
        ensures same { HasSameIdentity C.Clock Q.Tickets L.Link self.old self.new }
        ensures memory { (self.new.memory ≡ true) ↔ (result.outcome ≡ VisitOutcome.Memory) }
        ensures over { result.outcome ≡ VisitOutcome.Over → IsFinished C.Clock Q.Tickets L.Link self.new }

        // The rounds given are within the grant, and the rounds kept are those that the ending keeps, unless the
        // account no longer changes.
        ensures fits { IsWithinGrant (O.grant_of order.now self.old.submissions.conn.conn self.old.kept)
            (record { given = result.given; ending = result.ending }) }
        ensures kept { IfSome self.old.share (λ share. share.account.visits < 2 ^ 40) → self.new.kept
            ≡ kept_rounds result.ending
            (O.grant_of order.now self.old.submissions.conn.conn self.old.kept - result.given) }
        ensures counted { self.old.memory ≡ false → IfSome self.old.share (λ share. IfSome self.new.share (λ now.
            now.account ≡ after_visit share.weight share.account
            (record { given = result.given; ending = result.ending }))) }
    {
        let grant = order.grant(self.submissions.conn.number(), self.kept);
        if self.memory {
            self.kept = 0;
            return VisitSummary {
                outcome: VisitOutcome::Memory,
                given: 0,
                ending: Ending::Idle,
            };
        }
        let visited = self.make_rounds(rt, alloc, gate, grant);
        let (share, kept) = count(self.share, visited, grant);
        self.share = share;
        self.kept = kept;
        visited
    }

    // Makes at most `grant` rounds.
    fn make_rounds<R: Wait, G: Gate>(
        &mut self,
        rt: &R,
        alloc: Global,
        gate: &G,
        grant: u64,
    ) -> VisitSummary
        requires whole { IsConsistent C.Clock Q.Tickets L.Link self.old }
        requires memory { self.old.memory ≡ false }
        ensures whole { self.new.memory ≡ false → IsConsistent C.Clock Q.Tickets L.Link self.new }
        ensures goes_on { self.new.memory ≡ false → HasAdvanced C.Clock Q.Tickets L.Link self.old self.new }
        ensures same { HasSameIdentity C.Clock Q.Tickets L.Link self.old self.new }
        ensures memory { (self.new.memory ≡ true) ↔ (result.outcome ≡ VisitOutcome.Memory) }
        ensures over { result.outcome ≡ VisitOutcome.Over → IsFinished C.Clock Q.Tickets L.Link self.new }
        ensures fits { IsWithinGrant grant (record { given = result.given; ending = result.ending }) }
        ensures share { self.new.share ≡ self.old.share }
        ensures accepted { self.new.memory ≡ false
            → self.new.submissions.accepted ≤ self.old.submissions.accepted + result.given }
    {
        let conn = self.submissions.conn.number();
        let mut given = 0;
        'rounds: while given < grant {
            if !gate.open(conn) {
                return VisitSummary {
                    outcome: so_far(given),
                    given,
                    ending: Ending::Shut,
                };
            }
            match self.advance(rt, alloc) {
                VisitOutcome::Busy => given += 1,
                outcome => {
                    return VisitSummary {
                        outcome,
                        given: given + 1,
                        ending: ending_after(given + 1, grant),
                    };
                }
            }
        }
        VisitSummary {
            outcome: so_far(given),
            given,
            ending: Ending::Given,
        }
    }

    // Makes one round, and returns whether the connection is finished then.
    fn advance<R: Wait>(&mut self, rt: &R, alloc: Global) -> VisitOutcome
        requires whole { IsConsistent C.Clock Q.Tickets L.Link self.old }
        requires memory { self.old.memory ≡ false }
        ensures whole { result ≢ VisitOutcome.Memory → IsConsistent C.Clock Q.Tickets L.Link self.new }
        ensures goes_on { result ≢ VisitOutcome.Memory → HasAdvanced C.Clock Q.Tickets L.Link self.old self.new }
        ensures same { HasSameIdentity C.Clock Q.Tickets L.Link self.old self.new }
        ensures memory { (self.new.memory ≡ true) ↔ (result ≡ VisitOutcome.Memory) }
        ensures over { result ≡ VisitOutcome.Over → IsFinished C.Clock Q.Tickets L.Link self.new }
        ensures share { self.new.share ≡ self.old.share }
        ensures one { result ≢ VisitOutcome.Memory → self.new.submissions.accepted ≤ self.old.submissions.accepted + 1 }
    {
        match self.round(rt, alloc) {
            RoundOutcome::Memory => VisitOutcome::Memory,
            RoundOutcome::Busy => self.finished_or(VisitOutcome::Busy),
            RoundOutcome::Idle => self.finished_or(VisitOutcome::Idle),
        }
    }

    // `Over` if the connection is finished, else the outcome of its round.
    fn finished_or(&self, outcome: VisitOutcome) -> VisitOutcome
        ensures { (result ≡ outcome) ⊎ ((result ≡ VisitOutcome.Over) × IsFinished C.Clock Q.Tickets L.Link self.now) }
    {
        if self.is_finished() {
            return VisitOutcome::Over;
        }
        outcome
    }
}

// Whether a round was busy; `Memory` if it ran out of memory.
fn was_busy(activity: RoundOutcome) -> Result<bool, Memory>
    ensures { OnOk result (activity ≢ RoundOutcome.Memory) }
{
    match activity {
        RoundOutcome::Busy => Ok(true),
        RoundOutcome::Idle => Ok(false),
        RoundOutcome::Memory => Err(Memory),
    }
}

// The outcome of a visit whose rounds so far were all busy.
fn so_far(given: u64) -> VisitOutcome
    ensures { (result ≡ VisitOutcome.Busy) ⊎ (result ≡ VisitOutcome.Idle) }
{
    if given == 0 {
        return VisitOutcome::Idle;
    }
    VisitOutcome::Busy
}

// The ending of a visit after a round that had nothing to do or that finished the connection.
fn ending_after(given: u64, grant: u64) -> Ending
    ensures { result ≡ Ending.Given → given ≡ grant }
{
    if given == grant {
        return Ending::Given;
    }
    Ending::Idle
}

// The rounds of its grant that a visit leaves for later ones.
fn unused_of(visit: VisitSummary, grant: u64) -> u64
    requires { visit.given ≤ grant }
    ensures { result ≡ kept_rounds visit.ending (grant - visit.given) }
{
    match visit.ending {
        Ending::Shut => grant - visit.given,
        Ending::Given | Ending::Idle => 0,
    }
}

// Counts a visit in the visit account, if there is one. Returns the account and the rounds kept then.
fn count(
    share: Option<VisitAccount>,
    visit: VisitSummary,
    grant: u64,
) -> (Option<VisitAccount>, u64)
    requires within { visit.given ≤ grant }
    requires share { IfSome share (CanCount (record { given = visit.given; ending = visit.ending })) }
    ensures { IsVisitCounted (record { given = visit.given; ending = visit.ending }) (grant - visit.given) share
        result.0 result.1 }
{
    match share {
        Some(own) => {
            let counted = own.counted(visit);
            (Some(counted), counted.account.kept)
        }
        None => (None, unused_of(visit, grant)),
    }
}
