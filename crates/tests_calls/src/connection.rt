//! A connection with its heap, its tickets and its link.

ghost use Rattle.std.specs.Prelude.{◌≡◌, ◌<◌, All};
ghost use Rattle.std.specs.Bool.{OnTrue};
ghost use Rattle.mrpc_table.specs.Valid.{IsValid};
ghost use Rattle.engine_core.specs.Policies.{IsPolicy, KnowsTenantOf};
ghost use Rattle.conn_core.specs.ConnectionSteps.{IfPolicy};
ghost use Rattle.tests_calls.specs.Connection.{HasCounterRoom};

use crate::given::bytes_of;
use crate::kinds::{SceneStep, TestPolicy, policy_of};
use crate::observed::{Observed, observed_at};
use crate::out_of_memory::{NoFrames, NoLoads};
use call_history::{HistoryRecord, RecordedCause};
use chain_upgrade::{Chain, ChainFault};
use conn_core::{AcceptFault, Ask, Conn, Drained};
use engine_core::{MAX_CALLS, Op, Policy};
use mrpc_base::{MemLink, PlainTickets, PlainWords, Room, Stores};
use mrpc_table::Table;
use std::alloc::Global;
use std::marker::Model;
use std::process::Abort;

// The outcome of an operator's operation.
#[derive(Clone, Copy, PartialEq, Eq)]
pub(crate) enum Stepped {
    Done,
    NoSuch,
    Taken,
    At(u32),
    ChainFull(u32),
    OtherKind,
    Memory,
}

fn stepped_by(step: &Result<(), ChainFault>) -> Stepped {
    match step {
        Ok(()) => Stepped::Done,
        Err(ChainFault::NoSuch { .. }) => Stepped::NoSuch,
        Err(ChainFault::Taken { .. }) => Stepped::Taken,
        Err(ChainFault::At { position }) => Stepped::At(*position),
        Err(ChainFault::ChainFull { engines }) => Stepped::ChainFull(*engines),
        Err(ChainFault::OtherKind { .. }) => Stepped::OtherKind,
        Err(ChainFault::Memory) => Stepped::Memory,
    }
}

// A connection with its heap of 16 words, the tickets of a tenant, and its link. What its calls require is
// its invariant or is checked at run time, so that hardly any helper needs a clause.
pub(crate) struct Scene<'t> {
    alloc: Global,
    table: &'t Table,
    words: PlainWords,
    tickets: PlainTickets,
    link: MemLink,
    conn: Conn<'t>,
    // The number of records that were compared.
    told: usize,
}

// Written by hand, so that a drop is one call, not a drop of each part.
impl<'t> Drop for Scene<'t> {
    fn drop(self) {
        let Scene {
            alloc: _,
            table: _,
            words: _words,
            tickets: _tickets,
            link: _link,
            conn: _conn,
            told: _,
        } = self;
    }
}

impl<'t> Model for Scene<'t> {
    ghost use Rattle.std.specs.Prelude.{ℕ};
    ghost use Rattle.tests_calls.specs.Connection.{IsScene};

    ghost Value = { ℕ };

    ghost view = { λ s. s.tickets.tenants };

    ghost invariant = { λ s. IsScene s.table.now s.words.size s.tickets.tenants };
}

// A history of fewer than 1000 records leaves room in all numbers.
#[tactic(auto, using(crate::proofs::Young::young))]
fn assert_counter_room(rt: &impl Abort, conn: &Conn)
    ensures { HasCounterRoom conn.now }
{
    conn.counters_are_bounded();
    assert!(rt; conn.history().len() < 1000);
}

// Whether a policy is of no tenant other than the first.
fn knows_tenant(policy: &Policy) -> bool
    ensures { OnTrue result (KnowsTenantOf (λ t. t ≡ 0) policy.now) }
{
    match policy {
        Policy::Quota { tenant, .. } => *tenant == 0,
        Policy::Access(_) | Policy::Rate(_) | Policy::Count | Policy::Redact(_) => true,
    }
}

// Whether there are tickets of the tenants of all policies.
fn knows_tenants(chain: &Chain, tickets: &PlainTickets) -> bool
    requires { 0 < tickets.now.tenants }
    ensures { OnTrue result (All (λ e. KnowsTenantOf (λ t. t < tickets.now.tenants) e.entry.policy) chain.now.engines) }
{
    for at in 0..chain.engines() {
        if !knows_tenant(chain.engine(at).policy()) {
            return false;
        }
    }
    true
}

// A link whose send with this number, from 1, fails; if it is 0, none fails.
fn link_of(rt: &impl Abort, alloc: Global, failing: u64) -> MemLink {
    let mut sends = Vec::new(alloc);
    if failing > 0 {
        sends.push(failing).expect(rt, "memory");
    }
    MemLink::new(
        alloc,
        Vec::new(alloc),
        Vec::new(alloc),
        sends,
        Vec::new(alloc),
    )
}

impl<'t> Scene<'t> {
    // A connection without a call, number 1. The link's send with number `failing`, from 1, fails; if it is
    // 0, none fails.
    pub(crate) fn open(rt: &impl Abort, alloc: Global, table: &'t Table, failing: u64) -> Scene<'t>
        requires { IsValid table.now }
    {
        Scene {
            alloc,
            table,
            words: PlainWords::open(alloc, 16).expect(rt, "memory"),
            tickets: PlainTickets::new(alloc, 1).expect(rt, "memory"),
            link: link_of(rt, alloc, failing),
            conn: Conn::open(alloc, 1, table, 16384).expect(rt, "memory"),
            told: 0,
        }
    }

    // ---- calls

    // Stores a word.
    pub(crate) fn store(&mut self, rt: &impl Abort, place: u64, value: u64) {
        assert!(rt; 1 <= place && place < self.words.size());
        assert!(rt; self.words.made() < 1000);
        assert!(rt; self.words.room_stores(1) == Room::Made);
        self.words.store(place, value);
    }

    // A request of the first method with the message at place 2.
    fn ask(&self) -> Ask {
        Ask {
            method: 0,
            number: 0,
            addr: 2,
            after: self.words.made(),
        }
    }

    // Submits the message at place 2 as a request of the first method; returns why it is rejected.
    fn submit(&mut self, rt: &impl Abort) -> Option<AcceptFault> {
        assert_counter_room(rt, &self.conn);
        let ask = self.ask();
        self.conn.accept(self.alloc, &mut self.words, ask).err()
    }

    // The message at place 2 is accepted.
    pub(crate) fn accepts(&mut self, rt: &impl Abort) {
        assert!(rt; self.submit(rt).is_none());
    }

    // The message is rejected, because the link has failed.
    pub(crate) fn has_ended(&mut self, rt: &impl Abort) {
        assert!(rt; self.conn.ended());
        assert!(rt; matches!(self.submit(rt), Some(AcceptFault::Ended)));
    }

    // The message is rejected, because the heap's reader is out of memory.
    pub(crate) fn runs_out_of_memory(&mut self, rt: &impl Abort) {
        assert_counter_room(rt, &self.conn);
        let ask = self.ask();
        let heap = PlainWords::open(self.alloc, 16).expect(rt, "memory");
        let fault = self
            .conn
            .accept(self.alloc, &mut NoLoads { heap }, ask)
            .err();
        assert!(rt; matches!(fault, Some(AcceptFault::Memory)));
    }

    // ---- operators

    // The outcome of an operator's operation.
    fn operate(&mut self, rt: &impl Abort, step: Op) -> Stepped
        requires { IfPolicy step IsPolicy }
    {
        assert_counter_room(rt, &self.conn);
        stepped_by(&self.conn.operate(self.alloc, step))
    }

    // The outcome of attaching a policy of a kind.
    pub(crate) fn attach(
        &mut self,
        rt: &impl Abort,
        at: u32,
        name: &[u8],
        kind: TestPolicy,
    ) -> Stepped {
        let step = Op::Attach {
            at,
            name: bytes_of(rt, self.alloc, name),
            label: bytes_of(rt, self.alloc, name),
            policy: policy_of(rt, self.alloc, self.table, kind),
        };
        self.operate(rt, step)
    }

    // The outcome of detaching the policy with this name.
    pub(crate) fn detach(&mut self, rt: &impl Abort, name: &[u8]) -> Stepped {
        let name = bytes_of(rt, self.alloc, name);
        self.operate(rt, Op::Detach { name })
    }

    // The outcome of upgrading the entry with this name to a policy of a kind.
    pub(crate) fn upgrade(&mut self, rt: &impl Abort, name: &[u8], kind: TestPolicy) -> Stepped {
        let step = Op::Upgrade {
            name: bytes_of(rt, self.alloc, name),
            label: bytes_of(rt, self.alloc, name),
            policy: policy_of(rt, self.alloc, self.table, kind),
        };
        self.operate(rt, step)
    }

    // ---- turns and sends

    // Takes turns until no call can advance.
    pub(crate) fn judge(&mut self, rt: &impl Abort) {
        assert!(rt; knows_tenants(self.conn.chain(), &self.tickets));
        self.conn.judge(&mut self.tickets);
    }

    // Takes turns until no call can advance, then sends; returns the outcome.
    pub(crate) fn drain(&mut self, rt: &impl Abort) -> Drained {
        assert!(rt; knows_tenants(self.conn.chain(), &self.tickets));
        self.conn.drain(&mut self.tickets, &mut self.link)
    }

    // Like `drain`, with a link that is out of memory.
    pub(crate) fn drain_without_memory(&mut self, rt: &impl Abort) -> Drained {
        assert!(rt; knows_tenants(self.conn.chain(), &self.tickets));
        self.conn.drain(&mut self.tickets, &mut NoFrames {})
    }

    // Ends the connection.
    pub(crate) fn fail(&mut self) {
        self.conn.fail();
    }

    // One turn of the engine at a position.
    fn turn(&mut self, rt: &impl Abort, at: u32) {
        assert!(rt; at < self.conn.chain().engines());
        assert!(rt; knows_tenants(self.conn.chain(), &self.tickets));
        let _ = self.conn.turn(at, &mut self.tickets);
    }

    // ---- steps

    // Records that a submission is rejected, because 64 calls are pending.
    fn reject(&mut self, rt: &impl Abort) {
        assert!(rt; matches!(self.submit(rt), Some(AcceptFault::Standing)));
        assert!(rt; self.conn.chain().calls().len() == MAX_CALLS);
        let ask = self.ask();
        self.conn.record_away(ask).expect(rt, "memory");
    }

    // Takes a step.
    pub(crate) fn takes(&mut self, rt: &impl Abort, step: SceneStep) {
        match step {
            SceneStep::Store(place, value) => self.store(rt, place, value),
            SceneStep::Accept(times) => {
                for _ in 0..times {
                    self.accepts(rt);
                }
            }
            SceneStep::Reject => self.reject(rt),
            SceneStep::Attach(at, name, kind) => {
                assert!(rt; self.attach(rt, at, name, kind) == Stepped::Done);
            }
            SceneStep::Detach(name) => assert!(rt; self.detach(rt, name) == Stepped::Done),
            SceneStep::Upgrade(name, kind) => {
                assert!(rt; self.upgrade(rt, name, kind) == Stepped::Done);
            }
            SceneStep::Clock(now) => self.conn.clock(now).expect(rt, "memory"),
            SceneStep::Turn(at, times) => {
                for _ in 0..times {
                    self.turn(rt, at);
                }
            }
            SceneStep::Drain => assert!(rt; self.drain(rt) == Drained::Done),
            SceneStep::Hold(number, level) => self.holds(rt, number, level),
            SceneStep::Hand(frame) => {
                assert!(rt; self.frames() == 1);
                self.hands(rt, 0, frame);
            }
        }
    }

    // The next record is this.
    pub(crate) fn expects(&mut self, rt: &impl Abort, expected: Observed) {
        let history = self.conn.history();
        assert!(rt; self.told < history.len());
        assert!(rt; observed_at(history, self.told) == expected);
        self.told += 1;
    }

    // Takes these steps. After all that was compared before, the history has these records, and no more.
    pub(crate) fn does(&mut self, rt: &impl Abort, steps: &[SceneStep], expected: &[Observed]) {
        for step in steps {
            self.takes(rt, *step);
        }
        for told in expected {
            self.expects(rt, *told);
        }
        assert!(rt; self.told == self.conn.history().len());
    }

    // ---- outcomes

    // The first pending call has this number and is held at the first engine, at this level, where it costs
    // 1000.
    fn holds(&self, rt: &impl Abort, number: u32, wanted: u64) {
        let chain = self.conn.chain();
        let (seq, at) = chain.standing(0).expect(rt, "a call");
        assert!(rt; seq == number);
        assert!(rt; at == 0);
        assert!(rt; 0 < chain.engines());
        let (level, cost) = chain.held(0).expect(rt, "a held call");
        assert!(rt; level == wanted);
        assert!(rt; cost == 1000);
    }

    // The number of records.
    pub(crate) fn records(&self) -> usize {
        self.conn.history().len()
    }

    // The record at an index.
    fn record(&self, rt: &impl Abort, place: usize) -> &HistoryRecord {
        let history = self.conn.history();
        assert!(rt; place < history.len());
        history.at(place)
    }

    // The record at an index is that a call was sent.
    pub(crate) fn expects_sent(&self, rt: &impl Abort, place: usize, number: u32) {
        let record = self.record(rt, place);
        assert!(rt; matches!(record, HistoryRecord::Sent { seq, .. } if *seq == number));
    }

    // The record at an index is that a call was refused, because the link failed.
    pub(crate) fn expects_lost(&self, rt: &impl Abort, place: usize, number: u32) {
        let record = self.record(rt, place);
        assert!(rt;
            matches!(record, HistoryRecord::Refused { seq, by: RecordedCause::Transport } if *seq == number)
        );
    }

    // The number of frames that were handed over.
    pub(crate) fn frames(&self) -> usize {
        self.link.handed().len()
    }

    // The frame at an index is this one.
    pub(crate) fn hands(&self, rt: &impl Abort, place: usize, frame: &[u8]) {
        let frames = self.link.handed();
        assert!(rt; place < frames.len());
        assert!(rt; frames[place].as_slice() == frame);
    }
}
