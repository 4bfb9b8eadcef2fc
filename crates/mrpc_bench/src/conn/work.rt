//! A connection with its heap, its tickets and its link, and the work on them. A result is `None` if it is
//! out of memory or a number overflows.

ghost use Rattle.std.specs.Prelude.{◌≡◌, ◌<◌, All, IfSome};
ghost use Rattle.std.specs.Bool.{OnTrue};
ghost use Rattle.mrpc_table.specs.Valid.{IsValid};
ghost use Rattle.engine_core.specs.Policies.{IsPolicy, KnowsTenantOf};
ghost use Rattle.conn_core.specs.ConnectionSteps.{IfPolicy};
ghost use Rattle.mrpc_bench.specs.Work.{HasCounterRoom};

use crate::discard;
use chain_upgrade::Chain;
use conn_core::{Ask, Conn, Drained};
use engine_core::{Op, Policy};
use mrpc_base::{MemLink, PlainTickets, PlainWords, Room, Stores, Words};
use mrpc_table::{Bytes, Lines, Name, Table};
use policy_access::read_access;
use policy_rate::Rate;
use std::alloc::Global;
use std::marker::Model;

// The table of the messages.
pub(crate) const TABLE: &[u8] =
    b"message M\nfield 1 plain uint64 a\nfield 2 plain uint64 b\nfield 3 plain uint64 c\n\
field 4 plain uint64 d\nfield 5 plain uint64 e\nfield 6 plain uint64 f\nfield 7 plain uint64 g\n\
field 8 plain uint64 h\nfield 9 plain uint64 i\nfield 10 plain uint64 j\nmethod 0 S Get M M\n";

// Rules that deny no message.
const RULES: [&[u8]; 4] = [
    b"rule a deny method 0 where 1 eq 1",
    b"rule b deny method 0 where 5 eq 1",
    b"rule c deny method 0 where 10 eq 1",
    b"default allow",
];

// As many calls as a rate can let pass at one timestamp.
const RATE: Rate = Rate {
    amount: 1,
    per: 1,
    burst: 1000000,
    hold: true,
};

// One call at each timestamp; the others wait.
const CALL_A_MOMENT: Rate = Rate {
    amount: 1,
    per: 1,
    burst: 1,
    hold: true,
};

// Connection 1, with its heap of 32 words, the tickets of a tenant, its link, and a policy with the rules.
pub(crate) struct Work<'t> {
    alloc: Global,
    table: &'t Table,
    rules: Policy,
    words: PlainWords,
    tickets: PlainTickets,
    link: MemLink,
    conn: Conn<'t>,
}

// Written by hand, so that a drop is one call, not a drop of each part.
impl<'t> Drop for Work<'t> {
    fn drop(self) {
        let Work {
            alloc: _,
            table: _,
            rules: _rules,
            words: _words,
            tickets: _tickets,
            link: _link,
            conn: _conn,
        } = self;
    }
}

impl<'t> Model for Work<'t> {
    ghost use Rattle.std.specs.Prelude.{ℕ};
    ghost use Rattle.mrpc_bench.specs.Work.{IsWork};

    ghost Value = { ℕ };

    ghost view = { λ w. w.words.size };

    ghost invariant = { λ w. IsWork w.table.now w.rules w.words.size w.tickets.tenants };
}

// Whether each counter of a connection has room for one more.
#[tactic(auto, using(crate::proofs::Young::young))]
fn has_counter_room(conn: &Conn) -> bool
    ensures { OnTrue result (HasCounterRoom conn.now) }
{
    conn.counters_are_bounded();
    conn.history().len() < 1000000000
}

// Whether a policy is of no tenant other than the first.
fn knows_tenant(policy: &Policy) -> bool
    ensures { OnTrue result (KnowsTenantOf (λ t. t ≡ 0) policy.now) }
{
    match policy {
        Policy::Quota { tenant, .. } => *tenant == 0,
        Policy::Access(_) | Policy::Rate(_) | Policy::Count | Policy::Redact(_) => true,
    }
}

// Whether there are tickets of the tenants of all policies.
fn knows_tenants(chain: &Chain, tickets: &PlainTickets) -> bool
    requires { 0 < tickets.now.tenants }
    ensures { OnTrue result (All (λ e. KnowsTenantOf (λ t. t < tickets.now.tenants) e.entry.policy) chain.now.engines) }
{
    for at in 0..chain.engines() {
        if !knows_tenant(chain.engine(at).policy()) {
            return false;
        }
    }
    true
}

fn name_of(alloc: Global, name: &[u8]) -> Option<Name> {
    Bytes::from_slice(alloc, name).ok()
}

fn rules(alloc: Global) -> Option<Lines> {
    let mut lines = Lines::new(alloc);
    for text in RULES {
        lines.push(name_of(alloc, text)?).ok()?;
    }
    Some(lines)
}

// A policy with the rules.
fn access(alloc: Global, table: &Table) -> Option<Policy>
    requires { IsValid table.now }
    ensures { IfSome result IsPolicy }
{
    let lines = rules(alloc)?;
    let access = read_access(alloc, &lines, table).ok()?;
    Some(Policy::Access(access))
}

// A name, and the same as a label.
fn two_names(alloc: Global, name: &[u8]) -> Option<(Name, Name)> {
    Some((name_of(alloc, name)?, name_of(alloc, name)?))
}

fn new_link(alloc: Global) -> MemLink {
    MemLink::new(
        alloc,
        Vec::new(alloc),
        Vec::new(alloc),
        Vec::new(alloc),
        Vec::new(alloc),
    )
}

impl<'t> Work<'t> {
    // A connection without a call, and a message of ten fields at place 2 of its heap.
    pub(crate) fn open(alloc: Global, table: &'t Table) -> Option<Work<'t>>
        requires { IsValid table.now }
    {
        let conn = Conn::open(alloc, 1, table, 16384).ok()?;
        let rules = access(alloc, table)?;
        let Ok(tickets) = PlainTickets::new(alloc, 1) else {
            return None;
        };
        let Ok(words) = PlainWords::open(alloc, 32) else {
            return None;
        };
        let mut work = Work {
            alloc,
            table,
            rules,
            words,
            tickets,
            link: new_link(alloc),
            conn,
        };
        work.store_message()?;
        Some(work)
    }

    fn store_message(&mut self) -> Option<()> {
        for field in 0..10 {
            self.store(2 + 2 * field, 1000 * (field + 1))?;
        }
        Some(())
    }

    fn store(&mut self, place: u64, value: u64) -> Option<()> {
        let here = 1 <= place && place < self.words.size();
        let room = self.words.room_stores(1) == Room::Made;
        if !here || !room || self.words.made() >= 1000 {
            return None;
        }
        self.words.store(place, value);
        Some(())
    }

    // ---- operations of an operator

    fn operate(&mut self, step: Op) -> Option<()>
        requires { IfPolicy step IsPolicy }
    {
        if !has_counter_room(&self.conn) {
            discard(step);
            return None;
        }
        self.conn.operate(self.alloc, step).ok()
    }

    fn attach(&mut self, at: u32, name: &[u8], policy: Policy) -> Option<()>
        requires { IsPolicy policy }
    {
        let Some((name, label)) = two_names(self.alloc, name) else {
            discard(policy);
            return None;
        };
        self.operate(Op::Attach {
            at,
            name,
            label,
            policy,
        })
    }

    fn upgrade(&mut self, name: &[u8], policy: Policy) -> Option<()>
        requires { IsPolicy policy }
    {
        let Some((name, label)) = two_names(self.alloc, name) else {
            discard(policy);
            return None;
        };
        self.operate(Op::Upgrade {
            name,
            label,
            policy,
        })
    }

    fn attach_access(&mut self, at: u32, name: &[u8]) -> Option<()> {
        let policy = access(self.alloc, self.table)?;
        self.attach(at, name, policy)
    }

    // Attaches four access policies, a rate and a count policy.
    pub(crate) fn attach_all(&mut self) -> Option<()> {
        self.attach_access(0, b"a")?;
        self.attach_access(1, b"b")?;
        self.attach_access(2, b"c")?;
        self.attach_access(3, b"d")?;
        self.attach(4, b"rate", Policy::Rate(RATE))?;
        self.attach(5, b"count", Policy::Count)
    }

    // Attaches an access policy, a rate that lets one call pass at each timestamp and holds the others,
    // another access policy and a count policy.
    pub(crate) fn attach_holding(&mut self) -> Option<()> {
        self.attach_access(0, b"a")?;
        self.attach(1, b"rate", Policy::Rate(CALL_A_MOMENT))?;
        self.attach_access(2, b"b")?;
        self.attach(3, b"count", Policy::Count)
    }

    // Upgrades the first policy to the same rules, so that all calls go back to it.
    pub(crate) fn upgrade_first(&mut self) -> Option<()> {
        let policy = self.rules.copied(self.alloc).ok()?;
        self.upgrade(b"a", policy)
    }

    // Attaches a policy in the middle of the chain, upgrades it, and detaches it.
    pub(crate) fn attach_upgrade_detach(&mut self) -> Option<()> {
        self.attach(3, b"middle", Policy::Count)?;
        self.upgrade(b"middle", Policy::Count)?;
        let name = name_of(self.alloc, b"middle")?;
        self.operate(Op::Detach { name })
    }

    // ---- calls

    // Accepts the message this many times.
    pub(crate) fn accept(&mut self, times: u32) -> Option<()> {
        for _ in 0..times {
            self.accept_one()?;
        }
        Some(())
    }

    // Accepts the message.
    pub(crate) fn accept_one(&mut self) -> Option<()> {
        if !has_counter_room(&self.conn) {
            return None;
        }
        let ask = Ask {
            method: 0,
            number: 0,
            addr: 2,
            after: self.words.made(),
        };
        let accepted = self.conn.accept(self.alloc, &mut self.words, ask);
        accepted.is_ok().then_some(())
    }

    // Advances the clock to a timestamp, in milliseconds.
    pub(crate) fn show(&mut self, moment: u64) -> Option<()> {
        self.conn.clock(moment).ok()
    }

    // Runs the engines in order until no call can advance. Sends nothing.
    pub(crate) fn judge(&mut self) -> Option<()> {
        if !knows_tenants(self.conn.chain(), &self.tickets) {
            return None;
        }
        self.conn.judge(&mut self.tickets);
        Some(())
    }

    // Runs the engines, and sends the calls that are ready.
    pub(crate) fn drain(&mut self) -> Option<()> {
        if !knows_tenants(self.conn.chain(), &self.tickets) {
            return None;
        }
        let drained = self.conn.drain(&mut self.tickets, &mut self.link);
        (drained == Drained::Done).then_some(())
    }

    // ---- results

    // The number of events.
    pub(crate) fn happenings(&self) -> usize {
        self.conn.history().len()
    }

    // The number of frames that the link was handed.
    pub(crate) fn frames(&self) -> usize {
        self.link.handed().len()
    }
}
