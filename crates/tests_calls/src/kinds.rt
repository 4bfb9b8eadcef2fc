//! The policies of several tests, and the steps that a scene goes through.

ghost use Rattle.mrpc_table.specs.Valid.{IsValid};
ghost use Rattle.engine_core.specs.Policies.{IsPolicy};

use crate::given::bytes_of;
use engine_core::Policy;
use mrpc_table::{Lines, Table};
use policy_access::read_access;
use policy_rate::Rate;
use policy_redact::read_redact;
use std::alloc::Global;
use std::process::Abort;

// The policies that tests attach.
#[derive(Clone, Copy)]
pub(crate) enum TestPolicy<'a> {
    // Rules, and then a default.
    Access(&'a [&'a [u8]]),
    // One call a second, and this many at once, from 1 to 10; a call below its cost is held.
    Rate(u64),
    // This many calls of the first tenant a second.
    Quota(u64),
    // Calls are counted.
    Count,
    // Fields are cleared.
    Redact(&'a [&'a [u8]]),
}

// The steps of a connection, and the checks between them.
#[derive(Clone, Copy)]
pub(crate) enum SceneStep<'a> {
    // A value is stored at a place.
    Store(u64, u64),
    // The message at place 2 is accepted this many times.
    Accept(u32),
    // A submission is rejected, because 64 calls are pending.
    Reject,
    // A policy of a kind is attached at a position under a name.
    Attach(u32, &'a [u8], TestPolicy<'a>),
    // The policy with a name is detached.
    Detach(&'a [u8]),
    // The entry with a name is upgraded to a policy of a kind.
    Upgrade(&'a [u8], TestPolicy<'a>),
    // The clock has a timestamp.
    Clock(u64),
    // The engine at a position takes this many turns.
    Turn(u32, u32),
    // All is judged and sent.
    Drain,
    // The first engine holds the call with this number, the first pending one, at a level below its cost.
    Hold(u32, u64),
    // One frame was handed over so far, and it is this one.
    Hand(&'a [u8]),
}

fn lines_of(rt: &impl Abort, alloc: Global, texts: &[&[u8]]) -> Lines {
    let mut lines = Lines::new(alloc);
    for text in texts {
        lines.push(bytes_of(rt, alloc, text)).expect(rt, "memory");
    }
    lines
}

fn rate_of(rt: &impl Abort, burst: u64) -> Policy
    ensures { IsPolicy result }
{
    assert!(rt; (1..=10).contains(&burst));
    Policy::Rate(Rate {
        amount: 1,
        per: 1000,
        burst,
        hold: true,
    })
}

// The policy of a kind.
pub(crate) fn policy_of(rt: &impl Abort, alloc: Global, table: &Table, kind: TestPolicy) -> Policy
    requires { IsValid table.now }
    ensures { IsPolicy result }
{
    match kind {
        TestPolicy::Access(texts) => {
            let lines = lines_of(rt, alloc, texts);
            Policy::Access(read_access(alloc, &lines, table).expect(rt, "a policy"))
        }
        TestPolicy::Rate(burst) => rate_of(rt, burst),
        TestPolicy::Quota(cap) => Policy::Quota {
            tenant: 0,
            per: 1000,
            cap,
        },
        TestPolicy::Count => Policy::Count,
        TestPolicy::Redact(texts) => {
            let lines = lines_of(rt, alloc, texts);
            Policy::Redact(read_redact(alloc, &lines, table).expect(rt, "a policy"))
        }
    }
}
