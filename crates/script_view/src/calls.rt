//! Counts the calls that a script has made, on each connection and in total, and the loads that each may
//! take.

ghost use Rattle.std.specs.Prelude.{◌≡◌, ◌≤◌, ◌<◌, ◌+◌, ◌*◌, ◌^◌, max, replicate, slice_index, slice_set, IsTrue, ◌↔◌, ℕ};
ghost use Rattle.replay_script.specs.declared.limits.TheConstants.{MAX_CONNECTIONS, MAX_WORK};

use replay_script::{MAX_CONNECTIONS, MAX_WORK};

// The calls of a script so far.
#[derive(Drop)]
pub(crate) struct ReplayCalls {
    // The number of the last call of each connection, 0 if it has none. Index 0 is no connection.
    pub counts: [u64; 17],
    // The total number of calls.
    pub total: u64,
    // The most loads that one of them takes, at least 1.
    pub loads: u64,
    ghost few: { total ≤ MAX_WORK },
    ghost work: { total * loads ≤ MAX_WORK },
    ghost within: { (k : ℕ) → slice_index counts k ≤ total },
    ghost some: { 1 ≤ loads },
}

impl ReplayCalls {
    // No calls yet.
    pub(crate) fn new() -> ReplayCalls
        ensures counts { result.counts ≡ replicate 17 0 }
        ensures total { result.total ≡ 0 }
        ensures loads { result.loads ≡ 1 }
    {
        ReplayCalls {
            counts: [0; 17],
            total: 0,
            loads: 1,
        }
    }

    // The number of the last call of a connection.
    pub(crate) fn last(&self, conn: u32) -> u64
        requires { conn ≤ MAX_CONNECTIONS }
        ensures { result ≡ slice_index self.now.counts conn }
    {
        self.counts[conn as usize]
    }

    // Adds a call of a connection that takes `loads` loads, after `blanks` calls without a message. Returns
    // whether a script may have this total of calls, given the loads that each may take. If not, nothing
    // changes.
    pub(crate) fn add(&mut self, conn: u32, blanks: u64, loads: u64) -> bool
        requires conn { conn ≤ MAX_CONNECTIONS }
        requires blanks { blanks < 2 ^ 32 }
        ensures few { IsTrue result ↔ ((self.old.total + blanks + 1) * max self.old.loads loads ≤ MAX_WORK) }
        ensures counts { IsTrue result → self.new.counts
            ≡ slice_set self.old.counts conn (slice_index self.old.counts conn + blanks + 1) }
        ensures total { IsTrue result → self.new.total ≡ self.old.total + blanks + 1 }
        ensures loads { IsTrue result → self.new.loads ≡ max self.old.loads loads }
    {
        let total = self.total + blanks + 1;
        let most = self.loads.max(loads);
        if !is_work(total, most) {
            return false;
        }
        self.counts[conn as usize] += blanks + 1;
        self.total = total;
        self.loads = most;
        true
    }
}

// Whether a script may have this number of calls, if each takes this number of loads.
fn is_work(calls: u64, loads: u64) -> bool
    ensures { IsTrue result ↔ (calls * loads ≤ MAX_WORK) }
{
    match calls.checked_mul(loads) {
        Some(work) => work <= MAX_WORK,
        None => false,
    }
}

// Whether a script may have a connection with this number.
pub(crate) fn is_conn(conn: u32) -> bool
    ensures { IsTrue result ↔ ((1 ≤ conn) × (conn ≤ MAX_CONNECTIONS)) }
{
    conn >= 1 && conn as usize <= MAX_CONNECTIONS
}
