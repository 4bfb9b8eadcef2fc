//! The parts of a drain: turns and sends.

ghost use Rattle.std.specs.Prelude.{◌≡◌, ◌≢◌, ◌<◌, ℕ, All, None, length};
ghost use Rattle.std.specs.Bool.{OnFalse, OnTrue};
ghost use Rattle.mrpc_base.specs.Failures.{HasCause};
ghost use Rattle.engine_core.specs.Moves.{first_at};
ghost use Rattle.engine_core.specs.Policies.{KnowsTenantOf};
ghost use Rattle.call_history.specs.Draining.{IsPass, HasSentSome, HasTurns, again, at_rest};
ghost use Rattle.call_history.specs.Tickets.{tickets_of_trace};
ghost use Rattle.conn_core.specs.Connections.{IsSameConnection, conn_trace, conn_state, judge_context};
ghost use Rattle.conn_core.specs.Invariant.{HasFailedAfterSends, HasAdvancedByTurns};
ghost use Rattle.conn_core.specs.ConnectionSteps.{HasHandedOver, conn_parts};

use crate::answers::{Drained, Sending};
use crate::conn::Conn;
use chain_upgrade::Turned;
use mrpc_base::{Link, Tickets};

// Runs each engine in order until no call can advance. After a turn that clears fields it starts over at the
// first engine.
pub(crate) fn pass_all<Q: Tickets>(conn: &mut Conn, tickets: &mut Q)
    requires { All (λ e. KnowsTenantOf (Q.knows tickets.old) e.entry.policy) conn.old.chain.engines }
    ensures passes { IsPass (judge_context conn.old) 0 (conn_state conn.old) (conn_state conn.new) }
    ensures went { HasAdvancedByTurns Q.knows Q.drawn Q.since conn.old conn.new tickets.old tickets.new }
{
    conn.is_connection();
    let mut at = 0;
    'engines: while at < conn.chain().engines() {
        conn.is_connection();
        at = if turns_at(conn, at, tickets) {
            at + 1
        } else {
            0
        };
    }
    conn.is_connection();
}

// Runs an engine until no call can advance there or a turn clears fields. Returns true if no call can advance
// there.
fn turns_at<Q: Tickets>(conn: &mut Conn, at: u32, tickets: &mut Q) -> bool
    requires at { at < length conn.old.chain.engines }
    requires known { All (λ e. KnowsTenantOf (Q.knows tickets.old) e.entry.policy) conn.old.chain.engines }
    ensures rest { OnTrue result (HasTurns (judge_context conn.old) at (conn_state conn.old) at_rest
        (conn_state conn.new)) }
    ensures again { OnFalse result (HasTurns (judge_context conn.old) at (conn_state conn.old) again
        (conn_state conn.new)) }
    ensures fewer { OnFalse result (conn_parts conn.new < conn_parts conn.old) }
    ensures went { HasAdvancedByTurns Q.knows Q.drawn Q.since conn.old conn.new tickets.old tickets.new }
{
    conn.is_connection();
    'turns: loop {
        conn.is_connection();
        if !conn.pass_unnoted(at) {
            match conn.turn(at, tickets) {
                Turned::Idle => return true,
                Turned::Held { .. } => return true,
                Turned::Redacted { .. } => return false,
                Turned::Moved { .. } => {}
                Turned::Refused { .. } => {}
            }
        }
    }
}

// Sends the ready calls, in order.
pub(crate) fn send_all<L: Link>(conn: &mut Conn, link: &mut L) -> Drained
    ensures done { result ≡ Drained.Done
        → HasSentSome (judge_context conn.old) (conn_state conn.old) (conn_state conn.new) }
    ensures none_ready { result ≡ Drained.Done
        → first_at (length conn.new.chain.engines) conn.new.chain.row ≡ None }
    ensures failed { result ≡ Drained.Failed
        → HasFailedAfterSends L.refused L.handed L.failures L.since conn.old conn.new link.old link.new }
    ensures memory { result ≡ Drained.Memory
        → HasSentSome (judge_context conn.old) (conn_state conn.old) (conn_state conn.new) }
    ensures still_ready { result ≡ Drained.Memory
        → first_at (length conn.new.chain.engines) conn.new.chain.row ≢ None }
    ensures same { IsSameConnection conn.old conn.new }
    ensures tickets { (tenant window : ℕ) → tickets_of_trace tenant window (conn_trace conn.new)
        ≡ tickets_of_trace tenant window (conn_trace conn.old) }

    ensures handed { HasHandedOver conn.old conn.new (L.handed link.old) (L.handed link.new) }
    ensures given { L.given link.new ≡ L.given link.old }
    ensures link_ended { L.ended link.new ≡ L.ended link.old }
    ensures same_link { (first : L) → L.since first link.old → L.since first link.new }
    ensures cause { HasCause (result ≡ Drained.Failed) (L.failures link.old) (L.failures link.new) }
{
    'calls: loop {
        match conn.send_ready(link) {
            Sending::Sent { .. } => {}
            Sending::Nothing => return Drained::Done,
            Sending::Failed => return Drained::Failed,
            Sending::Memory => return Drained::Memory,
        }
    }
}
