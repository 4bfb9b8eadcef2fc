//! Turns of engines, and sends.

ghost use Rattle.std.specs.Prelude.{◌≡◌, ◌<◌, ℕ, Err, List, Option, length};
ghost use Rattle.mrpc_base.specs.Quota.{Counters};
ghost use Rattle.mrpc_base.specs.Failures.{HasCause};
ghost use Rattle.replay_script.specs.declared.script.ScriptLine.TheVariants.{Drain, Send, Turn};
ghost use Rattle.replay_run.specs.Kept.{IsBrokenFor, IsDoneFor, IsBetweenSubmissions, KnowsTenants, OnRan, IsStoppedFor};

use crate::connection::RunConnection;
use crate::replay_error::ReplayError;
use conn_core::{Drained, Sending};
use frame_transport::ByteLink;
use mrpc_base::{PlainTickets, Sink};

// Gives the engine at a position a turn with the first call there, if there is one.
pub(crate) fn turn(connection: &mut RunConnection<'_>, at: u32, tickets: &mut PlainTickets)
    requires at { at < length connection.old.calls.chain.engines }
    requires known { KnowsTenants tickets.old connection.old.calls }
    requires rests { IsBetweenSubmissions connection.old.heap }
    ensures { (wire : Option (List ℕ)) → IsDoneFor (λ conn. Turn conn at) connection.old connection.new tickets.old
        tickets.new wire wire }
{
    connection.calls.is_connection();
    connection.calls.turn(at, tickets);
}

// Sends the first ready call, if there is one.
pub(crate) fn send<W: Sink>(
    connection: &mut RunConnection<'_>,
    wire: &mut W,
) -> Result<(), ReplayError>
    requires rests { IsBetweenSubmissions connection.old.heap }
    ensures ran { (tickets : Counters) → OnRan result
        (IsDoneFor Send connection.old connection.new tickets tickets (W.written wire.old) (W.written wire.new))
        (IsBrokenFor Send connection.old connection.new tickets tickets (W.written wire.old) (W.written wire.new))
        (IsStoppedFor Send connection.old (W.written wire.old) (W.written wire.new))
        ⊥ }
    ensures cause { HasCause (result ≡ Err ReplayError.Wire) (W.failures wire.old) (W.failures wire.new) }
{
    connection.calls.is_connection();
    let mut link = ByteLink::new(wire);
    match connection.calls.send_ready(&mut link) {
        Sending::Nothing | Sending::Sent { .. } => Ok(()),
        Sending::Failed => Err(ReplayError::Wire),
        Sending::Memory => Err(ReplayError::Memory),
    }
}

// Runs turns and sends until no call advances.
pub(crate) fn drain<W: Sink>(
    connection: &mut RunConnection<'_>,
    tickets: &mut PlainTickets,
    wire: &mut W,
) -> Result<(), ReplayError>
    requires known { KnowsTenants tickets.old connection.old.calls }
    requires rests { IsBetweenSubmissions connection.old.heap }
    ensures ran { OnRan result
        (IsDoneFor Drain connection.old connection.new tickets.old tickets.new (W.written wire.old)
        (W.written wire.new))
        (IsBrokenFor Drain connection.old connection.new tickets.old tickets.new (W.written wire.old)
        (W.written wire.new))
        (IsStoppedFor Drain connection.old (W.written wire.old) (W.written wire.new))
        ⊥ }
    ensures tenants { tickets.new.tenants ≡ tickets.old.tenants }
    ensures cause { HasCause (result ≡ Err ReplayError.Wire) (W.failures wire.old) (W.failures wire.new) }
{
    let mut link = ByteLink::new(wire);
    match connection.calls.drain(tickets, &mut link) {
        Drained::Done => Ok(()),
        Drained::Failed => Err(ReplayError::Wire),
        Drained::Memory => Err(ReplayError::Memory),
    }
}
