//! Submissions.

ghost use Rattle.std.specs.Prelude.{◌≡◌, ◌+◌, ◌<◌, ◌≤◌, ◌^◌, IfErr, OnOk, length};
ghost use Rattle.mrpc_table.specs.declared.limits.TheConstants.{MAX_HEAP, MIN_HEAP};
ghost use Rattle.replay_script.specs.declared.script.ScriptLine.TheVariants.{Submit};
ghost use Rattle.call_history.specs.Trace.{taken};
ghost use Rattle.conn_core.specs.Connections.{IsSameConnection, conn_trace};
ghost use Rattle.replay_run.specs.Kept.{IsEffectFor, IsBetweenSubmissions, HasKept, IsSubmission};

use crate::connection::RunConnection;
use crate::replay_error::ReplayError;
use conn_core::{Ask, Conn};
use engine_core::MAX_CALLS;
use mrpc_base::{PlainWords, Stores};
use std::alloc::Global;

// Submits a call. It is accepted, or rejected if too many calls are pending. Then the remaining races are made.
pub(crate) fn submit(
    alloc: Global,
    connection: &mut RunConnection<'_>,
    method: u16,
    number: u32,
    addr: u64,
) -> Result<(), ReplayError>
    requires rests { IsBetweenSubmissions connection.old.heap }
    requires numbers { length (taken (conn_trace connection.old.calls)) + 1 < 2 ^ 32 }
    ensures does { OnOk result (IsEffectFor (λ s l. l ≡ Submit connection.old.calls.conn method number addr)
        connection.old connection.new) }
    ensures keeps { OnOk result (HasKept connection.old connection.new) }
    ensures memory { IfErr result (λ stop. stop ≡ ReplayError.Memory) }
{
    let ask = Ask {
        method,
        number,
        addr,
        after: connection.heap.made(),
    };
    submit_call(alloc, &mut connection.calls, &mut connection.heap, ask)?;
    connection.heap.finish_submission();
    Ok(())
}

// Accepts or rejects the call of a submission, before the remaining races are made.
fn submit_call(
    alloc: Global,
    calls: &mut Conn<'_>,
    heap: &mut PlainWords,
    ask: Ask,
) -> Result<(), ReplayError>
    requires least_heap { MIN_HEAP ≤ heap.old.size }
    requires greatest_heap { heap.old.size ≤ MAX_HEAP }
    requires numbers { length (taken (conn_trace calls.old)) + 1 < 2 ^ 32 }
    ensures submits { OnOk result (IsSubmission ask calls.old calls.new heap.old heap.new) }
    ensures same { OnOk result (IsSameConnection calls.old calls.new) }
    ensures memory { IfErr result (λ stop. stop ≡ ReplayError.Memory) }
{
    if calls.chain().calls().len() == MAX_CALLS {
        return Ok(calls.record_away(ask)?);
    }
    match calls.accept(alloc, heap, ask) {
        Ok(_) => Ok(()),
        Err(_) => Err(ReplayError::Memory),
    }
}
