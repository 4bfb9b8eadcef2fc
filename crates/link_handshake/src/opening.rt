//! A connection that has received nothing.

ghost use Rattle.std.specs.Prelude.{◌≡◌, ◌≤◌, [], None};
ghost use Rattle.mrpc_table.specs.Valid.{IsValid};
ghost use Rattle.mrpc_table.specs.declared.limits.TheConstants.{MAX_HEAP};
ghost use Rattle.receive_core.specs.ReceiverTraces.{IsTraceOf, empty_trace};
ghost use Rattle.message_delivery.specs.Arriving.{IsArrivalTrace};

use message_delivery::{Arrivals, StreamState};
use mrpc_table::Table;
use policy_access::Access;
use receive_core::Inbound;
use shared_heap::Writer;
use std::alloc::Global;

/// The arrivals of a connection that has received nothing, with a new receiver and an unused heap.
pub fn new_arrivals<'t>(
    alloc: Global,
    inbound: Inbound,
    writer: Writer,
    table: &'t Table,
    policy: Option<&'t Access>,
) -> Arrivals<'t>
    requires valid { IsValid table.now }
    requires new { IsTraceOf table.now empty_trace inbound }
    requires no_stores { writer.stores ≡ [] }
    requires one_size { writer.heap.words ≡ inbound.heap.words }
    requires most { inbound.heap.words ≤ MAX_HEAP }

    ensures lived { IsArrivalTrace empty_trace result }
    ensures open { result.stream ≡ StreamState.Open }
    ensures inbound { result.inbound ≡ inbound }
    ensures writer { result.writer ≡ writer }
    ensures table { result.table.now ≡ table.now }
    ensures policy { result.policy ≡ policy.entry }
    ensures lines { result.lines.items ≡ [] }
{
    Arrivals {
        inbound,
        writer,
        table,
        policy,
        lines: Vec::new(alloc),
        stream: StreamState::Open,
        fault: None,
    }
}
