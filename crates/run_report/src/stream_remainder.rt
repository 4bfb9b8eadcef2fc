//! The lines for the unhandled remainder of a connection's stream.

ghost use Rattle.std.specs.Prelude.{◌≡◌, ◌≢◌, ◌-◌, ◌++◌, ℕ, List, None, OnOk, Some, length};
ghost use Rattle.frame_transport.specs.Frames.{IsSplitOf};
ghost use Rattle.frame_transport.specs.Feed.{total_fed};
ghost use Rattle.frame_transport.specs.declared.format.Frame.{Frame as TheFrame};
ghost use Rattle.receive_core.specs.ReceiverTraces.{ReceiverTrace as TheLife};
ghost use Rattle.message_delivery.specs.Arriving.{HasTrace, IsArrivalTrace};
ghost use Rattle.run_report.specs.ConnectionReport.{IsStreamRemainder, cut_text, waiting_text};

use crate::{append_cut, append_short, append_waits};
use frame_transport::{FeedFault, split_is_unique};
use message_delivery::Arrivals;
use mrpc_table::{Bytes, Memory};
use receive_core::Inbound;

/// Appends the lines for the remainder of a connection's stream after the handled frames: where it is cut, and the
/// whole frames that wait. The only error is `Memory`.
pub fn append_stream_remainder(
    out: &mut Bytes,
    conn: u32,
    failed: bool,
    arrivals: &Arrivals<'_>,
) -> Result<(), Memory>
    requires lived { HasTrace arrivals.now }
    ensures { (life : TheLife) → IsArrivalTrace life arrivals.now
        → OnOk result ((text : List ℕ) × IsStreamRemainder conn failed life text × (out.new ≡ out.old ++ text)) }
{
    split_is_unique();
    append_where_cut(out, conn, failed, arrivals.fault, &arrivals.inbound)?;
    append_waiting(out, conn, &arrivals.inbound)
}

// Appends the line of where the stream is cut, if it is.
fn append_where_cut(
    out: &mut Bytes,
    conn: u32,
    failed: bool,
    fault: Option<FeedFault>,
    inbound: &Inbound,
) -> Result<(), Memory>
    requires says { fault ≢ Some FeedFault.Memory }
    requires kept { fault ≡ None → inbound.now.fed.behind ≡ 0 }
    requires splits { (frames : List TheFrame) × (rest : List ℕ)
        × IsSplitOf inbound.now.fed.place inbound.now.fed.bytes frames rest }
    ensures { (frames : List TheFrame) (rest : List ℕ)
        → IsSplitOf inbound.now.fed.place inbound.now.fed.bytes frames rest
        → OnOk result (out.new ≡ out.old ++ cut_text conn failed fault (total_fed inbound.now.fed - length rest) rest) }
{
    if let Some(fault) = fault {
        return append_cut(out, conn, fault);
    }
    let rest = inbound.partial_len();
    if failed || rest == 0 {
        return Ok(());
    }
    append_short(out, conn, inbound.fed() - rest)
}

// Appends the lines of the whole frames without a fate.
fn append_waiting(out: &mut Bytes, conn: u32, inbound: &Inbound) -> Result<(), Memory>
    ensures { (frames : List TheFrame) (rest : List ℕ)
        → IsSplitOf inbound.now.fed.place inbound.now.fed.bytes frames rest
        → OnOk result (out.new ≡ out.old ++ waiting_text conn frames) }
{
    for place in 0..inbound.fed() {
        let Some((kind, method, number)) = inbound.waiting(place) else {
            return Ok(());
        };
        append_waits(out, conn, kind, method, number)?;
    }
    Ok(())
}
