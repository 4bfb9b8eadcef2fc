//! The lines for arrivals on a connection, and for returned numbers that named no held block.

ghost use Rattle.std.specs.Prelude.{◌≡◌, ◌++◌, All, OnOk};
ghost use Rattle.mrpc_table.specs.Valid.{IsValid};
ghost use Rattle.run_report.specs.Lines.{IsWritableArrival, judging_of};
ghost use Rattle.run_report.specs.ConnectionReport.{arrivals_text, not_held_text};

use crate::{Judge, append_arrival, append_not_held};
use message_delivery::ArrivalLine;
use mrpc_table::{Bytes, Memory, Table};
use std::alloc::Global;

/// Appends the lines of arrivals, in order. The only error is `Memory`.
pub fn append_arrivals(
    alloc: Global,
    out: &mut Bytes,
    conn: u32,
    table: &Table,
    judge: Option<Judge>,
    arrivals: &[ArrivalLine],
) -> Result<(), Memory>
    requires valid { IsValid table.now }
    requires fit { All (IsWritableArrival table.now (judging_of judge)) arrivals.now }
    ensures { OnOk result (out.new ≡ out.old ++ arrivals_text table.now (judging_of judge.entry) conn arrivals.now) }
{
    for arrival in arrivals {
        append_arrival(alloc, out, conn, table, judge, arrival)?;
    }
    Ok(())
}

/// Appends the lines of returned numbers that named no held block, in order. The only error is `Memory`.
pub fn append_false_reclaims(out: &mut Bytes, conn: u32, blocks: &[u64]) -> Result<(), Memory>
    ensures { OnOk result (out.new ≡ out.old ++ not_held_text conn blocks.now) }
{
    for block in blocks {
        append_not_held(out, conn, *block)?;
    }
    Ok(())
}
