//! The counts of connections' lines, and the prefixes of their texts if these are wanted, made in parallel.

ghost use Rattle.std.specs.Prelude.{◌≡◌, ◌<◌, All, IfOk, Some, length, map, slice_index_or};
ghost use Rattle.run_report.specs.Prefixes.{AreMadePrefixes, CanMakePrefix, IsMadePrefix, ExpectedPrefix, source_prefix, expected_by, expected_for};
ghost use Rattle.run_report.specs.Report.{IsReportable};

use crate::arrival_lines::append_arrivals;
use crate::connection::append_history;
use crate::counting::count_connection;
use crate::reported_connection::ReportedConnection;
use crate::{Judge, lines_are_writable};
use conn_core::Conn;
use message_delivery::ArrivalLine;
use mrpc_table::{Bytes, Memory, Table};
use std::alloc::Global;
use std::thread;
use std::thread::Threads;
use telemetry::Totals;

// The source from which a connection's counts and the prefix of its text are made. Several threads may read it.
#[derive(Clone, Copy)]
pub(crate) struct PrefixSource<'a, 't> {
    calls: &'a Conn<'t>,
    table: &'a Table,
    judge: Option<Judge<'a>>,
    lines: &'a [ArrivalLine],
    // Whether the prefix of its text is made, or its lines are only counted.
    with_text: bool,
}

// What a thread makes of a connection.
#[derive(Drop)]
pub(crate) struct MadePrefix {
    // The prefix of its text; empty if the text isn't wanted.
    pub text: Bytes,
    // The counts of all its lines.
    pub counts: Totals,
}

// Makes the text prefixes and counts of connections, or the counts alone: each in a thread of its own if one can be
// started.
pub(crate) fn make_prefixes<R: Threads + Sync>(
    rt: &R,
    alloc: Global,
    shown: &[ReportedConnection<'_, '_>],
    with_text: bool,
) -> Result<Vec<Result<MadePrefix, Memory>>, Memory>
    requires { All IsReportable shown.now }
    ensures { IfOk result (λ made. AreMadePrefixes (map (expected_for with_text) shown.now) made.items) }
{
    let sources = sources(alloc, shown, with_text)?;
    make_all(rt, alloc, sources.as_slice())
}

// The source for each connection's thread.
fn sources<'a, 't>(
    alloc: Global,
    shown: &[ReportedConnection<'a, 't>],
    with_text: bool,
) -> Result<Vec<Option<PrefixSource<'a, 't>>>, Memory>
    requires { All IsReportable shown.now }
    ensures same { IfOk result (λ sources. map expected_by sources.items ≡ map (expected_for with_text) shown.now) }
    ensures can { IfOk result (λ sources. All CanMakePrefix sources.items) }
{
    let mut sources = Vec::new(alloc);
    for one in shown {
        sources.push(source_of(one, with_text))?;
    }
    Ok(sources)
}

// The source for a connection's thread; `None` for one that wasn't bound.
fn source_of<'a, 't>(
    shown: &ReportedConnection<'a, 't>,
    with_text: bool,
) -> Option<PrefixSource<'a, 't>>
    requires { IsReportable shown.now }
    ensures same { expected_by result ≡ expected_for with_text shown.now }
    ensures can { CanMakePrefix result }
{
    lines_are_writable();
    match shown {
        ReportedConnection::Unbound { .. } => None,
        ReportedConnection::Served(served) => Some(PrefixSource {
            calls: served.calls,
            table: served.arrivals.table,
            judge: served.judge,
            lines: served.arrivals.lines.as_slice(),
            with_text,
        }),
    }
}

// Makes all results in parallel.
fn make_all<R: Threads + Sync>(
    rt: &R,
    alloc: Global,
    sources: &[Option<PrefixSource<'_, '_>>],
) -> Result<Vec<Result<MadePrefix, Memory>>, Memory>
    requires { All CanMakePrefix sources.now }
    ensures { IfOk result (λ made. AreMadePrefixes (map expected_by sources.now) made.items) }
{
    let made = thread::map_indices(
        rt,
        alloc,
        sources.len(),
        &move |place: usize| -> Result<MadePrefix, Memory>
            requires there { place < length sources.now }
            requires can { All CanMakePrefix sources.now }
            ensures { (d : ExpectedPrefix) → IfOk result
                (IsMadePrefix (slice_index_or (map expected_by sources.entry.now) place d)) }
        { make(alloc, sources[place]) },
    )?;
    Ok(made)
}

// The result for a bound connection; an empty one for any other.
fn make(alloc: Global, source: Option<PrefixSource<'_, '_>>) -> Result<MadePrefix, Memory>
    requires { CanMakePrefix source }
    ensures { IfOk result (IsMadePrefix (expected_by source.entry)) }
{
    match source {
        Some(front) => make_served(alloc, front),
        None => Ok(MadePrefix {
            text: Bytes::new(alloc),
            counts: Totals::new(alloc),
        }),
    }
}

// The counts of a connection's lines, and the prefix of its text.
fn make_served(alloc: Global, front: PrefixSource<'_, '_>) -> Result<MadePrefix, Memory>
    requires { CanMakePrefix (Some front) }
    ensures { IfOk result (IsMadePrefix (expected_by (Some front.entry))) }
{
    let counts = count_connection(alloc, front.calls)?;
    let text = wanted_prefix(alloc, front)?;
    Ok(MadePrefix { text, counts })
}

// The prefix of a connection's text, its history and its arrivals, if it is wanted.
fn wanted_prefix(alloc: Global, front: PrefixSource<'_, '_>) -> Result<Bytes, Memory>
    requires { CanMakePrefix (Some front) }
    ensures { IfOk result (λ text. text ≡ source_prefix (Some front.entry)) }
{
    if !front.with_text {
        return Ok(Bytes::new(alloc));
    }
    let PrefixSource {
        calls,
        table,
        judge,
        lines,
        ..
    } = front;
    let mut text = Bytes::new(alloc);
    append_history(alloc, &mut text, calls, table)?;
    append_arrivals(alloc, &mut text, calls.number(), table, judge, lines)?;
    Ok(text)
}
