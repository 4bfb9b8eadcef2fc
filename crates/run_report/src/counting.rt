//! The counts of the events and calls in the lines of a run.

ghost use Rattle.std.specs.Prelude.{◌≡◌, ◌≤◌, ◌<◌, ◌++◌, ◌∷◌, [], ℕ, List, Some, IfOk, IfSome, OnOk, length, map, slice_get};
ghost use Rattle.std.specs.List.{AllZip, flat_map};
ghost use Rattle.call_history.specs.Trace.{taken};
ghost use Rattle.call_history.specs.Records.{event_of_record};
ghost use Rattle.call_history.specs.declared.happening.AcceptedCall.{AcceptedCall as TheTaken};
ghost use Rattle.conn_core.specs.Connections.{conn_trace};
ghost use Rattle.telemetry.specs.Counts.{CountedEvent as Counted};
ghost use Rattle.engine_core.specs.declared.op.Op.{Op as TheStep};
ghost use Rattle.run_report.specs.Counting.{counted, counted_in, counted_on, method_of_call, pending_counted};
ghost use Rattle.run_report.specs.Counts.{AreCountsOf, AreNumberedFromOne, CanCount, HaveCounted, methods_by, methods_of_calls, count_if_any};

use crate::reported_connection::ReportedConnection;
use call_history::HistoryRecord;
use conn_core::Conn;
use mrpc_table::Memory;
use std::alloc::Global;
use telemetry::{Totals, What, counts_add_up};

// The counts of the lines of all connections, summed from those of each. More lines than a 64-bit number counts fit
// no machine.
pub(crate) fn add_up(
    alloc: Global,
    shown: &[ReportedConnection<'_, '_>],
    counts: &[Totals],
) -> Result<Totals, Memory>
    requires { AllZip AreCountsOf shown.now counts.now }
    ensures { IfOk result (HaveCounted (flat_map counted_in shown.now)) }
{
    counts_add_up();
    let Some(_most) = most_of_all(shown) else {
        return Err(Memory);
    };
    let mut all = Totals::new(alloc);
    for place in 0..shown.len() {
        all.merge(&counts[place])?;
    }
    Ok(all)
}

// An upper bound on the counted lines of all connections; `None` if it overflows.
fn most_of_all(shown: &[ReportedConnection<'_, '_>]) -> Option<usize>
    ensures { IfSome result (λ most. length (flat_map counted_in shown.now) ≤ most) }
{
    let mut most: usize = 0;
    for one in shown {
        most = most.checked_add(most_of(one)?)?;
    }
    Some(most)
}

// An upper bound on the counted lines of a connection; `None` if it overflows.
fn most_of(shown: &ReportedConnection<'_, '_>) -> Option<usize>
    ensures { IfSome result (λ most. length (counted_in shown.now) ≤ most) }
{
    match shown {
        ReportedConnection::Unbound { .. } => Some(0),
        ReportedConnection::Served(served) => most_on(served.calls),
    }
}

// The number of events and pending calls; `None` if it overflows.
fn most_on(calls: &Conn<'_>) -> Option<usize>
    ensures { IfSome result (λ most. length (counted_on calls.now) ≤ most) }
{
    calls.is_connection();
    let standing = calls.chain().calls().len();
    calls.history().len().checked_add(standing)
}

// The counts of the lines of a bound connection. More lines than a 64-bit number counts fit no machine.
pub(crate) fn count_connection(alloc: Global, calls: &Conn<'_>) -> Result<Totals, Memory>
    ensures { IfOk result (HaveCounted (counted_on calls.now)) }
{
    let Some(_most) = most_on(calls) else {
        return Err(Memory);
    };
    let mut totals = Totals::new(alloc);
    count_lines(alloc, &mut totals, calls)?;
    Ok(totals)
}

// Counts the lines of a bound connection.
fn count_lines(alloc: Global, totals: &mut Totals, calls: &Conn<'_>) -> Result<(), Memory>
    requires few { CanCount (counted_on calls.now) totals.old }
    ensures { (happened : List Counted) → HaveCounted happened totals.old
        → OnOk result (HaveCounted (happened ++ counted_on calls.now) totals.new) }
{
    calls.is_connection();
    let methods = methods(alloc, calls)?;
    count_history(totals, calls, &methods)?;
    count_pending(totals, calls, &methods)
}

// The methods of the accepted calls, in order.
fn methods(alloc: Global, calls: &Conn<'_>) -> Result<Vec<u16>, Memory>
    ensures { IfOk result (λ methods. methods.items ≡ methods_of_calls (taken (conn_trace calls.now))) }
{
    let mut methods = Vec::new(alloc);
    for place in 0..calls.history().len() {
        push_method(&mut methods, calls.history().at(place))?;
    }
    Ok(methods)
}

// Appends the method of an accepted call.
fn push_method(methods: &mut Vec<u16>, kept: &HistoryRecord) -> Result<(), Memory>
    ensures { (steps : List TheStep) → OnOk result (methods.new.items
        ≡ methods.old.items ++ methods_by (event_of_record steps kept.now)) }
{
    if let HistoryRecord::Took(call) = kept {
        methods.push(call.method)?;
    }
    Ok(())
}

// Counts the lines of a history.
fn count_history(totals: &mut Totals, calls: &Conn<'_>, methods: &[u16]) -> Result<(), Memory>
    requires numbered { AreNumberedFromOne (taken (conn_trace calls.now)) }
    requires methods { methods.now ≡ methods_of_calls (taken (conn_trace calls.now)) }
    requires few { CanCount (flat_map (counted (taken (conn_trace calls.now))) calls.now.happenings) totals.old }
    ensures { (happened : List Counted) → HaveCounted happened totals.old
        → OnOk result (HaveCounted
        (happened ++ flat_map (counted (taken (conn_trace calls.now))) calls.now.happenings) totals.new) }
{
    for place in 0..calls.history().len() {
        count_some(totals, counted_by(calls.history().at(place), methods))?;
    }
    Ok(())
}

// What the line of an event counts as, if anything.
fn counted_by(kept: &HistoryRecord, methods: &[u16]) -> Option<(u16, What)>
    ensures { (calls : List TheTaken) (steps : List TheStep) → AreNumberedFromOne calls
        → methods.now ≡ methods_of_calls calls
        → count_if_any result ≡ counted calls (event_of_record steps kept.now) }
{
    match kept {
        HistoryRecord::Took(call) => Some((call.method, What::Took)),
        HistoryRecord::Sent { seq, .. } => Some((method_of_call(methods, *seq), What::Sent)),
        HistoryRecord::Refused { seq, .. } => Some((method_of_call(methods, *seq), What::Refused)),
        _ => None,
    }
}

// Counts the pending calls.
fn count_pending(totals: &mut Totals, calls: &Conn<'_>, methods: &[u16]) -> Result<(), Memory>
    requires numbered { AreNumberedFromOne (taken (conn_trace calls.now)) }
    requires methods { methods.now ≡ methods_of_calls (taken (conn_trace calls.now)) }
    requires few { CanCount (map (pending_counted (taken (conn_trace calls.now))) calls.now.chain.row) totals.old }
    ensures { (happened : List Counted) → HaveCounted happened totals.old
        → OnOk result (HaveCounted
        (happened ++ map (pending_counted (taken (conn_trace calls.now))) calls.now.chain.row) totals.new) }
{
    calls.is_connection();
    for place in 0..calls.chain().calls().len() as u32 {
        count_some(totals, pending_at(calls, methods, place))?;
    }
    Ok(())
}

// What the line of the pending call at an index counts as.
fn pending_at(calls: &Conn<'_>, methods: &[u16], place: u32) -> Option<(u16, What)>
    requires numbered { AreNumberedFromOne (taken (conn_trace calls.now)) }
    requires methods { methods.now ≡ methods_of_calls (taken (conn_trace calls.now)) }
    requires there { place < length calls.now.chain.row }
    ensures { (call : ℕ × ℕ) → slice_get calls.now.chain.row place ≡ Some call
        → count_if_any result ≡ pending_counted (taken (conn_trace calls.now)) call ∷ [] }
{
    let Some((seq, _)) = calls.chain().standing(place) else {
        unreachable!()
    };
    Some((method_of_call(methods, seq), What::Standing))
}

// The method of the call with a number. Calls are numbered from 1.
fn method_of_call(methods: &[u16], seq: u32) -> u16
    ensures { (calls : List TheTaken) → AreNumberedFromOne calls → methods.now ≡ methods_of_calls calls
        → result ≡ method_of_call calls seq }
{
    if seq == 0 {
        return 0;
    }
    match methods.get(seq as usize - 1) {
        Some(method) => *method,
        None => 0,
    }
}

// Adds one to a count, if there is one.
fn count_some(totals: &mut Totals, counted: Option<(u16, What)>) -> Result<(), Memory>
    requires few { CanCount (count_if_any counted) totals.old }
    ensures { (happened : List Counted) → HaveCounted happened totals.old
        → OnOk result (HaveCounted (happened ++ count_if_any counted) totals.new) }
{
    match counted {
        Some((method, what)) => count_one(totals, method, what),
        None => Ok(()),
    }
}

// Adds one to a count.
fn count_one(totals: &mut Totals, method: u16, what: What) -> Result<(), Memory>
    requires few { CanCount (record { method = method; what = what } ∷ []) totals.old }
    ensures { (happened : List Counted) → HaveCounted happened totals.old
        → OnOk result (HaveCounted (happened ++ record { method = method; what = what } ∷ []) totals.new) }
{
    counts_add_up();
    totals.add(method, what)?;
    Ok(())
}
