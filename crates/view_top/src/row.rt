//! The row of a connection.

ghost use Rattle.std.specs.Prelude.{◌≡◌, ◌≤◌, ◌<◌, ◌≢◌, ℕ, IfOk, length, map, slice_index_or, vec_len};
ghost use Rattle.std.specs.List.Sorted.{IsNonDecreasingBy};
ghost use Rattle.view_top.specs.Rows.{AreRows, row_of};
ghost use Rattle.view_top.specs.DrawingData.{line_events, conn_line_event, row};
ghost use Rattle.view_top.specs.declared.limits.TheConstants.{MAX_TEXT};
ghost use Rattle.view_top.specs.declared.line.Event.{Event};

use crate::bar::bars_of;
use crate::line::Event;
use crate::part::TimelineRow;
use crate::tick::ticks_of;
use mrpc_table::Memory;
use std::alloc::Global;

// The rows of events, by ascending connection.
pub(crate) fn rows_of<'a>(
    alloc: Global,
    events: Vec<Event<'a>>,
) -> Result<Vec<TimelineRow<'a>>, Memory>
    requires { vec_len events ≤ MAX_TEXT }
    ensures rows { IfOk result (λ rs. AreRows (map conn_line_event events.entry.items) (map row rs.items)) }
    ensures few { IfOk result (λ rs. vec_len rs ≤ MAX_TEXT) }
{
    let mut sorted = events;
    sorted.sort_by_key(|event| event.conn)?;
    rows_in(alloc, &sorted)
}

// The rows of events that are given by ascending connection.
fn rows_in<'a>(alloc: Global, events: &[Event<'a>]) -> Result<Vec<TimelineRow<'a>>, Memory>
    requires short { length events.now ≤ MAX_TEXT }
    requires sorted { IsNonDecreasingBy (λ e. e.conn) events.now }
    ensures rows { IfOk result (λ rs. AreRows (map conn_line_event events.now) (map row rs.items)) }
    ensures few { IfOk result (λ rs. vec_len rs ≤ length events.now) }
{
    let mut rows = Vec::new(alloc);
    let mut at = 0;
    while at < events.len() {
        let conn = conn_at(events, at);
        let end = end_of(events, at, conn);
        rows.push(row_of(alloc, conn, &events[at..end])?)?;
        at = end;
    }
    Ok(rows)
}

// The connection of the event at an index.
fn conn_at(events: &[Event<'_>], at: usize) -> u64
    requires { at < length events.now }
    ensures { (d : Event) → (slice_index_or events.now at d).conn ≡ result }
{
    events[at].conn
}

// The index after a connection's events that start at an index.
fn end_of(events: &[Event<'_>], at: usize, conn: u64) -> usize
    requires there { at < length events.now }
    requires conn { (d : Event) → (slice_index_or events.now at d).conn ≡ conn }
    ensures further { at < result }
    ensures within { result ≤ length events.now }
    ensures same { (k : ℕ) (d : Event) → at ≤ k → k < result → (slice_index_or events.now k d).conn ≡ conn }
    ensures other { (d : Event) → result < length events.now → (slice_index_or events.now result d).conn ≢ conn }
{
    let mut end = at + 1;
    while end < events.len() && events[end].conn == conn {
        end += 1;
    }
    end
}

// The row of a connection's events.
fn row_of<'a>(alloc: Global, conn: u64, events: &[Event<'a>]) -> Result<TimelineRow<'a>, Memory>
    requires { length events.now ≤ MAX_TEXT }
    ensures { IfOk result (λ r. row r ≡ row_of conn (line_events events.now)) }
{
    let marks = ticks_of(alloc, events)?;
    let bars = bars_of(alloc, events)?;
    Ok(TimelineRow {
        conn,
        happenings: events.len() as u64,
        marks,
        bars,
    })
}
