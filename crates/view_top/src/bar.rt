//! The calls of a row.

ghost use Rattle.std.specs.Prelude.{◌≡◌, ◌≤◌, ◌<◌, ◌+◌, ◌==◌, ◌∷◌, ℕ, Some, None, IfOk, OnOk, if◌then◌else◌, length, map, reverse, vec_len};
ghost use Rattle.std.specs.List.{cons_option};
ghost use Rattle.view_top.specs.Ends.{bar_in, end_in};
ghost use Rattle.view_top.specs.Rows.{bars_from, outcome_here, first_end};
ghost use Rattle.view_top.specs.DrawingData.{line_events, bar, end_view, outcome as fate_view, line_event};
ghost use Rattle.view_top.specs.declared.limits.TheConstants.{MAX_TEXT};

use crate::line::{Event, EventKind};
use crate::part::{Bar, CallOutcome, End};
use mrpc_table::Memory;
use std::alloc::Global;
use std::collections::BTreeMap;

// The calls of a row's events, in the order in which they were accepted.
pub(crate) fn bars_of<'a>(alloc: Global, events: &[Event<'a>]) -> Result<Vec<Bar<'a>>, Memory>
    requires { length events.now ≤ MAX_TEXT }
    ensures bars { IfOk result (λ bs. map bar bs.items ≡ bars_from 0 (line_events events.now)) }
    ensures few { IfOk result (λ bs. vec_len bs ≤ length events.now) }
{
    let last = events.len() as u64;
    let mut ends = BTreeMap::new(alloc);
    let mut bars = Vec::new(alloc);
    let mut at = events.len();
    // Goes from the last event back, so that the end of each call is known when its acceptance is reached.
    while at > 0 {
        at -= 1;
        take_event_back(last, at as u64, events[at].what, &mut ends, &mut bars)?;
    }
    bars.reverse();
    Ok(bars)
}

// Takes the event at an index, given the ends after it and the calls accepted after it, the last first.
fn take_event_back<'a>(
    last: u64,
    at: u64,
    what: EventKind<'a>,
    ends: &mut BTreeMap<u64, End<'a>>,
    bars: &mut Vec<Bar<'a>>,
) -> Result<(), Memory>
    requires short { last ≤ MAX_TEXT }
    requires near { at < last }
    ensures ends { (n : ℕ) → OnOk result (end_in last ends.new.entries n
        ≡ first_end at (outcome_here n (line_event what.entry)) (end_in last ends.old.entries n)) }
    ensures bars { OnOk result (map bar (reverse bars.new.items)
        ≡ cons_option (bar_in last ends.old.entries at (line_event what.entry)) (map bar (reverse bars.old.items))) }
    ensures few { OnOk result (vec_len bars.new ≤ vec_len bars.old + 1) }
{
    match what {
        EventKind::Took { seq, method } => {
            let end = end_of(ends, seq, last);
            push_bar(bars, seq, method, at, end)
        }
        EventKind::Sent { seq } => end_call(ends, last, seq, at, CallOutcome::Sent),
        EventKind::Refused { seq, cause } => end_call(
            ends,
            last,
            seq,
            at,
            CallOutcome::Refused(cause),
        ),
        _ => Ok(()),
    }
}

// A call is accepted.
fn push_bar<'a>(
    bars: &mut Vec<Bar<'a>>,
    seq: u64,
    method: u64,
    from: u64,
    end: End<'a>,
) -> Result<(), Memory>
    requires { from ≤ MAX_TEXT }
    ensures bar { OnOk result (map bar (reverse bars.new.items)
        ≡ record {
          seq = seq;
          method = method;
          from = from;
          end = end_view end.entry;
        } ∷ map bar (reverse bars.old.items)) }
    ensures len { OnOk result (vec_len bars.new ≡ vec_len bars.old + 1) }
{
    bars.push(Bar {
        seq,
        method,
        from,
        end,
    })?;
    Ok(())
}

// The end of a call, from the ends after it; if it has none, it is pending up to the end of the row.
fn end_of<'a>(ends: &BTreeMap<u64, End<'a>>, seq: u64, last: u64) -> End<'a>
    requires { last ≤ MAX_TEXT }
    ensures { end_view result ≡ end_in last ends.now.entries seq }
{
    match ends.get(&seq) {
        Some(end) => *end,
        None => End {
            to: last,
            fate: CallOutcome::Stands,
        },
    }
}

// A call ends here.
fn end_call<'a>(
    ends: &mut BTreeMap<u64, End<'a>>,
    last: u64,
    seq: u64,
    to: u64,
    fate: CallOutcome<'a>,
) -> Result<(), Memory>
    requires { to ≤ MAX_TEXT }
    ensures { (n : ℕ) → OnOk result (end_in last ends.new.entries n
        ≡ first_end to (if seq == n then Some (fate_view fate.entry) else None) (end_in last ends.old.entries n)) }
{
    ends.insert(seq, End { to, fate })?;
    Ok(())
}
