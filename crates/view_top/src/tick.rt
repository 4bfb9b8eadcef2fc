//! The lines across a row.

ghost use Rattle.std.specs.Prelude.{◌≡◌, ◌≤◌, ◌++◌, List, IfOk, OnOk, length, map, option_map};
ghost use Rattle.std.specs.List.{cons_option};
ghost use Rattle.view_top.specs.Rows.{Tick as MarkView, tick_at, ticks_from};
ghost use Rattle.view_top.specs.DrawingData.{line_events, tick, line_event};
ghost use Rattle.view_top.specs.declared.limits.TheConstants.{MAX_TEXT};

use crate::line::{Event, EventKind};
use crate::part::Tick;
use mrpc_table::Memory;
use std::alloc::Global;

// The ticks of a row's events, in order.
pub(crate) fn ticks_of<'a>(alloc: Global, events: &[Event<'a>]) -> Result<Vec<Tick<'a>>, Memory>
    requires { length events.now ≤ MAX_TEXT }
    ensures { IfOk result (λ ms. map tick ms.items ≡ ticks_from 0 (line_events events.now)) }
{
    let mut marks = Vec::new(alloc);
    let mut at: u64 = 0;
    for event in events {
        add_tick(&mut marks, at, event.what)?;
        at += 1;
    }
    Ok(marks)
}

// Adds the tick of the event with this index, if it has one.
fn add_tick<'a>(marks: &mut Vec<Tick<'a>>, at: u64, what: EventKind<'a>) -> Result<(), Memory>
    requires { at ≤ MAX_TEXT }
    ensures { (more : List MarkView) → OnOk result (map tick marks.new.items ++ more
        ≡ map tick marks.old.items ++ cons_option (tick_at at (line_event what.entry)) more) }
{
    if let Some(mark) = tick_of(at, what) {
        marks.push(mark)?;
    }
    Ok(())
}

// The tick of the event with this index.
fn tick_of(at: u64, what: EventKind<'_>) -> Option<Tick<'_>>
    requires { at ≤ MAX_TEXT }
    ensures { option_map tick result ≡ tick_at at (line_event what.entry) }
{
    match what {
        EventKind::Operation { words } => Some(Tick {
            at,
            words,
            is_step: true,
        }),
        EventKind::Moment { words } => Some(Tick {
            at,
            words,
            is_step: false,
        }),
        _ => None,
    }
}
