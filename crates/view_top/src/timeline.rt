//! The drawing of a text's events.

ghost use Rattle.std.specs.Prelude.{◌≡◌, ◌≤◌, List, length, IfOk};
ghost use Rattle.view_top.specs.Drawing.{drawing};
ghost use Rattle.view_top.specs.Lines.{events_of_text};
ghost use Rattle.view_top.specs.Plain.{IsPlain};
ghost use Rattle.view_top.specs.Rows.{AreRows, TimelineRow};

use crate::drawing::draw;
use crate::limits::MAX_TEXT;
use crate::line::events_of;
use crate::row::rows_of;
use mrpc_table::{Bytes, Memory};
use std::alloc::Global;

/// The drawing of a text's events: its rows, written as an SVG. The only error is `Memory`.
pub fn timeline_of(alloc: Global, text: &[u8]) -> Result<Bytes, Memory>
    requires { length text.now ≤ MAX_TEXT }
    ensures drawn { IfOk result (λ svg. (rows : List TimelineRow) × AreRows (events_of_text text.now) rows
        × (svg ≡ drawing rows)) }
    ensures plain { IfOk result IsPlain }
{
    let events = events_of(alloc, text)?;
    let rows = rows_of(alloc, events)?;
    draw(alloc, &rows)
}
