//! The top call of `mrpc-view`: it takes the words of a command line, an input, an output and another output
//! for diagnostics, and returns an exit status.
//!
//! The crate depends on `frame_view` and `script_view`, which make views, and on `command_diagnostics`, which explains
//! a faulty input. Its one contract for the program is that of [`run_view`]: at status 0 the view of the input was
//! written; for a faulty input its first fault is written, which for `frames` is that of `mrpc decode`.
//!
//! The view `timeline` is made here: a drawing of the events of connections, as one SVG. [`timeline_of`] reads the
//! output of `mrpc replay` or `mrpc run`, or an input of `mrpc audit`. Each connection has a row, in ascending order of
//! their numbers, with its events from left to right in the order of their lines. A call is a bar from the line that
//! accepts it to the first later line that sends or refuses it, with the cause; a pending call extends to the end of
//! its row. Each bar is below the previous one. An operator's operation is a line across the row, and so is a
//! timestamp. All other lines are ignored, so that any text has a drawing. `specs/Lines.antt` defines the event of a
//! line, `specs/Rows.antt` the content of a row, and `specs/Drawing.antt` how rows are written. The time is linear in
//! the text, except for sorting connections and finding calls by number. The output is the drawing of the rows of the
//! text, and is ASCII that a terminal prints.
#![tactic(auto)]

mod bar;
mod drawing;
mod fault;
mod limits;
mod line;
mod part;
mod picture;
mod row;
mod shape;
mod status;
mod svg_piece;
mod tick;
mod timeline;
mod view;

pub use limits::MAX_TEXT;
pub use status::{DONE, FAULTY_INPUT, INPUT_FAILED, NO_COMMAND, NO_MEMORY, OUTPUT_FAILED};
pub use timeline::timeline_of;
pub use view::run_view;
