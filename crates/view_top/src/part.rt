//! The parts of a row. All positions are indices of events.

ghost use Rattle.std.specs.Prelude.{◌≤◌, vec_len};
ghost use Rattle.view_top.specs.declared.limits.TheConstants.{MAX_TEXT};

// A line across a row.
#[derive(Clone, Copy)]
pub(crate) struct Tick<'a> {
    pub at: u64,
    pub words: &'a [u8],
    // An operation of an operator, not a timestamp.
    pub is_step: bool,
    ghost near: { at ≤ MAX_TEXT },
}

// A call.
#[derive(Clone, Copy)]
pub(crate) struct Bar<'a> {
    pub seq: u64,
    pub method: u64,
    // Where it was accepted.
    pub from: u64,
    pub end: End<'a>,
    ghost near: { from ≤ MAX_TEXT },
}

// The end of a call, and its outcome.
#[derive(Clone, Copy)]
pub(crate) struct End<'a> {
    pub to: u64,
    pub fate: CallOutcome<'a>,
    ghost near: { to ≤ MAX_TEXT },
}

// The outcome of a call.
#[derive(Clone, Copy)]
pub(crate) enum CallOutcome<'a> {
    Sent,
    Refused(&'a [u8]),
    Stands,
}

// A row.
#[derive(Drop)]
pub(crate) struct TimelineRow<'a> {
    pub conn: u64,
    // The number of events.
    pub happenings: u64,
    pub marks: Vec<Tick<'a>>,
    // The calls, in the order in which they were accepted.
    pub bars: Vec<Bar<'a>>,
    ghost near: { happenings ≤ MAX_TEXT },
    ghost few: { vec_len bars ≤ MAX_TEXT },
}
