//! The sizes of the input and of the drawing.

/// The most bytes of a text.
pub const MAX_TEXT: usize = 16_777_216;

// The most bytes of the input that are quoted in one place.
pub(crate) const QUOTED: usize = 80;

// The offset of the first event of a row, the distance between events, and the space after the last one, in
// pixels.
pub(crate) const LEFT: u64 = 110;

pub(crate) const STEP: u64 = 26;

pub(crate) const RIGHT: u64 = 220;

// The space above the bars of a row, for the words of operations and timestamps.
pub(crate) const ABOVE: u64 = 46;

// The distance between the lines of words of operations and timestamps, and the number of these lines.
pub(crate) const LABEL: u64 = 12;

pub(crate) const LABELS: u64 = 3;

// The distance between bars.
pub(crate) const LANE: u64 = 18;
