//! The limits of a replay.

/// The number of words of each connection's heap: the most that a heap may have.
pub const MAX_REPLAY_WORDS: u64 = 65_536;

// The place at which each message starts.
pub(crate) const FIRST_PLACE: u64 = 1;

/// The most bytes of all lines of the frames together. With the longest table before them a script can still
/// be read.
pub const MAX_BODY: usize = 16_700_000;
