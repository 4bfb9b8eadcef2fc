//! Results of a check.

use audit_rules::Rule;

/// The result of a text whose lines are all audit lines.
#[derive(Clone, Copy, PartialEq, Eq)]
pub enum Checked {
    /// The history is legal, and the lines after it list its pending calls, or there are none.
    Legal {
        /// The number of events in the history.
        happenings: u64,
        /// The number of lines of pending calls.
        stands: u64,
    },
    /// The history is illegal, or the lines after it don't list its pending calls.
    Illegal {
        /// The first line, counted from 1, that makes it illegal; if lines are missing, the one after the last.
        line: u64,
        /// The first rule that is broken there.
        rule: Rule,
    },
}
