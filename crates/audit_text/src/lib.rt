//! The audit text of histories: one line for each event, and one for each pending call (this project's own format). The
//! crate writes and reads it.
//!
//! `specs/Lines.antt` defines the line of an event, and `specs/Writable.antt` which events have a line, given the
//! declared policies. `specs/LineBytes.antt` defines all lines, and `specs/Faults.antt` the first line of a text that isn't
//! an event's.
//!
//! [`append_record`] and the other `append_*` calls write lines. [`read_happening_ref`] reads the most frequent lines directly
//! from the prefix of a text, without finding their end first. [`read_line`] splits a line into words and reads them
//! one after another. It decodes the bytes of a copy and encodes the message again; the line is an acceptance only if
//! that yields the same bytes. Reading and writing take linear time, apart from the look-up of a policy by its label
//! and the copy of that policy.
//!
//! The crate depends on histories, on declarations, and on the encoding and its meaning. It has three contracts for the
//! layers above. What is appended for an event is its line. A text is the audit of at most one history. A line is read
//! exactly if it can be written, and a text exactly if it is the audit of a history of writable events.
#![tactic(auto)]

mod copy;
mod event_words;
mod hexadecimal;
mod holding;
mod laws;
mod line;
mod operation;
mod prefix;
mod reading;
mod record;
mod row;
mod short_line;
mod word;
mod writing;

pub use holding::Holding;
pub use laws::{
    first_invalid_line_is_unique, history_of_text_is_unique, line_splits_into_words,
    stands_line_determines_call,
};
pub use line::{AuditLine, read_line};
pub use reading::{AuditFault, read_audit};
pub use record::append_record;
pub use short_line::{HappenedRef, HappeningRef, read_happening_ref};
pub use writing::{
    append_audit_line, append_hex_word, append_stands_line, append_took_line, audit_line,
};
