//! The grammar that scripts, policies and the inputs of `audit` share: lines of words, and the preamble.
//!
//! A [`LineForm`] lists the words of a line, each by its [`WordKind`]. [`form_of`] recognizes the form of a line by its
//! key words. [`check_words`] then checks each word against its kind. It returns the values of the words, or the first
//! reason in the order of [`ScriptReason`]. `specs/Forms.antt` has the list of forms, `specs/WordKinds.antt` the value
//! and the faults of one word, and `specs/Lines.antt` those of a line. [`read_preamble`] reads the preamble: a first
//! line that names the format, the limit of loads, and the table (`specs/Preambles.antt`).
//!
//! The crate depends on `mrpc_table` and `table_text`. The layers above use two contracts. The words of a line have
//! exactly one list of values, or exactly one first reason. A text has exactly one preamble, or exactly one first fault
//! in it.
#![tactic(auto)]

mod checking;
mod fault;
mod form;
mod head;
mod head_laws;
mod keyword;
mod limits;
mod preamble;
mod value;
mod word_kind;
mod word_laws;
mod word_values;
mod words;

pub use checking::{MAX_WORDS, WordValues, check_words};
pub use fault::{ScriptFault, ScriptReason};
pub use form::{LineForm, form_of};
pub use head_laws::preamble_or_fault;
pub use keyword::Keyword;
pub use limits::USUAL_LOADS;
pub use preamble::{Preamble, read_preamble};
pub use word_kind::{WordKind, WordValue};
pub use word_laws::meanings_or_reason;
pub use word_values::{keyword_at, name_at, number_at, unbounded_at};
pub use words::{Remainder, first_word};
