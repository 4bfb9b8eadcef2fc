//! Diagnoses a scenario: the first fault as a sentence for a person, and its span in the text.
//!
//! [`diagnose`] reads a scenario again. It asks the readers of the parts which key, word or line of the entry is at
//! fault: `scenario_toml` for numbers and for the span, `scenario_lines` for the lines of programs and operators,
//! `policy_access` and `policy_redact` for the lines of policies, `proto_schema` and `schema_resolve` for schemas, and
//! the chain of `scenario_entries` for operations. [`entry_words`] are the words for an entry, [`words_for`] those for
//! a reason.
//!
//! The crate also depends on `scenario`, `scenario_reader` and `diagnostics`. Its one contract for the layer above: a
//! sentence starts with the words for the first entry at fault (`specs/EntryWords.antt`). The remainder of the
//! sentences is tested.
#![tactic(auto)]

mod declared;
mod diagnosis;
mod entry;
mod forms;
mod general;
mod keys;
mod links;
mod names;
mod numbers;
mod operations;
mod operator_lines;
mod program;
mod rules;
mod schema;
mod sentence;
mod site;
mod values;
mod words;

pub use diagnosis::{ScenarioDiagnostic, diagnose};
pub use entry::{entry_words, list_of};
pub use scenario_toml::TextSpan;
pub use words::{Phrase, append_phrases, words_for};
