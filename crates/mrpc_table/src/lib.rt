//! Tables, trees and their parts: what a proto3 schema declares, and what a message contains.
//!
//! A [`Table`] lists the messages, enums and methods of a schema. A [`Tree`] is one message, its fields by ascending
//! number. Contracts see a list type of this crate as a plain list, and a `Tree` as the data of `specs/Node.antt`. This
//! crate depends on no crate of the project. The layers above use one contract: `IsValid` defines the valid tables,
//! `table_text` their canonical text, and `IsNormal` the trees of a message.
//!
//! It also has what the layers above share. [`Call`] is a request or a reply with its message, and [`CallKind`] is which of
//! the two (`specs/Calls.antt`). A [`Path`] leads to a field of a message: field numbers joined by dots, each but the
//! last being a message ([`PathWord::read`], [`PathWord::resolve`], [`message_at_path`]; `specs/PathWords.antt`,
//! `PathFields.antt`, `PathTrees.antt`). [`Lines`] are the lines of a policy, and a [`RuleFault`] is why they are no
//! policy (`specs/PolicyLines.antt`, over `FirstFault.antt`). All texts of the project share one vocabulary of lines
//! and words (`specs/Lines.antt`). The entries of a map may come in any order and with equal keys. [`last_of_each`]
//! brings them into the order of a message in normal form (`specs/MapEntries.antt`).
#![tactic(auto)]

mod call;
mod copied;
mod digits;
mod field_number;
mod field_search;
mod hexadecimal;
mod limits;
mod map_entries;
mod map_laws;
mod memory;
mod normal;
mod path;
mod path_find;
mod path_laws;
mod path_read;
mod path_resolve;
mod policy_lines;
mod sequence;
mod table;
mod tree;
mod words;

pub use call::{Call, CallKind};
pub use digits::{decimal_of, digit_value, number_capped};
pub use field_number::is_field_number;
pub use field_search::find_field;
pub use limits::{
    FIRST_RESERVED_NUMBER, LAST_RESERVED_NUMBER, MAX_DEPTH, MAX_ENUMS, MAX_FIELD_NUMBER,
    MAX_FIELDS, MAX_FILES, MAX_FULL_NAME, MAX_HEAP, MAX_LOADS, MAX_MESSAGES, MAX_METHODS, MAX_NAME,
    MAX_PATH, MAX_TEXT, MAX_VALUES, MIN_HEAP,
};
pub use map_entries::last_of_each;
pub use map_laws::kept_entries_are_normal;
pub use memory::Memory;
pub use normal::fits;
pub use path::{Path, PathWord};
pub use path_find::message_at_path;
pub use path_laws::{normal_ascends, numbers_ascend};
pub use policy_lines::{Lines, RuleFault, RuleReason};
pub use sequence::{Bytes, Name, Sequence};
pub use table::{
    ChoiceValues, Choices, Enums, Field, Fields, Kind, Label, Message, Messages, Method, Methods,
    Names, Table,
};
pub use tree::{Entries, FieldValue, Numbered, Tree, Value, Values, find_content};
pub use words::{
    Decimal, is_full_form, is_full_name, is_name, is_name_byte, is_name_form, is_name_start,
    is_short, is_short_full, is_word, line_count, number_of, split_once,
};
