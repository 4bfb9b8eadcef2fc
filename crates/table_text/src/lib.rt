//! The canonical text of tables (this project's own format): its writer, its reader, and its faults.
//!
//! [`table_text`] writes the text of a valid table. [`line_of`] parses one line or finds that it has the wrong form
//! (`specs/Lines.antt`); `specs/Forms.antt` defines the meaning of a line with numbers of any size. [`read_table`]
//! reads a whole text, and [`split_table`] the text before a line `end`.
//!
//! The crate depends on `mrpc_table`, which defines valid tables and their text. The layers above use one contract: a
//! valid table and its text determine each other, and any other text has exactly one first fault.
#![tactic(auto)]

mod draft;
mod fault;
mod forms;
mod line;
mod line_tests;
mod name_index;
mod reach;
mod read;
mod reader;
mod table_split;
mod text;
mod words;

pub use fault::{TableFault, TableReason};
pub use forms::line_of;
pub use line::{EnumNumber, FieldLine, KindWord, LabelWord, MethodLine, TableLine};
pub use read::{read_table, table_fault_is_unique, table_or_fault, table_text_is_unique};
pub use table_split::{split_table, table_after_is_unique};
pub use text::table_text;
pub use words::without_prefix;
