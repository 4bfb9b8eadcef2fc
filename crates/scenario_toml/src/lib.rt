//! The values at the keys of a scenario's TOML tables, and where they are in the text.
//!
//! `specs/Values.antt` defines what the kit's view of a TOML table has: which keys and of what type, texts, flags,
//! lists, and numbers with their defaults and ranges.
//!
//! [`locate`] finds the span of an entry of a list of tables, of one of its keys, or of a text in a list there. The
//! kit's `toml` doesn't report where a value is. So `locate` looks for a line that may be the one, and checks it: the
//! text up to there must parse as TOML with as many entries. Other spellings aren't found; for an entry of a list in
//! brackets, for example, it finds the line of the list.
//!
//! The crate depends on the kit's `toml` and on `mrpc_table`. The layers above use two contracts: what is read at a key
//! is what the definitions give, and a span lies within the text.
#![tactic(auto)]

mod candidates;
mod key;
mod list_items;
mod lists;
mod location;
mod range;
mod span;
mod value;

pub use key::{TableKey, ValueType, has_keys};
pub use lists::{items_at, tables_at, texts_at};
pub use location::{TomlPath, locate};
pub use range::{IntegerRange, are_within};
pub use span::TextSpan;
pub use value::{flag_at, text_at, text_or_empty};
