//! The single value at a key.

ghost use Rattle.std.specs.Prelude.{◌≡◌};
ghost use Rattle.std.specs.Option.{option_map, option_copied};
ghost use Rattle.toml.specs.Data.{get_member};
ghost use Rattle.toml.specs.View.{view, table_view};
ghost use Rattle.scenario_toml.specs.Values.{flag_at, text_at, text_or_empty, integer_at};

use toml::{Table, Value};

// The value at a key.
pub(crate) fn at<'a>(table: &'a Table, key: &str) -> Option<&'a Value>
    ensures { option_map (λ v. view v.now) result ≡ get_member key.now (table_view table.now) }
{
    table.get(key)
}

/// The text at a key; `None` if there is none.
pub fn text_at<'a>(table: &'a Table, key: &str) -> Option<&'a str>
    ensures { option_copied result ≡ text_at key.now (table_view table.now) }
{
    match at(table, key) {
        Some(value) => value.as_str(),
        None => None,
    }
}

/// The text at a key; empty if there is none.
pub fn text_or_empty<'a>(table: &'a Table, key: &str) -> &'a [u8]
    ensures { result.now ≡ text_or_empty key.now (table_view table.now) }
{
    match text_at(table, key) {
        Some(text) => text.as_bytes(),
        None => b"",
    }
}

/// Whether the value at a key is `true`.
pub fn flag_at(table: &Table, key: &str) -> bool
    ensures { result ≡ flag_at key.now (table_view table.now) }
{
    match at(table, key) {
        Some(value) => value.as_bool().unwrap_or(false),
        None => false,
    }
}

// The integer at a key; `None` if there is none.
pub(crate) fn integer_at(table: &Table, key: &str) -> Option<i64>
    ensures { result ≡ integer_at key.now (table_view table.now) }
{
    match at(table, key) {
        Some(value) => value.as_integer(),
        None => None,
    }
}
