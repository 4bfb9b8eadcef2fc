//! The keys of a table, and the types of their values.

ghost use Rattle.std.specs.Prelude.{◌≡◌, is_some, string_bytes};
ghost use Rattle.toml.specs.View.{view, table_view};
ghost use Rattle.scenario_toml.specs.Values.{has_required_keys, has_keys, has_value_type, is_for, is_there};
ghost use Rattle.std.specs.List.{list_all, list_any};
ghost use Rattle.toml.specs.Data.{as_str, as_table};
ghost use Rattle.scenario_toml.specs.declared.key.ValueType.TheVariants as shape;

use crate::value::at;
use std::marker::Model;
use toml::value::Array;
use toml::{Table, Value};

/// The type of a key's value.
#[derive(Clone, Copy)]
pub enum ValueType {
    Text,
    Integer,
    Flag,
    /// A list of texts.
    Texts,
    /// A list of tables.
    Tables,
}

/// A key that a table must or may have.
#[derive(Drop)]
pub struct TableKey {
    name: &'static str,
    shape: ValueType,
    required: bool,
}

impl Model for TableKey {
    ghost use Rattle.scenario_toml.specs.Values.{TheTableKey};

    ghost Value = { TheTableKey };

    ghost view = { λ k. record { name = k.name.now; shape = k.shape; required = k.required } };
}

impl TableKey {
    ghost use Rattle.scenario_toml.specs.Values.{required_key, optional_key};

    /// A required key.
    pub const fn required(name: &'static str, shape: ValueType) -> TableKey
        ensures { result ≡ required_key name.now shape }
    {
        TableKey {
            name,
            shape,
            required: true,
        }
    }

    /// An optional key.
    pub const fn optional(name: &'static str, shape: ValueType) -> TableKey
        ensures { result ≡ optional_key name.now shape }
    {
        TableKey {
            name,
            shape,
            required: false,
        }
    }

    // Whether it has this name, and the value has its type.
    fn is_for(&self, name: &str, value: &Value) -> bool
        ensures { result ≡ is_for name.now (view value.now) self.now }
    {
        self.name.as_bytes() == name.as_bytes() && self.shape.is_of(value)
    }

    // Whether the table has it, if it is required.
    fn is_there(&self, table: &Table) -> bool
        ensures { result ≡ is_there (table_view table.now) self.now }
    {
        !self.required || at(table, self.name).is_some()
    }
}

impl ValueType {
    // Whether a value has this type.
    fn is_of(self, value: &Value) -> bool
        ensures { result ≡ has_value_type self (view value.now) }
    {
        match self {
            ValueType::Text => value.is_str(),
            ValueType::Integer => value.is_integer(),
            ValueType::Flag => value.is_bool(),
            ValueType::Texts => are_texts(value),
            ValueType::Tables => are_tables(value),
        }
    }
}

// Whether each item is a text.
fn all_texts(items: &Array) -> bool
    ensures { result ≡ list_all (λ v. is_some (as_str (view v))) items.now.items }
{
    items.iter().all(|item| item.is_str())
}

// Whether each item is a table.
fn all_tables(items: &Array) -> bool
    ensures { result ≡ list_all (λ v. is_some (as_table (view v))) items.now.items }
{
    items.iter().all(|item| item.is_table())
}

// Whether the value is a list of texts.
fn are_texts(value: &Value) -> bool
    ensures { result ≡ has_value_type shape.Texts (view value.now) }
{
    match value.as_array() {
        Some(items) => all_texts(items),
        None => false,
    }
}

// Whether the value is a list of tables.
fn are_tables(value: &Value) -> bool
    ensures { result ≡ has_value_type shape.Tables (view value.now) }
{
    match value.as_array() {
        Some(items) => all_tables(items),
        None => false,
    }
}

// Whether one of the keys has this name, and the value has its type.
fn is_known(keys: &[TableKey], name: &str, value: &Value) -> bool
    ensures { result ≡ list_any (is_for name.now (view value.now)) keys.now }
{
    keys.iter().any(|key| key.is_for(name, value))
}

// Whether each key of the table is one of these, with a value of its type.
fn are_known(keys: &[TableKey], table: &Table) -> bool
    ensures { result ≡ list_all (λ e. list_any (is_for (string_bytes e.0) (view e.1)) keys.now) table.now.entries }
{
    table
        .iter()
        .all(|(name, value)| is_known(keys, name.as_str(), value))
}

// Whether the table has each required key.
fn has_required_keys(keys: &[TableKey], table: &Table) -> bool
    ensures { result ≡ has_required_keys keys.now (table_view table.now) }
{
    keys.iter().all(|key| key.is_there(table))
}

/// Whether the table has all required keys and no keys but these, each with a value of its type.
pub fn has_keys(keys: &[TableKey], table: &Table) -> bool
    ensures { result ≡ has_keys keys.now (table_view table.now) }
{
    are_known(keys, table) && has_required_keys(keys, table)
}
