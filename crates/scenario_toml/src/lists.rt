//! The lists at the keys of a table.

ghost use Rattle.std.specs.Prelude.{◌≡◌, ◌++◌, map, IfOk, OnOk, option_to_list};
ghost use Rattle.toml.specs.Data.{as_str, as_table};
ghost use Rattle.toml.specs.View.{table_view, view};
ghost use Rattle.scenario_toml.specs.Values.{items_at, tables_at, texts_at};

use crate::value::at;
use mrpc_table::Memory;
use std::alloc::Global;
use toml::{Table, Value};

/// The values of the list at a key; empty if there is no list.
pub fn items_at<'a>(table: &'a Table, key: &str) -> &'a [Value]
    ensures { map view result.now ≡ items_at key.now (table_view table.now) }
{
    match at(table, key) {
        Some(value) => match value.as_array() {
            Some(items) => items.as_slice(),
            None => &[],
        },
        None => &[],
    }
}

// Appends a value that is a text; skips any other.
fn add_text<'a>(texts: &mut Vec<&'a [u8]>, item: &'a Value) -> Result<(), Memory>
    ensures { OnOk result (map (λ t. t.now) texts.new.items
        ≡ map (λ t. t.now) texts.old.items ++ option_to_list (as_str (view item.now))) }
{
    match item.as_str() {
        Some(text) => {
            texts.push(text.as_bytes())?;
            Ok(())
        }
        None => Ok(()),
    }
}

// Appends a value that is a table; skips any other.
fn add_table<'a>(tables: &mut Vec<&'a Table>, item: &'a Value) -> Result<(), Memory>
    ensures { OnOk result (map (λ t. table_view t.now) tables.new.items
        ≡ map (λ t. table_view t.now) tables.old.items ++ option_to_list (as_table (view item.now))) }
{
    match item.as_table() {
        Some(table) => {
            tables.push(table)?;
            Ok(())
        }
        None => Ok(()),
    }
}

#[tactic(auto, using(crate::proofs::Views::texts_more))]
/// The texts of the list at a key, in order; empty if there is no list.
pub fn texts_at<'a>(alloc: Global, table: &'a Table, key: &str) -> Result<Vec<&'a [u8]>, Memory>
    ensures { IfOk result (λ texts. map (λ t. t.now) texts.items ≡ texts_at key.now (table_view table.now)) }
{
    let mut texts = Vec::new(alloc);
    let items = items_at(table, key);
    for item in items {
        add_text(&mut texts, item)?;
    }
    Ok(texts)
}

#[tactic(auto, using(crate::proofs::Views::tables_more))]
/// The tables of the list at a key, in order; empty if there is no list.
pub fn tables_at<'a>(alloc: Global, table: &'a Table, key: &str) -> Result<Vec<&'a Table>, Memory>
    ensures { IfOk result (λ tables. map (λ t. table_view t.now) tables.items
        ≡ tables_at key.now (table_view table.now)) }
{
    let mut tables = Vec::new(alloc);
    let items = items_at(table, key);
    for item in items {
        add_table(&mut tables, item)?;
    }
    Ok(tables)
}
