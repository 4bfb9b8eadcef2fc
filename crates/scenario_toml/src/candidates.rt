//! Checks what a prefix of a text means as TOML.

use crate::location::TomlPath;
use crate::{tables_at, texts_at};
use mrpc_table::Memory;
use std::alloc::Global;
use toml::{Table, table_from_slice};

// Whether a text is TOML with this number of entries in the entry's list.
pub(crate) fn has_entries(
    alloc: Global,
    text: &[u8],
    sought: TomlPath<'_>,
    count: u64,
) -> Result<bool, Memory> {
    match table_in(alloc, text)? {
        None => Ok(false),
        Some(all) => {
            let entries = tables_at(alloc, &all, sought.list)?;
            Ok(entries.len() as u64 == count)
        }
    }
}

// Whether a text is TOML, and the last entry of the entry's list has as many texts at its key as are looked
// for.
pub(crate) fn has_texts(alloc: Global, text: &[u8], sought: TomlPath<'_>) -> Result<bool, Memory> {
    let Some(all) = table_in(alloc, text)? else {
        return Ok(false);
    };
    let entries = tables_at(alloc, &all, sought.list)?;
    match entries.last() {
        None => Ok(false),
        Some(entry) => {
            let texts = texts_at(alloc, entry, sought.key)?;
            Ok(texts.len() as u64 == sought.item)
        }
    }
}

// The table of a text; `None` if it isn't TOML.
fn table_in(alloc: Global, text: &[u8]) -> Result<Option<Table>, Memory> {
    match table_from_slice(alloc, text) {
        Ok(all) => Ok(Some(all)),
        Err(error) => {
            if error.is_memory() {
                Err(Memory)
            } else {
                Ok(None)
            }
        }
    }
}
