//! The entries of a map: each key once, by ascending key, with the value of its last entry.
//!
//! The entries of a map may come in any order and with equal keys. This module brings them into the order of a message
//! in normal form, as `specs/MapEntries.antt` defines it.

ghost use Rattle.std.specs.Prelude.{◌≡◌, [], ◌∷◌, ◌++◌, if◌then◌else◌, map, IfOk, OnOk, IsTrue};
ghost use Rattle.std.specs.Ordering.{is_eq};
ghost use Rattle.mrpc_table.specs.View.{item_of, pairs_of};
ghost use Rattle.mrpc_table.specs.MapEntries.{last_of_each, key_cmp};
ghost use Rattle.mrpc_table.specs.SortedEntries.{AreSorted, AreEntriesAscending, IsEntryAdded, items_of_entry};

use crate::{Entries, Kind, Memory, Value};
use std::alloc::Global;
use std::cmp::Ordering;

/// The entries of a map in normal form: each key once, by ascending key, with the value of its last entry. It takes the
/// time of a sort. `Memory` is returned only when it is out of memory.
pub fn last_of_each(alloc: Global, entries: Entries, key: Kind) -> Result<Entries, Memory>
    ensures { IfOk result
        (λ ps. pairs_of ps.items ≡ last_of_each key (map items_of_entry entries.items)) }
{
    if ascends(&entries, key) {
        return Ok(entries);
    }
    let mut sorted = entries;
    sorted.sort_by(|a, b| compare(key, &a.0, &b.0))?;
    last_of_sorted(alloc, sorted, key)
}

// Whether each key is above the previous one.
fn ascends(entries: &Entries, key: Kind) -> bool
    ensures { IsTrue result → AreEntriesAscending key entries.now.items }
{
    for place in 1..entries.len() {
        if !compare(key, &entries[place - 1].0, &entries[place].0).is_lt() {
            return false;
        }
    }
    true
}

// Like `last_of_each`, for entries that are sorted by key.
fn last_of_sorted(alloc: Global, sorted: Entries, key: Kind) -> Result<Entries, Memory>
    requires { AreSorted key sorted.items }
    ensures { IfOk result
        (λ ps. pairs_of ps.items ≡ last_of_each key (map items_of_entry sorted.items)) }
{
    let mut kept = Vec::with_capacity(alloc, sorted.len())?;
    for entry in sorted {
        add_entry(&mut kept, entry, key)?;
    }
    Ok(kept)
}

// Appends an entry, or replaces the last one if that has the same key.
fn add_entry(kept: &mut Entries, entry: (Value, Value), key: Kind) -> Result<(), Memory>
    ensures { OnOk result (IsEntryAdded key kept.old.items entry kept.new.items) }
{
    match kept.pop() {
        Some(last) => {
            let same = is_same(key, &last.0, &entry.0);
            keep_unless(kept, last, same)?;
            kept.push(entry)?;
            Ok(())
        }
        None => {
            kept.push(entry)?;
            Ok(())
        }
    }
}

// Appends an entry unless `same`, when another entry with its key replaces it.
fn keep_unless(kept: &mut Entries, entry: (Value, Value), same: bool) -> Result<(), Memory>
    ensures { OnOk result
        (kept.new.items ≡ (if same then kept.old.items else kept.old.items ++ entry ∷ [])) }
{
    if !same {
        kept.push(entry)?;
    }
    Ok(())
}

// Whether two keys are equal.
fn is_same(key: Kind, a: &Value, b: &Value) -> bool
    ensures { result ≡ is_eq (key_cmp key (item_of a.now) (item_of b.now)) }
{
    compare(key, a, b).is_eq()
}

// Compares keys as numbers of their kind, or by bytes.
fn compare(key: Kind, a: &Value, b: &Value) -> Ordering
    ensures { result ≡ key_cmp key (item_of a.now) (item_of b.now) }
{
    match a {
        Value::Number(m) => match b {
            Value::Number(n) => key.rank(*m).cmp(&key.rank(*n)),
            _ => Ordering::Less,
        },
        Value::Run(m) => match b {
            Value::Number(_) => Ordering::Greater,
            Value::Run(n) => m.as_slice().cmp(n.as_slice()),
            Value::Node(_) => Ordering::Less,
        },
        Value::Node(_) => match b {
            Value::Node(_) => Ordering::Equal,
            _ => Ordering::Greater,
        },
    }
}
