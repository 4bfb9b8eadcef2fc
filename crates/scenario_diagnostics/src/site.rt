//! Where in the table of a scenario a fault is, and its text there.

use crate::{Phrase, append_phrases, list_of};
use mrpc_table::{Bytes, Memory};
use scenario::FaultyEntry;
use scenario::keys::conn;
use scenario_toml::{items_at, text_at};
use toml::{Table, Value};

// An entry at fault.
#[derive(Clone, Copy)]
pub(crate) struct Site<'a> {
    // The whole scenario.
    pub all: &'a Table,
    // Which entry it is.
    pub at: FaultyEntry,
    // Its table; for the whole scenario the same as `all`.
    pub entry: &'a Table,
}

// A part of an entry.
#[derive(Clone, Copy)]
pub(crate) struct EntryPart<'a> {
    // The key whose value is at fault; empty if there is none.
    pub key: &'a str,
    // The number of a line in the list there, from 1; 0 if there is none.
    pub line: u64,
}

// The part of a site that a text was appended for; `None` if nothing was appended.
pub(crate) type DiagnosedPart<'a> = Result<Option<EntryPart<'a>>, Memory>;

// Appends these parts for the value at a key, or for the entry itself if the key is empty.
pub(crate) fn say_at<'a>(out: &mut Bytes, key: &'a str, parts: &[Phrase<'_>]) -> DiagnosedPart<'a> {
    say_in(out, key, 0, parts)
}

// Appends these parts for the line with this number in the list at a key.
pub(crate) fn say_in<'a>(
    out: &mut Bytes,
    key: &'a str,
    line: u64,
    parts: &[Phrase<'_>],
) -> DiagnosedPart<'a> {
    match append_phrases(out, parts) {
        Ok(()) => Ok(Some(EntryPart { key, line })),
        Err(fault) => Err(fault),
    }
}

impl<'a> Site<'a> {
    // The entry of a scenario; `None` if the scenario doesn't have it.
    pub(crate) fn of(all: &'a Table, at: FaultyEntry) -> Option<Site<'a>> {
        let entry = if let FaultyEntry::Top = at {
            all
        } else {
            entry_at(items_at(all, list_of(at)), at.number())?
        };
        Some(Site { all, at, entry })
    }

    // The entries before it in its list.
    pub(crate) fn before(&self) -> &'a [Value] {
        let list = items_at(self.all, list_of(self.at));
        let before = self.at.number().saturating_sub(1);
        if before < list.len() as u64 {
            &list[..before as usize]
        } else {
            list
        }
    }
}

// The text that a value is; empty if it is no text.
pub(crate) fn text_of(item: &Value) -> &[u8] {
    match item.as_str() {
        Some(text) => text.as_bytes(),
        None => b"",
    }
}

// The entry with this number, from 1.
fn entry_at(entries: &[Value], number: u64) -> Option<&Table> {
    entries.get(number.saturating_sub(1) as usize)?.as_table()
}

// The first entry on a connection, with its number, from 1.
pub(crate) fn first_on(entries: &[Value], conn_number: u64) -> Option<(u64, &Table)> {
    let mut number = 0u64;
    for item in entries {
        number = number.saturating_add(1);
        if let Some(entry) = item.as_table() {
            if conn().number(entry) == conn_number {
                return Some((number, entry));
            }
        }
    }
    None
}

// The policy name with this index in an application: first the names of its chain, and then the policy that
// judges its deliveries.
pub(crate) fn name_at(entry: &Table, place: usize) -> Option<&[u8]> {
    let chain = items_at(entry, "chain");
    if place < chain.len() {
        return Some(text_of(&chain[place]));
    }
    Some(text_at(entry, "inbound")?.as_bytes())
}

// The number of policy names of an application, plus one if no policy judges its deliveries.
pub(crate) fn names_of(entry: &Table) -> usize {
    items_at(entry, "chain").len().saturating_add(1)
}

// The key at which an application names a policy.
pub(crate) fn key_of_name(entry: &Table, name: &[u8]) -> &'static str {
    match text_at(entry, "inbound") {
        Some(word) if word.as_bytes() == name => "inbound",
        _ => "chain",
    }
}
