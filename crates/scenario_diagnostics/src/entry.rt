//! The words for an entry.

ghost use Rattle.std.specs.Prelude.{◌≡◌, IfOk};
ghost use Rattle.scenario_diagnostics.specs.EntryWords.{entry_words, list_key, numbered};

use mrpc_table::{Bytes, Memory};
use scenario::FaultyEntry;
use std::alloc::Global;

/// The key of the list that contains an entry; empty for the whole scenario.
pub fn list_of(entry: FaultyEntry) -> &'static str
    ensures { result.now ≡ list_key entry }
{
    match entry {
        FaultyEntry::Top => "",
        FaultyEntry::Tenant(_) => "tenant",
        FaultyEntry::Policy(_) => "policy",
        FaultyEntry::App(_) => "app",
        FaultyEntry::Link(_) => "link",
        FaultyEntry::Operator(_) => "operator",
    }
}

/// The words for an entry.
pub fn entry_words(alloc: Global, entry: FaultyEntry) -> Result<Bytes, Memory>
    ensures { IfOk result (λ words. words ≡ entry_words entry) }
{
    match entry {
        FaultyEntry::Top => Bytes::from_slice(alloc, b"the scenario"),
        FaultyEntry::Tenant(number) => numbered(alloc, b"tenant ", number),
        FaultyEntry::Policy(number) => numbered(alloc, b"policy ", number),
        FaultyEntry::App(number) => numbered(alloc, b"app ", number),
        FaultyEntry::Link(number) => numbered(alloc, b"link ", number),
        FaultyEntry::Operator(number) => numbered(alloc, b"operator ", number),
    }
}

// A word and a number.
fn numbered(alloc: Global, word: &[u8], number: u64) -> Result<Bytes, Memory>
    ensures { IfOk result (λ words. words ≡ numbered word.now number) }
{
    let mut words = Bytes::from_slice(alloc, word)?;
    words.append_decimal(number)?;
    Ok(words)
}
