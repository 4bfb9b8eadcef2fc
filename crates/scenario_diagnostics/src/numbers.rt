//! Numbers out of their ranges.

use crate::Phrase;
use crate::forms::{ValueForm, keys_of};
use crate::site::{DiagnosedPart, Site, say_at};
use mrpc_table::Bytes;
use policy_declarations::MAX_TENANTS;
use scenario::FaultyEntry;
use scenario_toml::IntegerRange;
use toml::Table;

// Appends which number of an entry is out of its range, except those in lines.
pub(crate) fn say_number(out: &mut Bytes, site: &Site<'_>) -> DiagnosedPart<'static> {
    if matches!(site.at, FaultyEntry::Tenant(number) if number > MAX_TENANTS as u64) {
        let words = ": a scenario has 16 tenants at the most";
        return say_at(out, "", &[Phrase::Text(words)]);
    }
    for key in keys_of(site.at, site.entry) {
        if let ValueForm::Number(least, most) = key.1 {
            if is_out(site.entry, key.0, least, most) {
                return append_range(out, site.entry, key.0, least, most);
            }
        }
    }
    Ok(None)
}

// Whether the number at the key is out of its range. A missing number is not.
fn is_out(entry: &Table, key: &'static str, least: u64, most: u64) -> bool {
    IntegerRange::new(key, least, least, most).is_out(entry)
}

// Appends the number at the key, and its range.
fn append_range(
    out: &mut Bytes,
    entry: &Table,
    key: &'static str,
    least: u64,
    most: u64,
) -> DiagnosedPart<'static> {
    say_at(
        out,
        key,
        &[
            Phrase::Text(": "),
            Phrase::Text(key),
            Phrase::Text(" is "),
            number_at(entry, key),
            Phrase::Text("; it may be "),
            Phrase::Range(least, most),
        ],
    )
}

// The number at the key, if there is one.
fn number_at(entry: &Table, key: &str) -> Phrase<'static> {
    let Some(value) = entry.get(key) else {
        return Phrase::Text("");
    };
    match value.as_integer() {
        Some(number) => Phrase::Integer(number),
        None => Phrase::Text(""),
    }
}
