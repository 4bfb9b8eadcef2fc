//! Names that are invalid, in use already, or undeclared.

use crate::declared::declared_in;
use crate::site::{DiagnosedPart, Site, first_on, key_of_name, name_at, names_of, say_at};
use crate::{Phrase, list_of};
use diagnostics::WordText;
use mrpc_table::{Bytes, is_full_name, is_name};
use policy_declarations::Declarations;
use scenario::FaultyEntry;
use scenario::keys::{conn, end_a, end_b};
use scenario_toml::{items_at, text_at, text_or_empty};
use std::alloc::Global;
use toml::{Table, Value};

const FULL_FORM: &str = ", which is no full name: names joined by dots, 255 bytes at the most";

const FORM: &str =
    ", which is no name: a letter or \"_\", then letters, digits and \"_\", 64 bytes at the most";

// Keys that take a name, with the start of a sentence about each.
const NAMES: [WordText; 2] = [("name", ": name is "), ("tenant", ": tenant is ")];

// Appends which name of an entry is invalid, except names in lines.
pub(crate) fn say_name(out: &mut Bytes, site: &Site<'_>) -> DiagnosedPart<'static> {
    match site.at {
        FaultyEntry::Top => say_service(out, site.entry),
        FaultyEntry::App(_) => say_no_policy_name(out, site.entry),
        _ => say_no_name(out, site.entry),
    }
}

fn say_service(out: &mut Bytes, all: &Table) -> DiagnosedPart<'static> {
    let word = text_or_empty(all, "service");
    if is_full_name(word) {
        return Ok(None);
    }
    say_formless(out, "service", ": service is ", word, FULL_FORM)
}

// Appends that the name of an entry, or that of its tenant, is invalid.
fn say_no_name(out: &mut Bytes, entry: &Table) -> DiagnosedPart<'static> {
    for row in &NAMES {
        if let Some(word) = text_at(entry, row.0) {
            if !is_name(word.as_bytes()) {
                return say_formless(out, row.0, row.1, word.as_bytes(), FORM);
            }
        }
    }
    Ok(None)
}

// Appends which word that an application uses for a policy is no valid name.
fn say_no_policy_name(out: &mut Bytes, entry: &Table) -> DiagnosedPart<'static> {
    for place in 0..names_of(entry) {
        if let Some(name) = name_at(entry, place) {
            if !is_name(name) {
                let key = key_of_name(entry, name);
                return say_formless(out, key, ": it names a policy ", name, FORM);
            }
        }
    }
    Ok(None)
}

fn say_formless(
    out: &mut Bytes,
    key: &'static str,
    before: &str,
    word: &[u8],
    form: &str,
) -> DiagnosedPart<'static> {
    let parts = [
        Phrase::Text(before),
        Phrase::Quoted(word),
        Phrase::Text(form),
    ];
    say_at(out, key, &parts)
}

// Appends which earlier entry declares the same.
pub(crate) fn say_known(out: &mut Bytes, site: &Site<'_>) -> DiagnosedPart<'static> {
    match site.at {
        FaultyEntry::Tenant(_) | FaultyEntry::Policy(_) => say_known_name(out, site),
        FaultyEntry::App(_) | FaultyEntry::Operator(_) => say_known_conn(out, site),
        _ => Ok(None),
    }
}

fn say_known_name(out: &mut Bytes, site: &Site<'_>) -> DiagnosedPart<'static> {
    let name = text_or_empty(site.entry, "name");
    match first_named(site.before(), name) {
        Some(number) => say_used(
            out,
            site.at,
            "name",
            ": the name ",
            Phrase::Quoted(name),
            number,
        ),
        None => Ok(None),
    }
}

fn say_known_conn(out: &mut Bytes, site: &Site<'_>) -> DiagnosedPart<'static> {
    let own = conn().number(site.entry);
    match first_on(site.before(), own) {
        Some((number, _)) => say_used(
            out,
            site.at,
            "conn",
            ": connection ",
            Phrase::Number(own),
            number,
        ),
        None => Ok(None),
    }
}

// Appends that the entry with this number in the same list uses something already.
fn say_used<'w>(
    out: &mut Bytes,
    at: FaultyEntry,
    key: &'static str,
    before: &'w str,
    what: Phrase<'w>,
    number: u64,
) -> DiagnosedPart<'static> {
    say_at(
        out,
        key,
        &[
            Phrase::Text(before),
            what,
            Phrase::Text(" is used by "),
            Phrase::Text(list_of(at)),
            Phrase::Text(" "),
            Phrase::Number(number),
            Phrase::Text(" already"),
        ],
    )
}

// The number of the first entry with this name, from 1.
fn first_named(entries: &[Value], name: &[u8]) -> Option<u64> {
    let mut number = 0u64;
    for item in entries {
        number = number.saturating_add(1);
        if let Some(entry) = item.as_table() {
            if text_or_empty(entry, "name") == name {
                return Some(number);
            }
        }
    }
    None
}

// Appends which name or connection of an entry is undeclared, except those in lines.
pub(crate) fn say_unknown(
    alloc: Global,
    out: &mut Bytes,
    site: &Site<'_>,
) -> DiagnosedPart<'static> {
    match site.at {
        FaultyEntry::Policy(_) => say_unknown_tenant(out, site),
        FaultyEntry::App(_) => say_unknown_policy(alloc, out, site),
        FaultyEntry::Link(_) => say_unknown_end(out, site),
        FaultyEntry::Operator(_) => say_no_app(out, site.all, "conn", conn().number(site.entry)),
        _ => Ok(None),
    }
}

fn say_unknown_tenant(out: &mut Bytes, site: &Site<'_>) -> DiagnosedPart<'static> {
    let name = text_or_empty(site.entry, "tenant");
    if first_named(items_at(site.all, "tenant"), name).is_some() {
        return Ok(None);
    }
    let words = Phrase::Text(": no tenant is named ");
    say_at(out, "tenant", &[words, Phrase::Quoted(name)])
}

fn say_unknown_policy(alloc: Global, out: &mut Bytes, site: &Site<'_>) -> DiagnosedPart<'static> {
    match declared_in(alloc, site.all)? {
        Some(declared) => say_undeclared(out, &declared, site.entry),
        None => Ok(None),
    }
}

// Appends which name in an application is that of no policy.
fn say_undeclared(
    out: &mut Bytes,
    declared: &Declarations,
    entry: &Table,
) -> DiagnosedPart<'static> {
    for place in 0..names_of(entry) {
        if let Some(name) = name_at(entry, place) {
            if declared.policy(name).is_none() {
                let words = Phrase::Text(": no policy is named ");
                return say_at(
                    out,
                    key_of_name(entry, name),
                    &[words, Phrase::Quoted(name)],
                );
            }
        }
    }
    Ok(None)
}

fn say_unknown_end(out: &mut Bytes, site: &Site<'_>) -> DiagnosedPart<'static> {
    if let Some(spot) = say_no_app(out, site.all, "a", end_a().number(site.entry))? {
        return Ok(Some(spot));
    }
    say_no_app(out, site.all, "b", end_b().number(site.entry))
}

// Appends that no application is on a connection, if there is none.
fn say_no_app(
    out: &mut Bytes,
    all: &Table,
    key: &'static str,
    number: u64,
) -> DiagnosedPart<'static> {
    if first_on(items_at(all, "app"), number).is_some() {
        return Ok(None);
    }
    let words = Phrase::Text(": no app is on connection ");
    say_at(out, key, &[words, Phrase::Number(number)])
}
