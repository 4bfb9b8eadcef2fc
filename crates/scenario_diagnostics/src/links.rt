//! Connections that aren't in a pair.

use crate::Phrase;
use crate::site::{DiagnosedPart, Site, say_at};
use mrpc_table::Bytes;
use scenario::FaultyEntry;
use scenario::keys::{conn, end_a, end_b};
use toml::{Table, Value};

// Appends why a connection isn't in a pair.
pub(crate) fn say_pair(out: &mut Bytes, site: &Site<'_>) -> DiagnosedPart<'static> {
    match site.at {
        FaultyEntry::App(_) => {
            let number = conn().number(site.entry);
            say_conn(out, "conn", number, " is at an end of no link")
        }
        FaultyEntry::Link(_) => say_link(out, site.before(), site.entry),
        _ => Ok(None),
    }
}

fn say_conn(
    out: &mut Bytes,
    key: &'static str,
    number: u64,
    behind: &'static str,
) -> DiagnosedPart<'static> {
    say_at(
        out,
        key,
        &[
            Phrase::Text(": connection "),
            Phrase::Number(number),
            Phrase::Text(behind),
        ],
    )
}

fn say_link(out: &mut Bytes, before: &[Value], entry: &Table) -> DiagnosedPart<'static> {
    let a = end_a().number(entry);
    let b = end_b().number(entry);
    if a == b {
        let words = ": both of its ends are connection ";
        return say_at(out, "b", &[Phrase::Text(words), Phrase::Number(a)]);
    }
    if is_linked(before, a) {
        return say_conn(out, "a", a, LINKED);
    }
    if is_linked(before, b) {
        return say_conn(out, "b", b, LINKED);
    }
    say_at(
        out,
        "",
        &[Phrase::Text(": no client is at one of its ends")],
    )
}

const LINKED: &str = " is at an end of a link before it already";

// Whether the connection is at an end of one of the links.
fn is_linked(links: &[Value], number: u64) -> bool {
    for item in links {
        if let Some(link) = item.as_table() {
            if end_a().number(link) == number || end_b().number(link) == number {
                return true;
            }
        }
    }
    false
}
