//! Lines of policies, under the scenario's schema or that of an application.

ghost use Rattle.mrpc_table.specs.Valid.{IsValid};

use crate::declared::marks_of;
use crate::site::{DiagnosedPart, EntryPart, Site, say_in, text_of};
use crate::{Phrase, append_phrases, words_for};
use diagnostics::WordText;
use mrpc_table::{Bytes, Lines, Memory, RuleFault, Table as Schema};
use policy_access::read_access;
use policy_redact::read_redact;
use scenario::keys::entry_kind;
use scenario::{PolicyKind, ScenarioReason, reason_of_policy_line, table_in};
use scenario_toml::{items_at, text_or_empty};
use std::alloc::Global;
use toml::{Table, Value};

// The first line at fault of a policy, from 1, with its first reason.
#[derive(Clone, Copy)]
struct LineFault {
    line: u64,
    reason: ScenarioReason,
}

// Appends which line of a policy has this reason.
pub(crate) fn say_rules(
    alloc: Global,
    out: &mut Bytes,
    site: &Site<'_>,
    reason: ScenarioReason,
) -> DiagnosedPart<'static> {
    match table_in(alloc, text_or_empty(site.all, "schema"))? {
        None => Ok(None),
        Some(table) => say_under(alloc, out, &table, site.entry, &[], reason),
    }
}

// Appends which line of a policy that an entry names has this reason under an application's schema.
pub(crate) fn say_own_rules(
    alloc: Global,
    out: &mut Bytes,
    site: &Site<'_>,
    app: &Table,
    reason: ScenarioReason,
) -> DiagnosedPart<'static> {
    match table_in(alloc, text_or_empty(app, "schema"))? {
        None => Ok(None),
        Some(table) => say_named(alloc, out, &table, site, reason),
    }
}

fn say_named(
    alloc: Global,
    out: &mut Bytes,
    table: &Schema,
    site: &Site<'_>,
    reason: ScenarioReason,
) -> DiagnosedPart<'static>
    requires { IsValid table.now }
{
    let marks = marks_of(alloc, site)?;
    say_marked(
        alloc,
        out,
        table,
        items_at(site.all, "policy"),
        marks.as_slice(),
        reason,
    )
}

fn say_marked(
    alloc: Global,
    out: &mut Bytes,
    table: &Schema,
    policies: &[Value],
    marks: &[bool],
    reason: ScenarioReason,
) -> DiagnosedPart<'static>
    requires { IsValid table.now }
{
    let mut place = 0usize;
    for item in policies {
        if place < marks.len() && marks[place] {
            if let Some(spot) = say_own(alloc, out, table, item, reason)? {
                return Ok(Some(spot));
            }
        }
        place = place.saturating_add(1);
    }
    Ok(None)
}

fn say_own(
    alloc: Global,
    out: &mut Bytes,
    table: &Schema,
    item: &Value,
    reason: ScenarioReason,
) -> DiagnosedPart<'static>
    requires { IsValid table.now }
{
    let Some(policy) = item.as_table() else {
        return Ok(None);
    };
    let front = [
        Phrase::Text(": under the app's own schema, policy "),
        Phrase::Quoted(text_or_empty(policy, "name")),
    ];
    match say_under(alloc, out, table, policy, &front, reason)? {
        None => Ok(None),
        Some(_) => Ok(Some(EntryPart {
            key: "schema",
            line: 0,
        })),
    }
}

// Appends which line of a policy has this reason under a table, after some words.
fn say_under(
    alloc: Global,
    out: &mut Bytes,
    table: &Schema,
    entry: &Table,
    front: &[Phrase<'_>],
    reason: ScenarioReason,
) -> DiagnosedPart<'static>
    requires { IsValid table.now }
{
    let are_rules = match entry_kind(entry) {
        Some(PolicyKind::Access) => true,
        Some(PolicyKind::Redact) => false,
        _ => return Ok(None),
    };
    let key = if are_rules { "rules" } else { "clears" };
    let lines = lines_at(alloc, entry, key)?;
    let fault = fault_in(alloc, table, &lines, are_rules)?;
    say_against(out, front, key, &lines, fault, reason)
}

// The first fault of the lines, which are rules or paths to clear.
fn fault_in(
    alloc: Global,
    table: &Schema,
    lines: &Lines,
    are_rules: bool,
) -> Result<Option<LineFault>, Memory>
    requires { IsValid table.now }
{
    let fault = if are_rules {
        read_access(alloc, lines, table).err()
    } else {
        read_redact(alloc, lines, table).err()
    };
    match fault {
        None => Ok(None),
        Some(RuleFault::At { line, reason }) => Ok(Some(LineFault {
            line,
            reason: reason_of_policy_line(reason),
        })),
        Some(RuleFault::Memory) => Err(Memory),
    }
}

// The lines at a key of a policy.
fn lines_at(alloc: Global, entry: &Table, key: &str) -> Result<Lines, Memory> {
    let mut lines = Lines::new(alloc);
    copy_all(alloc, items_at(entry, key), &mut lines)?;
    Ok(lines)
}

fn copy_all(alloc: Global, texts: &[Value], lines: &mut Lines) -> Result<(), Memory> {
    for item in texts {
        lines.push(Bytes::from_slice(alloc, text_of(item))?)?;
    }
    Ok(())
}

// Appends the line at fault and its fault, if that has this reason.
fn say_against(
    out: &mut Bytes,
    front: &[Phrase<'_>],
    key: &'static str,
    lines: &Lines,
    fault: Option<LineFault>,
    reason: ScenarioReason,
) -> DiagnosedPart<'static> {
    match fault {
        Some(fault) if fault.reason.order() == reason.order() => {
            append_phrases(out, front)?;
            let words = Phrase::Text(rule_words(key, reason));
            say_in(out, key, fault.line, &[line_of(lines, fault.line), words])
        }
        _ => Ok(None),
    }
}

// The line with this number; past the last line, the words for a missing one.
fn line_of(lines: &Lines, number: u64) -> Phrase<'_> {
    match lines.as_slice().get(number.saturating_sub(1) as usize) {
        Some(line) => Phrase::Line(number, line.as_slice()),
        None => Phrase::Text(": its lines end, and one is missing: "),
    }
}

const RULE: &str =
    "expected \"rule NAME allow|deny [method INDEX [reply] [where PATH OP [VALUE]]]\", 64 times at the most, or \
     \"default allow|deny\"";

const CLEAR: &str = "expected \"clear method INDEX [reply] PATH\", 1 to 64 times";

const RULES: [WordText; 5] = [
    (
        "Number",
        "an index is above 65535, or a value is out of the range of its kind",
    ),
    (
        "Name",
        "a rule's name is a letter or \"_\", then letters, digits and \"_\", 64 bytes at the most, and isn't \"default\"",
    ),
    ("Known", "a rule before it has this name"),
    (
        "Path",
        "the schema has no such method or field, or the comparison doesn't go with the field's kind",
    ),
    (
        "Default",
        "one line \"default allow\" or \"default deny\" ends the rules of a policy",
    ),
];

fn rule_words(key: &str, reason: ScenarioReason) -> &'static str {
    let form = if key == "rules" { RULE } else { CLEAR };
    words_for(&RULES, reason, form)
}
