//! Lines of operators, and the chains of applications.

use crate::Phrase;
use crate::declared::declared_in;
use crate::operations::{RejectedOp, first_rejected_op};
use crate::rules::say_own_rules;
use crate::site::{DiagnosedPart, Site, first_on, say_at, say_in, text_of};
use mrpc_table::Bytes;
use policy_declarations::Declarations;
use scenario::keys::conn;
use scenario::{ScenarioReason, reason_of_line};
use scenario_lines::{StepText, read_step};
use scenario_reader::count_in;
use scenario_toml::{items_at, text_or_empty};
use std::alloc::Global;
use toml::{Table, Value};

const FORMS: &str =
    "expected \"COUNT attach AT NAME POLICY\", \"COUNT detach NAME\" or \"COUNT upgrade NAME POLICY\"";

const LOWER: &str = "its count is lower than that of a line before it";

// Appends which line of an operator has this reason.
pub(crate) fn say_step(
    out: &mut Bytes,
    entry: &Table,
    reason: ScenarioReason,
) -> DiagnosedPart<'static> {
    let mut number = 0u64;
    let mut most = 0;
    for item in items_at(entry, "steps") {
        let line = text_of(item);
        number = number.saturating_add(1);
        let (count, words) = count_and_fault(line, most, reason);
        if let Some(words) = words {
            let parts = [Phrase::Line(number, line), Phrase::Text(words)];
            return say_in(out, "steps", number, &parts);
        }
        most = count.max(most);
    }
    Ok(None)
}

// The count of a line, or 0 if it has none, and the text of the reason if the line is at fault for it. `most`
// is the largest count of the lines before.
fn count_and_fault(line: &[u8], most: u64, reason: ScenarioReason) -> (u64, Option<&'static str>) {
    match read_step(line) {
        Err(why) if reason_of_line(why).order() == reason.order() => (0, Some(step_words(reason))),
        Err(_) => (0, None),
        Ok(step) => {
            let count = count_in(&step);
            if count < most && matches!(reason, ScenarioReason::Number) {
                (count, Some(LOWER))
            } else {
                (count, None)
            }
        }
    }
}

fn step_words(reason: ScenarioReason) -> &'static str {
    match reason {
        ScenarioReason::Number => "a number of 64 bits stands first",
        ScenarioReason::Name =>
            "a name is a letter or \"_\", then letters, digits and \"_\", 64 bytes at the most",
        _ => FORMS,
    }
}

// The policy that a line names, if it names one.
pub(crate) fn policy_of(line: &[u8]) -> Option<&[u8]> {
    match read_step(line) {
        Ok(StepText::Attach { policy, .. }) => Some(policy),
        Ok(StepText::Upgrade { policy, .. }) => Some(policy),
        _ => None,
    }
}

// Appends which line of an operator names a policy that isn't declared.
pub(crate) fn say_unknown_step(
    alloc: Global,
    out: &mut Bytes,
    site: &Site<'_>,
) -> DiagnosedPart<'static> {
    match declared_in(alloc, site.all)? {
        Some(declared) => say_undeclared_line(out, &declared, items_at(site.entry, "steps")),
        None => Ok(None),
    }
}

fn say_undeclared_line(
    out: &mut Bytes,
    declared: &Declarations,
    lines: &[Value],
) -> DiagnosedPart<'static> {
    let mut number = 0u64;
    for item in lines {
        let line = text_of(item);
        number = number.saturating_add(1);
        if let Some(name) = policy_of(line) {
            if declared.policy(name).is_none() {
                let words = Phrase::Text("no policy is named ");
                let parts = [Phrase::Line(number, line), words, Phrase::Quoted(name)];
                return say_in(out, "steps", number, &parts);
            }
        }
    }
    Ok(None)
}

// Appends which line of a policy that an operator names has this reason, under the schema of its application.
pub(crate) fn say_step_rules(
    alloc: Global,
    out: &mut Bytes,
    site: &Site<'_>,
    reason: ScenarioReason,
) -> DiagnosedPart<'static> {
    match app_of(site) {
        Some(app) => say_own_rules(alloc, out, site, app, reason),
        None => Ok(None),
    }
}

// The application on the connection of an operator.
fn app_of<'a>(site: &Site<'a>) -> Option<&'a Table> {
    let (_, app) = first_on(items_at(site.all, "app"), conn().number(site.entry))?;
    Some(app)
}

// Appends which line of an operator the chain of its connection rejects.
pub(crate) fn say_rejected(
    alloc: Global,
    out: &mut Bytes,
    site: &Site<'_>,
    reason: ScenarioReason,
) -> DiagnosedPart<'static> {
    match declared_in(alloc, site.all)? {
        Some(declared) => say_rejected_in(alloc, out, site, &declared, reason),
        None => Ok(None),
    }
}

fn say_rejected_in(
    alloc: Global,
    out: &mut Bytes,
    site: &Site<'_>,
    declared: &Declarations,
    reason: ScenarioReason,
) -> DiagnosedPart<'static> {
    let Some(app) = app_of(site) else {
        return Ok(None);
    };
    match first_rejected_op(alloc, declared, site.entry, app)? {
        Some(refused) => say_which(out, &refused, reason),
        None => Ok(None),
    }
}

fn say_which(
    out: &mut Bytes,
    refused: &RejectedOp<'_>,
    reason: ScenarioReason,
) -> DiagnosedPart<'static> {
    let line = Phrase::Line(refused.number, refused.line);
    let name = Phrase::Quoted(refused.name);
    let none = Phrase::Text("");
    let (before, name, behind) = match reason {
        ScenarioReason::NoSuch => ("the chain has no entry named ", name, ""),
        ScenarioReason::Taken => ("the chain has an entry named ", name, " already"),
        ScenarioReason::At => ("the chain has no such position", none, ""),
        ScenarioReason::ChainFull => ("the chain has 8 entries already", none, ""),
        _ => ("the entry named ", name, " has a policy of another kind"),
    };
    let parts = [line, Phrase::Text(before), name, Phrase::Text(behind)];
    say_in(out, "steps", refused.number, &parts)
}

// Appends why the chain of an application is invalid, or which policy can't judge its deliveries.
pub(crate) fn say_chain(
    out: &mut Bytes,
    entry: &Table,
    reason: ScenarioReason,
) -> DiagnosedPart<'static> {
    match reason {
        ScenarioReason::Taken => say_twice(out, items_at(entry, "chain")),
        ScenarioReason::ChainFull => {
            let words = ": its chain has more than 8 entries";
            say_at(out, "chain", &[Phrase::Text(words)])
        }
        ScenarioReason::OtherKind => say_no_access(out, entry),
        _ => Ok(None),
    }
}

fn say_no_access(out: &mut Bytes, entry: &Table) -> DiagnosedPart<'static> {
    let parts = [
        Phrase::Text(": inbound is "),
        Phrase::Quoted(text_or_empty(entry, "inbound")),
        Phrase::Text(", which is no policy of kind access"),
    ];
    say_at(out, "inbound", &parts)
}

// Appends which name is in a chain twice. At most 8 names are entries.
fn say_twice(out: &mut Bytes, names: &[Value]) -> DiagnosedPart<'static> {
    let first = &names[..names.len().min(9)];
    for place in 0..first.len() {
        let name = text_of(&first[place]);
        if is_among(&first[..place], name) {
            let parts = [
                Phrase::Text(": its chain has "),
                Phrase::Quoted(name),
                Phrase::Text(" twice"),
            ];
            return say_at(out, "chain", &parts);
        }
    }
    Ok(None)
}

fn is_among(names: &[Value], name: &[u8]) -> bool {
    for item in names {
        if text_of(item) == name {
            return true;
        }
    }
    false
}
