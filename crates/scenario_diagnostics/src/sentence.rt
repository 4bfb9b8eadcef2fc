//! Sentences for reasons.

use crate::general::general_words;
use crate::keys::say_key;
use crate::links::say_pair;
use crate::names::{say_known, say_name, say_unknown};
use crate::numbers::say_number;
use crate::operator_lines::{say_chain, say_rejected, say_step, say_step_rules, say_unknown_step};
use crate::program::say_program;
use crate::rules::{say_own_rules, say_rules};
use crate::schema::say_schema;
use crate::site::{DiagnosedPart, EntryPart, Site};
use crate::{Phrase, append_phrases};
use mrpc_table::{Bytes, Memory};
use scenario::{FaultyEntry, ScenarioReason};
use std::alloc::Global;

// Appends the text for a reason at an entry, and returns the part of the entry that it is about.
pub(crate) fn say_reason<'a>(
    alloc: Global,
    out: &mut Bytes,
    site: &Site<'a>,
    reason: ScenarioReason,
) -> Result<EntryPart<'a>, Memory> {
    if let Some(spot) = say_of_keys(alloc, out, site, reason)? {
        return Ok(spot);
    }
    if let Some(spot) = say_of_lines(alloc, out, site, reason)? {
        return Ok(spot);
    }
    append_phrases(out, &[Phrase::Text(general_words(reason))])?;
    Ok(EntryPart { key: "", line: 0 })
}

// Appends what is wrong with the value at one key of an entry, except lines.
fn say_of_keys<'a>(
    alloc: Global,
    out: &mut Bytes,
    site: &Site<'a>,
    reason: ScenarioReason,
) -> DiagnosedPart<'a> {
    match reason {
        ScenarioReason::Key => say_key(out, site),
        ScenarioReason::Number => say_number(out, site),
        ScenarioReason::Name => say_name(out, site),
        ScenarioReason::Known => say_known(out, site),
        ScenarioReason::Unknown => say_unknown(alloc, out, site),
        ScenarioReason::Schema => say_schema(alloc, out, site.entry),
        ScenarioReason::Pair => say_pair(out, site),
        _ => Ok(None),
    }
}

// Appends what is wrong with a line of an entry, or with the chain of an application.
fn say_of_lines(
    alloc: Global,
    out: &mut Bytes,
    site: &Site<'_>,
    reason: ScenarioReason,
) -> DiagnosedPart<'static> {
    match site.at {
        FaultyEntry::Policy(_) => say_rules(alloc, out, site, reason),
        FaultyEntry::App(_) => say_of_app(alloc, out, site, reason),
        FaultyEntry::Operator(_) => say_of_operator(alloc, out, site, reason),
        _ => Ok(None),
    }
}

// Appends what is wrong with the program, the chain or the schema of an application.
fn say_of_app(
    alloc: Global,
    out: &mut Bytes,
    site: &Site<'_>,
    reason: ScenarioReason,
) -> DiagnosedPart<'static> {
    if let Some(spot) = say_own_rules(alloc, out, site, site.entry, reason)? {
        return Ok(Some(spot));
    }
    if let Some(spot) = say_program(out, site, reason)? {
        return Ok(Some(spot));
    }
    say_chain(out, site.entry, reason)
}

// Appends what is wrong with a line of an operator.
fn say_of_operator(
    alloc: Global,
    out: &mut Bytes,
    site: &Site<'_>,
    reason: ScenarioReason,
) -> DiagnosedPart<'static> {
    if let Some(spot) = say_step(out, site.entry, reason)? {
        return Ok(Some(spot));
    }
    match reason {
        ScenarioReason::Unknown => say_unknown_step(alloc, out, site),
        ScenarioReason::NoSuch
        | ScenarioReason::Taken
        | ScenarioReason::At
        | ScenarioReason::ChainFull
        | ScenarioReason::OtherKind => say_rejected(alloc, out, site, reason),
        _ => say_step_rules(alloc, out, site, reason),
    }
}
