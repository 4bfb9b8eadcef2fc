//! The first fault of a scenario, as a sentence.

ghost use Rattle.std.specs.Prelude.{◌≡◌, IfOk, IfNone, IfSome};
ghost use Rattle.run_plan.specs.declared.plan.Plan.{Plan};
ghost use Rattle.scenario.specs.Scenarios.{HasFault, IsTextOf};
ghost use Rattle.scenario_diagnostics.specs.EntryWords.{entry_words};

use crate::general::general_words;
use crate::sentence::say_reason;
use crate::site::Site;
use crate::{Phrase, append_phrases, entry_words, list_of};
use mrpc_table::{Bytes, Memory};
use scenario::{FaultyEntry, ScenarioFault, ScenarioReason};
use scenario_reader::read_scenario;
use scenario_toml::{TextSpan, TomlPath, locate};
use std::alloc::Global;
use toml::de::Error;
use toml::{Table, table_from_slice};

/// The first fault of a scenario, and a sentence about it.
#[derive(Drop)]
pub struct ScenarioDiagnostic {
    /// The first entry at fault.
    pub at: FaultyEntry,
    /// Its first reason.
    pub reason: ScenarioReason,
    /// The words for the entry, with which the sentence starts.
    pub front: Bytes,
    /// The remainder of the sentence. It quotes the text byte for byte.
    pub rest: Bytes,
    /// The span in the text, if it is known.
    pub place: Option<TextSpan>,
}

/// The first fault of a scenario's text as a diagnostic; `None` if the scenario is valid. Takes time linear
/// in the text, apart from look-ups.
pub fn diagnose(alloc: Global, text: &[u8]) -> Result<Option<ScenarioDiagnostic>, Memory>
    // `None` means that the text has a plan.
    ensures plan { IfOk result (λ told. IfNone told ((plan : Plan) × IsTextOf text.now plan)) }
    // A diagnostic is about the first fault of the text.
    ensures fault { IfOk result (λ told. IfSome told (λ t. HasFault text.now t.at t.reason)) }
    // The sentence starts with the words for the entry.
    ensures front { IfOk result (λ told. IfSome told (λ t. t.front ≡ entry_words t.at)) }
{
    match read_scenario(alloc, text) {
        Ok(_) => Ok(None),
        Err(ScenarioFault::At { entry, reason }) => {
            let told = diagnostic_of(alloc, text, entry, reason)?;
            Ok(Some(told))
        }
        Err(ScenarioFault::Memory) => Err(Memory),
    }
}

// The diagnostic for a reason at an entry.
fn diagnostic_of(
    alloc: Global,
    text: &[u8],
    at: FaultyEntry,
    reason: ScenarioReason,
) -> Result<ScenarioDiagnostic, Memory>
    ensures at { IfOk result (λ told. (told.at ≡ at) × (told.reason ≡ reason)) }
    ensures front { IfOk result (λ told. told.front ≡ entry_words at) }
{
    let front = entry_words(alloc, at)?;
    let mut rest = Bytes::new(alloc);
    let place = say_message(alloc, &mut rest, text, at, reason)?;
    Ok(ScenarioDiagnostic {
        at,
        reason,
        front,
        rest,
        place,
    })
}

// Appends the sentence after the words for the entry, and returns the span.
fn say_message(
    alloc: Global,
    out: &mut Bytes,
    text: &[u8],
    at: FaultyEntry,
    reason: ScenarioReason,
) -> Result<Option<TextSpan>, Memory> {
    match table_from_slice(alloc, text) {
        Ok(all) => say_entry(alloc, out, text, &all, at, reason),
        Err(error) => say_no_toml(out, &error),
    }
}

// Like `say_message`, for a text that is TOML.
fn say_entry(
    alloc: Global,
    out: &mut Bytes,
    text: &[u8],
    all: &Table,
    at: FaultyEntry,
    reason: ScenarioReason,
) -> Result<Option<TextSpan>, Memory> {
    match Site::of(all, at) {
        None => {
            append_phrases(out, &[Phrase::Text(general_words(reason))])?;
            Ok(None)
        }
        Some(site) => {
            let spot = say_reason(alloc, out, &site, reason)?;
            let sought = TomlPath {
                list: list_of(at),
                number: at.number(),
                key: spot.key,
                item: spot.line,
            };
            locate(alloc, text, sought)
        }
    }
}

// Appends why a text isn't TOML.
fn say_no_toml(out: &mut Bytes, error: &Error) -> Result<Option<TextSpan>, Memory> {
    append_phrases(
        out,
        &[Phrase::Text(" is no TOML: "), Phrase::Text(error.message())],
    )?;
    match error.span() {
        None => Err(Memory),
        Some(span) => Ok(Some(TextSpan {
            start: span.start,
            end: span.end,
        })),
    }
}
