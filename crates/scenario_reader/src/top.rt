//! The text as TOML, and the keys of the top table.

ghost use Rattle.std.specs.Prelude.{◌≡◌, Err, IfOk, MatchResult, OnOk, true};
ghost use Rattle.std.specs.List.{list_all};
ghost use Rattle.mrpc_table.specs.Valid.{IsValid};
ghost use Rattle.toml.specs.View.{table_view};
ghost use Rattle.scenario_toml.specs.Values.{is_within_at};
ghost use Rattle.scenario.specs.Applications.{HasTable, all_entry_ends};
ghost use Rattle.scenario.specs.Keys.{top_ranges};
ghost use Rattle.scenario.specs.Scenarios.{IsTableText, IsTopKeyFault, schema_of};
ghost use Rattle.scenario.specs.declared.fault.FaultyEntry.TheVariants as place;
ghost use Rattle.scenario.specs.declared.fault.ScenarioFault.TheVariants as fault;
ghost use Rattle.scenario.specs.declared.fault.ScenarioReason.{ScenarioReason as TheReason};
ghost use Rattle.scenario_entries.specs.Entries.{views};
ghost use Rattle.scenario_reader.specs.TopLevel.{IsNoTable, IsTopFault};

use mrpc_table::{Memory, Table as Schema, is_full_name};
use scenario::keys::{end_a, end_b, format, has_top_keys, loads, workers};
use scenario::{FaultyEntry, ScenarioFault, ScenarioReason, table_in};
use scenario_toml::{are_within, text_or_empty};
use std::alloc::Global;
use toml::{Table, table_from_slice};

// The top table of a text as TOML.
pub(crate) fn document_in(alloc: Global, text: &[u8]) -> Result<Table, ScenarioFault>
    ensures { MatchResult result (λ t. IsTableText text.now (table_view t)) (IsNoTable text.now) }
{
    match table_from_slice(alloc, text) {
        Ok(all) => Ok(all),
        Err(fault) => {
            if fault.is_memory() {
                Err(ScenarioFault::Memory)
            } else {
                Err(ScenarioFault::At {
                    entry: FaultyEntry::Top,
                    reason: ScenarioReason::Toml,
                })
            }
        }
    }
}

// Whether the numbers of the top table are in range.
fn has_top_ranges(all: &Table) -> bool
    ensures { result ≡ list_all (is_within_at (table_view all.now)) top_ranges }
{
    are_within(&[format(), loads(), workers()], all)
}

// A fault of the top table.
fn top_fault(reason: ScenarioReason) -> Result<Schema, ScenarioFault>
    ensures { result ≡ Err (fault.At place.Top reason) }
{
    Err(ScenarioFault::At {
        entry: FaultyEntry::Top,
        reason,
    })
}

// The table of the schema, or the first reason of faults in the keys of the top table.
pub(crate) fn read_top(alloc: Global, all: &Table) -> Result<Schema, ScenarioFault>
    ensures read { MatchResult result (λ T. HasTable (schema_of (table_view all.now)) T
        × ((q : TheReason) → IsTopKeyFault (table_view all.now) q → ⊥)) (IsTopFault (table_view all.now)) }
    ensures valid { IfOk result IsValid }
    ensures ranges { OnOk result (list_all (is_within_at (table_view all.now)) top_ranges ≡ true) }
{
    if !has_top_keys(all) {
        return top_fault(ScenarioReason::Key);
    }
    if !has_top_ranges(all) {
        return top_fault(ScenarioReason::Number);
    }
    if !is_full_name(text_or_empty(all, "service")) {
        return top_fault(ScenarioReason::Name);
    }
    match table_in(alloc, text_or_empty(all, "schema"))? {
        Some(table) => Ok(table),
        None => top_fault(ScenarioReason::Schema),
    }
}

// The ends of these links.
pub(crate) fn all_link_ends(alloc: Global, entries: &[&Table]) -> Result<Vec<u64>, Memory>
    ensures { IfOk result (λ ends. ends.items ≡ all_entry_ends (views entries.now)) }
{
    let mut ends = Vec::new(alloc);
    for entry in entries {
        ends.push(end_a().number(entry))?;
        ends.push(end_b().number(entry))?;
    }
    Ok(ends)
}
