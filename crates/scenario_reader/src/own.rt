//! The schemas of applications, and the policies read under them.

ghost use Rattle.std.specs.Prelude.{◌≡◌, ◌↔◌, ℕ, List, Some, Contains, IfOk, codes, length, map};
ghost use Rattle.mrpc_table.specs.Valid.{IsValid};
ghost use Rattle.mrpc_table.specs.declared.table.Table.{Table as TheTable};
ghost use Rattle.toml.specs.Data.{Members};
ghost use Rattle.toml.specs.View.{table_view};
ghost use Rattle.scenario.specs.Applications.{HasTable};
ghost use Rattle.scenario_toml.specs.Values.{text_at};
ghost use Rattle.scenario_entries.specs.Entries.{views};
ghost use Rattle.scenario_reader.specs.AppContext.{IsAppContext};
ghost use Rattle.scenario_reader.specs.Owning.{AreStepNames, IsOwnRead, IsOwnUnder, IsUsedIn, IsValidOwn};

use crate::app_context::AppContext;
use crate::names::names_in;
use crate::steps::{add_names, read_steps};
use mrpc_table::{Memory, Sequence, Table as Schema};
use run_plan::{OwnPolicy, OwnSchema};
use scenario::keys::conn;
use scenario::{ScenarioReason, table_in};
use scenario_entries::read_own_policies;
use scenario_toml::{text_at, texts_at};
use script_grammar::meanings_or_reason;
use std::alloc::Global;
use toml::Table;

// The policies that the steps of an operator name.
pub(crate) fn step_names<'a>(alloc: Global, entry: &'a Table) -> Result<Vec<&'a [u8]>, Memory>
    ensures { IfOk result (λ names. AreStepNames (table_view entry.now) (map (λ n. n.now) names.items)) }
{
    meanings_or_reason();
    let lines = texts_at(alloc, entry, "steps")?;
    let steps = read_steps(alloc, lines.as_slice())?;
    let mut names = Vec::new(alloc);
    add_names(&mut names, steps.told.as_slice())?;
    Ok(names)
}

// The policies that an application names, followed by those that the steps on its connection name.
fn used_names<'a>(
    alloc: Global,
    entry: &'a Table,
    operators: &[&'a Table],
) -> Result<Vec<&'a [u8]>, Memory>
    ensures { IfOk result (λ names. (name : List ℕ) → Contains (map (λ n. n.now) names.items) name
        ↔ IsUsedIn (views operators.now) (table_view entry.now) name) }
{
    let mut names = names_in(alloc, entry)?;
    let number = conn().number(entry);
    for operator in operators {
        if conn().number(operator) == number {
            let more = step_names(alloc, operator)?;
            names.extend_from_slice(more.as_slice())?;
        }
    }
    Ok(names)
}

// The policies in use, as read under the table of the application's own schema, or the first reason of faults in
// those that the application names. A policy that only steps name isn't a fault of the application: if it fails, its
// operator has the fault.
fn own_policies(
    alloc: Global,
    above: AppContext<'_, '_, '_>,
    table: &Schema,
    entry: &Table,
) -> Result<Result<Sequence<OwnPolicy>, ScenarioReason>, Memory>
    requires valid { IsValid table.now }
    requires long { length above.policies.now ≡ length above.declared.now.policies }
    ensures { (all : Members) (T : TheTable) (text : List ℕ) → IsAppContext all T above.entry
        → text_at (codes "schema") (table_view entry.now) ≡ Some text → HasTable text table.now
        → IfOk result (IsOwnUnder all (table_view entry.now) table.now) }
{
    let names = names_in(alloc, entry)?;
    let first = read_own_policies(
        alloc,
        table,
        above.declared,
        above.policies,
        names.as_slice(),
    )?;
    let named = match first {
        Ok(named) => named,
        Err(reason) => return Ok(Err(reason)),
    };
    let used = used_names(alloc, entry, above.operators)?;
    let read = read_own_policies(
        alloc,
        table,
        above.declared,
        above.policies,
        used.as_slice(),
    )?;
    let policies = read.unwrap_or(named);
    Ok(Ok(policies))
}

// The application's own schema with the policies in use, or the first reason of faults in it and in the policies that
// the application names. `None` if the application has no schema.
pub(crate) fn own_in(
    alloc: Global,
    above: AppContext<'_, '_, '_>,
    entry: &Table,
) -> Result<Result<Option<OwnSchema>, ScenarioReason>, Memory>
    requires { length above.policies.now ≡ length above.declared.now.policies }
    ensures read { (all : Members) (T : TheTable) → IsAppContext all T above.entry
        → IfOk result (IsOwnRead all (table_view entry.now)) }
    ensures valid { IfOk result (λ r. IfOk r IsValidOwn) }
{
    let Some(text) = text_at(entry, "schema") else {
        return Ok(Ok(None));
    };
    let Some(table) = table_in(alloc, text.as_bytes())? else {
        return Ok(Err(ScenarioReason::Schema));
    };
    let read = own_policies(alloc, above, &table, entry)?;
    match read {
        Err(reason) => Ok(Err(reason)),
        Ok(policies) => Ok(Ok(Some(OwnSchema { table, policies }))),
    }
}
