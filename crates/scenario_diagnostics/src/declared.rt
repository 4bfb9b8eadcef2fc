//! What a scenario declares.

ghost use Rattle.mrpc_table.specs.Valid.{IsValid};

use crate::operator_lines::policy_of;
use crate::site::{Site, name_at, names_of, text_of};
use mrpc_table::{Memory, Table as Schema};
use policy_declarations::{Declarations, NamedPolicy};
use scenario::{ScenarioFault, table_in};
use scenario_entries::{read_policies, read_tenants};
use scenario_toml::{items_at, tables_at, text_or_empty};
use std::alloc::Global;
use toml::Table;

// The tenants and the policies of a scenario; `None` if one of them is at fault.
pub(crate) fn declared_in(alloc: Global, all: &Table) -> Result<Option<Declarations>, Memory> {
    match table_in(alloc, text_or_empty(all, "schema"))? {
        Some(table) => free_of_fault(declared_under(alloc, &table, all)),
        None => Ok(None),
    }
}

// The tenants and the policies under a table.
fn declared_under(alloc: Global, table: &Schema, all: &Table) -> Result<Declarations, ScenarioFault>
    requires { IsValid table.now }
{
    let tenants = tables_at(alloc, all, "tenant")?;
    let policies = tables_at(alloc, all, "policy")?;
    let declared = read_tenants(alloc, tenants.as_slice())?;
    read_policies(alloc, table, declared, policies.as_slice())
}

// The declarations; `None` if an entry is at fault.
fn free_of_fault(
    read: Result<Declarations, ScenarioFault>,
) -> Result<Option<Declarations>, Memory> {
    match read {
        Ok(declared) => Ok(Some(declared)),
        Err(ScenarioFault::At { .. }) => Ok(None),
        Err(ScenarioFault::Memory) => Err(Memory),
    }
}

// The declared policy with this name; `None` if there is none.
pub(crate) fn named_in<'a>(declared: &'a Declarations, name: &[u8]) -> Option<&'a NamedPolicy> {
    declared.policies().get(declared.policy(name)?)
}

// For each policy of a scenario, whether an application or a step of an operator names it; empty if the
// declarations are at fault.
pub(crate) fn marks_of(alloc: Global, site: &Site<'_>) -> Result<Vec<bool>, Memory> {
    match declared_in(alloc, site.all)? {
        Some(declared) => marks_in(alloc, &declared, site.entry),
        None => Ok(Vec::new(alloc)),
    }
}

fn marks_in(alloc: Global, declared: &Declarations, entry: &Table) -> Result<Vec<bool>, Memory> {
    let mut marks = vec![in alloc; false; declared.policies().len()]?;
    mark_all(declared, entry, marks.as_mut_slice());
    Ok(marks)
}

fn mark_all(declared: &Declarations, entry: &Table, marks: &mut [bool]) {
    for place in 0..names_of(entry) {
        if let Some(name) = name_at(entry, place) {
            mark(declared, name, marks);
        }
    }
    for item in items_at(entry, "steps") {
        if let Some(name) = policy_of(text_of(item)) {
            mark(declared, name, marks);
        }
    }
}

fn mark(declared: &Declarations, name: &[u8], marks: &mut [bool]) {
    if let Some(place) = declared.policy(name) {
        if place < marks.len() {
            marks[place] = true;
        }
    }
}
