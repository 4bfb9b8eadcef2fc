//! A scenario as a plan.

ghost use Rattle.std.specs.Prelude.{◌≡◌, ◌≤◌, IfOk, MatchResult, length, true};
ghost use Rattle.std.specs.List.{list_all};
ghost use Rattle.mrpc_table.specs.Valid.{IsValid};
ghost use Rattle.mrpc_table.specs.declared.table.Table.{Table as TheTable};
ghost use Rattle.run_plan.specs.Plans.{IsPlan};
ghost use Rattle.toml.specs.View.{table_view};
ghost use Rattle.scenario.specs.Applications.{HasTable, link_tables, policy_tables, tenant_tables};
ghost use Rattle.scenario.specs.Keys.{top_ranges};
ghost use Rattle.scenario.specs.Policies.{IsPolicyFault, IsPolicyMeaning};
ghost use Rattle.scenario.specs.Scenarios.{IsFaultOf, IsTextOf, IsPlanOfScenario, schema_of};
ghost use Rattle.scenario_lines.specs.Programs.{Each};
ghost use Rattle.scenario_toml.specs.Values.{is_within_at};
ghost use Rattle.scenario_entries.specs.Entries.{AreFaultFree, views};
ghost use Rattle.scenario_reader.specs.AppContext.{IsAppContext};
ghost use Rattle.scenario_reader.specs.TopLevel.{IsFaultFreeBefore, IsFirstFaultOfScenario, IsMeaningOfLowerLists, IsMeaningOfDeclared, IsMeaningOfParts};

use crate::app_context::AppContext;
use crate::application::read_apps;
use crate::operator::read_operators;
use crate::top::{all_link_ends, document_in, read_top};
use mrpc_table::{Name, Sequence, Table as Schema};
use policy_declarations::Declarations;
use run_plan::{Application, LinkPlan, Operator, Plan};
use scenario::ScenarioFault;
use scenario::keys::{loads, workers};
use scenario_entries::{
    declaration_is_unique, names_keep_index, read_links, read_policies, read_tenants,
    schema_table_is_unique,
};
use scenario_laws::parsed_plan_is_valid;
use scenario_toml::{flag_at, tables_at, text_or_empty};
use std::alloc::Global;
use toml::Table;

// The tenants and the policies, and the entries of the policies.
#[derive(Drop)]
struct DeclaredEntries<'x> {
    declarations: Declarations,
    policies: Vec<&'x Table>,
}

// The lists after the declarations.
#[derive(Drop)]
struct LowerLists {
    applications: Sequence<Application>,
    links: Sequence<LinkPlan>,
    operators: Sequence<Operator>,
}

// All lists of a scenario, read under its table.
#[derive(Drop)]
struct ScenarioParts {
    service: Name,
    declared: Declarations,
    below: LowerLists,
}

// The tenants and the policies.
fn read_declared<'x>(
    alloc: Global,
    all: &'x Table,
    table: &Schema,
) -> Result<DeclaredEntries<'x>, ScenarioFault>
    requires valid { IsValid table.now }
    requires schema { HasTable (schema_of (table_view all.now)) table.now }
    requires free { IsFaultFreeBefore (table_view all.now) 1 }
    ensures { MatchResult result (IsMeaningOfDeclared (table_view all.now) table.now)
        (IsFirstFaultOfScenario (table_view all.now)) }
{
    schema_table_is_unique();
    let tenant_entries = tables_at(alloc, all, "tenant")?;
    let tenants = read_tenants(alloc, tenant_entries.as_slice())?;
    let policies = tables_at(alloc, all, "policy")?;
    let declarations = read_policies(alloc, table, tenants, policies.as_slice())?;
    Ok(DeclaredEntries {
        declarations,
        policies,
    })
}

// The applications, the links of these entries, and the operators.
fn read_lists<'x>(
    alloc: Global,
    all: &'x Table,
    above: AppContext<'x, '_, '_>,
    link_entries: &[&Table],
) -> Result<LowerLists, ScenarioFault>
    requires long { length above.policies.now ≡ length above.declared.now.policies }
    requires from_one { 1 ≤ above.loads }
    requires few { above.loads ≤ 16384 }
    ensures { (T : TheTable) → let ms = table_view all.now in IsFaultFreeBefore ms 3 → IsAppContext ms T above.entry
        → views link_entries.now ≡ link_tables ms
        → MatchResult result (IsMeaningOfLowerLists ms) (IsFirstFaultOfScenario ms) }
{
    schema_table_is_unique();
    declaration_is_unique();
    names_keep_index();
    let app_entries = tables_at(alloc, all, "app")?;
    let apps = read_apps(alloc, above, app_entries.as_slice())?;
    let links = read_links(alloc, apps.ports.as_slice(), link_entries)?;
    let operators = read_operators(alloc, above, &apps, above.operators)?;
    Ok(LowerLists {
        applications: apps.applications,
        links,
        operators,
    })
}

// The applications, the links and the operators.
fn read_below<'x>(
    alloc: Global,
    all: &'x Table,
    declared: &'x Declarations,
    policies: &'x [&'x Table],
) -> Result<LowerLists, ScenarioFault>
    requires ranges { list_all (is_within_at (table_view all.now)) top_ranges ≡ true }
    requires long { length policies.now ≡ length declared.now.policies }
    ensures { (T : TheTable) → let ms = table_view all.now in IsFaultFreeBefore ms 3 → HasTable (schema_of ms) T
        → AreFaultFree (IsPolicyFault T (tenant_tables ms)) (policy_tables ms)
        → Each (IsPolicyMeaning T (tenant_tables ms)) (policy_tables ms) declared.now.policies
        → views policies.now ≡ policy_tables ms
        → MatchResult result (IsMeaningOfLowerLists ms) (IsFirstFaultOfScenario ms) }
{
    let link_entries = tables_at(alloc, all, "link")?;
    let operator_entries = tables_at(alloc, all, "operator")?;
    let ends = all_link_ends(alloc, link_entries.as_slice())?;
    let above = AppContext {
        declared,
        policies,
        operators: operator_entries.as_slice(),
        ends: ends.as_slice(),
        loads: loads().number(all),
    };
    read_lists(alloc, all, above, link_entries.as_slice())
}

// What a scenario without a fault in its top table means.
fn read_parts(alloc: Global, all: &Table, table: &Schema) -> Result<ScenarioParts, ScenarioFault>
    requires valid { IsValid table.now }
    requires ranges { list_all (is_within_at (table_view all.now)) top_ranges ≡ true }
    requires schema { HasTable (schema_of (table_view all.now)) table.now }
    requires free { IsFaultFreeBefore (table_view all.now) 1 }
    ensures { MatchResult result (IsMeaningOfParts (table_view all.now) table.now)
        (IsFirstFaultOfScenario (table_view all.now)) }
{
    let service = Name::from_slice(alloc, text_or_empty(all, "service"))?;
    let declared = read_declared(alloc, all, table)?;
    let below = read_below(
        alloc,
        all,
        &declared.declarations,
        declared.policies.as_slice(),
    )?;
    Ok(ScenarioParts {
        service,
        declared: declared.declarations,
        below,
    })
}

// The plan of a scenario without a fault in its top table.
fn read_whole(alloc: Global, all: &Table, table: Schema) -> Result<Plan, ScenarioFault>
    requires valid { IsValid table }
    requires ranges { list_all (is_within_at (table_view all.now)) top_ranges ≡ true }
    requires schema { HasTable (schema_of (table_view all.now)) table }
    requires free { IsFaultFreeBefore (table_view all.now) 1 }
    ensures { MatchResult result (IsPlanOfScenario (table_view all.now)) (IsFirstFaultOfScenario (table_view all.now)) }
{
    let parts = read_parts(alloc, all, &table)?;
    Ok(Plan {
        service: parts.service,
        loads: loads().number(all),
        workers: workers().number(all),
        weighted: flag_at(all, "weighted"),
        table,
        declared: parts.declared,
        applications: parts.below.applications,
        links: parts.below.links,
        operators: parts.below.operators,
    })
}

/// The plan that a scenario means.
///
/// # Errors
///
/// [`ScenarioFault::At`] is the first faulty entry with its first reason; [`ScenarioFault::Memory`] is out of memory.
pub fn read_scenario(alloc: Global, text: &[u8]) -> Result<Plan, ScenarioFault>
    // The result is what the text means, or its first fault.
    ensures read { MatchResult result (IsTextOf text.now) (IsFaultOf text.now) }
    // A plan is valid.
    ensures sound { IfOk result IsPlan }
{
    parsed_plan_is_valid();
    let all = document_in(alloc, text)?;
    let table = read_top(alloc, &all)?;
    read_whole(alloc, &all, table)
}
