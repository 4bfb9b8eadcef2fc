//! Tenants, in the order of their declarations.

ghost use Rattle.std.specs.Prelude.{◌≡◌, [], List, IfOk, MatchResult};
ghost use Rattle.policy_declarations.specs.Declarations.{with_declaration};
ghost use Rattle.policy_declarations.specs.declared.declaration.Declaration.TheVariants as item;
ghost use Rattle.policy_declarations.specs.declared.declaration.Tenant.{Tenant as TheTenant};
ghost use Rattle.toml.specs.Data.{Members};
ghost use Rattle.toml.specs.View.{table_view};
ghost use Rattle.scenario_lines.specs.Programs.{Each};
ghost use Rattle.scenario.specs.Policies.{IsTenantFault, IsTenantMeaning};
ghost use Rattle.scenario.specs.declared.fault.FaultyEntry.TheVariants as place;
ghost use Rattle.scenario_entries.specs.Entries.{AreFaultFree, IsEntryRead, IsListFault, views};
ghost use Rattle.scenario_entries.specs.FirstReasons.{first_tenant_reason};

use crate::names::is_not_name;
use mrpc_table::Memory;
use policy_declarations::{Declaration, Declarations, MAX_TENANTS};
use scenario::keys::{has_tenant_keys, per};
use scenario::{FaultyEntry, ScenarioFault, ScenarioReason, earlier, reason_if, tenant_in};
use scenario_toml::text_or_empty;
use std::alloc::Global;
use toml::Table;

// The first reason of faults in a tenant that follows those declared so far.
fn first_tenant_reason(declared: &Declarations, entry: &Table) -> Option<ScenarioReason>
    ensures { result ≡ first_tenant_reason declared.now (table_view entry.now) }
{
    let name = text_or_empty(entry, "name");
    let many = per().is_out(entry) || MAX_TENANTS <= declared.tenants().len();
    let counted = earlier(
        reason_if(!has_tenant_keys(entry), ScenarioReason::Key),
        reason_if(many, ScenarioReason::Number),
    );
    let named = earlier(counted, reason_if(is_not_name(name), ScenarioReason::Name));
    earlier(
        named,
        reason_if(declared.tenant(name).is_some(), ScenarioReason::Known),
    )
}

// The tenants with one more, that of an entry, or the first reason of its faults.
fn with_tenant(
    alloc: Global,
    declared: Declarations,
    entry: &Table,
) -> Result<Result<Declarations, ScenarioReason>, Memory>
    ensures { (before : List Members) → Each IsTenantMeaning before declared.tenants
        → IfOk result (IsEntryRead (IsTenantFault before (table_view entry.now))
        (λ d. (t : TheTenant) × IsTenantMeaning (table_view entry.now) t × (d ≡ with_declaration declared (item.Tenant t)))) }
{
    if let Some(reason) = first_tenant_reason(&declared, entry) {
        return Ok(Err(reason));
    }
    let tenant = tenant_in(alloc, entry)?;
    Ok(Ok(declared.with(alloc, Declaration::Tenant(tenant))?))
}

/// The tenants of these entries.
pub fn read_tenants(alloc: Global, entries: &[&Table]) -> Result<Declarations, ScenarioFault>
    ensures { MatchResult result (λ d. AreFaultFree IsTenantFault (views entries.now)
        × Each IsTenantMeaning (views entries.now) d.tenants × (d.policies ≡ []))
        (IsListFault place.Tenant IsTenantFault (views entries.now)) }
{
    let mut declared = Declarations::new(alloc);
    let mut number = 0;
    for entry in entries {
        number += 1;
        match with_tenant(alloc, declared, entry)? {
            Ok(more) => declared = more,
            Err(reason) => {
                return Err(ScenarioFault::At {
                    entry: FaultyEntry::Tenant(number),
                    reason,
                });
            }
        }
    }
    Ok(declared)
}
