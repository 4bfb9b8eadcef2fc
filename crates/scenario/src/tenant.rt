//! Tenants.

ghost use Rattle.std.specs.Prelude.{IfOk};
ghost use Rattle.toml.specs.View.{table_view};
ghost use Rattle.scenario.specs.Policies.{IsTenantMeaning};

use crate::keys::per;
use mrpc_table::{Memory, Name};
use policy_declarations::Tenant;
use scenario_toml::text_or_empty;
use std::alloc::Global;
use toml::Table;

/// The tenant that an entry declares.
pub fn tenant_in(alloc: Global, entry: &Table) -> Result<Tenant, Memory>
    ensures { IfOk result (IsTenantMeaning (table_view entry.now)) }
{
    Ok(Tenant {
        name: Name::from_slice(alloc, text_or_empty(entry, "name"))?,
        per: per().number(entry),
    })
}
