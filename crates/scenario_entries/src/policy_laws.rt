//! Laws of declarations. These functions do nothing; their contracts are the laws.

ghost use Rattle.std.specs.Prelude.{◌≡◌, ℕ, List, All, Contains, None, Some, position};
ghost use Rattle.std.specs.Str.{bytes_eq};
ghost use Rattle.mrpc_table.specs.declared.table.Table.{Table};
ghost use Rattle.policy_declarations.specs.Declarations.{Declared, AreValidDeclarations, policy_names, policy_index};
ghost use Rattle.policy_declarations.specs.declared.declaration.NamedPolicy.{NamedPolicy};
ghost use Rattle.run_plan.specs.Chains.{IsReadUnder};
ghost use Rattle.run_plan.specs.Plans.{HasWindow, IsOwnPolicy};
ghost use Rattle.run_plan.specs.declared.application.OwnPolicy.{OwnPolicy};
ghost use Rattle.toml.specs.Data.{Members};
ghost use Rattle.scenario_lines.specs.Programs.{Each};
ghost use Rattle.scenario.specs.Applications.{HasTable, policy_tables, tenant_tables};
ghost use Rattle.scenario.specs.Policies.{IsPolicyFault, IsPolicyMeaning, IsTenantFault, IsTenantMeaning, entry_name, entry_names};
ghost use Rattle.scenario.specs.Scenarios.{IsOwnPolicyMeaning};
ghost use Rattle.scenario_entries.specs.Entries.{AreFaultFree};

use policy_access::policy_is_unique as one_access;
use policy_redact::policy_is_unique as one_redact;
use proto_schema::{alone_is_ordered, file_is_unique};
use schema_resolve::resolved_table_is_unique as one_resolved;

/// A schema has at most one table.
pub fn schema_table_is_unique()
    ensures { (text : List ℕ) (T U : Table) → HasTable text T → HasTable text U → T ≡ U }
{
    file_is_unique();
    alone_is_ordered();
    one_resolved();
}

/// Entries declare at most one list of policies under a table.
pub fn declaration_is_unique()
    ensures { (T : Table) (tenants entries : List Members) (policies others : List NamedPolicy)
        → Each (IsPolicyMeaning T tenants) entries policies → Each (IsPolicyMeaning T tenants) entries others
        → policies ≡ others }
{
    one_access();
    one_redact();
}

/// The index of a declared policy's name is that of its entry.
pub fn names_keep_index()
    ensures names { (T : Table) (tenants entries : List Members) (d : Declared)
        → Each (IsPolicyMeaning T tenants) entries d.policies → policy_names d ≡ entry_names entries }
    ensures places { (d : Declared) (entries : List Members) (name : List ℕ) → policy_names d ≡ entry_names entries
        → policy_index d name ≡ position (λ ms. bytes_eq (entry_name ms) name) entries }
    ensures there { (d : Declared) (entries : List Members) (name : List ℕ) (place : ℕ)
        → policy_names d ≡ entry_names entries → policy_index d name ≡ Some place → Contains (entry_names entries) name }
    ensures absent { (d : Declared) (entries : List Members) (name : List ℕ) → policy_names d ≡ entry_names entries
        → policy_index d name ≡ None → Contains (entry_names entries) name → ⊥ }
{}

/// The declarations of entries without faults satisfy what a plan guarantees of them.
pub fn declaration_is_valid()
    ensures sound { (T : Table) (tenants entries : List Members) (d : Declared) → AreFaultFree IsTenantFault tenants
        → AreFaultFree (IsPolicyFault T tenants) entries → Each IsTenantMeaning tenants d.tenants
        → Each (IsPolicyMeaning T tenants) entries d.policies → AreValidDeclarations d }
    ensures read { (T : Table) (tenants entries : List Members) (d : Declared) → AreFaultFree IsTenantFault tenants
        → AreFaultFree (IsPolicyFault T tenants) entries → Each IsTenantMeaning tenants d.tenants
        → Each (IsPolicyMeaning T tenants) entries d.policies → All (λ p. IsReadUnder T p.policy) d.policies }
    ensures windows { (T : Table) (tenants entries : List Members) (d : Declared) → AreFaultFree IsTenantFault tenants
        → AreFaultFree (IsPolicyFault T tenants) entries → Each IsTenantMeaning tenants d.tenants
        → Each (IsPolicyMeaning T tenants) entries d.policies → All (λ p. HasWindow d.tenants p.policy) d.policies }
{}

/// An application's own schema satisfies what a plan guarantees of it: its policies mean the same as those of the
/// plan.
pub fn own_schema_is_valid()
    ensures { (all : Members) (shared own : Table) (policies : List NamedPolicy) (read : List OwnPolicy)
        → Each (IsPolicyMeaning shared (tenant_tables all)) (policy_tables all) policies → All (IsOwnPolicyMeaning all own) read
        → All (IsOwnPolicy shared policies own) read }
{}
