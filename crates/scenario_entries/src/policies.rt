//! Policies, in the order of their declarations.

ghost use Rattle.std.specs.Prelude.{◌≡◌, [], List, Some, None, IfOk, IsOk, MatchOption, MatchResult};
ghost use Rattle.std.specs.List.{list_all};
ghost use Rattle.mrpc_table.specs.Valid.{IsValid};
ghost use Rattle.mrpc_table.specs.declared.table.Table.{Table as TheTable};
ghost use Rattle.policy_declarations.specs.Declarations.{policy_names, policy_index, tenant_index, with_declaration};
ghost use Rattle.policy_declarations.specs.declared.declaration.Declaration.TheVariants as item;
ghost use Rattle.policy_declarations.specs.declared.declaration.NamedPolicy.{NamedPolicy as TheNamed};
ghost use Rattle.toml.specs.Data.{Members};
ghost use Rattle.toml.specs.View.{table_view};
ghost use Rattle.scenario_lines.specs.Programs.{Each};
ghost use Rattle.scenario_toml.specs.Values.{is_within_at};
ghost use Rattle.scenario.specs.Keys.{entry_kind, policy_ranges};
ghost use Rattle.scenario.specs.Policies.{IsPolicyOfKind, IsPolicyFault, IsPolicyMeaning, IsTenantMeaning, entry_name, entry_names};
ghost use Rattle.scenario.specs.declared.fault.FaultyEntry.TheVariants as place;
ghost use Rattle.scenario.specs.declared.entry_words.PolicyKind.TheVariants as of_kind;
ghost use Rattle.scenario_entries.specs.Entries.{AreFaultFree, IsEntryRead, IsListFault, views};
ghost use Rattle.scenario_entries.specs.FirstReasons.{IsLinesMeaning, first_head_reason, first_quota_reason, quota_tenant};

use crate::lines::lined_policy;
use crate::names::is_not_name;
use engine_core::Policy;
use mrpc_table::{Memory, Name, Table as Schema};
use policy_declarations::{Declaration, Declarations, NamedPolicy};
use policy_rate::Rate;
use scenario::keys::{amount, burst, cap, entry_kind, has_policy_keys, holds, per};
use scenario::{
    FaultyEntry, PolicyKind, ScenarioFault, ScenarioReason, earlier, first_with, reason_if,
    reason_of_policy_line,
};
use scenario_toml::{are_within, text_or_empty};
use std::alloc::Global;
use toml::Table;

// Whether the numbers of a policy of a kind are in range.
fn is_within(kind: PolicyKind, entry: &Table) -> bool
    ensures { result ≡ list_all (is_within_at (table_view entry.now)) (policy_ranges (Some kind)) }
{
    match kind {
        PolicyKind::Rate => are_within(&[amount(), per(), burst()], entry),
        PolicyKind::Quota => are_within(&[cap()], entry),
        PolicyKind::Access | PolicyKind::Count | PolicyKind::Redact => true,
    }
}

// The first reason of faults in the tenant of a quota.
fn first_quota_reason(
    declared: &Declarations,
    kind: PolicyKind,
    entry: &Table,
) -> Option<ScenarioReason>
    ensures { result ≡ first_quota_reason kind declared.now (table_view entry.now) }
{
    let name = text_or_empty(entry, "tenant");
    match kind {
        PolicyKind::Quota => earlier(
            reason_if(is_not_name(name), ScenarioReason::Name),
            reason_if(!declared.tenant(name).is_some(), ScenarioReason::Unknown),
        ),
        PolicyKind::Access | PolicyKind::Rate | PolicyKind::Count | PolicyKind::Redact => None,
    }
}

// The first reason of faults, apart from its lines, in a policy that has its keys and follows those declared so far.
fn first_head_reason(
    declared: &Declarations,
    kind: PolicyKind,
    entry: &Table,
) -> Option<ScenarioReason>
    ensures { result ≡ first_head_reason declared.now kind (table_view entry.now) }
{
    let name = text_or_empty(entry, "name");
    let named = earlier(
        reason_if(!is_within(kind, entry), ScenarioReason::Number),
        reason_if(is_not_name(name), ScenarioReason::Name),
    );
    let known = earlier(
        named,
        reason_if(declared.policy(name).is_some(), ScenarioReason::Known),
    );
    earlier(known, first_quota_reason(declared, kind, entry))
}

// The quota of an entry; `None` if its tenant isn't declared.
fn quota_in(declared: &Declarations, entry: &Table) -> Option<Policy>
    ensures { (T : TheTable) (tenants : List Members) → entry_kind (table_view entry.now) ≡ Some of_kind.Quota
        → Each IsTenantMeaning tenants declared.now.tenants
        → MatchOption result (tenant_index declared.now (quota_tenant (table_view entry.now)) ≡ None)
        (IsPolicyOfKind T tenants (table_view entry.now)) }
{
    let tenants = declared.tenants();
    match declared.tenant(text_or_empty(entry, "tenant")) {
        None => None,
        Some(place) => Some(Policy::Quota {
            tenant: place as u32,
            per: tenants[place].per,
            cap: cap().number(entry),
        }),
    }
}

// The policy of an entry of a kind, given what its lines mean. `None` if the tenant of a quota isn't declared, or if
// the kind has lines and no policy is given for them.
fn policy_in(
    declared: &Declarations,
    kind: PolicyKind,
    entry: &Table,
    lined: Option<Policy>,
) -> Option<Policy>
    ensures { (T : TheTable) (tenants : List Members) → entry_kind (table_view entry.now) ≡ Some kind
        → IsLinesMeaning kind T (table_view entry.now) lined → Each IsTenantMeaning tenants declared.now.tenants
        → MatchOption result
        ((kind ≡ of_kind.Quota) × (tenant_index declared.now (quota_tenant (table_view entry.now)) ≡ None))
        (IsPolicyOfKind T tenants (table_view entry.now)) }
{
    match kind {
        PolicyKind::Access | PolicyKind::Redact => lined,
        PolicyKind::Rate => Some(Policy::Rate(Rate {
            amount: amount().number(entry),
            per: per().number(entry),
            burst: burst().number(entry),
            hold: holds(entry),
        })),
        PolicyKind::Count => Some(Policy::Count),
        PolicyKind::Quota => quota_in(declared, entry),
    }
}

// The policy of an entry without faults, of a kind, given what its lines mean.
fn named_policy(
    alloc: Global,
    declared: &Declarations,
    kind: PolicyKind,
    entry: &Table,
    lined: Option<Policy>,
) -> Result<Result<NamedPolicy, ScenarioReason>, Memory>
    ensures named { IfOk result (λ r. IfOk r (λ p. p.name ≡ entry_name (table_view entry.now))) }
    ensures says { (T : TheTable) (tenants : List Members) → entry_kind (table_view entry.now) ≡ Some kind
        → first_head_reason declared.now kind (table_view entry.now) ≡ None → IsLinesMeaning kind T (table_view entry.now) lined
        → Each IsTenantMeaning tenants declared.now.tenants
        → IfOk result (λ r. IfOk r (IsPolicyMeaning T tenants (table_view entry.now)) × IsOk r) }
{
    let name = Name::from_slice(alloc, text_or_empty(entry, "name"))?;
    match policy_in(declared, kind, entry, lined) {
        Some(policy) => Ok(Ok(NamedPolicy { name, policy })),
        None => Ok(Err(ScenarioReason::Unknown)),
    }
}

// The policy of an entry that follows those declared so far, or the first reason of its faults.
fn read_policy(
    alloc: Global,
    table: &Schema,
    declared: &Declarations,
    entry: &Table,
) -> Result<Result<NamedPolicy, ScenarioReason>, Memory>
    requires { IsValid table.now }
    ensures new { IfOk result (λ r. IfOk r (λ p. policy_index declared.now p.name ≡ None)) }
    ensures read { (tenants before : List Members) → Each IsTenantMeaning tenants declared.now.tenants
        → policy_names declared.now ≡ entry_names before
        → IfOk result (IsEntryRead (IsPolicyFault table.now tenants before (table_view entry.now))
        (IsPolicyMeaning table.now tenants (table_view entry.now))) }
{
    let Some(kind) = entry_kind(entry) else {
        return Ok(Err(ScenarioReason::Key));
    };
    if !has_policy_keys(kind, entry) {
        return Ok(Err(ScenarioReason::Key));
    }
    let head = first_head_reason(declared, kind, entry);
    let lined = match lined_policy(alloc, table, kind, entry)? {
        Ok(lined) => lined,
        Err(why) => return Ok(Err(first_with(head, reason_of_policy_line(why)))),
    };
    match head {
        Some(reason) => Ok(Err(reason)),
        None => named_policy(alloc, declared, kind, entry, lined),
    }
}

// The declarations with one more policy, that of an entry, or the first reason of its faults.
fn with_policy(
    alloc: Global,
    table: &Schema,
    declared: Declarations,
    entry: &Table,
) -> Result<Result<Declarations, ScenarioReason>, Memory>
    requires { IsValid table.now }
    ensures tenants { IfOk result (λ r. IfOk r (λ d. d.tenants ≡ declared.tenants)) }
    ensures read { (tenants before : List Members) → Each IsTenantMeaning tenants declared.tenants
        → Each (IsPolicyMeaning table.now tenants) before declared.policies
        → IfOk result (IsEntryRead (IsPolicyFault table.now tenants before (table_view entry.now))
        (λ d. (p : TheNamed) × IsPolicyMeaning table.now tenants (table_view entry.now) p
        × (d ≡ with_declaration declared (item.Policy p)))) }
{
    match read_policy(alloc, table, &declared, entry)? {
        Ok(policy) => Ok(Ok(declared.with(alloc, Declaration::Policy(policy))?)),
        Err(reason) => Ok(Err(reason)),
    }
}

/// The declarations with the policies of these entries.
pub fn read_policies(
    alloc: Global,
    table: &Schema,
    tenants: Declarations,
    entries: &[&Table],
) -> Result<Declarations, ScenarioFault>
    requires { IsValid table.now }
    ensures { (before : List Members) → Each IsTenantMeaning before tenants.tenants → tenants.policies ≡ []
        → MatchResult result (λ d. AreFaultFree (IsPolicyFault table.now before) (views entries.now)
        × Each (IsPolicyMeaning table.now before) (views entries.now) d.policies × (d.tenants ≡ tenants.tenants))
        (IsListFault place.Policy (IsPolicyFault table.now before) (views entries.now)) }
{
    let mut declared = tenants;
    let mut number = 0;
    for entry in entries {
        number += 1;
        match with_policy(alloc, table, declared, entry)? {
            Ok(more) => declared = more,
            Err(reason) => {
                return Err(ScenarioFault::At {
                    entry: FaultyEntry::Policy(number),
                    reason,
                });
            }
        }
    }
    Ok(declared)
}
