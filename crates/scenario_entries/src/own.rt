//! The policies that a connection uses, as read under the schema of its application.

ghost use Rattle.std.specs.Prelude.{◌≡◌, ℕ, List, Some, IfOk, MatchResult, Contains, codes};
ghost use Rattle.std.specs.Prelude.{false, length, map, replicate};
ghost use Rattle.mrpc_table.specs.Valid.{IsValid};
ghost use Rattle.mrpc_table.specs.declared.table.Table.{Table as TheTable};
ghost use Rattle.toml.specs.Data.{Members};
ghost use Rattle.toml.specs.View.{table_view};
ghost use Rattle.scenario_lines.specs.Programs.{Each};
ghost use Rattle.scenario_toml.specs.Values.{text_at};
ghost use Rattle.scenario.specs.Applications.{HasTable, policy_tables, tenant_tables};
ghost use Rattle.scenario.specs.Policies.{IsPolicyOfKind, IsPolicyFault, IsPolicyMeaning};
ghost use Rattle.scenario.specs.Reasons.{IsFirstScenarioReason};
ghost use Rattle.scenario_entries.specs.Entries.{AreFaultFree, views};
ghost use Rattle.scenario.specs.declared.fault.ScenarioReason.{ScenarioReason as TheReason};
ghost use Rattle.scenario_entries.specs.Marking.{AreMarked, IsMarkedRead, IsReadAgain};
ghost use Rattle.scenario_entries.specs.Owning.{AreOwn, HasNamedFault};

use crate::lines::{access_in, redact_in};
use crate::policy_laws::schema_table_is_unique;
use engine_core::Policy;
use mrpc_table::{Memory, RuleReason, Sequence, Table as Schema};
use policy_declarations::{Declarations, NamedPolicy};
use run_plan::OwnPolicy;
use scenario::{ScenarioReason, first_with, reason_of_policy_line};
use std::alloc::Global;
use toml::Table;

// `count` flags, none of which is set.
fn unmarked(alloc: Global, count: usize) -> Result<Vec<bool>, Memory>
    ensures { IfOk result (λ marks. marks.items ≡ replicate count false) }
{
    Ok(vec![in alloc; false; count]?)
}

// A flag for each policy, set for those that have one of the names.
fn marks_of(alloc: Global, declared: &Declarations, names: &[&[u8]]) -> Result<Vec<bool>, Memory>
    ensures { IfOk result (λ marks. AreMarked declared.now (map (λ n. n.now) names.now) marks.items) }
{
    let mut marks = unmarked(alloc, declared.policies().len())?;
    for name in names {
        if let Some(place) = declared.policy(name) {
            marks[place] = true;
        }
    }
    Ok(marks)
}

// A declared policy as its entry means it under another table, or the reason of its first faulty line there.
fn read_again(
    alloc: Global,
    table: &Schema,
    policy: &Policy,
    entry: &Table,
) -> Result<Result<Policy, RuleReason>, Memory>
    requires { IsValid table.now }
    ensures { (shared : TheTable) (tenants : List Members) → IsPolicyOfKind shared tenants (table_view entry.now) policy.now
        → IfOk result (IsReadAgain table.now tenants (table_view entry.now)) }
{
    match policy {
        Policy::Access(_) => access_in(alloc, table, entry),
        Policy::Redact(_) => redact_in(alloc, table, entry),
        Policy::Rate(_) | Policy::Quota { .. } | Policy::Count => Ok(Ok(policy.copied(alloc)?)),
    }
}

// The marked policies as their entries mean them under another table, or the first reason of their faults.
fn read_marked(
    alloc: Global,
    table: &Schema,
    policies: &[NamedPolicy],
    entries: &[&Table],
    marks: &[bool],
) -> Result<Result<Sequence<OwnPolicy>, ScenarioReason>, Memory>
    requires valid { IsValid table.now }
    requires long { length entries.now ≡ length policies.now }
    requires marked { length marks.now ≡ length policies.now }
    ensures { (shared : TheTable) (tenants : List Members)
        → Each (IsPolicyMeaning shared tenants) (views entries.now) policies.now
        → IfOk result (IsMarkedRead (views entries.now) tenants table.now marks.now) }
{
    let mut read = Sequence::new(alloc);
    let mut first = None;
    for place in 0..policies.len() {
        if marks[place] {
            match read_again(alloc, table, &policies[place].policy, entries[place])? {
                Ok(policy) => read.push(OwnPolicy { place, policy })?,
                Err(why) => first = Some(first_with(first, reason_of_policy_line(why))),
            }
        }
    }
    match first {
        None => Ok(Ok(read)),
        Some(reason) => Ok(Err(reason)),
    }
}

/// The policies that have one of the names, as their entries mean them under an application's own table, or the first
/// reason of their faults there. Names that no policy has are skipped. Takes time in proportion to the names and to
/// the lines of those policies, plus one pass over all policies.
pub fn read_own_policies(
    alloc: Global,
    table: &Schema,
    declared: &Declarations,
    entries: &[&Table],
    names: &[&[u8]],
) -> Result<Result<Sequence<OwnPolicy>, ScenarioReason>, Memory>
    requires valid { IsValid table.now }
    requires long { length entries.now ≡ length declared.now.policies }
    ensures { (all app : Members) (text : List ℕ) (shared : TheTable) → text_at (codes "schema") app ≡ Some text
        → HasTable text table.now → views entries.now ≡ policy_tables all
        → AreFaultFree (IsPolicyFault shared (tenant_tables all)) (policy_tables all)
        → Each (IsPolicyMeaning shared (tenant_tables all)) (policy_tables all) declared.now.policies
        → IfOk result (λ r. MatchResult r (λ policies. AreOwn all table.now (map (λ n. n.now) names.now) policies
        × ((q : TheReason) → HasNamedFault all app (Contains (map (λ n. n.now) names.now)) q → ⊥))
        (IsFirstScenarioReason (HasNamedFault all app (Contains (map (λ n. n.now) names.now))))) }
{
    schema_table_is_unique();
    let marks = marks_of(alloc, declared, names)?;
    read_marked(alloc, table, declared.policies(), entries, marks.as_slice())
}
