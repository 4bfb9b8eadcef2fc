//! What the lines of policies mean under a table.

ghost use Rattle.std.specs.Prelude.{◌≡◌, List, IfOk};
ghost use Rattle.mrpc_table.specs.Valid.{IsValid};
ghost use Rattle.mrpc_table.specs.declared.table.Table.{Table as TheTable};
ghost use Rattle.toml.specs.Data.{Members};
ghost use Rattle.toml.specs.View.{table_view};
ghost use Rattle.scenario_toml.specs.Values.{texts_at};
ghost use Rattle.scenario.specs.declared.entry_words.PolicyKind.{PolicyKind as TheKind};
ghost use Rattle.scenario.specs.declared.entry_words.PolicyKind.TheVariants as of_kind;
ghost use Rattle.scenario_entries.specs.FirstReasons.{IsLinesRead, IsRuledResult};

use engine_core::Policy;
use mrpc_table::{Bytes, Lines, Memory, RuleFault, RuleReason, Table as Schema};
use policy_access::{
    first_fault_is_unique as one_access_fault, read_access, text_or_fault as access_or_fault,
};
use policy_redact::{
    first_fault_is_unique as one_redact_fault, read_redact, text_or_fault as redact_or_fault,
};
use scenario::PolicyKind;
use scenario_toml::texts_at;
use std::alloc::Global;
use toml::Table;

// The lines at a key of a policy.
fn lines_at(alloc: Global, entry: &Table, key: &str) -> Result<Lines, Memory>
    ensures { IfOk result (λ lines. lines ≡ texts_at key.now (table_view entry.now)) }
{
    let mut lines = Lines::new(alloc);
    let texts = texts_at(alloc, entry, key)?;
    for text in &texts {
        lines.push(Bytes::from_slice(alloc, text)?)?;
    }
    Ok(lines)
}

// The access policy of an entry, or the reason of its first faulty line.
pub(crate) fn access_in(
    alloc: Global,
    table: &Schema,
    entry: &Table,
) -> Result<Result<Policy, RuleReason>, Memory>
    requires { IsValid table.now }
    ensures { IfOk result (IsRuledResult of_kind.Access table.now (table_view entry.now)) }
{
    one_access_fault();
    access_or_fault();
    let lines = lines_at(alloc, entry, "rules")?;
    match read_access(alloc, &lines, table) {
        Ok(access) => Ok(Ok(Policy::Access(access))),
        Err(RuleFault::At { reason, .. }) => Ok(Err(reason)),
        Err(RuleFault::Memory) => Err(Memory),
    }
}

// The redacting policy of an entry, or the reason of its first faulty line.
pub(crate) fn redact_in(
    alloc: Global,
    table: &Schema,
    entry: &Table,
) -> Result<Result<Policy, RuleReason>, Memory>
    requires { IsValid table.now }
    ensures { IfOk result (IsRuledResult of_kind.Redact table.now (table_view entry.now)) }
{
    one_redact_fault();
    redact_or_fault();
    let lines = lines_at(alloc, entry, "clears")?;
    match read_redact(alloc, &lines, table) {
        Ok(redact) => Ok(Ok(Policy::Redact(redact))),
        Err(RuleFault::At { reason, .. }) => Ok(Err(reason)),
        Err(RuleFault::Memory) => Err(Memory),
    }
}

// The result of reading lines, as that of a policy that may have none.
fn lined_by(ruled: Result<Policy, RuleReason>) -> Result<Option<Policy>, RuleReason>
    ensures { (k : TheKind) (T : TheTable) (ms : Members) → IsRuledResult k T ms ruled → IsLinesRead k T ms result }
{
    match ruled {
        Ok(policy) => Ok(Some(policy)),
        Err(why) => Err(why),
    }
}

// The policy that the lines of an entry mean under a table, or the reason of the first faulty one; `None` for a
// policy whose kind has no lines.
pub(crate) fn lined_policy(
    alloc: Global,
    table: &Schema,
    kind: PolicyKind,
    entry: &Table,
) -> Result<Result<Option<Policy>, RuleReason>, Memory>
    requires { IsValid table.now }
    ensures { IfOk result (IsLinesRead kind table.now (table_view entry.now)) }
{
    match kind {
        PolicyKind::Access => Ok(lined_by(access_in(alloc, table, entry)?)),
        PolicyKind::Redact => Ok(lined_by(redact_in(alloc, table, entry)?)),
        PolicyKind::Rate | PolicyKind::Quota | PolicyKind::Count => Ok(Ok(None)),
    }
}
