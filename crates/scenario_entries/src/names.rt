//! Names of policies, and the first of several reasons.

ghost use Rattle.std.specs.Prelude.{◌≡◌, List, is_none, map};
ghost use Rattle.std.specs.List.{list_any};
ghost use Rattle.policy_declarations.specs.Declarations.{policy_names, policy_index};
ghost use Rattle.toml.specs.Data.{Members};
ghost use Rattle.scenario.specs.Policies.{entry_names};
ghost use Rattle.scenario.specs.Reasons.{IsSoFar};
ghost use Rattle.scenario_entries.specs.FirstReasons.{is_not_name};
ghost use Rattle.scenario_entries.specs.Owning.{IsNamesFault};

use mrpc_table::is_name;
use policy_declarations::Declarations;
use scenario::{ScenarioReason, earlier, reason_if};

// Whether the word isn't a name.
pub(crate) fn is_not_name(word: &[u8]) -> bool
    ensures { result ≡ is_not_name word.now }
{
    !is_name(word)
}

// Whether one of the words isn't a name.
fn has_invalid_name(names: &[&[u8]]) -> bool
    ensures { result ≡ list_any (λ n. is_not_name n.now) names.now }
{
    names.iter().any(|name| is_not_name(name))
}

/// Whether one of the names isn't that of a policy.
pub fn has_undeclared_name(declared: &Declarations, names: &[&[u8]]) -> bool
    ensures { result ≡ list_any (λ n. is_none (policy_index declared.now n.now)) names.now }
{
    names.iter().any(|name| declared.policy(name).is_none())
}

/// The first reason of faults in names of policies: one that isn't a name, or one that no policy has.
pub fn names_reason(declared: &Declarations, names: &[&[u8]]) -> Option<ScenarioReason>
    ensures { (policies : List Members) → policy_names declared.now ≡ entry_names policies
        → IsSoFar (IsNamesFault policies (map (λ n. n.now) names.now)) result }
{
    earlier(
        reason_if(has_invalid_name(names), ScenarioReason::Name),
        reason_if(
            has_undeclared_name(declared, names),
            ScenarioReason::Unknown,
        ),
    )
}
