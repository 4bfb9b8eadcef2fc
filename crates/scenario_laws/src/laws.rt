//! A scenario means at most one plan, which is valid.

ghost use Rattle.std.specs.Prelude.{◌≡◌, ℕ, List};
ghost use Rattle.run_plan.specs.Plans.{IsPlan};
ghost use Rattle.run_plan.specs.declared.plan.Plan.{Plan};
ghost use Rattle.toml.specs.Data.{Members};
ghost use Rattle.scenario.specs.Scenarios.{HasFault, IsTextOf, IsPlanOfScenario};
ghost use Rattle.scenario.specs.declared.fault.FaultyEntry.{FaultyEntry};
ghost use Rattle.scenario.specs.declared.fault.ScenarioReason.{ScenarioReason};

use engine_core::{change_or_rejection, change_preserves_chain, changed_is_the_change};
use scenario_entries::{
    declaration_is_unique, declaration_is_valid, fault_is_unique, own_schema_is_valid,
    plan_excludes_fault, schema_table_is_unique,
};
use script_grammar::meanings_or_reason;

/// The plan of a scenario is valid, so a run need not check what a plan guarantees.
pub fn parsed_plan_is_valid()
    ensures said { (all : Members) (plan : Plan) → IsPlanOfScenario all plan → IsPlan plan }
    ensures sound { (text : List ℕ) (plan : Plan) → IsTextOf text plan → IsPlan plan }
{
    declaration_is_valid();
    own_schema_is_valid();
    change_or_rejection();
    change_preserves_chain();
    changed_is_the_change();
}

/// A text means at most one plan, has at most one first fault, and never both.
pub fn scenario_is_unique()
    ensures one_plan { (text : List ℕ) (plan other : Plan) → IsTextOf text plan → IsTextOf text other → plan ≡ other }
    ensures one_fault { (text : List ℕ) (a b : FaultyEntry) (q r : ScenarioReason) → HasFault text a q
        → HasFault text b r
        → (a ≡ b) × (q ≡ r) }
    ensures never_both { (text : List ℕ) (plan : Plan) (at : FaultyEntry) (reason : ScenarioReason) → IsTextOf text plan
        → HasFault text at reason → ⊥ }
{
    parsed_plan_is_valid();
    schema_table_is_unique();
    declaration_is_unique();
    meanings_or_reason();
    change_preserves_chain();
    fault_is_unique();
    plan_excludes_fault();
}
