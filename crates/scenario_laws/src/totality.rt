//! A law of whole scenarios.

ghost use Rattle.std.specs.Prelude.{ℕ, List};
ghost use Rattle.run_plan.specs.declared.plan.Plan.{Plan};
ghost use Rattle.scenario.specs.Scenarios.{HasFault, IsTextOf};
ghost use Rattle.scenario.specs.declared.fault.FaultyEntry.{FaultyEntry};
ghost use Rattle.scenario.specs.declared.fault.ScenarioReason.{ScenarioReason};

use policy_access::text_or_fault as access_or_fault;
use policy_redact::text_or_fault as redact_or_fault;
use script_grammar::meanings_or_reason;

/// A text means a plan or has a first fault: it can't have neither.
pub fn plan_or_fault()
    ensures never_neither { (text : List ℕ) → ((plan : Plan) → IsTextOf text plan → ⊥)
        → ((at : FaultyEntry) (reason : ScenarioReason) → HasFault text at reason → ⊥) → ⊥ }
{
    meanings_or_reason();
    access_or_fault();
    redact_or_fault();
}
