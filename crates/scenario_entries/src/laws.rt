//! Laws of scenarios. These functions do nothing; their contracts are the laws.

ghost use Rattle.std.specs.Prelude.{◌≡◌, ℕ, List};
ghost use Rattle.run_plan.specs.declared.plan.Plan.{Plan};
ghost use Rattle.scenario.specs.Scenarios.{HasFault, IsTextOf};
ghost use Rattle.scenario.specs.declared.fault.FaultyEntry.{FaultyEntry};
ghost use Rattle.scenario.specs.declared.fault.ScenarioReason.{ScenarioReason};

/// A text has at most one first fault: one entry, with one reason.
pub fn fault_is_unique()
    ensures { (text : List ℕ) (a b : FaultyEntry) (q r : ScenarioReason) → HasFault text a q → HasFault text b r
        → (a ≡ b) × (q ≡ r) }
{}

/// A text that means a plan has no fault.
pub fn plan_excludes_fault()
    ensures { (text : List ℕ) (plan : Plan) (at : FaultyEntry) (reason : ScenarioReason) → IsTextOf text plan
        → HasFault text at reason → ⊥ }
{}
