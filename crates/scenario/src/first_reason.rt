//! The first of several reasons.

ghost use Rattle.std.specs.Prelude.{◌≡◌, Some};
ghost use Rattle.scenario.specs.Reasons.{lower_ranked, reason_of_line, reason_of_policy_line, reason_if};

use crate::fault::ScenarioReason;
use mrpc_table::RuleReason;
use scenario_lines::LineReason;

/// The reason, if it holds.
pub fn reason_if(holds: bool, reason: ScenarioReason) -> Option<ScenarioReason>
    ensures { result ≡ reason_if holds reason }
{
    if holds { Some(reason) } else { None }
}

/// The first of two reasons.
pub fn earlier(one: Option<ScenarioReason>, other: Option<ScenarioReason>) -> Option<ScenarioReason>
    ensures { result ≡ lower_ranked one other }
{
    match (one, other) {
        (Some(one), Some(other)) => Some(if one.order() <= other.order() {
            one
        } else {
            other
        }),
        (Some(one), None) => Some(one),
        (None, other) => other,
    }
}

/// The reason of a line of a program or of an operator.
pub fn reason_of_line(reason: LineReason) -> ScenarioReason
    ensures { result ≡ reason_of_line reason }
{
    match reason {
        LineReason::Number => ScenarioReason::Number,
        LineReason::Name => ScenarioReason::Name,
        LineReason::Word => ScenarioReason::Word,
        LineReason::Place => ScenarioReason::Place,
    }
}

/// The reason of a line of a policy.
pub fn reason_of_policy_line(reason: RuleReason) -> ScenarioReason
    ensures { result ≡ reason_of_policy_line reason }
{
    match reason {
        RuleReason::Word => ScenarioReason::Word,
        RuleReason::Number => ScenarioReason::Number,
        RuleReason::Name => ScenarioReason::Name,
        RuleReason::Known => ScenarioReason::Known,
        RuleReason::Path => ScenarioReason::Path,
        RuleReason::Default => ScenarioReason::Default,
    }
}

/// The first of an optional reason and another one.
pub fn first_with(first: Option<ScenarioReason>, reason: ScenarioReason) -> ScenarioReason
    ensures { lower_ranked first (Some reason) ≡ Some result }
{
    match first {
        None => reason,
        Some(first) => {
            if first.order() <= reason.order() {
                first
            } else {
                reason
            }
        }
    }
}
