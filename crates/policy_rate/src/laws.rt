//! Laws of each past of an attachment. The functions have no effect: each clause is a law.

ghost use Rattle.std.specs.Prelude.{◌+◌, ◌-◌, ◌*◌, ◌/◌, ◌≤◌, ◌++◌, ℕ, List};
ghost use Rattle.policy_rate.specs.Level.{IsRate, BucketEvent, full_level, level_of_past, timestamp_after, rate_after, charges, IsPaid, HasNoUpgrade};
ghost use Rattle.policy_rate.specs.declared.rate.Rate.{Rate};

/// A bucket never holds more than a full one under the policy in force.
pub fn level_is_bounded()
    ensures { (first : Rate) (start : ℕ) (past : List BucketEvent)
        → level_of_past first start past ≤ full_level (rate_after first past) }
{}

/// Between two timestamps without an upgrade, an attachment is charged for at most as many calls as a full bucket and
/// the time between them pay for. The condition: each call was charged at a level that covered its cost.
pub fn charges_are_bounded()
    ensures { (first : Rate) (start : ℕ) (past recent : List BucketEvent) → IsRate (rate_after first past)
        → IsPaid first start (recent ++ past) → HasNoUpgrade recent
        → let rate = rate_after first past in
        let passed = timestamp_after start (recent ++ past) - timestamp_after start past in
        charges recent ≤ (rate.burst * rate.per + rate.amount * passed) / rate.per }
{}
