//! The bucket of one attachment of a rate policy.

ghost use Rattle.std.specs.Prelude.{◌≡◌, ◌-◌, ◌<◌, ◌≤◌, min, max};
ghost use Rattle.policy_rate.specs.Level.{IsRate, full_level, level_after, converted_level};

use crate::rate::Rate;

/// What an attachment of a rate policy may still spend. A call costs the `per` of its policy.
#[derive(Clone, Copy)]
pub struct Bucket {
    /// The current level.
    pub level: u64,
    /// The latest timestamp, in milliseconds.
    pub last: u64,
}

/// The outcome of charging a call.
#[derive(Clone, Copy, PartialEq, Eq)]
pub enum Step {
    /// The call was charged; `level_of_past` is the level afterwards.
    Pass { level: u64 },
    /// The level is below the cost of a call. Nothing changed.
    Short { level: u64, cost: u64 },
}

impl Bucket {
    /// A full bucket, with the timestamp of the attachment. Like every call of a bucket, it allocates nothing.
    pub fn full(rate: &Rate, now: u64) -> Bucket
        requires { IsRate rate.now }
        ensures level { result.level ≡ full_level rate.now }
        ensures last { result.last ≡ now }
    {
        Bucket {
            level: full_level(rate),
            last: now,
        }
    }

    /// Advances the bucket to a timestamp. It adds `amount` for each millisecond since the last one, up to a full
    /// bucket. An earlier timestamp counts as the last one.
    pub fn clock(&mut self, rate: &Rate, now: u64)
        requires { IsRate rate.now }
        ensures level { self.new.level ≡ level_after rate.now self.old.level (now - self.old.last) }
        ensures last { self.new.last ≡ max self.old.last now }
    {
        let passed = now.saturating_sub(self.last);
        let gain = u128::from(rate.amount) * u128::from(passed);
        self.level = at_most_full(rate, u128::from(self.level) + gain);
        self.last = self.last.max(now);
    }

    /// Charges a call, if the level covers its cost.
    pub fn step(&mut self, rate: &Rate) -> Step
        ensures pass { rate.now.per ≤ self.old.level → result ≡ Step.Pass self.new.level }
        ensures charged { rate.now.per ≤ self.old.level → self.new.level ≡ self.old.level - rate.now.per }
        ensures short { self.old.level < rate.now.per → result ≡ Step.Short self.old.level rate.now.per }
        ensures stays { self.old.level < rate.now.per → self.new.level ≡ self.old.level }
        ensures last { self.new.last ≡ self.old.last }
    {
        let cost = rate.per;
        if self.level < cost {
            return Step::Short {
                level: self.level,
                cost,
            };
        }
        self.level -= cost;
        Step::Pass { level: self.level }
    }

    /// Converts the level to another policy, in which a call costs the new `per`. As many calls as before may be
    /// charged, rounded down, up to a full new bucket.
    pub fn convert(&mut self, old: &Rate, new: &Rate)
        requires old { IsRate old.now }
        requires new { IsRate new.now }
        ensures level { self.new.level ≡ converted_level old.now new.now self.old.level }
        ensures last { self.new.last ≡ self.old.last }
    {
        let level = u128::from(self.level) * u128::from(new.per) / u128::from(old.per);
        self.level = at_most_full(new, level);
    }
}

// The level of a full bucket.
fn full_level(rate: &Rate) -> u64
    requires { IsRate rate.now }
    ensures { result ≡ full_level rate.now }
{
    rate.burst * rate.per
}

fn at_most_full(rate: &Rate, level: u128) -> u64
    requires { IsRate rate.now }
    ensures { result ≡ min (full_level rate.now) level }
{
    u128::from(full_level(rate)).min(level) as u64
}
