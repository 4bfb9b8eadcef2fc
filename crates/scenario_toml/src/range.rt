//! The range of numbers at a key.

ghost use Rattle.std.specs.Prelude.{◌≡◌};
ghost use Rattle.std.specs.List.{list_all};
ghost use Rattle.toml.specs.View.{table_view};
ghost use Rattle.scenario_toml.specs.Values.{is_in_range, is_within_at, natural_or_zero};

use crate::value::integer_at;
use std::marker::Model;
use toml::Table;

/// The range of numbers at a key, and the default if the table doesn't have the key.
#[derive(Drop)]
pub struct IntegerRange {
    key: &'static str,
    default: u64,
    least: u64,
    most: u64,
}

impl Model for IntegerRange {
    ghost use Rattle.scenario_toml.specs.Values.{TheIntegerRange};

    ghost Value = { TheIntegerRange };

    ghost view = { λ r. record { key = r.key.now; default = r.default; least = r.least; most = r.most } };
}

// Whether an integer is in the range.
fn is_in_range(least: u64, most: u64, value: i64) -> bool
    ensures { result ≡ is_in_range least most value }
{
    value >= 0 && least <= value as u64 && value as u64 <= most
}

// The integer as a natural number; 0 for a negative one.
fn natural_or_zero(value: i64) -> u64
    ensures { result ≡ natural_or_zero value }
{
    if value >= 0 { value as u64 } else { 0 }
}

impl IntegerRange {
    ghost use Rattle.scenario_toml.specs.Values.{new_range, is_out, number_or_default};

    /// The range from `least` to `most` at a key, with a default.
    pub const fn new(key: &'static str, default: u64, least: u64, most: u64) -> IntegerRange
        ensures { result ≡ new_range key.now default least most }
    {
        IntegerRange {
            key,
            default,
            least,
            most,
        }
    }

    /// Whether the number at the key is out of range.
    pub fn is_out(&self, table: &Table) -> bool
        ensures { result ≡ is_out (table_view table.now) self.now }
    {
        match integer_at(table, self.key) {
            Some(value) => !is_in_range(self.least, self.most, value),
            None => !(self.least <= self.default && self.default <= self.most),
        }
    }

    /// The number at the key, or the default. The result has no meaning if the number is out of range.
    pub fn number(&self, table: &Table) -> u64
        ensures { result ≡ number_or_default self.now (table_view table.now) }
    {
        match integer_at(table, self.key) {
            Some(value) => natural_or_zero(value),
            None => self.default,
        }
    }
}

/// Whether each number of the table is in its range.
pub fn are_within(ranges: &[IntegerRange], table: &Table) -> bool
    ensures { result ≡ list_all (is_within_at (table_view table.now)) ranges.now }
{
    ranges.iter().all(|range| !range.is_out(table))
}
