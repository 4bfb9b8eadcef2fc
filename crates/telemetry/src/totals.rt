//! Totals: the counts of each method.

ghost use Rattle.std.specs.Prelude.{◌≡◌, ◌++◌, ℕ, IfOk, OnOk};
ghost use Rattle.std.specs.List.{flat_map};
ghost use Rattle.std.specs.Ordering.{nat_cmp};
ghost use Rattle.std.specs.List.Sorted.{IsStrictlySortedBy};
ghost use Rattle.std.specs.Map.{keys_of};
ghost use Rattle.telemetry.specs.Counts.{AreIn64Bits, plus};
ghost use Rattle.telemetry.specs.Totals.{counts_in, entry_line, sums_of};

use crate::counts::{Counts, What};
use crate::text::{put_method, put_totals};
use mrpc_table::{Bytes, Memory};
use std::alloc::Global;
use std::collections::BTreeMap;
use std::marker::Model;

/// Counts of what became of calls, by method.
#[derive(Drop)]
pub struct Totals {
    counts: BTreeMap<u16, Counts>,
}

impl Model for Totals {
    ghost use Rattle.std.specs.Prelude.{ℕ, List};
    ghost use Rattle.telemetry.specs.declared.counts.Counts.{Counts};
    ghost use Rattle.telemetry.specs.Totals.{IsTotals};

    ghost Value = { List (ℕ × Counts) };

    ghost view = { λ t. t.counts.entries };

    ghost invariant = { λ t. IsTotals t.counts.entries };
}

impl Totals {
    ghost use Rattle.std.specs.Prelude.{◌≡◌, ◌+◌, ◌^◌, ◌<◌, ◌==◌, ℕ, [], if◌then◌else◌, OnOk, OnErr, IfOk};
    ghost use Rattle.telemetry.specs.Counts.{AreIn64Bits, count_named, one_more, plus};
    ghost use Rattle.telemetry.specs.Totals.{IsTotals, counts_in, sums_of, totals_text};

    /// Totals of zero. Doesn't allocate.
    pub fn new(alloc: Global) -> Totals
        ensures { result ≡ [] }
    {
        Totals {
            counts: BTreeMap::new(alloc),
        }
    }

    /// Counts what became of a call of a method. The only error is `Memory`, which leaves the totals unchanged.
    pub fn add(&mut self, method: u16, what: What) -> Result<(), Memory>
        requires { count_named what (sums_of self.old) + 1 < 2 ^ 64 }
        ensures counts { OnOk result ((m : ℕ) → counts_in self.new m
            ≡ (if m == method then one_more what (counts_in self.old m) else counts_in self.old m)) }
        ensures sums { OnOk result (sums_of self.new ≡ one_more what (sums_of self.old)) }
        ensures err { OnErr result (self.new ≡ self.old) }
    {
        let counts = counts_of(&self.counts, method).one_more(what);
        self.counts.insert(method, counts)?;
        Ok(())
    }

    /// Adds all counts of other totals. The only error is `Memory`, which leaves the totals unchanged.
    pub fn merge(&mut self, other: &Totals) -> Result<(), Memory>
        requires { AreIn64Bits (plus (sums_of self.old) (sums_of other.now)) }
        ensures counts { OnOk result ((m : ℕ) → counts_in self.new m
            ≡ plus (counts_in self.old m) (counts_in other.now m)) }
        ensures sums { OnOk result (sums_of self.new ≡ plus (sums_of self.old) (sums_of other.now)) }
        ensures err { OnErr result (self.new ≡ self.old) }
    {
        let merged = merged(&self.counts, &other.counts)?;
        self.counts = merged;
        Ok(())
    }

    /// The lines of the counts: one for each method of which a call was accepted, by ascending number, and one for
    /// all. The only error is `Memory`.
    pub fn text(&self, alloc: Global) -> Result<Bytes, Memory>
        ensures text { IfOk result (λ text. text ≡ totals_text self.now) }
        ensures totals { IsTotals self.now }
    {
        let mut out = Bytes::new(alloc);
        put_methods(&mut out, &self.counts)?;
        put_totals(&mut out, sums(&self.counts))?;
        Ok(out)
    }

    /// The numbers of calls that were accepted, sent, refused and left pending, over all methods.
    pub fn sums(&self) -> (u64, u64, u64, u64)
        ensures took { result.0 ≡ (sums_of self.now).took }
        ensures sent { result.1 ≡ (sums_of self.now).sent }
        ensures refused { result.2 ≡ (sums_of self.now).refused }
        ensures standing { result.3 ≡ (sums_of self.now).standing }
        ensures totals { IsTotals self.now }
    {
        let sums = sums(&self.counts);
        (sums.took, sums.sent, sums.refused, sums.standing)
    }
}

// The counts of a method.
fn counts_of(counts: &BTreeMap<u16, Counts>, method: u16) -> Counts
    ensures { result ≡ counts_in counts.now.entries method }
{
    match counts.get(&method) {
        Some(counts) => *counts,
        None => Counts::none(),
    }
}

// The sums of the counts of two maps.
fn merged(
    counts: &BTreeMap<u16, Counts>,
    others: &BTreeMap<u16, Counts>,
) -> Result<BTreeMap<u16, Counts>, Memory>
    requires { AreIn64Bits (plus (sums_of counts.now.entries) (sums_of others.now.entries)) }
    ensures counts { IfOk result (λ merged. (m : ℕ) → counts_in merged.entries m
        ≡ plus (counts_in counts.now.entries m) (counts_in others.now.entries m)) }
    ensures sums { IfOk result (λ merged. sums_of merged.entries
        ≡ plus (sums_of counts.now.entries) (sums_of others.now.entries)) }
    ensures ascends { IfOk result (λ merged. IsStrictlySortedBy nat_cmp (keys_of merged.entries)) }
{
    let mut merged = counts.clone()?;
    for (method, more) in others {
        let sum = counts_of(&merged, *method).plus(*more);
        merged.insert(*method, sum)?;
    }
    Ok(merged)
}

// The counts over all methods.
fn sums(counts: &BTreeMap<u16, Counts>) -> Counts
    requires { AreIn64Bits (sums_of counts.now.entries) }
    ensures { result ≡ sums_of counts.now.entries }
{
    let mut sums = Counts::none();
    for more in counts.values() {
        sums = sums.plus(*more);
    }
    sums
}

// Appends the lines of the methods.
fn put_methods(out: &mut Bytes, counts: &BTreeMap<u16, Counts>) -> Result<(), Memory>
    ensures { OnOk result (out.new ≡ out.old ++ flat_map entry_line counts.now.entries) }
{
    for (method, counts) in counts {
        put_method(out, *method, *counts)?;
    }
    Ok(())
}
