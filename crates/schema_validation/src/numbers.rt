//! The numbers of fields and of enums' values.

ghost use Rattle.std.specs.Prelude.{◌≡◌, ◌≤◌, ◌<◌, ◌^◌, ◌↔◌, length, ℕ, ℤ, List, pos, neg_ℤ, IfOk, IsTrue, MatchOption, FitsSigned, if◌then◌else◌};
ghost use Rattle.std.specs.Int.{w32};
ghost use Rattle.std.specs.List.{AllWithin};
ghost use Rattle.std.specs.List.Sorted.{IsNonDecreasingBy};
ghost use Rattle.mrpc_table.specs.Valid.{IsFieldNumber};
ghost use Rattle.proto_ast.specs.declared.file.Range.{Range};
ghost use Rattle.mrpc_table.specs.Lines.{magnitude};
ghost use Rattle.schema_validation.specs.Types.{signed_value};
ghost use Rattle.schema_validation.specs.Correspondence.{AreCorresponding};
ghost use Rattle.schema_validation.specs.Members.{IsFieldNumberOf, IsReserved};
ghost use Rattle.schema_validation.specs.Ranges.{IsPositionOf, IsEndsOf, AreSortedEnds, HasReservedRanges, extended_from};

use mrpc_table::{Decimal, Memory, is_field_number};
use proto_ast::{Number, Range};
use std::alloc::Global;

// The position of 0. Numbers of more than 64 bits are clamped to the two ends.
pub(crate) const ZERO: u128 = 0x1_0000_0000_0000_0000;

fn size_of(value: Decimal) -> u128
    ensures is { result ≡ magnitude value }
    ensures small { result ≤ 2 ^ 64 }
{
    match value {
        Decimal::Small(size) => u128::from(size),
        Decimal::Large => ZERO,
    }
}

// The position of a number, counted from -2^64.
pub(crate) fn number_position(number: &Number) -> u128
    ensures is { IsPositionOf result (signed_value number.now) }
    ensures small { result ≤ 2 ^ 65 }
{
    let size = size_of(number.value);
    if number.negative {
        ZERO - size
    } else {
        ZERO + size
    }
}

/// Returns the number of a field: 1 to 536870911, except 19000 to 19999.
pub fn field_number(number: &Number) -> Option<u32>
    ensures { MatchOption result (IsFieldNumberOf (signed_value number.now) → ⊥)
        (λ n. (signed_value number.now ≡ pos n) × IsFieldNumber n) }
{
    if number.negative {
        return None;
    }
    match number.value {
        Decimal::Small(size) if is_field_number(size) => Some(size as u32),
        _ => None,
    }
}

// A signed number of 32 bits.
fn signed(negative: bool, size: u64) -> Option<i32>
    ensures { let n = if negative then neg_ℤ (pos size) else pos size in
        MatchOption result (FitsSigned w32 n → ⊥) (λ r. r ≡ n) }
{
    if negative {
        if size <= 0x8000_0000 {
            Some((-(size as i64)) as i32)
        } else {
            None
        }
    } else if size < 0x8000_0000 {
        Some(size as i32)
    } else {
        None
    }
}

/// Returns the number of an enum's value, a signed number of 32 bits.
pub fn enum_number(number: &Number) -> Option<i32>
    ensures { MatchOption result (FitsSigned w32 (signed_value number.now) → ⊥) (λ n. n ≡ signed_value number.now) }
{
    match number.value {
        Decimal::Small(size) => signed(number.negative, size),
        Decimal::Large => None,
    }
}

// The positions of the first and the last number of a range; `max` is past every number.
fn ends(range: &Range) -> (u128, u128)
    ensures { IsEndsOf range.now result }
{
    let last = match &range.last {
        Some(last) => number_position(last),
        None => 2 * ZERO,
    };
    (number_position(&range.first), last)
}

fn all_ends(alloc: Global, ranges: &[Range]) -> Result<Vec<(u128, u128)>, Memory>
    ensures { IfOk result (λ v. AreCorresponding IsEndsOf ranges.now v.items) }
{
    let mut all = Vec::with_capacity(alloc, ranges.len())?;
    for i in 0..ranges.len() {
        let ends = ends(&ranges[i]);
        all.push(ends)?;
    }
    Ok(all)
}

// The ends of ranges, by ascending first position.
fn sorted_ends(alloc: Global, ranges: &[Range]) -> Result<Vec<(u128, u128)>, Memory>
    ensures { IfOk result (λ v. AreSortedEnds ranges.now v.items) }
{
    let mut sorted = all_ends(alloc, ranges)?;
    sorted.sort_by_key(|range| range.0)?;
    Ok(sorted)
}

// Replaces each last position by the largest one up to there.
fn extend_ends(alloc: Global, sorted: &[(u128, u128)]) -> Result<Vec<(u128, u128)>, Memory>
    ensures { IfOk result (λ v. v.items ≡ extended_from 0 sorted.now) }
{
    let mut reached = Vec::with_capacity(alloc, sorted.len())?;
    let mut reach: u128 = 0;
    for i in 0..sorted.len() {
        let (first, last) = sorted[i];
        reach = reach.max(last);
        reached.push((first, reach))?;
    }
    Ok(reached)
}

// The number of ranges whose first position is at most `place`.
fn count_starting_by(ranges: &[(u128, u128)], place: u128) -> usize
    ensures within { result ≤ length ranges.now }
    ensures parts { IsNonDecreasingBy {X = ℕ × ℕ} (λ e. e.0) ranges.now
        → AllWithin (λ e. e.0 ≤ place) ranges.now 0 result
        × AllWithin (λ e. place < e.0) ranges.now result (length ranges.now) }
{
    ranges.partition_point(|range| range.0 <= place)
}

// Reserved numbers: ranges by ascending first position, each extended to the largest last position up to there.
#[derive(Drop)]
pub(crate) struct Reserved {
    ranges: Vec<(u128, u128)>,
}

impl Reserved {
    // The numbers of these ranges.
    pub(crate) fn new(alloc: Global, ranges: &[Range]) -> Result<Reserved, Memory>
        ensures { IfOk result (HasReservedRanges ranges.now) }
    {
        let sorted = sorted_ends(alloc, ranges)?;
        let reached = extend_ends(alloc, sorted.as_slice())?;
        Ok(Reserved { ranges: reached })
    }

    // True if a range contains the number at a position: it starts at or below the position, and ends at or above it.
    pub(crate) fn has(&self, place: u128) -> bool
        ensures { (ranges : List Range) (n : ℤ) → HasReservedRanges ranges self.now → IsPositionOf place n → place ≤ 2 ^ 65
            → IsTrue result ↔ IsReserved ranges n }
    {
        let ranges = self.ranges.as_slice();
        let low = count_starting_by(ranges, place);
        low > 0 && place <= ranges[low - 1].1
    }
}
