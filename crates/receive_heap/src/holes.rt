//! The list of holes, by place.

ghost use Rattle.std.specs.Prelude.{◌≡◌, ◌<◌, ◌≤◌, ◌+◌, ℕ, All, MatchOption, length, vec_len};
ghost use Rattle.std.specs.Vec.{vec_capacity};
ghost use Rattle.std.specs.List.{AllWithin};
ghost use Rattle.mrpc_table.specs.declared.limits.TheConstants.{MAX_HEAP};
ghost use Rattle.receive_heap.specs.Layout.{IsLargest};
ghost use Rattle.receive_heap.specs.Parts.{AreHoles, IsFirstFitAt, IsInsertedBetween, IsClearAfter, IsClearBefore, HaveSamePlaces, IsDisjointFrom, holes_at, one_at, allocated_span};

use std::alloc::Global;

/// A range of places that are all free or all of one block.
#[derive(Clone, Copy)]
pub struct PlaceRange {
    /// The first place.
    pub at: u64,
    /// The number of places.
    pub words: u64,
}

// The index of the first hole with at least this many words.
pub(crate) fn first_fit(holes: &[PlaceRange], words: u64) -> Option<usize>
    ensures { MatchOption result (All (λ hole. hole.words < words) holes.now) (IsFirstFitAt holes.now words) }
{
    holes.iter().position(|hole| words <= hole.words)
}

// The words of the largest hole, 0 if there is none.
pub(crate) fn largest(holes: &[PlaceRange]) -> u64
    ensures { IsLargest holes.now result }
{
    let mut most = 0;
    for hole in holes {
        if hole.words > most {
            most = hole.words;
        }
    }
    most
}

// Removes the first `words` words of a hole.
pub(crate) fn shrink_hole(holes: &mut Vec<PlaceRange>, index: usize, words: u64)
    requires holes { AreHoles holes.old.items }
    requires some { 1 ≤ words }
    requires fits { IsFirstFitAt holes.old.items words index }
    ensures holes { AreHoles holes.new.items }
    ensures places { (place : ℕ) → holes_at holes.new.items place + one_at (allocated_span holes.old.items index words) place
        ≡ holes_at holes.old.items place }
    ensures len { vec_len holes.new ≤ vec_len holes.old }
    ensures capacity { vec_capacity holes.new ≡ vec_capacity holes.old }
{
    let hole = holes[index];
    if hole.words == words {
        holes.remove(index);
    } else {
        holes[index] = PlaceRange {
            at: hole.at + words,
            words: hole.words - words,
        };
    }
}

// Makes a span a hole, merged with the holes that it touches.
#[tactic(auto, using(crate::proofs::Joins::stands_between, crate::proofs::Joins::holes_inserted))]
pub(crate) fn free(holes: &mut Vec<PlaceRange>, span: PlaceRange)
    requires holes { AreHoles holes.old.items }
    requires some { 1 ≤ span.words }
    requires small { span.at + span.words ≤ MAX_HEAP }
    requires apart { IsDisjointFrom holes.old.items span }
    requires room { vec_len holes.old < vec_capacity holes.old }
    ensures holes { AreHoles holes.new.items }
    ensures places { (place : ℕ) → holes_at holes.new.items place ≡ holes_at holes.old.items place + one_at span place }
    ensures len { vec_len holes.new ≤ vec_len holes.old + 1 }
    ensures capacity { vec_capacity holes.old ≤ vec_capacity holes.new }
{
    let index = index_of(holes, span.at);
    let span = merge_next(holes, index, span);
    let (index, span) = merge_previous(holes, index, span);
    match holes.insert(index, span) {
        Ok(()) => {}
        Err(_) => unreachable!(),
    }
}

// How many holes start before a place.
fn index_of(holes: &[PlaceRange], at: u64) -> usize
    requires { AreHoles holes.now }
    ensures within { result ≤ length holes.now }
    ensures before { AllWithin (λ hole. hole.at < at) holes.now 0 result }
    ensures behind { AllWithin (λ hole. at ≤ hole.at) holes.now result (length holes.now) }
{
    holes.partition_point(|hole| hole.at < at)
}

// The span, merged with the next hole if they touch; that hole leaves the list.
fn merge_next(holes: &mut Vec<PlaceRange>, index: usize, span: PlaceRange) -> PlaceRange
    requires holes { AreHoles holes.old.items }
    requires stands { IsInsertedBetween holes.old.items index span }
    ensures holes { AreHoles holes.new.items }
    ensures stands { IsInsertedBetween holes.new.items index result }
    ensures clear { IsClearAfter holes.new.items index result }
    ensures places { HaveSamePlaces holes.new.items result holes.old.items span }
    ensures len { vec_len holes.new ≤ vec_len holes.old }
    ensures capacity { vec_capacity holes.new ≡ vec_capacity holes.old }
{
    if index < holes.len() && holes[index].at == span.at + span.words {
        let hole = holes.remove(index);
        return PlaceRange {
            at: span.at,
            words: span.words + hole.words,
        };
    }
    span
}

// The span, merged with the previous hole if they touch, which leaves the list; and the span's index.
fn merge_previous(
    holes: &mut Vec<PlaceRange>,
    index: usize,
    span: PlaceRange,
) -> (usize, PlaceRange)
    requires holes { AreHoles holes.old.items }
    requires stands { IsInsertedBetween holes.old.items index span }
    requires clear { IsClearAfter holes.old.items index span }
    ensures holes { AreHoles holes.new.items }
    ensures stands { IsInsertedBetween holes.new.items result.0 result.1 }
    ensures behind { IsClearAfter holes.new.items result.0 result.1 }
    ensures before { IsClearBefore holes.new.items result.0 result.1 }
    ensures places { HaveSamePlaces holes.new.items result.1 holes.old.items span }
    ensures len { vec_len holes.new ≤ vec_len holes.old }
    ensures capacity { vec_capacity holes.new ≡ vec_capacity holes.old }
{
    if index > 0 && holes[index - 1].at + holes[index - 1].words == span.at {
        let hole = holes.remove(index - 1);
        let joined = PlaceRange {
            at: hole.at,
            words: hole.words + span.words,
        };
        return (index - 1, joined);
    }
    (index, span)
}
