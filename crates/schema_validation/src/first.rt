//! The first of the recorded violations.

ghost use Rattle.std.specs.Prelude.{◌≡◌, if◌then◌else◌, Some, None};
ghost use Rattle.schema_validation.specs.Violations.{violation_rank};
ghost use Rattle.schema_validation.specs.Recording.{comes_before, first_violation_of};

use crate::reason::ResolveReason;
use proto_ast::Span;

/// A violation of a schema rule by a name or a number, and its span.
#[derive(Clone, Copy)]
pub struct Violation {
    pub reason: ResolveReason,
    pub span: Span,
}

// The first of some violations.
#[derive(Drop)]
pub(crate) struct FirstViolation {
    pub found: Option<Violation>,
}

// The order of the reasons at one offset.
fn rank(reason: ResolveReason) -> u8
    ensures { result ≡ violation_rank reason }
{
    match reason {
        ResolveReason::UnknownName => 1,
        ResolveReason::NumberRange => 2,
        ResolveReason::DuplicateNumber => 3,
        ResolveReason::DuplicateName => 4,
        ResolveReason::Reserved => 5,
        ResolveReason::FirstEnum => 6,
        ResolveReason::MapKey => 7,
        ResolveReason::MapPlace => 8,
        ResolveReason::Limit => 9,
        ResolveReason::Import => 10,
    }
}

fn comes_before(a: Violation, b: Violation) -> bool
    ensures { result ≡ comes_before a b }
{
    a.span.start < b.span.start || (a.span.start == b.span.start && rank(a.reason) < rank(b.reason))
}

// The first of the violation found so far and another one.
fn first_violation_of(found: Option<Violation>, other: Violation) -> Violation
    ensures { result ≡ first_violation_of found other }
{
    match found {
        Some(first) => {
            if comes_before(other, first) {
                other
            } else {
                first
            }
        }
        None => other,
    }
}

impl FirstViolation {
    // No violation is recorded.
    pub(crate) fn new() -> FirstViolation
        ensures { result.found ≡ None }
    {
        FirstViolation { found: None }
    }

    // Records a violation.
    pub(crate) fn note(&mut self, reason: ResolveReason, span: Span)
        ensures { self.new.found ≡ Some (first_violation_of self.old.found (record { reason = reason; span = span })) }
    {
        self.found = Some(first_violation_of(self.found, Violation { reason, span }));
    }

    // Records a violation if `holds` is true.
    pub(crate) fn note_if(&mut self, holds: bool, reason: ResolveReason, span: Span)
        ensures { self.new.found ≡ (if holds
            then Some (first_violation_of self.old.found (record { reason = reason; span = span })) else self.old.found) }
    {
        if holds {
            self.note(reason, span);
        }
    }
}
