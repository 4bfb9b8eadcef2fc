//! The faults of scenarios.

ghost use Rattle.std.specs.Prelude.{IfOk};
ghost use Rattle.diagnostics.specs.Locations.{IsLocatedIn};

use crate::commands::only;
use diagnostics::{Diagnostic, DiagnosticText, SourceSpan};
use mrpc_table::Memory;
use scenario_diagnostics::{ScenarioDiagnostic, diagnose};
use std::alloc::Global;

// The fault of a scenario.
pub(crate) fn explain_run<'a>(alloc: Global, input: &'a [u8]) -> Result<Diagnostic<'a>, Memory>
    ensures { IfOk result (λ f. IsLocatedIn input.now f.part) }
{
    match diagnose(alloc, input)? {
        Some(told) => scenario_diagnostic(alloc, input, &told),
        None => only(alloc, b"the input has a fault"),
    }
}

// The diagnostic for it, with its location.
fn scenario_diagnostic<'a>(
    alloc: Global,
    input: &'a [u8],
    told: &ScenarioDiagnostic,
) -> Result<Diagnostic<'a>, Memory>
    ensures { IfOk result (λ f. IsLocatedIn input.now f.part) }
{
    let mut sentence = DiagnosticText::new(alloc);
    sentence.append(told.front.as_slice())?;
    sentence.append(told.rest.as_slice())?;
    match told.place {
        None => Ok(Diagnostic::alone(sentence)),
        Some(place) => Ok(Diagnostic::in_line(
            sentence,
            SourceSpan::of(input, place.start, place.end),
        )),
    }
}
