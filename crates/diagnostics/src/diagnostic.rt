//! A diagnostic: the fault of an input, and its location.

ghost use Rattle.std.specs.Prelude.{◌≡◌, ◌++◌, List, ℕ, codes, OnOk};
ghost use Rattle.diagnostics.specs.Diagnostics.{IsSourceOf, IsDiagnosticBody};
ghost use Rattle.diagnostics.specs.Locations.{IsLocatedIn};

use crate::diagnostic_text::DiagnosticText;
use crate::source_span::SourceSpan;
use mrpc_table::{Bytes, Memory};

/// The fault of an input: a sentence, and the location if it is known.
#[derive(Drop)]
pub struct Diagnostic<'a> {
    pub sentence: DiagnosticText,
    pub part: Option<SourceSpan<'a>>,
}

impl<'a> Diagnostic<'a> {
    /// A sentence alone.
    pub fn alone(sentence: DiagnosticText) -> Diagnostic<'a>
        ensures { (input : List ℕ) → IsLocatedIn input result.part }
    {
        Diagnostic {
            sentence,
            part: None,
        }
    }

    /// A sentence with a part of a line.
    pub fn in_line(sentence: DiagnosticText, part: SourceSpan<'a>) -> Diagnostic<'a>
        ensures { (input : List ℕ) → IsSourceOf input part.entry.text.now → IsLocatedIn input result.part }
    {
        Diagnostic {
            sentence,
            part: Some(part),
        }
    }

    /// Appends the sentence, and if the location is known, the line below it with carets.
    pub fn put(&self, width: usize, out: &mut Bytes) -> Result<(), Memory>
        ensures { (input : List ℕ) → IsLocatedIn input self.now.part → OnOk result ((shown : List ℕ)
            × IsDiagnosticBody input width shown × (out.new ≡ out.old ++ shown)) }
    {
        match &self.part {
            None => put_line(self.sentence.as_slice(), out),
            Some(part) => part.put(self.sentence.as_slice(), width, out),
        }
    }
}

// Appends a sentence as a line.
fn put_line(sentence: &[u8], out: &mut Bytes) -> Result<(), Memory>
    ensures { OnOk result (out.new ≡ out.old ++ (sentence.now ++ codes "\n")) }
{
    out.append(sentence)?;
    out.append(b"\n")
}
