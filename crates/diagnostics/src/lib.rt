//! Diagnostics for a person: a sentence, and the part of the input that is at fault.
//!
//! A [`DiagnosticText`] holds only bytes that a terminal prints, whatever it quotes. A [`SourceSpan`] is a part of a
//! text, a [`TextLine`] a line of one; a [`Diagnostic`] combines them. [`append_snippet`] appends the line and the
//! column of an offset, a sentence, the line itself, and carets under the offset (`specs/Snippets.antt`).
//!
//! The crate depends on `mrpc_table`, and its definitions on the readers of inputs. Its one contract for the layer
//! above is that of [`Diagnostic::put`]: it prints a plain sentence, or a snippet of the input with one
//! (`specs/Diagnostics.antt`).
#![tactic(auto)]

mod diagnostic;
mod diagnostic_text;
mod snippet;
mod source_line;
mod source_span;
mod text_lines;
mod word_table;

pub use diagnostic::Diagnostic;
pub use diagnostic_text::{DiagnosticText, NAMED, QuotedPhrase};
pub use snippet::{append_printable, append_snippet};
pub use source_span::SourceSpan;
pub use text_lines::TextLine;
pub use word_table::{WordText, text_for, text_or};
