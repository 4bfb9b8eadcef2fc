//! Parts of a text.

ghost use Rattle.std.specs.Prelude.{◌≡◌, ◌≤◌, length};
ghost use Rattle.scenario_toml.specs.Spans.{IsSpanOf};

/// A part of a text, from its first byte up to the offset after its last.
#[derive(Clone, Copy)]
pub struct TextSpan {
    pub start: usize,
    pub end: usize,
}

// The part from an offset to the end of its line.
pub(crate) fn line_from(text: &[u8], start: usize) -> TextSpan
    requires { start ≤ length text.now }
    ensures { IsSpanOf text.now result }
{
    for end in start..text.len() {
        if text[end] == b'\n' {
            return TextSpan { start, end };
        }
    }
    TextSpan {
        start,
        end: text.len(),
    }
}
