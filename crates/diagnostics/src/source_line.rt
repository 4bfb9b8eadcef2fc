//! The line that contains an offset of a text.

ghost use Rattle.std.specs.Prelude.{◌≡◌, ◌<◌, ◌≤◌, ◌+◌, ◌^◌, length};
ghost use Rattle.diagnostics.specs.Snippets.{line_number_at, IsLineStart, IsLineEnd, IsLineAt, IsWithinLine};

use mrpc_table::line_count;

// The line that contains an offset of a text.
#[derive(Clone, Copy)]
pub(crate) struct SourceLine {
    // Its number, from 1.
    pub number: usize,
    // The offset of its first byte.
    pub start: usize,
    // The offset of its end: of its line feed, or of the end of the text.
    pub end: usize,
}

impl SourceLine {
    // The line that contains an offset.
    pub(crate) fn of(text: &[u8], at: usize) -> SourceLine
        requires within { at ≤ length text.now }
        requires countable { length text.now < 2 ^ 63 }
        ensures number { result.number ≡ line_number_at text.now at }
        ensures line { IsLineAt text.now at result.start result.end }
        ensures within { (result.start ≤ at) × (at ≤ result.end) × (result.end ≤ length text.now) }
    {
        SourceLine {
            number: line_count(&text[..at]) + 1,
            start: line_start(text, at),
            end: line_end(text, at),
        }
    }
}

// The start of the line that contains an offset.
fn line_start(text: &[u8], at: usize) -> usize
    requires within { at ≤ length text.now }
    ensures begins { IsLineStart text.now result }
    ensures in_front { (result ≤ at) × IsWithinLine text.now result at }
{
    let mut start = at;
    while start > 0 && text[start - 1] != b'\n' {
        start -= 1;
    }
    start
}

// The end of the line that contains an offset.
fn line_end(text: &[u8], at: usize) -> usize
    requires within { at ≤ length text.now }
    ensures ends { IsLineEnd text.now result }
    ensures behind { (at ≤ result) × IsWithinLine text.now at result }
    ensures within { result ≤ length text.now }
{
    let mut end = at;
    while end < text.len() && text[end] != b'\n' {
        end += 1;
    }
    end
}
