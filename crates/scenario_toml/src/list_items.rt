//! The span of a text in a list.

ghost use Rattle.std.specs.Prelude.{IfSome};
ghost use Rattle.scenario_toml.specs.Spans.{IsSpanOf};

use crate::span::TextSpan;

// The state of a scan of a list.
#[derive(Clone, Copy)]
enum Scan {
    // Before the list.
    Before,
    // Between two of its texts.
    Between,
    Comment,
    // In a basic text that starts at this offset.
    Basic(usize),
    // After the backslash of such a text.
    Escaped(usize),
    // In a literal text, in single quotation marks, that starts at this offset.
    Literal(usize),
}

// The span of the text with a number, from 1, in the list that starts after an offset; `None` if the list has
// fewer texts. A text that is spelled over several lines counts as several.
pub(crate) fn item_of(text: &[u8], from: usize, number: u64) -> Option<TextSpan>
    ensures { IfSome result (IsSpanOf text.now) }
{
    let mut scan = Scan::Before;
    let mut left = number;
    for at in from..text.len() {
        let byte = text[at];
        if let Some(start) = ends(scan, byte) {
            if left <= 1 {
                return Some(TextSpan {
                    start: start.min(at),
                    end: at + 1,
                });
            }
            left -= 1;
            scan = Scan::Between;
        } else {
            scan = next(scan, byte, at)?;
        }
    }
    None
}

// The offset at which the text starts that this byte ends, if it ends one.
fn ends(scan: Scan, byte: u8) -> Option<usize> {
    match scan {
        Scan::Basic(start) if byte == b'"' => Some(start),
        Scan::Literal(start) if byte == b'\'' => Some(start),
        _ => None,
    }
}

// The state after a byte that ends no text; `None` if the list ends.
fn next(scan: Scan, byte: u8, at: usize) -> Option<Scan> {
    match scan {
        Scan::Before => Some(if byte == b'[' {
            Scan::Between
        } else {
            Scan::Before
        }),
        Scan::Between => between(byte, at),
        Scan::Comment => Some(if byte == b'\n' {
            Scan::Between
        } else {
            Scan::Comment
        }),
        Scan::Basic(start) if byte == b'\\' => Some(Scan::Escaped(start)),
        Scan::Escaped(start) => Some(Scan::Basic(start)),
        Scan::Basic(_) | Scan::Literal(_) => Some(scan),
    }
}

// The state after a byte between two texts.
fn between(byte: u8, at: usize) -> Option<Scan> {
    match byte {
        b'"' => Some(Scan::Basic(at)),
        b'\'' => Some(Scan::Literal(at)),
        b'#' => Some(Scan::Comment),
        b']' => None,
        _ => Some(Scan::Between),
    }
}
