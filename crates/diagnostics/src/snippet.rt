//! A line with carets under a part of it.

ghost use Rattle.std.specs.Prelude.{◌≡◌, ◌↔◌, ◌<◌, ◌≤◌, ◌^◌, ◌++◌, ◌+◌, ◌-◌, ◌/◌, List, ℕ, true, length, max, min, OnOk};
ghost use Rattle.std.specs.List.{flat_map};
ghost use Rattle.std.specs.Str.{IsUtf8};
ghost use Rattle.diagnostics.specs.Snippets.{is_verbatim, printable, carets_under, bytes_between, snippet_header, underline, IsSnippet};

use crate::source_line::SourceLine;
use mrpc_table::{Bytes, Memory};

/// Appends `LINE:COLUMN: SENTENCE`, then at most `width` bytes of the line, then a caret under each quoted
/// column from one offset up to another: at least one caret.
pub fn append_snippet(
    text: &[u8],
    at: usize,
    end: usize,
    sentence: &[u8],
    width: usize,
    out: &mut Bytes,
) -> Result<(), Memory>
    requires within { at ≤ length text.now }
    requires countable { length text.now < 2 ^ 63 }
    ensures pointed { OnOk result ((shown : List ℕ) × IsSnippet text.now at end width sentence.now shown
        × (out.new ≡ out.old ++ shown)) }
{
    let line = SourceLine::of(text, at);
    let window = Window::of(line.start, line.end, at, end, width);
    let is_utf8 = is_utf8(&text[window.from..window.to]);
    append_header(line.number, at - line.start + 1, sentence, out)?;
    append_window(text, at, &window, is_utf8, out)
}

// The part of a line that is quoted.
#[derive(Clone, Copy)]
struct Window {
    // The offset of its first byte.
    from: usize,
    // The offset at which the carets end.
    stop: usize,
    // The offset after its last byte.
    to: usize,
}

impl Window {
    // The quoted part of a line: at most `width` bytes, at most half of them before the offset, with carets
    // up to `end`.
    fn of(line_start: usize, line_end: usize, at: usize, end: usize, width: usize) -> Window
        requires around { (line_start ≤ at) × (at ≤ line_end) }
        ensures from { result.from ≡ max line_start (at - width / 2) }
        ensures to { result.to ≡ min line_end (result.from + width) }
        ensures stop { result.stop ≡ max at (min end result.to) }
        ensures order { (result.from ≤ at) × (at ≤ result.stop) × (result.stop ≤ result.to) × (result.to ≤ line_end) }
    {
        let front = (at - line_start).min(width / 2);
        let to = at + (line_end - at).min(width - front);
        Window {
            from: at - front,
            stop: at.max(end.min(to)),
            to,
        }
    }
}

// Appends the line, the column and the sentence.
fn append_header(line: usize, column: usize, sentence: &[u8], out: &mut Bytes) -> Result<(), Memory>
    ensures { OnOk result (out.new ≡ out.old ++ snippet_header line column sentence.now) }
{
    out.append_decimal(line as u64)?;
    out.append(b":")?;
    out.append_decimal(column as u64)?;
    out.append(b": ")?;
    out.append(sentence)?;
    out.append(b"\n")
}

// Appends the quoted part, and the carets below it.
fn append_window(
    text: &[u8],
    at: usize,
    window: &Window,
    is_utf8: bool,
    out: &mut Bytes,
) -> Result<(), Memory>
    requires order { (window.now.from ≤ at) × (at ≤ window.now.stop) × (window.now.stop ≤ window.now.to) }
    requires within { window.now.to ≤ length text.now }
    ensures { OnOk result (out.new ≡ out.old ++ underline text.now is_utf8 window.now.from at window.now.stop
        window.now.to) }
{
    append_printable(&text[window.from..window.to], is_utf8, out)?;
    out.append(b"\n")?;
    append_carets_under(b' ', &text[window.from..at], is_utf8, out)?;
    out.append(b"^")?;
    append_carets_under(b'^', after_first(text, at, window.stop), is_utf8, out)?;
    out.append(b"\n")
}

fn is_utf8(bytes: &[u8]) -> bool
    ensures { result ≡ true ↔ IsUtf8 bytes.now }
{
    str::from_utf8(bytes).is_ok()
}

// The bytes from one offset up to another, without the first.
fn after_first(text: &[u8], at: usize, stop: usize) -> &[u8]
    requires forward { at ≤ stop }
    requires within { stop ≤ length text.now }
    ensures { result.now ≡ bytes_between text.now (at + 1) stop }
{
    if at < stop { &text[at + 1..stop] } else { &[] }
}

// Whether a snippet prints a byte as it is.
fn is_verbatim(byte: u8, is_utf8: bool) -> bool
    ensures { result ≡ is_verbatim is_utf8 byte }
{
    (byte >= 32 && byte < 127) || (is_utf8 && byte >= 128)
}

/// Appends bytes in printable form.
pub fn append_printable(bytes: &[u8], is_utf8: bool, out: &mut Bytes) -> Result<(), Memory>
    ensures { OnOk result (out.new ≡ out.old ++ flat_map (printable is_utf8) bytes.now) }
{
    for byte in bytes {
        put_byte(*byte, is_utf8, out)?;
    }
    Ok(())
}

fn put_byte(byte: u8, is_utf8: bool, out: &mut Bytes) -> Result<(), Memory>
    ensures { OnOk result (out.new ≡ out.old ++ printable is_utf8 byte) }
{
    if is_verbatim(byte, is_utf8) {
        return out.push(byte);
    }
    if byte == b'\t' {
        return out.push(b' ');
    }
    out.append(b"\\x")?;
    out.append_hex(&[byte])
}

// Appends the mark for each column that the bytes take.
fn append_carets_under(mark: u8, bytes: &[u8], is_utf8: bool, out: &mut Bytes) -> Result<(), Memory>
    ensures { OnOk result (out.new ≡ out.old ++ flat_map (carets_under mark is_utf8) bytes.now) }
{
    for byte in bytes {
        append_carets(mark, *byte, is_utf8, out)?;
    }
    Ok(())
}

// Appends the mark for each column that a byte takes.
fn append_carets(mark: u8, byte: u8, is_utf8: bool, out: &mut Bytes) -> Result<(), Memory>
    ensures { OnOk result (out.new ≡ out.old ++ carets_under mark is_utf8 byte) }
{
    if is_utf8 && byte >= 128 && byte < 192 {
        return Ok(());
    }
    if is_verbatim(byte, is_utf8) || byte == b'\t' {
        return out.push(mark);
    }
    out.append(&[mark, mark, mark, mark])
}
