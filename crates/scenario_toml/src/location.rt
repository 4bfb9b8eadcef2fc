//! Looks for the span of a key, an entry or a text. Each candidate is checked: the text up to there must have
//! as many entries or texts.

ghost use Rattle.std.specs.Prelude.{IfOk, IfSome};
ghost use Rattle.scenario_toml.specs.Spans.{IsSpanOf};

use crate::candidates::{has_entries, has_texts};
use crate::list_items::item_of;
use crate::span::{TextSpan, line_from};
use mrpc_table::{Bytes, Memory};
use std::alloc::Global;

/// What to look for in a text.
#[derive(Clone, Copy)]
pub struct TomlPath<'a> {
    /// The key of a list of tables; empty for the whole text.
    pub list: &'a str,
    /// The number of an entry of the list, from 1; 0 for the whole text.
    pub number: u64,
    /// A key of the entry; empty for the entry itself.
    pub key: &'a str,
    /// The number of a text in the list at the key, from 1; 0 for the key's whole line.
    pub item: u64,
}

/// Returns the first of these that is found: the text of the list, the line of the key, the line `[[LIST]]`
/// of the entry, the line of the list. `None` if none is found. Takes time linear in the text.
pub fn locate(alloc: Global, text: &[u8], sought: TomlPath<'_>) -> Result<Option<TextSpan>, Memory>
    ensures { IfOk result (λ place. IfSome place (IsSpanOf text.now)) }
{
    if sought.number == 0 {
        return key_span(alloc, text, 0, sought);
    }
    let Some(head) = header_span(alloc, text, sought)? else {
        let list = TomlPath {
            list: "",
            number: 0,
            key: sought.list,
            item: 0,
        };
        return key_span(alloc, text, 0, list);
    };
    let Some(key) = key_span(alloc, text, head.end, sought)? else {
        return Ok(Some(head));
    };
    match item_span(alloc, text, key.start, sought)? {
        Some(item) => Ok(Some(item)),
        None => Ok(Some(key)),
    }
}

// The span of a text of the list that is assigned at an offset.
fn item_span(
    alloc: Global,
    text: &[u8],
    from: usize,
    sought: TomlPath<'_>,
) -> Result<Option<TextSpan>, Memory>
    ensures { IfOk result (λ place. IfSome place (IsSpanOf text.now)) }
{
    if sought.item == 0 {
        return Ok(None);
    }
    let Some(place) = item_of(text, from, sought.item) else {
        return Ok(None);
    };
    let mut front = Bytes::from_slice(alloc, prefix_to(text, place.end))?;
    front.append(b"]")?;
    let is_item = has_texts(alloc, front.as_slice(), sought)?;
    Ok(if is_item { Some(place) } else { None })
}

// The span of the line `[[LIST]]` of an entry.
fn header_span(alloc: Global, text: &[u8], sought: TomlPath<'_>) -> Result<Option<TextSpan>, Memory>
    ensures { IfOk result (λ place. IfSome place (IsSpanOf text.now)) }
{
    let mut head = Bytes::from_slice(alloc, b"[[")?;
    head.append(sought.list.as_bytes())?;
    head.append(b"]]")?;
    let Some(place) = nth_header(text, head.as_slice(), sought.number) else {
        return Ok(None);
    };
    let before = sought.number.saturating_sub(1);
    let is_behind = has_entries(alloc, prefix_to(text, place.start), sought, before)?;
    let is_head = is_behind
        && has_entries(alloc, prefix_to(text, place.end), sought, sought.number)?;
    Ok(if is_head { Some(place) } else { None })
}

// The line with this number among the lines that start with `head`, after blanks.
fn nth_header(text: &[u8], head: &[u8], number: u64) -> Option<TextSpan>
    ensures { IfSome result (IsSpanOf text.now) }
{
    let mut left = number;
    let mut begins = true;
    for start in 0..text.len() {
        if begins && text[start..].starts_with(head) {
            if left <= 1 {
                return Some(line_from(text, start));
            }
            left -= 1;
        }
        begins = stays_leading(begins, text[start]);
    }
    None
}

// The span of the key's line after an offset and before the next table, if the key is one of the entry's.
fn key_span(
    alloc: Global,
    text: &[u8],
    from: usize,
    sought: TomlPath<'_>,
) -> Result<Option<TextSpan>, Memory>
    ensures { IfOk result (λ place. IfSome place (IsSpanOf text.now)) }
{
    if sought.key.is_empty() {
        return Ok(None);
    }
    let Some(place) = first_assignment(text, from, sought.key.as_bytes()) else {
        return Ok(None);
    };
    let is_key = has_entries(alloc, prefix_to(text, place.start), sought, sought.number)?;
    Ok(if is_key { Some(place) } else { None })
}

// The first line after an offset that starts with the key and `=`, and is before the next line that starts a
// table.
fn first_assignment(text: &[u8], from: usize, key: &[u8]) -> Option<TextSpan>
    ensures { IfSome result (IsSpanOf text.now) }
{
    let mut begins = from == 0;
    for start in from..text.len() {
        if begins && text[start] == b'[' {
            return None;
        }
        if begins && assigns(&text[start..], key) {
            return Some(line_from(text, start));
        }
        begins = stays_leading(begins, text[start]);
    }
    None
}

// Whether only blanks of the line precede the offset after this byte.
fn stays_leading(begins: bool, byte: u8) -> bool {
    byte == b'\n' || (begins && is_blank(byte))
}

fn is_blank(byte: u8) -> bool {
    byte == b' ' || byte == b'\t'
}

// Whether a text starts with the key and `=`.
fn assigns(text: &[u8], key: &[u8]) -> bool {
    match text.strip_prefix(key) {
        None => false,
        Some(rest) => match rest.iter().find(|byte| !is_blank(**byte)) {
            Some(byte) => *byte == b'=',
            None => false,
        },
    }
}

fn prefix_to(text: &[u8], end: usize) -> &[u8] {
    &text[..end.min(text.len())]
}
