//! The tokens that are possible in place of a token at fault.

ghost use Rattle.std.specs.Prelude.{◌≡◌, ◌<◌, ◌^◌, ◌∷◌, ◌++◌, [], length, OnOk};

use diagnostics::{DiagnosticText, WordText, text_for};
use mrpc_table::{Bytes, Memory};
use proto_grammar::ProtoFault;
use proto_schema::read_proto;
use std::alloc::Global;

// The longest text before a token for which possible tokens are tried. The text is read again for each token
// that is tried.
const MAX_TRIED_TEXT: usize = 0x10_0000;

// The tokens that are tried: names, numbers, strings and punctuators, and then words. Words are tried only if
// not every name is possible.
const TOKENS: [&[u8]; 24] = [
    b"x", b"1", b"'x'", b";", b"=", b"{", b"}", b"(", b")", b"[", b"]", b"<", b">", b",",
    b"returns", b"message", b"enum", b"service", b"rpc", b"import", b"package", b"option",
    b"syntax", b"to",
];

// The tokens that represent all of their kind.
const SORTS: [WordText; 3] = [("x", "a name"), ("1", "a number"), ("'x'", "a string")];

// The index of the first word among them.
const FIRST_WORD: usize = 14;

// Appends `expected X, Y or Z, found W` about the token from one offset of a text to another. It lists the
// tokens that the reader of proto files accepts in its place.
pub(crate) fn say_expected(
    alloc: Global,
    text: &[u8],
    start: usize,
    end: usize,
    sentence: &mut DiagnosticText,
) -> Result<(), Memory> {
    let front = &text[..start.min(text.len())];
    sentence.append(b"expected ")?;
    if front.len() > MAX_TRIED_TEXT {
        sentence.append(b"another token")?;
    } else {
        let places = possible_tokens(alloc, front)?;
        say_list(places.as_slice(), sentence)?;
    }
    sentence.append(b", found ")?;
    sentence.append_quoted_span(text, start, end)
}

// The indices of the tokens that are possible after a prefix of a text.
fn possible_tokens(alloc: Global, front: &[u8]) -> Result<Vec<usize>, Memory> {
    let mut places = Vec::new(alloc);
    let any_name = is_possible(alloc, front, b"x")?;
    let tried = if any_name { FIRST_WORD } else { TOKENS.len() };
    for place in 0..tried {
        if is_possible(alloc, front, token_at(place))? {
            places.push(place)?;
        }
    }
    Ok(places)
}

fn token_at(place: usize) -> &'static [u8] {
    if place < TOKENS.len() {
        TOKENS[place]
    } else {
        b""
    }
}

// Whether a token is possible after a prefix of a text: the first fault of the two together is after the
// token.
fn is_possible(alloc: Global, front: &[u8], token: &[u8]) -> Result<bool, Memory> {
    let mut text = Bytes::from_slice(alloc, &front[..front.len().min(MAX_TRIED_TEXT)])?;
    put_token(&mut text, &token[..token.len().min(8)])?;
    is_read(alloc, text.as_slice())
}

// Appends a token between two spaces.
fn put_token(text: &mut Bytes, token: &[u8]) -> Result<(), Memory>
    ensures { OnOk result (text.new ≡ text.old ++ (32 ∷ (token.now ++ 32 ∷ []))) }
{
    text.append(b" ")?;
    text.append(token)?;
    text.append(b" ")
}

// Whether a text is read up to its last byte, which is a space.
fn is_read(alloc: Global, text: &[u8]) -> Result<bool, Memory>
    requires { length text.now < 2 ^ 62 }
{
    match read_proto(alloc, text) {
        Ok(_) => Ok(true),
        Err(ProtoFault::At { start, .. }) => Ok(start >= text.len().saturating_sub(1)),
        Err(ProtoFault::Memory) => Err(Memory),
    }
}

// Appends the names of tokens, with `or` before the last one.
fn say_list(places: &[usize], sentence: &mut DiagnosticText) -> Result<(), Memory> {
    if places.is_empty() {
        return sentence.append(b"another token");
    }
    for (i, place) in places.iter().enumerate() {
        if i > 0 {
            sentence.append(joint(i, places.len()))?;
        }
        say_token(token_at(*place), sentence)?;
    }
    Ok(())
}

// What separates this item of a list from the one before; empty for the first.
fn joint(place: usize, count: usize) -> &'static [u8] {
    if place.saturating_add(1) < count {
        b", "
    } else {
        b" or "
    }
}

fn say_token(token: &[u8], sentence: &mut DiagnosticText) -> Result<(), Memory> {
    match text_for(&SORTS, token) {
        Some(words) => sentence.append(words.as_bytes()),
        None => sentence.append_quotation(token),
    }
}
