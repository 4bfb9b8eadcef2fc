//! The next token of a text.

ghost use Rattle.std.specs.Prelude.{◌≡◌, ◌≤◌, ◌<◌, ◌==◌, ◌+◌, length, count_by, false};
ghost use Rattle.proto_lexer.specs.Tokens.{IsNextToken, line_of_offset, is_last};

use crate::gap::gap_end;
use crate::scan::leading_token;
use crate::token::{Token, TokenKind};

fn line_feeds(bytes: &[u8]) -> usize
    ensures { result ≡ count_by (λ c. c == 10) bytes.now }
{
    bytes.iter().filter(|byte| **byte == b'\n').count()
}

/// Returns the first token at or after `place`, given the line of that offset. A token doesn't contain a line feed,
/// so a caller passes `end` and `line` of one token to ask for the next. No token follows `End` or `Bad`. Takes time
/// proportional to the bytes from `place` to the token's end.
pub fn next_token(text: &[u8], place: usize, line: u64) -> Token
    requires within { place ≤ length text.now }
    requires line { line ≡ line_of_offset text.now place }
    ensures next { IsNextToken text.now place result }
    ensures goes_on { is_last result.kind ≡ false → place < result.end }
    ensures same_line { is_last result.kind ≡ false → line_of_offset text.now result.end ≡ result.line }
{
    let start = gap_end(text, place);
    let line = line + line_feeds(&text[place..start]) as u64;
    let rest = &text[start..];
    if rest.is_empty() {
        return Token {
            kind: TokenKind::End,
            start,
            end: start,
            line,
        };
    }
    match leading_token(rest) {
        None => Token {
            kind: TokenKind::Bad,
            start,
            end: start + 1,
            line,
        },
        Some(word) => Token {
            kind: word.kind,
            start,
            end: start + word.len,
            line,
        },
    }
}
