//! The gaps between tokens: blanks and comments.

ghost use Rattle.std.specs.Prelude.{◌≡◌, ◌≤◌, ◌<◌, ◌==◌, ◌+◌, ℕ, List, length, drop, MatchOption, IfSome};
ghost use Rattle.proto_lexer.specs.Gaps.{is_blank};
ghost use Rattle.proto_lexer.specs.Scanning.{skip_gap, between, slash, line, block};

fn is_blank(byte: u8) -> bool
    ensures { result ≡ is_blank byte }
{
    byte == b' ' || (byte >= 9 && byte <= 13)
}

// The offset of the first line feed at or after `at`, or the length of the text.
#[tactic(auto, using(crate::proofs::Walks::line_on, crate::proofs::Walks::line_stops, crate::proofs::Walks::line_ends))]
fn line_end(text: &[u8], at: usize) -> usize
    requires { at ≤ length text.now }
    ensures bound { (at ≤ result) × (result ≤ length text.now) }
    ensures gap { skip_gap line (drop at text.now) ≡ skip_gap between (drop result text.now) }
{
    let mut i = at;
    while i < text.len() && text[i] != b'\n' {
        i += 1;
    }
    i
}

// The offset just after the first `*/` at or after `at`; `None` if there is none.
#[tactic(auto, using(crate::proofs::Walks::block_lemmas))]
fn block_end(text: &[u8], at: usize) -> Option<usize>
    requires { at ≤ length text.now }
    ensures bound { IfSome result (λ end. (at ≤ end) × (end ≤ length text.now)) }
    ensures gap { MatchOption result ((start : List ℕ) → skip_gap (block start) (drop at text.now) ≡ start)
        (λ end. (start : List ℕ) → skip_gap (block start) (drop at text.now) ≡ skip_gap between (drop end text.now)) }
{
    let mut i = at;
    while i < text.len() {
        if text[i] == b'*' && i + 1 < text.len() && text[i + 1] == b'/' {
            return Some(i + 2);
        }
        i += 1;
    }
    None
}

// The offset just after the comment that starts with the slash at `at`; `None` if no complete comment starts there.
#[tactic(auto, using(crate::proofs::Walks::slash_lemmas))]
fn comment_end(text: &[u8], at: usize) -> Option<usize>
    requires { at < length text.now }
    ensures bound { IfSome result (λ end. (at < end) × (end ≤ length text.now)) }
    ensures gap { MatchOption result (skip_gap (slash (drop at text.now)) (drop (at + 1) text.now) ≡ drop at text.now)
        (λ end. skip_gap (slash (drop at text.now)) (drop (at + 1) text.now) ≡ skip_gap between (drop end text.now)) }
{
    if at + 1 >= text.len() {
        return None;
    }
    match text[at + 1] {
        b'/' => Some(line_end(text, at + 2)),
        b'*' => block_end(text, at + 2),
        _ => None,
    }
}

// The offset just after the blanks and comments at `at`.
#[tactic(auto, using(crate::proofs::Walks::between_lemmas))]
pub(crate) fn gap_end(text: &[u8], at: usize) -> usize
    requires { at ≤ length text.now }
    ensures bound { (at ≤ result) × (result ≤ length text.now) }
    ensures gap { skip_gap between (drop at text.now) ≡ drop result text.now }
{
    let mut i = at;
    while i < text.len() {
        if is_blank(text[i]) {
            i += 1;
        } else if text[i] == b'/' {
            match comment_end(text, i) {
                Some(end) => i = end,
                None => return i,
            }
        } else {
            return i;
        }
    }
    i
}
