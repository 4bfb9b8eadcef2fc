//! The number of calls in a run's report.

use memchr::memrchr;
use mrpc_table::{Decimal, is_word, number_of, split_once};

// The number of accepted calls, if the last line of a text has the counts of a run or of a drill.
pub(crate) fn accepted_calls(text: &[u8]) -> Option<u64> {
    let (name, words) = split_once(last_line(text), b' ')?;
    let counts = if is_word(name, b"totals") {
        words
    } else if is_word(name, b"drill") {
        after_word(after_word(words)?)?
    } else {
        return None;
    };
    match number_of(first_word(counts)) {
        Some(Decimal::Small(calls)) => Some(calls),
        _ => None,
    }
}

fn after_word(words: &[u8]) -> Option<&[u8]> {
    let (_, behind) = split_once(words, b' ')?;
    Some(behind)
}

fn first_word(words: &[u8]) -> &[u8] {
    match split_once(words, b' ') {
        Some((word, _)) => word,
        None => words,
    }
}

// The last line of a text, without its line feed.
fn last_line(text: &[u8]) -> &[u8] {
    let Some(lines) = text.strip_suffix(b"\n") else {
        return b"";
    };
    match memrchr(b'\n', lines) {
        Some(before) => &lines[before + 1..],
        None => lines,
    }
}
