//! The values of a line's words.

use mrpc_table::Decimal;
use script_grammar::{
    Keyword, WordValues, check_words, form_of, keyword_at, name_at, number_at, unbounded_at,
};
use std::process::Abort;

fn judged<'a>(rt: &impl Abort, line: &'a [u8]) -> WordValues<'a> {
    let form = form_of(line).expect(rt, "a form");
    check_words(form.word_kinds(), line)
        .ok()
        .expect(rt, "no fault")
}

#[test]
fn words_say_something(rt: HostRuntime) {
    let words = judged(&rt, b"store 16 99999999999999999999 -9223372036854775808");
    assert!(rt; number_at(words.as_slice(), 1) == 16);
    assert!(rt; unbounded_at(words.as_slice(), 2) == Decimal::Large);
    assert!(rt; number_at(words.as_slice(), 3) == 1 << 63);
}

#[test]
fn names_and_keywords_are_their_own_values(rt: HostRuntime) {
    let words = judged(&rt, b"policy a rate 1 per 2 burst 3 deny");
    assert!(rt; name_at(words.as_slice(), 1) == b"a".as_slice());
    assert!(rt; matches!(keyword_at(words.as_slice(), 8), Some(Keyword::Deny)));
}
