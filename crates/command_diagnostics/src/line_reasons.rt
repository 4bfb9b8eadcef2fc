//! The fault of a line, by the word of the reason.

use crate::limits::LIMITS;
use diagnostics::{WordText, text_for};
use mrpc_table::is_word;

// The sentence for a reason about a line whose words have the right form.
const SENTENCES: [WordText; 18] = [
    (
        "Number",
        "a number is out of its range: of a field 1 to 536870911 without 19000 to 19999, of a value 32 bits, \
         of a method the next index from 0; an enum has a value 0",
    ),
    ("Duplicate", "a name or a number of a field stands twice"),
    (
        "UnknownType",
        "no \"message\" or \"enum\" line of the table has this type's name",
    ),
    (
        "MapKey",
        "the key of a map is an integer kind, \"bool\" or \"string\"",
    ),
    ("Limit", LIMITS),
    (
        "Name",
        "a name is a letter or \"_\", then letters, digits and \"_\", 64 bytes at the most; a rule isn't \"default\"",
    ),
    ("Known", "a line before this one declares this already"),
    ("Unknown", "no line before this one declares this"),
    (
        "Path",
        "the table has no such method or field, or the comparison doesn't go with the field's kind",
    ),
    (
        "Default",
        "one line \"default allow\" or \"default deny\" ends the rules of a policy",
    ),
    (
        "Place",
        "a place is 1 or more and below the words of the connection's heap, and K is 1 or more",
    ),
    (
        "NoSuch",
        "no engine of this name is on the connection's chain",
    ),
    (
        "Taken",
        "an engine of this name is on the connection's chain already",
    ),
    ("At", "the connection's chain has no such position"),
    ("ChainFull", "the connection's chain has 8 engines already"),
    (
        "OtherKind",
        "the policy is of another kind than the one that the engine has",
    ),
    (
        "Work",
        "too much could be loaded: submissions times the limit of loads pass 16777216",
    ),
    (
        "After",
        "nothing but comments stands behind the line \"close\"",
    ),
];

// The numbers that are allowed in a line outside a table, by the line's first word.
const NUMBERS: [WordText; 4] = [
    ("loads", "the limit of loads is 1 to 16384"),
    ("tenant", "there are 16 tenants at the most"),
    (
        "rule",
        "INDEX is 0 to 65535, and VALUE a value of its field's kind",
    ),
    ("clear", "INDEX is 0 to 65535"),
];

// The sentence for a reason about a line that starts with this word, and whose words have the right form.
pub(crate) fn reason_sentence(reason: &[u8], word: &[u8]) -> &'static str {
    number_sentence(reason, word)
        .or(text_for(&SENTENCES, reason))
        .unwrap_or("the line is at fault")
}

// The numbers that are allowed in a line outside a table.
fn number_sentence(reason: &[u8], word: &[u8]) -> Option<&'static str> {
    if !is_word(reason, b"Number") {
        return None;
    }
    text_for(&NUMBERS, word)
}
