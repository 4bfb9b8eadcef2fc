//! Texts for reasons that fit any entry.

use crate::words_for;
use diagnostics::WordText;
use scenario::ScenarioReason;

const WORDS: [WordText; 17] = [
    ("Toml", " is no TOML"),
    (
        "Key",
        ": a key is none of its keys, is missing, or has a value of another type",
    ),
    ("Number", ": a number is out of its range"),
    (
        "Name",
        ": a name is a letter or \"_\", then letters, digits and \"_\", 64 bytes at the most",
    ),
    ("Known", ": what it declares stands before"),
    ("Unknown", ": it names what isn't declared"),
    ("Schema", ": its schema is no proto file without imports"),
    (
        "Path",
        ": the schema has no such method or field, or the comparison doesn't go with the field's kind",
    ),
    (
        "Default",
        ": one line \"default allow\" or \"default deny\" ends the rules of a policy",
    ),
    ("Word", ": a line is of no form"),
    ("Place", ": a place isn't one of the application's heap"),
    ("NoSuch", ": no entry of the chain has the name"),
    ("Taken", ": an entry of the chain has the name already"),
    ("At", ": the chain has no such position"),
    ("ChainFull", ": a chain has 8 entries at the most"),
    ("OtherKind", ": the policy is of another kind"),
    (
        "Pair",
        ": each connection is at one end of one link, with a client at one end of it",
    ),
];

const WORK: &str =
    ": too much could be loaded: the calls of the clients up to here, each counted twice for its reply, times loads pass \
     16777216";

// The text for a reason if the part of the entry at fault isn't known.
pub(crate) fn general_words(reason: ScenarioReason) -> &'static str {
    words_for(&WORDS, reason, WORK)
}
