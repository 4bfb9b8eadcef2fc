//! The forms of lines, by their first words.

use crate::lines::Format;
use diagnostics::{WordText, text_for};

// The lines of a table, and the lines around it.
const TABLE: [WordText; 7] = [
    ("table", "table"),
    ("enum", "enum FULLNAME"),
    ("value", "value NUMBER NAME"),
    ("message", "message FULLNAME"),
    ("field", "field NUMBER LABEL KIND NAME"),
    ("method", "method INDEX SERVICE NAME INPUT OUTPUT"),
    ("end", "end"),
];

// The declaring lines of scripts and audits.
const FRONT: [WordText; 6] = [
    ("loads", "loads N"),
    ("tenant", "tenant NAME PER"),
    ("policy", "policy NAME access|redact|rate|quota|count .."),
    (
        "rule",
        "rule NAME allow|deny [method INDEX [reply] [where PATH OP [VALUE]]]",
    ),
    ("default", "default allow|deny"),
    ("clear", "clear method INDEX [reply] PATH"),
];

// The acting lines of scripts.
const SCRIPT: [WordText; 12] = [
    ("conn", "conn CONN WORDS"),
    ("store", "store CONN PLACE VALUE"),
    ("race", "race CONN K PLACE VALUE"),
    ("submit", "submit CONN METHOD ADDR [NUMBER]"),
    ("attach", "attach CONN AT NAME POLICY"),
    ("detach", "detach CONN NAME"),
    ("upgrade", "upgrade CONN NAME POLICY"),
    ("moment", "moment CONN MS"),
    ("turn", "turn CONN AT"),
    ("send", "send CONN"),
    ("drain", "drain CONN"),
    ("close", "close"),
];

// The lines of an audit.
const AUDIT: [WordText; 12] = [
    ("audit", "audit"),
    (
        "took",
        "took CONN SEQ METHOD NUMBER ADDR AFTER COUNT copy HEX|malformed REASON PLACE VALUE",
    ),
    ("away", "away CONN METHOD NUMBER ADDR"),
    (
        "op",
        "op CONN attach AT NAME POLICY|detach NAME|upgrade NAME POLICY",
    ),
    ("moment", "moment CONN MS"),
    ("charged", "charged CONN SEQ NAME LEVEL"),
    ("drawn", "drawn CONN SEQ NAME WINDOW TICKET"),
    ("counted", "counted CONN SEQ NAME"),
    ("redacted", "redacted CONN SEQ NAME VERSION"),
    ("sent", "sent CONN SEQ BYTES"),
    (
        "refused",
        "refused CONN SEQ malformed|access ..|rate ..|quota ..|transport",
    ),
    ("stands", "stands CONN SEQ POSITION NAME [held LEVEL COST]"),
];

// The form of a format's lines that start with a word; `None` if no line does.
pub(crate) fn line_form(word: &[u8], format: Format) -> Option<&'static str> {
    match text_for(&TABLE, word) {
        Some(form) => Some(form),
        None => match format {
            Format::Decode => None,
            Format::Replay => text_for(&FRONT, word).or(text_for(&SCRIPT, word)),
            Format::Audit => text_for(&FRONT, word).or(text_for(&AUDIT, word)),
        },
    }
}
