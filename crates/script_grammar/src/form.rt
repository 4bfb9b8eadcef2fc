//! The list of line forms.

ghost use Rattle.std.specs.Prelude.{◌≡◌, ◌≤◌, length};
ghost use Rattle.mrpc_table.specs.Lines.{words_of};
ghost use Rattle.script_grammar.specs.Lines.{fits_key, has_form};
ghost use Rattle.script_grammar.specs.Forms.{word_kinds_of, form_in};

use crate::keyword::Keyword;
use crate::word_kind::WordKind::{self, Either, Fixed, Key, Name, Unbounded, Value};
use crate::words::first_word;
use mrpc_table::{MAX_HEAP, MIN_HEAP};

/// The form of a line.
#[derive(Clone, Copy)]
pub enum LineForm {
    /// `store CONN PLACE VALUE`
    Store,
    /// `submit CONN METHOD ADDR`
    Submit,
    /// `submit CONN METHOD ADDR NUMBER`
    Reply,
    /// `race CONN LOAD PLACE VALUE`
    Race,
    /// `turn CONN AT`
    Turn,
    /// `send CONN`
    Send,
    /// `drain CONN`
    Drain,
    /// `timestamp_kind CONN MS`
    Moment,
    /// `attach CONN AT NAME POLICY`
    Attach,
    /// `detach CONN NAME`
    Detach,
    /// `upgrade CONN NAME POLICY`
    Upgrade,
    /// `conn_kind CONN WORDS`
    Conn,
    /// `tenant NAME PER`
    Tenant,
    /// `policy NAME access`, followed by rules and `end`
    Access,
    /// `policy NAME rate N per P burst B hold|deny`
    Rate,
    /// `policy NAME quota TENANT cap C`
    Quota,
    /// `policy NAME count`
    Count,
    /// `policy NAME redact`, followed by clears and `end`
    Redact,
    /// `close`
    Close,
}

const FORMS: [LineForm; 19] = [
    LineForm::Store,
    LineForm::Submit,
    LineForm::Reply,
    LineForm::Race,
    LineForm::Turn,
    LineForm::Send,
    LineForm::Drain,
    LineForm::Moment,
    LineForm::Attach,
    LineForm::Detach,
    LineForm::Upgrade,
    LineForm::Conn,
    LineForm::Tenant,
    LineForm::Access,
    LineForm::Rate,
    LineForm::Quota,
    LineForm::Count,
    LineForm::Redact,
    LineForm::Close,
];

// The number of a connection.
const CONN: WordKind = WordKind::Number { least: 1, most: 16 };

// Any 64-bit number.
const NUMBER: WordKind = WordKind::Number {
    least: 0,
    most: u64::MAX,
};

const METHOD: WordKind = WordKind::Number {
    least: 0,
    most: 65535,
};

// The number of the request that a reply answers.
const REQUEST: WordKind = WordKind::Number {
    least: 1,
    most: 0xffff_ffff,
};

// A timestamp in milliseconds.
const MOMENT: WordKind = WordKind::Number {
    least: 0,
    most: 1 << 53,
};

const WORDS: WordKind = WordKind::Number {
    least: MIN_HEAP,
    most: MAX_HEAP,
};

// The length of a quota window or of a rate's period, in milliseconds.
const MILLISECONDS: WordKind = WordKind::Number {
    least: 1,
    most: 86_400_000,
};

// A number of calls.
const CALLS: WordKind = WordKind::Number {
    least: 1,
    most: 1_000_000,
};

const CAP: WordKind = WordKind::Number {
    least: 0,
    most: 0xffff_ffff,
};

impl LineForm {
    /// The sorts of its words, in order.
    pub fn word_kinds(self) -> &'static [WordKind]
        ensures sorts { result.now ≡ word_kinds_of self }
        ensures few { length result.now ≤ 9 }
    {
        match self {
            LineForm::Store => &[Key(Keyword::Store), CONN, Unbounded, Value],
            LineForm::Submit => &[Key(Keyword::Submit), CONN, METHOD, NUMBER],
            LineForm::Reply => &[Key(Keyword::Submit), CONN, METHOD, NUMBER, REQUEST],
            LineForm::Race => &[Key(Keyword::Race), CONN, NUMBER, Unbounded, Value],
            LineForm::Turn => &[Key(Keyword::Turn), CONN, Unbounded],
            LineForm::Send => &[Key(Keyword::Send), CONN],
            LineForm::Drain => &[Key(Keyword::Drain), CONN],
            LineForm::Moment => &[Key(Keyword::Moment), CONN, MOMENT],
            LineForm::Attach => &[Key(Keyword::Attach), CONN, Unbounded, Name, Name],
            LineForm::Detach => &[Key(Keyword::Detach), CONN, Name],
            LineForm::Upgrade => &[Key(Keyword::Upgrade), CONN, Name, Name],
            LineForm::Conn => &[Key(Keyword::Conn), CONN, WORDS],
            LineForm::Tenant => &[Key(Keyword::Tenant), Name, MILLISECONDS],
            LineForm::Access => &[Key(Keyword::Policy), Name, Key(Keyword::Access)],
            LineForm::Rate => &[
                Key(Keyword::Policy),
                Name,
                Key(Keyword::Rate),
                CALLS,
                Fixed(Keyword::Per),
                MILLISECONDS,
                Fixed(Keyword::Burst),
                CALLS,
                Either(Keyword::Hold, Keyword::Deny),
            ],
            LineForm::Quota => &[
                Key(Keyword::Policy),
                Name,
                Key(Keyword::Quota),
                Name,
                Fixed(Keyword::Cap),
                CAP,
            ],
            LineForm::Count => &[Key(Keyword::Policy), Name, Key(Keyword::Count)],
            LineForm::Redact => &[Key(Keyword::Policy), Name, Key(Keyword::Redact)],
            LineForm::Close => &[Key(Keyword::Close)],
        }
    }
}

// Returns false only if the sort is a key word and this isn't that word.
fn fits_key(sort: WordKind, word: &[u8]) -> bool
    ensures { result ≡ fits_key sort word.now }
{
    match sort {
        WordKind::Key(keyword) => word == keyword.spelling(),
        _ => true,
    }
}

// Returns true if the line has as many words as `sorts` and each key word matches.
fn has_form(sorts: &[WordKind], line: &[u8]) -> bool
    ensures { result ≡ has_form sorts.now (words_of line.now) }
{
    let mut rest = Some(line);
    for sort in sorts {
        let Some(text) = rest else {
            return false;
        };
        let (word, behind) = first_word(text);
        if !fits_key(*sort, word) {
            return false;
        }
        rest = behind;
    }
    rest.is_none()
}

/// Returns the form of a line, by the number of its words and by its key words; `None` if it has no form. Other words
/// aren't checked. The time is linear in the length of the line.
pub fn form_of(line: &[u8]) -> Option<LineForm>
    ensures { result ≡ form_in (words_of line.now) }
{
    FORMS
        .iter()
        .copied()
        .find(|form| has_form(form.word_kinds(), line))
}
