//! The word of a line that is at fault.

use crate::line_reasons::reason_sentence;
use crate::lines::Format;
use diagnostics::{DiagnosticText, TextLine};
use mrpc_table::{Memory, is_word, split_once};
use script_grammar::{LineForm, WordKind, check_words, form_of};

// A word at fault in a line of a known form, and its fault.
#[derive(Clone, Copy)]
pub(crate) struct WordAtFault {
    // Its index among the words of the line, from 0.
    pub place: usize,
    why: WordFault,
}

#[derive(Clone, Copy)]
enum WordFault {
    // It isn't of the kind of words that its position takes.
    NotOf(WordKind),
    // The text for the reason of the fault.
    Reason(&'static str),
}

impl WordAtFault {
    // Appends the fault of the word.
    pub(crate) fn append(
        &self,
        line: &TextLine<'_>,
        sentence: &mut DiagnosticText,
    ) -> Result<(), Memory> {
        let word = self.word(line);
        match self.why {
            WordFault::NotOf(sort) => {
                sentence.append(b"expected ")?;
                say_sort(sort, sentence)?;
                sentence.append_quoted(b", found ", word)
            }
            WordFault::Reason(words) => {
                sentence.append_quotation(word)?;
                sentence.append(b": ")?;
                sentence.append(words.as_bytes())
            }
        }
    }

    fn word<'a>(&self, line: &TextLine<'a>) -> &'a [u8] {
        let part = line.word(self.place);
        if part.start <= part.end && part.end <= part.text.len() {
            &part.text[part.start..part.end]
        } else {
            &[]
        }
    }
}

// The word at fault in a line, if it is a line of a script of a known form and the reason is about a word.
pub(crate) fn word_at_fault(
    line: &TextLine<'_>,
    reason: &[u8],
    format: Format,
) -> Option<WordAtFault> {
    if let Format::Decode = format {
        return None;
    }
    let form = form_of(line.bytes)?;
    if let Some(found) = first_invalid_word(form.word_kinds(), line.bytes, reason) {
        return Some(found);
    }
    let place = fault_index(form, line, reason)?;
    Some(WordAtFault {
        place,
        why: WordFault::Reason(reason_sentence(reason, nth(line.bytes, 0))),
    })
}

// The first word that isn't of its kind, with this reason.
fn first_invalid_word(sorts: &[WordKind], line: &[u8], reason: &[u8]) -> Option<WordAtFault> {
    let mut rest = line;
    for (place, sort) in sorts.iter().enumerate() {
        let (word, behind) = match split_once(rest, b' ') {
            Some(parts) => parts,
            None => (rest, &rest[rest.len()..]),
        };
        if is_invalid_word(*sort, word, reason) {
            return Some(WordAtFault {
                place,
                why: WordFault::NotOf(*sort),
            });
        }
        rest = behind;
    }
    None
}

// Whether a word isn't of its kind, with this reason.
fn is_invalid_word(sort: WordKind, word: &[u8], reason: &[u8]) -> bool {
    match check_words(&[sort], word) {
        Ok(_) => false,
        Err(why) => is_word(reason, why.word().as_bytes()),
    }
}

// The index of the word that a reason is about, in a line whose words are of their kinds.
fn fault_index(form: LineForm, line: &TextLine<'_>, reason: &[u8]) -> Option<usize> {
    if is_word(reason, b"Unknown") {
        Some(unknown_place(form, line))
    } else if is_word(reason, b"Place") {
        Some(place_place(form, line))
    } else if is_word(reason, b"NoSuch") || is_word(reason, b"Taken") {
        Some(name_place(form))
    } else {
        fixed_place(reason)
    }
}

// The index of the word that a reason is about in any line.
fn fixed_place(reason: &[u8]) -> Option<usize> {
    if is_word(reason, b"Known") {
        Some(1)
    } else if is_word(reason, b"At") {
        Some(2)
    } else if is_word(reason, b"OtherKind") {
        Some(3)
    } else {
        None
    }
}

// The name of an engine.
fn name_place(form: LineForm) -> usize {
    match form {
        LineForm::Attach => 3,
        _ => 2,
    }
}

// The place in the heap, or the load of a race, if that is 0.
fn place_place(form: LineForm, line: &TextLine<'_>) -> usize {
    match form {
        LineForm::Race if !is_word(nth(line.bytes, 2), b"0") => 3,
        _ => 2,
    }
}

// The connection, if no earlier line opens it, or else the last name.
fn unknown_place(form: LineForm, line: &TextLine<'_>) -> usize {
    match form {
        LineForm::Quota => 3,
        LineForm::Attach if is_open(line) => 4,
        LineForm::Upgrade if is_open(line) => 3,
        _ => 1,
    }
}

// Whether an earlier line opens the connection that this one names.
fn is_open(line: &TextLine<'_>) -> bool {
    let conn = nth(line.bytes, 1);
    let mut rest = &line.text[..line.start.min(line.text.len())];
    for _ in 0..line.text.len() {
        let Some((before, behind)) = split_once(rest, b'\n') else {
            return false;
        };
        if is_word(nth(before, 0), b"conn") && is_word(nth(before, 1), conn) {
            return true;
        }
        rest = behind;
    }
    false
}

// The word of a line with this index, from 0; empty if the line has fewer.
fn nth(line: &[u8], place: usize) -> &[u8] {
    let mut rest = line;
    for _ in 0..place {
        match split_once(rest, b' ') {
            Some((_, behind)) => rest = behind,
            None => return &[],
        }
    }
    match split_once(rest, b' ') {
        Some((word, _)) => word,
        None => rest,
    }
}

// Appends what words of a kind look like.
fn say_sort(sort: WordKind, sentence: &mut DiagnosticText) -> Result<(), Memory> {
    match sort {
        WordKind::Key(word) | WordKind::Fixed(word) => sentence.append_quotation(word.spelling()),
        WordKind::Either(one, other) => {
            sentence.append_quotation(one.spelling())?;
            sentence.append_quoted(b" or ", other.spelling())
        }
        WordKind::Number { least, most } => {
            sentence.append_numbered(b"a number from ", least)?;
            sentence.append_numbered(b" to ", most)
        }
        WordKind::Unbounded => sentence.append(b"a number of decimal digits"),
        WordKind::Value => sentence.append(
            b"64 bits as decimal digits, behind \"-\" down to -2^63, or 1 to 16 digits 0-9 a-f behind \"0x\"",
        ),
        WordKind::Name => sentence.append(
            b"a name of 1 to 64 letters, digits and \"_\", the first no digit",
        ),
    }
}
