//! The value of a word, by its index in the line. Which words have which values follows from the form.

ghost use Rattle.std.specs.Prelude.{◌≡◌};
ghost use Rattle.script_grammar.specs.WordKinds.{number_at, name_at, unbounded_at, keyword_at};
ghost use Rattle.script_grammar.specs.Meanings.{meanings_of};

use crate::keyword::Keyword;
use crate::word_kind::WordValue;
use mrpc_table::Decimal;

/// Returns the number at an index, counted from 0; 0 if the word there isn't a number.
pub fn number_at(words: &[WordValue<'_>], place: usize) -> u64
    ensures { result ≡ number_at (meanings_of words.now) place }
{
    match words.get(place) {
        Some(WordValue::Number(number)) => *number,
        _ => 0,
    }
}

/// Returns the unbounded number at an index, counted from 0; 0 if the word there isn't one.
pub fn unbounded_at(words: &[WordValue<'_>], place: usize) -> Decimal
    ensures { result ≡ unbounded_at (meanings_of words.now) place }
{
    match words.get(place) {
        Some(WordValue::Unbounded(number)) => *number,
        _ => Decimal::Small(0),
    }
}

/// Returns the name at an index, counted from 0; empty if the word there isn't a name.
pub fn name_at<'a>(words: &[WordValue<'a>], place: usize) -> &'a [u8]
    ensures { result.now ≡ name_at (meanings_of words.now) place }
{
    match words.get(place) {
        Some(WordValue::Name(name)) => name,
        _ => b"",
    }
}

/// Returns the fixed word at an index, counted from 0; `None` if another kind of word is there.
pub fn keyword_at(words: &[WordValue<'_>], place: usize) -> Option<Keyword>
    ensures { result ≡ keyword_at (meanings_of words.now) place }
{
    match words.get(place) {
        Some(WordValue::Word(keyword)) => Some(*keyword),
        _ => None,
    }
}
