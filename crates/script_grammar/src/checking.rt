//! Checks each word of a line against its sort.

ghost use Rattle.std.specs.Prelude.{◌≡◌, ◌≤◌, length, Some, MatchResult};
ghost use Rattle.mrpc_table.specs.Lines.{words_of};
ghost use Rattle.script_grammar.specs.Reasons.{IsFirstReason};
ghost use Rattle.script_grammar.specs.WordKinds.{HasMeaning, HasWordReason};
ghost use Rattle.script_grammar.specs.Lines.{HaveMeanings, HasReason};
ghost use Rattle.script_grammar.specs.Meanings.{meaning_of, meanings_of};
ghost use Rattle.script_grammar.specs.Remainders.{earlier};

use crate::fault::ScriptReason;
use crate::keyword::Keyword;
use crate::value::value_of;
use crate::word_kind::{WordKind, WordValue};
use crate::words::first_word;
use arrayvec::ArrayVec;
use mrpc_table::{Decimal, is_name, number_of};

/// The largest number of words that a form has.
pub const MAX_WORDS: usize = 9;

/// The values of the words of a line, in order.
pub type WordValues<'a> = ArrayVec<WordValue<'a>, MAX_WORDS>;

fn fixed_word<'a>(keyword: Keyword, word: &'a [u8]) -> Result<WordValue<'a>, ScriptReason>
    ensures { MatchResult result (λ s. HasMeaning (WordKind.Fixed keyword) word.now (meaning_of s))
        (HasWordReason (WordKind.Fixed keyword) word.now) }
{
    if keyword.is(word) {
        Ok(WordValue::Word(keyword))
    } else {
        Err(ScriptReason::Word)
    }
}

fn either_word<'a>(
    first: Keyword,
    second: Keyword,
    word: &'a [u8],
) -> Result<WordValue<'a>, ScriptReason>
    ensures { MatchResult result (λ s. HasMeaning (WordKind.Either first second) word.now (meaning_of s))
        (HasWordReason (WordKind.Either first second) word.now) }
{
    if first.is(word) {
        Ok(WordValue::Word(first))
    } else if second.is(word) {
        Ok(WordValue::Word(second))
    } else {
        Err(ScriptReason::Word)
    }
}

fn number_in_range<'a>(least: u64, most: u64, word: &'a [u8]) -> Result<WordValue<'a>, ScriptReason>
    ensures { MatchResult result (λ s. HasMeaning (WordKind.Number least most) word.now (meaning_of s))
        (HasWordReason (WordKind.Number least most) word.now) }
{
    match number_of(word) {
        None => Err(ScriptReason::Word),
        Some(Decimal::Large) => Err(ScriptReason::Number),
        Some(Decimal::Small(number)) => {
            if least <= number && number <= most {
                Ok(WordValue::Number(number))
            } else {
                Err(ScriptReason::Number)
            }
        }
    }
}

fn unbounded_word<'a>(word: &'a [u8]) -> Result<WordValue<'a>, ScriptReason>
    ensures { MatchResult result (λ s. HasMeaning WordKind.Unbounded word.now (meaning_of s))
        (HasWordReason WordKind.Unbounded word.now) }
{
    match number_of(word) {
        None => Err(ScriptReason::Word),
        Some(number) => Ok(WordValue::Unbounded(number)),
    }
}

fn stored_value<'a>(word: &'a [u8]) -> Result<WordValue<'a>, ScriptReason>
    ensures { MatchResult result (λ s. HasMeaning WordKind.Value word.now (meaning_of s)) (HasWordReason WordKind.Value word.now) }
{
    match value_of(word) {
        None => Err(ScriptReason::Word),
        Some(Decimal::Large) => Err(ScriptReason::Number),
        Some(Decimal::Small(value)) => Ok(WordValue::Number(value)),
    }
}

fn name_word<'a>(word: &'a [u8]) -> Result<WordValue<'a>, ScriptReason>
    ensures { MatchResult result (λ s. HasMeaning WordKind.Name word.now (meaning_of s)) (HasWordReason WordKind.Name word.now) }
{
    if is_name(word) {
        Ok(WordValue::Name(word))
    } else {
        Err(ScriptReason::Name)
    }
}

// Returns the value of a word of this sort, or its reason.
fn check_word<'a>(sort: WordKind, word: &'a [u8]) -> Result<WordValue<'a>, ScriptReason>
    ensures { MatchResult result (λ s. HasMeaning sort word.now (meaning_of s)) (HasWordReason sort word.now) }
{
    match sort {
        WordKind::Key(keyword) => fixed_word(keyword, word),
        WordKind::Fixed(keyword) => fixed_word(keyword, word),
        WordKind::Either(first, second) => either_word(first, second, word),
        WordKind::Number { least, most } => number_in_range(least, most, word),
        WordKind::Unbounded => unbounded_word(word),
        WordKind::Value => stored_value(word),
        WordKind::Name => name_word(word),
    }
}

// Returns the earlier of two reasons, in the order of `ScriptReason`.
fn earlier(so_far: Option<ScriptReason>, reason: ScriptReason) -> ScriptReason
    ensures { result ≡ earlier so_far reason }
{
    match so_far {
        Some(other) if other.order() <= reason.order() => other,
        _ => reason,
    }
}

/// Returns the values of a line's words, each checked against its sort, or the first reason. If the number of words
/// differs, the only reason is [`ScriptReason::Word`]. It allocates no memory. The time is linear in the length of the
/// line.
pub fn check_words<'a>(sorts: &[WordKind], line: &'a [u8]) -> Result<WordValues<'a>, ScriptReason>
    requires { length sorts.now ≤ MAX_WORDS }
    // The words have these values, or this reason is the first one.
    ensures { MatchResult result (λ said. HaveMeanings sorts.now (words_of line.now) (meanings_of said.items))
        (IsFirstReason (HasReason sorts.now (words_of line.now))) }
{
    let mut said = WordValues::new();
    let mut first = None;
    let mut rest = Some(line);
    for sort in sorts {
        let Some(text) = rest else {
            return Err(ScriptReason::Word);
        };
        let (word, behind) = first_word(text);
        match check_word(*sort, word) {
            Ok(one) => said.push(one),
            Err(reason) => first = Some(earlier(first, reason)),
        }
        rest = behind;
    }
    if rest.is_some() {
        return Err(ScriptReason::Word);
    }
    match first {
        None => Ok(said),
        Some(reason) => Err(reason),
    }
}
