//! The words of a line, judged in the order of [`LineReason`].

ghost use Rattle.std.specs.Prelude.{◌≡◌, ◌≤◌, length, false, MatchResult};
ghost use Rattle.mrpc_table.specs.Lines.{words_of};
ghost use Rattle.script_grammar.specs.Lines.{HaveMeanings};
ghost use Rattle.script_grammar.specs.Meanings.{meanings_of};
ghost use Rattle.scenario_lines.specs.Judging.{is_required_name_invalid, lacks_name, ordered};
ghost use Rattle.scenario_lines.specs.Lines.{IsWordsFault};
ghost use Rattle.scenario_lines.specs.Reasons.{IsFirstLineReason};

use crate::reason::LineReason;
use mrpc_table::{is_name_form, is_short};
use script_grammar::{ScriptReason, WordKind, WordValues, check_words, first_word};

// Whether a word is required to be a name, and isn't one.
fn is_required_name_invalid(sort: WordKind, word: &[u8]) -> bool
    ensures { result ≡ is_required_name_invalid sort word.now }
{
    match sort {
        WordKind::Name => !(is_name_form(word) && is_short(word)),
        _ => false,
    }
}

// Whether a line has such a word. A line with another number of words has none.
fn lacks_name(sorts: &[WordKind], line: &[u8]) -> bool
    ensures { result ≡ lacks_name false sorts.now (words_of line.now) }
{
    let mut lacks = false;
    let mut rest = Some(line);
    for sort in sorts {
        let Some(text) = rest else {
            return false;
        };
        let (word, behind) = first_word(text);
        let bad = is_required_name_invalid(*sort, word);
        lacks = lacks || bad;
        rest = behind;
    }
    lacks && rest.is_none()
}

// The reason that comes first here: a word that isn't a name counts before one of no form.
fn ordered(reason: ScriptReason, lacks_name: bool) -> LineReason
    ensures { result ≡ ordered reason lacks_name }
{
    match reason {
        ScriptReason::Number => LineReason::Number,
        _ if lacks_name => LineReason::Name,
        _ => LineReason::Word,
    }
}

// What the words of a line mean, each judged by its sort, or the first reason of their faults.
pub(crate) fn judge_words<'a>(
    sorts: &[WordKind],
    line: &'a [u8],
) -> Result<WordValues<'a>, LineReason>
    requires { length sorts.now ≤ 9 }
    ensures { MatchResult result (λ said. HaveMeanings sorts.now (words_of line.now) (meanings_of said.items))
        (IsFirstLineReason (IsWordsFault sorts.now (words_of line.now))) }
{
    match check_words(sorts, line) {
        Ok(said) => Ok(said),
        Err(reason) => Err(ordered(reason, lacks_name(sorts, line))),
    }
}
