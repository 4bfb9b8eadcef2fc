//! Parses lines by their form.

ghost use Rattle.std.specs.Prelude.{◌≡◌, ◌∷◌, ℕ, List, [], Some, IfOk, IfSome, MatchOption};
ghost use Rattle.mrpc_table.specs.Lines.{words_of};
ghost use Rattle.policy_access.specs.Lines.{allow_of, comparison_of, value_of, condition_of, condition_of_words, test_line_of, calls_with, calls_line_of, selector_line_of, rule_line_of, default_line_of, access_line_of, is_quoted};

use crate::line::{CallsLine, ConditionLine, PolicyLine, RuleLine, SelectorLine, TestLine};
use crate::rule::Comparison;
use mrpc_table::{Bytes, CallKind, Decimal, Memory, PathWord, is_word, number_of, split_once};
use std::alloc::Global;

// The first of at least two words, and the remainder of the line.
fn next_word(line: &[u8]) -> Option<(&[u8], &[u8])>
    ensures more { IfSome result (λ p. (word : List ℕ) × (words : List (List ℕ)) × (words_of p.1.now ≡ word ∷ words)) }
    ensures words { MatchOption result
        (words_of line.now ≡ line.now ∷ [])
        (λ p. words_of line.now ≡ p.0.now ∷ words_of p.1.now) }
{
    split_once(line, b' ')
}

fn allow_of(word: &[u8]) -> Option<bool>
    ensures { result ≡ allow_of word.now }
{
    if is_word(word, b"allow") {
        Some(true)
    } else if is_word(word, b"deny") {
        Some(false)
    } else {
        None
    }
}

fn comparison_of(word: &[u8]) -> Option<Comparison>
    ensures { result ≡ comparison_of word.now }
{
    if is_word(word, b"eq") {
        Some(Comparison::Equal)
    } else if is_word(word, b"ne") {
        Some(Comparison::NotEqual)
    } else if is_word(word, b"lt") {
        Some(Comparison::Less)
    } else if is_word(word, b"gt") {
        Some(Comparison::Greater)
    } else if is_word(word, b"starts") {
        Some(Comparison::Starts)
    } else {
        None
    }
}

fn is_quoted(value: &[u8]) -> bool
    ensures { result ≡ is_quoted value.now }
{
    match value {
        [] => false,
        [first, ..] => *first == b'"',
    }
}

// One word, or a value that starts with a quote.
#[tactic(auto, using(crate::proofs::Words::value_of_line))]
fn value_of(alloc: Global, line: &[u8]) -> Result<Option<Bytes>, Memory>
    ensures { IfOk result (λ v. v ≡ value_of (words_of line.now)) }
{
    if is_quoted(line) || next_word(line).is_none() {
        Ok(Some(Bytes::from_slice(alloc, line)?))
    } else {
        Ok(None)
    }
}

// An operation and its value.
fn compares(alloc: Global, operation: &[u8], line: &[u8]) -> Result<Option<ConditionLine>, Memory>
    ensures { (word : List ℕ) (words : List (List ℕ)) → words_of line.now ≡ word ∷ words
        → IfOk result (λ c. c ≡ condition_of operation.now (word ∷ words)) }
{
    let Some(comparison) = comparison_of(operation) else {
        return Ok(None);
    };
    match value_of(alloc, line)? {
        None => Ok(None),
        Some(value) => Ok(Some(ConditionLine::Compares(comparison, value))),
    }
}

// `OP [VALUE]`
fn condition_line(alloc: Global, line: &[u8]) -> Result<Option<ConditionLine>, Memory>
    ensures { IfOk result (λ c. c ≡ condition_of_words (words_of line.now)) }
{
    match next_word(line) {
        Some((operation, value)) => compares(alloc, operation, value),
        None if is_word(line, b"present") => Ok(Some(ConditionLine::Present)),
        None => Ok(None),
    }
}

// `where PATH OP [VALUE]`
fn test_line(alloc: Global, line: &[u8]) -> Result<Option<TestLine>, Memory>
    ensures { IfOk result (λ t. t ≡ test_line_of (words_of line.now)) }
{
    let Some((first, rest)) = next_word(line) else {
        return Ok(None);
    };
    let Some((path, rest)) = next_word(rest) else {
        return Ok(None);
    };
    if !is_word(first, b"where") {
        return Ok(None);
    }
    let Some(path) = PathWord::read(alloc, path)? else {
        return Ok(None);
    };
    match condition_line(alloc, rest)? {
        None => Ok(None),
        Some(condition) => Ok(Some(TestLine { path, condition })),
    }
}

// The calls of a method, with an optional test.
#[tactic(auto, using(crate::proofs::Words::optional_test_of_line))]
fn tested_calls(
    alloc: Global,
    index: Decimal,
    sort: CallKind,
    line: &[u8],
) -> Result<Option<CallsLine>, Memory>
    ensures { IfOk result (λ c. c ≡ calls_with index sort (words_of line.now)) }
{
    match test_line(alloc, line)? {
        None => Ok(None),
        Some(test) => Ok(Some(CallsLine {
            index,
            sort,
            test: Some(test),
        })),
    }
}

fn all_calls(index: Decimal, sort: CallKind) -> CallsLine
    ensures { Some result ≡ calls_with index sort [] }
{
    CallsLine {
        index,
        sort,
        test: None,
    }
}

// `[reply] [where ..]`, after the index.
fn calls_line(alloc: Global, index: Decimal, line: &[u8]) -> Result<Option<CallsLine>, Memory>
    ensures { IfOk result (λ c. c ≡ calls_line_of index (words_of line.now)) }
{
    match next_word(line) {
        Some((first, rest)) if is_word(first, b"reply") => tested_calls(
            alloc,
            index,
            CallKind::Reply,
            rest,
        ),
        None if is_word(line, b"reply") => Ok(Some(all_calls(index, CallKind::Reply))),
        _ => tested_calls(alloc, index, CallKind::Request, line),
    }
}

// `method INDEX [reply] [where ..]`
fn selector_line(alloc: Global, line: &[u8]) -> Result<Option<SelectorLine>, Memory>
    ensures { IfOk result (λ a. a ≡ selector_line_of (words_of line.now)) }
{
    let Some((first, rest)) = next_word(line) else {
        return Ok(None);
    };
    if !is_word(first, b"method") {
        return Ok(None);
    }
    let Some((index, rest)) = next_word(rest) else {
        return Ok(match number_of(rest) {
            None => None,
            Some(index) => Some(SelectorLine::Calls(all_calls(index, CallKind::Request))),
        });
    };
    let Some(index) = number_of(index) else {
        return Ok(None);
    };
    match calls_line(alloc, index, rest)? {
        None => Ok(None),
        Some(calls) => Ok(Some(SelectorLine::Calls(calls))),
    }
}

// `NAME allow|deny ..`
fn rule_line(alloc: Global, line: &[u8]) -> Result<Option<RuleLine>, Memory>
    ensures { IfOk result (λ r. r ≡ rule_line_of (words_of line.now)) }
{
    let Some((name, rest)) = next_word(line) else {
        return Ok(None);
    };
    let Some((verb, rest)) = next_word(rest) else {
        return every_call(alloc, name, rest);
    };
    let Some(allow) = allow_of(verb) else {
        return Ok(None);
    };
    let Some(about) = selector_line(alloc, rest)? else {
        return Ok(None);
    };
    let name = Bytes::from_slice(alloc, name)?;
    Ok(Some(RuleLine { name, allow, about }))
}

// `NAME allow|deny` alone.
fn every_call(alloc: Global, name: &[u8], verb: &[u8]) -> Result<Option<RuleLine>, Memory>
    ensures { IfOk result (λ r. r ≡ rule_line_of (name.now ∷ verb.now ∷ [])) }
{
    let Some(allow) = allow_of(verb) else {
        return Ok(None);
    };
    Ok(Some(RuleLine {
        name: Bytes::from_slice(alloc, name)?,
        allow,
        about: SelectorLine::Every,
    }))
}

fn default_line(line: &[u8]) -> Option<bool>
    ensures { result ≡ default_line_of (words_of line.now) }
{
    match next_word(line) {
        Some(_) => None,
        None => allow_of(line),
    }
}

// A parsed line, or `None` if the line is malformed.
#[tactic(auto, unfolding(crate::specs::Lines::access_line_of))]
pub(crate) fn access_line_of(alloc: Global, line: &[u8]) -> Result<Option<PolicyLine>, Memory>
    ensures { IfOk result (λ l. l ≡ access_line_of line.now) }
{
    let Some((first, rest)) = next_word(line) else {
        return Ok(None);
    };
    if is_word(first, b"rule") {
        match rule_line(alloc, rest)? {
            None => Ok(None),
            Some(rule) => Ok(Some(PolicyLine::Rule(rule))),
        }
    } else if is_word(first, b"default") {
        match default_line(rest) {
            None => Ok(None),
            Some(allow) => Ok(Some(PolicyLine::Default(allow))),
        }
    } else {
        Ok(None)
    }
}
