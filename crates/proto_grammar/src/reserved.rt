//! Reserved numbers and names, token by token.

ghost use Rattle.std.specs.Prelude.{◌≡◌, ℕ, List};
ghost use Rattle.proto_grammar.specs.Lexemes.{lexeme};
ghost use Rattle.proto_grammar.specs.Advancing.{IsTokenOfText, IsResultOf, advance_range as range_reading};
ghost use Rattle.proto_grammar.specs.Advancing.{whole_range as reading_whole_range, of_range as reading_of_range};
ghost use Rattle.proto_grammar.specs.Advancing.{advance_ranges as ranges_reading, reserved_name, advance_reserved_part};
ghost use Rattle.proto_grammar.specs.Advancing.{advance_reserved as reserved_reading};
ghost use Rattle.proto_grammar.specs.declared.reserved.RangeState.TheVariants as states;
ghost use Rattle.proto_grammar.specs.declared.reserved.ReservedPart.TheVariants as parts;

use crate::fault::ProtoFault;
use crate::lexeme::{
    bytes_of, is_punctuator, is_word, negative_of, number_of, span_of, unexpected,
};
use proto_ast::{Number, Range, Ranges, Span, Word, Words};
use proto_lexer::{Token, TokenKind, string_value};
use std::alloc::Global;

/// How much of a `reserved` statement is read. If `signed` is set, a `-` may precede a number.
#[derive(Drop)]
pub struct ReservedState {
    pub signed: bool,
    pub part: ReservedPart,
}

/// Ranges or names, and how much of them is read.
#[derive(Drop)]
pub enum ReservedPart {
    /// `reserved` is read.
    Start,
    /// Ranges are being read.
    Ranges(Ranges, RangeState),
    /// A string is read.
    Name(Words),
    /// A comma is read after a string.
    NextName(Words),
}

/// How much of a range is read.
#[derive(Clone, Copy)]
pub enum RangeState {
    Start,
    /// `-` is read.
    Minus(Span),
    /// The first number is read.
    First(Number),
    /// `to` is read.
    To(Number),
    /// `to -` is read.
    ToMinus(Number, Span),
    /// The range is read.
    Whole(Range),
}

/// The result of reading one token of a `reserved` statement.
#[derive(Drop)]
pub enum ReservedStep {
    More(ReservedState),
    /// The token is the `;` after ranges.
    Ranges(Ranges),
    /// The token is the `;` after names.
    Names(Words),
}

// Reads a string as one more reserved name.
fn advance_name(
    alloc: Global,
    text: &[u8],
    signed: bool,
    mut names: Words,
    token: &Token,
) -> Result<ReservedStep, ProtoFault>
    requires { IsTokenOfText text.now token.now }
    ensures { IsResultOf result (reserved_name signed names (lexeme text.now token.now)) }
{
    if token.kind != TokenKind::Text {
        return Err(unexpected(token));
    }
    let name = string_value(alloc, bytes_of(text, token))?;
    names.push(Word {
        name,
        span: span_of(token),
    })?;
    let part = ReservedPart::Name(names);
    Ok(ReservedStep::More(ReservedState { signed, part }))
}

// Reads the first number of a range.
#[tactic(auto, unfolding(crate::specs::Advancing::advance_range))]
fn advance_first_number(signed: bool, token: &Token) -> Result<RangeState, ProtoFault>
    ensures { (text : List ℕ) → IsResultOf result (range_reading signed states.Start (lexeme text token.now)) }
{
    if signed && is_punctuator(token, b'-') {
        return Ok(RangeState::Minus(span_of(token)));
    }
    Ok(RangeState::First(number_of(token)?))
}

#[tactic(auto, unfolding(crate::specs::Advancing::advance_range))]
fn advance_after_minus(signed: bool, minus: Span, token: &Token) -> Result<RangeState, ProtoFault>
    ensures { (text : List ℕ) → IsResultOf result (range_reading signed (states.Minus minus) (lexeme text token.now)) }
{
    Ok(RangeState::First(negative_of(minus, token)?))
}

// Reads the last number of a range, or `max`.
#[tactic(auto, unfolding(crate::specs::Advancing::advance_range))]
fn advance_last_number(
    text: &[u8],
    signed: bool,
    first: Number,
    token: &Token,
) -> Result<RangeState, ProtoFault>
    requires { IsTokenOfText text.now token.now }
    ensures { IsResultOf result (range_reading signed (states.To first) (lexeme text.now token.now)) }
{
    if signed && is_punctuator(token, b'-') {
        return Ok(RangeState::ToMinus(first, span_of(token)));
    }
    if is_word(text, token, b"max") {
        return Ok(RangeState::Whole(Range { first, last: None }));
    }
    let last = Some(number_of(token)?);
    Ok(RangeState::Whole(Range { first, last }))
}

#[tactic(auto, unfolding(crate::specs::Advancing::advance_range))]
fn advance_last_after_minus(
    signed: bool,
    first: Number,
    minus: Span,
    token: &Token,
) -> Result<RangeState, ProtoFault>
    ensures { (text : List ℕ)
        → IsResultOf result (range_reading signed (states.ToMinus first minus) (lexeme text token.now)) }
{
    let last = Some(negative_of(minus, token)?);
    Ok(RangeState::Whole(Range { first, last }))
}

// Reads a token of a range that is neither a comma nor `;`.
#[tactic(auto, unfolding(crate::specs::Advancing::advance_range))]
fn advance_range(
    text: &[u8],
    signed: bool,
    state: RangeState,
    token: &Token,
) -> Result<RangeState, ProtoFault>
    requires { IsTokenOfText text.now token.now }
    ensures { IsResultOf result (range_reading signed state (lexeme text.now token.now)) }
{
    match state {
        RangeState::Start => advance_first_number(signed, token),
        RangeState::Minus(minus) => advance_after_minus(signed, minus, token),
        RangeState::First(first) if is_word(text, token, b"to") => Ok(RangeState::To(first)),
        RangeState::To(first) => advance_last_number(text, signed, first, token),
        RangeState::ToMinus(first, minus) => advance_last_after_minus(signed, first, minus, token),
        RangeState::First(_) | RangeState::Whole(_) => Err(unexpected(token)),
    }
}

// The range that is complete if a comma or `;` comes next.
fn whole_range(state: RangeState) -> Option<Range>
    ensures { result ≡ reading_whole_range state }
{
    match state {
        RangeState::First(first) => Some(Range {
            first,
            last: Some(first),
        }),
        RangeState::Whole(range) => Some(range),
        _ => None,
    }
}

fn of_range(
    text: &[u8],
    signed: bool,
    ranges: Ranges,
    state: RangeState,
    token: &Token,
) -> Result<ReservedStep, ProtoFault>
    requires { IsTokenOfText text.now token.now }
    ensures { IsResultOf result (reading_of_range signed ranges (range_reading signed state (lexeme text.now token.now))) }
{
    let part = ReservedPart::Ranges(ranges, advance_range(text, signed, state, token)?);
    Ok(ReservedStep::More(ReservedState { signed, part }))
}

fn advance_ranges(
    text: &[u8],
    signed: bool,
    mut ranges: Ranges,
    state: RangeState,
    token: &Token,
) -> Result<ReservedStep, ProtoFault>
    requires { IsTokenOfText text.now token.now }
    ensures { IsResultOf result (ranges_reading signed ranges state (lexeme text.now token.now)) }
{
    match whole_range(state) {
        Some(range) if is_punctuator(token, b',') => {
            ranges.push(range)?;
            let part = ReservedPart::Ranges(ranges, RangeState::Start);
            Ok(ReservedStep::More(ReservedState { signed, part }))
        }
        Some(range) if is_punctuator(token, b';') => {
            ranges.push(range)?;
            Ok(ReservedStep::Ranges(ranges))
        }
        _ => of_range(text, signed, ranges, state, token),
    }
}

// Reads the token after a name.
fn after_name(signed: bool, names: Words, token: &Token) -> Result<ReservedStep, ProtoFault>
    ensures { (text : List ℕ) → IsResultOf result (advance_reserved_part signed (parts.Name names) (lexeme text token.now)) }
{
    if is_punctuator(token, b';') {
        return Ok(ReservedStep::Names(names));
    }
    if is_punctuator(token, b',') {
        let part = ReservedPart::NextName(names);
        return Ok(ReservedStep::More(ReservedState { signed, part }));
    }
    Err(unexpected(token))
}

/// Reads one token of reserved numbers or names.
#[tactic(auto, unfolding(crate::specs::Advancing::advance_reserved))]
pub fn advance_reserved(
    alloc: Global,
    text: &[u8],
    state: ReservedState,
    token: &Token,
) -> Result<ReservedStep, ProtoFault>
    requires { IsTokenOfText text.now token.now }
    ensures { IsResultOf result (reserved_reading state (lexeme text.now token.now)) }
{
    let ReservedState { signed, part } = state;
    match part {
        ReservedPart::Start if token.kind == TokenKind::Text => {
            advance_name(alloc, text, signed, Words::new(alloc), token)
        }
        ReservedPart::Start => {
            advance_ranges(text, signed, Ranges::new(alloc), RangeState::Start, token)
        }
        ReservedPart::Ranges(ranges, range) => advance_ranges(text, signed, ranges, range, token),
        ReservedPart::Name(names) => after_name(signed, names, token),
        ReservedPart::NextName(names) => advance_name(alloc, text, signed, names, token),
    }
}
