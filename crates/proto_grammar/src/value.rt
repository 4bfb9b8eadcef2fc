//! Values of an enum, token by token.

ghost use Rattle.std.specs.Prelude.{◌≡◌, ◌<◌, ◌^◌, ℕ, List};
ghost use Rattle.proto_grammar.specs.Lexemes.{lexeme};
ghost use Rattle.proto_grammar.specs.Advancing.{IsTokenOfText, IsResultOf, advance_tail as tail_reading, tail_depth, of_value_tail};
ghost use Rattle.proto_grammar.specs.Advancing.{advance_value as value_reading, value_depth};
ghost use Rattle.proto_grammar.specs.declared.value.ValueState.TheVariants as states;

use crate::fault::ProtoFault;
use crate::lexeme::{is_punctuator, negative_of, number_of, span_of, unexpected};
use crate::tail::{TailState, TailStep, advance_tail};
use proto_ast::{Number, Span, ValueDecl, Word};
use proto_lexer::Token;

/// How much of a value is read.
#[derive(Drop)]
pub enum ValueState {
    /// Its name is read.
    Named(Word),
    /// `=` is read.
    Equals(Word),
    /// `-` is read.
    Minus(Word, Span),
    /// Its number is read.
    Tail(Word, Number, TailState),
}

/// The result of reading one token of a value.
#[derive(Drop)]
pub enum ValueStep {
    More(ValueState),
    /// The token is the `;`.
    Done(ValueDecl),
}

// Reads a number after `=`, or the `-` before one.
#[tactic(auto, unfolding(crate::specs::Advancing::advance_value))]
fn advance_after_equals(name: Word, token: &Token) -> Result<ValueStep, ProtoFault>
    ensures { (text : List ℕ) → IsResultOf result (value_reading (states.Equals name) (lexeme text token.now)) }
{
    if is_punctuator(token, b'-') {
        return Ok(ValueStep::More(ValueState::Minus(name, span_of(token))));
    }
    let number = number_of(token)?;
    Ok(ValueStep::More(ValueState::Tail(name, number, TailState::Start)))
}

// Reads a number after `-`.
#[tactic(auto, unfolding(crate::specs::Advancing::advance_value))]
fn advance_after_minus(name: Word, minus: Span, token: &Token) -> Result<ValueStep, ProtoFault>
    ensures { (text : List ℕ) → IsResultOf result (value_reading (states.Minus name minus) (lexeme text token.now)) }
{
    let number = negative_of(minus, token)?;
    Ok(ValueStep::More(ValueState::Tail(name, number, TailState::Start)))
}

fn of_tail(
    text: &[u8],
    name: Word,
    number: Number,
    tail: TailState,
    token: &Token,
) -> Result<ValueStep, ProtoFault>
    requires lies { IsTokenOfText text.now token.now }
    requires depth { tail_depth tail < 2 ^ 63 }
    ensures { IsResultOf result (of_value_tail name number (tail_reading tail (lexeme text.now token.now))) }
{
    match advance_tail(text, tail, token)? {
        TailStep::More(tail) => Ok(ValueStep::More(ValueState::Tail(name, number, tail))),
        TailStep::Done(_) => Ok(ValueStep::Done(ValueDecl { name, number })),
    }
}

/// Reads one token of an enum's value.
#[tactic(auto, unfolding(crate::specs::Advancing::advance_value))]
pub fn advance_value(text: &[u8], state: ValueState, token: &Token) -> Result<ValueStep, ProtoFault>
    requires lies { IsTokenOfText text.now token.now }
    requires depth { value_depth state < 2 ^ 63 }
    ensures { IsResultOf result (value_reading state (lexeme text.now token.now)) }
{
    match state {
        ValueState::Named(name) if is_punctuator(token, b'=') => {
            Ok(ValueStep::More(ValueState::Equals(name)))
        }
        ValueState::Named(_) => Err(unexpected(token)),
        ValueState::Equals(name) => advance_after_equals(name, token),
        ValueState::Minus(name, minus) => advance_after_minus(name, minus, token),
        ValueState::Tail(name, number, tail) => of_tail(text, name, number, tail, token),
    }
}
