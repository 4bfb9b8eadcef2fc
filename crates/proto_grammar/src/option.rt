//! Options, token by token. Only the value `true` or `false` of `packed` is kept.

ghost use Rattle.std.specs.Prelude.{◌≡◌, ◌<◌, ◌^◌, ℕ, List, codes, true, false};
ghost use Rattle.proto_grammar.specs.Lexemes.{lexeme};
ghost use Rattle.proto_grammar.specs.Advancing.{IsTokenOfText, IsResultOf, if_name as if_named, is_number as is_any_number, truth_of};
ghost use Rattle.proto_grammar.specs.Advancing.{advance_option as option_reading, option_depth};
ghost use Rattle.proto_grammar.specs.declared.option.OptionState.TheVariants as states;
ghost use Rattle.proto_grammar.specs.declared.option.OptionStep.TheVariants as steps;

use crate::fault::ProtoFault;
use crate::lexeme::{is_punctuator, is_word, unexpected};
use proto_lexer::{Token, TokenKind};

/// How much of an option is read.
#[derive(Clone, Copy)]
pub enum OptionState {
    /// A part of the name comes next; `first` if it is the first one.
    Name { first: bool },
    /// A parenthesis is read.
    Open,
    /// A name in parentheses comes next.
    OpenName,
    /// A name inside parentheses is read.
    Inner,
    /// A part of the name is read; `packed` if the name so far is `packed`.
    Part { packed: bool },
    /// `=` is read.
    Equals { packed: bool },
    /// A sign is read.
    Sign,
    /// A name is read, with the value that it gives to `packed`.
    Value(Option<bool>),
    /// A name and a dot are read.
    ValueDot,
    /// A string is read.
    Text,
    /// This many braces are open.
    Braces(usize),
    /// The value is complete; no further token can belong to it.
    End,
}

/// The result of reading one token of an option.
#[derive(Clone, Copy)]
pub enum OptionStep {
    /// The token belongs to the option.
    More(OptionState),
    /// The option ended before the token, with this value for `packed`.
    Whole(Option<bool>),
}

fn more(state: OptionState) -> Result<OptionStep, ProtoFault>
    ensures { result ≡ Ok (steps.More state) }
{
    Ok(OptionStep::More(state))
}

fn if_name(token: &Token, next: OptionState) -> Result<OptionStep, ProtoFault>
    ensures { (text : List ℕ) → IsResultOf result (if_named (lexeme text token.now) (λ n. steps.More next)) }
{
    if token.kind == TokenKind::Identifier {
        more(next)
    } else {
        Err(unexpected(token))
    }
}

fn is_number(token: &Token) -> bool
    ensures { (text : List ℕ) → result ≡ is_any_number (lexeme text token.now).means }
{
    matches!(token.kind, TokenKind::Integer(_) | TokenKind::Number)
}

// Reads a part of an option's name.
#[tactic(auto, unfolding(crate::specs::Advancing::advance_option))]
fn advance_name(text: &[u8], first: bool, token: &Token) -> Result<OptionStep, ProtoFault>
    requires { IsTokenOfText text.now token.now }
    ensures { IsResultOf result (option_reading (states.Name first) (lexeme text.now token.now)) }
{
    if is_punctuator(token, b'(') {
        return more(OptionState::Open);
    }
    let packed = first && is_word(text, token, b"packed");
    if_name(token, OptionState::Part { packed })
}

// Reads a token after a name in parentheses.
#[tactic(auto, unfolding(crate::specs::Advancing::advance_option))]
fn advance_inner_name(token: &Token) -> Result<OptionStep, ProtoFault>
    ensures { (text : List ℕ) → IsResultOf result (option_reading states.Inner (lexeme text token.now)) }
{
    if is_punctuator(token, b'.') {
        more(OptionState::OpenName)
    } else if is_punctuator(token, b')') {
        more(OptionState::Part { packed: false })
    } else {
        Err(unexpected(token))
    }
}

// Reads a token after a part of the name.
#[tactic(auto, unfolding(crate::specs::Advancing::advance_option))]
fn advance_name_part(packed: bool, token: &Token) -> Result<OptionStep, ProtoFault>
    ensures { (text : List ℕ) → IsResultOf result (option_reading (states.Part packed) (lexeme text token.now)) }
{
    if is_punctuator(token, b'.') {
        more(OptionState::Name { first: false })
    } else if is_punctuator(token, b'=') {
        more(OptionState::Equals { packed })
    } else {
        Err(unexpected(token))
    }
}

// The value that a name gives to `packed`.
fn truth(text: &[u8], token: &Token, packed: bool) -> Option<bool>
    requires { IsTokenOfText text.now token.now }
    ensures { result ≡ truth_of packed (lexeme text.now token.now).means }
{
    if packed && is_word(text, token, b"true") {
        Some(true)
    } else if packed && is_word(text, token, b"false") {
        Some(false)
    } else {
        None
    }
}

// Reads the first token of an option's value.
#[tactic(auto, unfolding(crate::specs::Advancing::advance_option))]
fn value_start(text: &[u8], packed: bool, token: &Token) -> Result<OptionStep, ProtoFault>
    requires { IsTokenOfText text.now token.now }
    ensures { IsResultOf result (option_reading (states.Equals packed) (lexeme text.now token.now)) }
{
    match token.kind {
        TokenKind::Identifier => more(OptionState::Value(truth(text, token, packed))),
        TokenKind::Integer(_) | TokenKind::Number => more(OptionState::End),
        TokenKind::Text => more(OptionState::Text),
        TokenKind::Mark(b'+' | b'-') => more(OptionState::Sign),
        TokenKind::Mark(b'{') => more(OptionState::Braces(1)),
        _ => Err(unexpected(token)),
    }
}

// Reads a token inside braces.
#[tactic(auto, unfolding(crate::specs::Advancing::advance_option))]
fn advance_braces(depth: usize, token: &Token) -> Result<OptionStep, ProtoFault>
    requires { depth < 2 ^ 63 }
    ensures { (text : List ℕ) → IsResultOf result (option_reading (states.Braces depth) (lexeme text token.now)) }
{
    match token.kind {
        TokenKind::End | TokenKind::Bad => Err(unexpected(token)),
        TokenKind::Mark(b'{') => more(OptionState::Braces(depth + 1)),
        TokenKind::Mark(b'}') if depth <= 1 => more(OptionState::End),
        TokenKind::Mark(b'}') => more(OptionState::Braces(depth - 1)),
        _ => more(OptionState::Braces(depth)),
    }
}

/// Reads a token of an option, or the one after it.
#[tactic(auto, unfolding(crate::specs::Advancing::advance_option))]
pub fn advance_option(
    text: &[u8],
    state: OptionState,
    token: &Token,
) -> Result<OptionStep, ProtoFault>
    requires lies { IsTokenOfText text.now token.now }
    requires depth { option_depth state < 2 ^ 63 }
    ensures { IsResultOf result (option_reading state (lexeme text.now token.now)) }
{
    match state {
        OptionState::Name { first } => advance_name(text, first, token),
        OptionState::Open if is_punctuator(token, b'.') => more(OptionState::OpenName),
        OptionState::Open | OptionState::OpenName => if_name(token, OptionState::Inner),
        OptionState::Inner => advance_inner_name(token),
        OptionState::Part { packed } => advance_name_part(packed, token),
        OptionState::Equals { packed } => value_start(text, packed, token),
        OptionState::Sign if is_number(token) => more(OptionState::End),
        OptionState::Sign => Err(unexpected(token)),
        OptionState::Value(_) if is_punctuator(token, b'.') => more(OptionState::ValueDot),
        OptionState::Value(says) => Ok(OptionStep::Whole(says)),
        OptionState::ValueDot => if_name(token, OptionState::Value(None)),
        OptionState::Text if token.kind == TokenKind::Text => more(OptionState::Text),
        OptionState::Text | OptionState::End => Ok(OptionStep::Whole(None)),
        OptionState::Braces(depth) => advance_braces(depth, token),
    }
}
