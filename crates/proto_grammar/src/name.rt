//! Full names and names of types, token by token.

ghost use Rattle.std.specs.Prelude.{◌≡◌, ◌∷◌, ◌++◌, IfOk};
ghost use Rattle.proto_ast.specs.Dot.{dot as dot_mark};
ghost use Rattle.proto_grammar.specs.Lexemes.{lexeme, span_to as joined_span};
ghost use Rattle.proto_grammar.specs.Advancing.{IsTokenOfText, IsResultOf, if_name, name_part, advance_full_name as full_reading};
ghost use Rattle.proto_grammar.specs.Advancing.{advance_type_name as type_reading};

use crate::fault::ProtoFault;
use crate::lexeme::{bytes_of, identifier_of, is_punctuator, span_of, span_to, unexpected};
use mrpc_table::Name;
use proto_ast::{Span, Word};
use proto_lexer::{Token, TokenKind};
use std::alloc::Global;

/// How much of a name is read.
#[derive(Drop)]
pub enum NameState {
    /// Nothing is read.
    Start,
    /// The leading dot is read.
    Rooted(Span),
    /// A complete name is read; a dot may continue it.
    Part(Word),
    /// A name and a dot are read.
    Dot(Word),
}

/// The result of reading one token of a name.
#[derive(Drop)]
pub enum NameStep {
    /// The token belongs to the name.
    More(NameState),
    /// The name ended before the token.
    Whole(Word),
}

// Reads the first part of a name.
fn first_part(alloc: Global, text: &[u8], token: &Token) -> Result<NameStep, ProtoFault>
    requires { IsTokenOfText text.now token.now }
    ensures { let x = lexeme text.now token.now in IsResultOf result (if_name x (λ n. name_part n x.span)) }
{
    let word = identifier_of(alloc, text, token)?;
    Ok(NameStep::More(NameState::Part(word)))
}

// Reads the part after a leading dot.
fn rooted_part(alloc: Global, text: &[u8], dot: Span, token: &Token) -> Result<NameStep, ProtoFault>
    requires { IsTokenOfText text.now token.now }
    ensures { let x = lexeme text.now token.now in
        IsResultOf result (if_name x (λ n. name_part (dot_mark ∷ n) (joined_span dot x.span))) }
{
    if token.kind != TokenKind::Identifier {
        return Err(unexpected(token));
    }
    let mut name = Name::from_slice(alloc, b".")?;
    name.append(bytes_of(text, token))?;
    let span = span_to(dot, token);
    Ok(NameStep::More(NameState::Part(Word { name, span })))
}

// Reads a part after other parts and a dot.
fn further_part(text: &[u8], word: Word, token: &Token) -> Result<NameStep, ProtoFault>
    requires { IsTokenOfText text.now token.now }
    ensures { let x = lexeme text.now token.now in
        IsResultOf result (if_name x (λ n. name_part (word.name ++ dot_mark ∷ n) (joined_span word.span x.span))) }
{
    if token.kind != TokenKind::Identifier {
        return Err(unexpected(token));
    }
    let Word { mut name, span } = word;
    name.append(b".")?;
    name.append(bytes_of(text, token))?;
    let span = span_to(span, token);
    Ok(NameStep::More(NameState::Part(Word { name, span })))
}

/// Reads a token of a full name, or the one after it. A leading dot is rejected.
#[tactic(auto, unfolding(crate::specs::Advancing::advance_full_name))]
pub fn advance_full_name(
    alloc: Global,
    text: &[u8],
    state: NameState,
    token: &Token,
) -> Result<NameStep, ProtoFault>
    requires { IsTokenOfText text.now token.now }
    ensures { IsResultOf result (full_reading state (lexeme text.now token.now)) }
{
    match state {
        NameState::Start => first_part(alloc, text, token),
        NameState::Rooted(dot) => rooted_part(alloc, text, dot, token),
        NameState::Part(word) if is_punctuator(token, b'.') => Ok(NameStep::More(NameState::Dot(
            word,
        ))),
        NameState::Part(word) => Ok(NameStep::Whole(word)),
        NameState::Dot(word) => further_part(text, word, token),
    }
}

// Reads a token of a type's name, or the one after it.
#[tactic(auto, unfolding(crate::specs::Advancing::advance_full_name))]
pub(crate) fn advance_type_name(
    alloc: Global,
    text: &[u8],
    state: NameState,
    token: &Token,
) -> Result<NameStep, ProtoFault>
    requires { IsTokenOfText text.now token.now }
    ensures { IsResultOf result (type_reading state (lexeme text.now token.now)) }
{
    match state {
        NameState::Start if is_punctuator(token, b'.') => {
            Ok(NameStep::More(NameState::Rooted(span_of(token))))
        }
        other => advance_full_name(alloc, text, other, token),
    }
}
