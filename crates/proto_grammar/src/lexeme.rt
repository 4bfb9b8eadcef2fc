//! The meaning of tokens.

ghost use Rattle.std.specs.Prelude.{◌≡◌, ℕ, List, IfOk, true, false};
ghost use Rattle.proto_lexer.specs.Tokens.{literal_of};
ghost use Rattle.proto_lexer.specs.declared.token.TokenKind.TheVariants.{Identifier};
ghost use Rattle.proto_grammar.specs.Lexemes.{lexeme, is_the_word, span_of as span_of_token, span_to as joined_span, make_word};
ghost use Rattle.proto_grammar.specs.Lexemes.{make_number};
ghost use Rattle.proto_grammar.specs.Advancing.{IsTokenOfText, IsResultOf, proto_fault_at as fault_of, unexpected as unexpected_at};
ghost use Rattle.proto_grammar.specs.Advancing.{is_punctuator as is_the_mark, if_name, if_number};

use crate::fault::{ProtoFault, ProtoReason};
use mrpc_table::{Decimal, Memory, Name};
use proto_ast::{Number, Span, Word};
use proto_lexer::{Token, TokenKind};
use std::alloc::Global;

/// The span of a token.
pub fn span_of(token: &Token) -> Span
    ensures { result ≡ span_of_token token.now }
{
    Span {
        start: token.start,
        end: token.end,
        line: token.line,
    }
}

// The span from the start of a span to the end of a token.
pub(crate) fn span_to(span: Span, token: &Token) -> Span
    ensures { result ≡ joined_span span (span_of_token token.now) }
{
    Span {
        start: span.start,
        end: token.end,
        line: span.line,
    }
}

/// A fault at a span.
pub fn proto_fault_at(reason: ProtoReason, span: Span) -> ProtoFault
    ensures { result ≡ fault_of reason span }
{
    ProtoFault::At {
        reason,
        start: span.start,
        end: span.end,
        line: span.line,
    }
}

/// The fault of an unexpected token: it is not a token, or another one is expected.
pub fn unexpected(token: &Token) -> ProtoFault
    ensures { (text : List ℕ) → result ≡ unexpected_at (lexeme text token.now) }
{
    let reason = match token.kind {
        TokenKind::Bad | TokenKind::Mark(b':' | b'/') => ProtoReason::Token,
        _ => ProtoReason::Expected,
    };
    proto_fault_at(reason, span_of(token))
}

/// The bytes of a token.
pub fn bytes_of<'a>(text: &'a [u8], token: &Token) -> &'a [u8]
    requires { IsTokenOfText text.now token.now }
    ensures { result.now ≡ literal_of text.now token.now }
{
    &text[token.start..token.end]
}

/// True if a token is this punctuator.
pub fn is_punctuator(token: &Token, mark: u8) -> bool
    ensures { (text : List ℕ) → result ≡ is_the_mark (lexeme text token.now).means mark }
{
    token.kind == TokenKind::Mark(mark)
}

/// True if a token is this word.
pub fn is_word(text: &[u8], token: &Token, word: &[u8]) -> bool
    requires { IsTokenOfText text.now token.now }
    ensures { result ≡ is_the_word (lexeme text.now token.now).means word.now }
{
    token.kind == TokenKind::Identifier && bytes_of(text, token) == word
}

/// The name in an identifier token.
pub fn word_of(alloc: Global, text: &[u8], token: &Token) -> Result<Word, Memory>
    requires { IsTokenOfText text.now token.now }
    ensures { IfOk result (λ w. w ≡ make_word (literal_of text.now token.now) (span_of_token token.now)) }
{
    Ok(Word {
        name: Name::from_slice(alloc, bytes_of(text, token))?,
        span: span_of(token),
    })
}

/// The name in a token; a fault if the token isn't an identifier.
pub fn identifier_of(alloc: Global, text: &[u8], token: &Token) -> Result<Word, ProtoFault>
    requires { IsTokenOfText text.now token.now }
    ensures { let x = lexeme text.now token.now in IsResultOf result (if_name x (λ n. make_word n x.span)) }
{
    if token.kind != TokenKind::Identifier {
        return Err(unexpected(token));
    }
    Ok(word_of(alloc, text, token)?)
}

// The unsigned number in a token; a fault if the token isn't an integer.
pub(crate) fn number_of(token: &Token) -> Result<Number, ProtoFault>
    ensures { (text : List ℕ)
        → IsResultOf result (if_number (lexeme text token.now) (λ v. make_number false v (span_of_token token.now))) }
{
    match token.kind {
        TokenKind::Integer(value) => Ok(Number {
            negative: false,
            value,
            span: span_of(token),
        }),
        _ => Err(unexpected(token)),
    }
}

// The negative number in a token after a `-`; a fault if the token isn't an integer.
pub(crate) fn negative_of(minus: Span, token: &Token) -> Result<Number, ProtoFault>
    ensures { (text : List ℕ) → IsResultOf result (if_number (lexeme text token.now)
        (λ v. make_number true v (joined_span minus (span_of_token token.now)))) }
{
    match token.kind {
        TokenKind::Integer(value) => Ok(Number {
            negative: true,
            value,
            span: span_to(minus, token),
        }),
        _ => Err(unexpected(token)),
    }
}
