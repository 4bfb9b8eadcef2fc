//! Methods of a service, token by token.

ghost use Rattle.std.specs.Prelude.{◌≡◌, ℕ, List};
ghost use Rattle.proto_grammar.specs.Lexemes.{lexeme, make_word, span_of as span_of_token};
ghost use Rattle.proto_grammar.specs.Advancing.{IsTokenOfText, IsResultOf, if_name, is_streaming as is_streaming_at};
ghost use Rattle.proto_grammar.specs.Advancing.{part_span as reading_part_span, advance_rpc_type};
ghost use Rattle.proto_grammar.specs.Advancing.{of_input as reading_of_input, of_output as reading_of_output};
ghost use Rattle.proto_grammar.specs.Advancing.{advance_rpc as rpc_reading};
ghost use Rattle.proto_grammar.specs.declared.rpc.RpcState.TheVariants as states;
ghost use Rattle.proto_grammar.specs.declared.rpc.RpcStep.TheVariants as steps;

use crate::fault::{ProtoFault, ProtoReason};
use crate::field::advance_field_type_name;
use crate::lexeme::{identifier_of, is_punctuator, is_word, proto_fault_at, span_of, unexpected};
use crate::name::{NameState, NameStep};
use proto_ast::{RpcDecl, Span, Word};
use proto_lexer::{Token, TokenKind};
use std::alloc::Global;

/// How much of a method is read.
#[derive(Drop)]
pub enum RpcState {
    /// `rpc` is read.
    Start,
    /// Its name is read.
    Named(Word),
    /// The request type is being read.
    Input(Word, NameState),
    /// The request type is read, with its parentheses.
    Returns(Word, Word),
    /// `returns` is read.
    Open(Word, Word),
    /// The reply type is being read.
    Output(Word, Word, NameState),
    /// The reply type is read, with its parentheses.
    End(RpcDecl),
}

/// The result of reading one token of a method.
#[derive(Drop)]
pub enum RpcStep {
    More(RpcState),
    /// The token is the `;`, or the `{` of a block of options.
    Done(RpcDecl, bool),
}

// True if `stream` is read and the token is a name or a dot.
fn is_streaming(state: &NameState, token: &Token) -> bool
    ensures { (text : List ℕ) → result ≡ is_streaming_at state.now (lexeme text token.now) }
{
    match state {
        NameState::Part(word) => {
            word.name.as_slice() == b"stream".as_slice()
                && (token.kind == TokenKind::Identifier || is_punctuator(token, b'.'))
        }
        _ => false,
    }
}

// The span of the name that is read so far.
fn part_span(state: &NameState, token: &Token) -> Span
    ensures { result ≡ reading_part_span state.now (span_of_token token.now) }
{
    match state {
        NameState::Part(word) => word.span,
        _ => span_of(token),
    }
}

// Reads a token of a type in parentheses, or the closing parenthesis.
fn type_in(
    alloc: Global,
    text: &[u8],
    state: NameState,
    token: &Token,
) -> Result<NameStep, ProtoFault>
    requires { IsTokenOfText text.now token.now }
    ensures { IsResultOf result (advance_rpc_type state (lexeme text.now token.now)) }
{
    if is_streaming(&state, token) {
        return Err(proto_fault_at(ProtoReason::Stream, part_span(&state, token)));
    }
    match advance_field_type_name(alloc, text, state, token)? {
        NameStep::Whole(_) if !is_punctuator(token, b')') => Err(unexpected(token)),
        step => Ok(step),
    }
}

fn of_input(
    alloc: Global,
    text: &[u8],
    name: Word,
    input: NameState,
    token: &Token,
) -> Result<RpcStep, ProtoFault>
    requires { IsTokenOfText text.now token.now }
    ensures { IsResultOf result (reading_of_input name (advance_rpc_type input (lexeme text.now token.now))) }
{
    match type_in(alloc, text, input, token)? {
        NameStep::More(input) => Ok(RpcStep::More(RpcState::Input(name, input))),
        NameStep::Whole(input) => Ok(RpcStep::More(RpcState::Returns(name, input))),
    }
}

fn of_output(
    alloc: Global,
    text: &[u8],
    name: Word,
    input: Word,
    output: NameState,
    token: &Token,
) -> Result<RpcStep, ProtoFault>
    requires { IsTokenOfText text.now token.now }
    ensures { IsResultOf result (reading_of_output name input (advance_rpc_type output (lexeme text.now token.now))) }
{
    match type_in(alloc, text, output, token)? {
        NameStep::More(output) => Ok(RpcStep::More(RpcState::Output(name, input, output))),
        NameStep::Whole(output) => Ok(RpcStep::More(RpcState::End(RpcDecl {
            name,
            input,
            output,
        }))),
    }
}

// Reads the name of a method.
fn named(alloc: Global, text: &[u8], token: &Token) -> Result<RpcStep, ProtoFault>
    requires { IsTokenOfText text.now token.now }
    ensures { let x = lexeme text.now token.now in
        IsResultOf result (if_name x (λ n. steps.More (states.Named (make_word n x.span)))) }
{
    let name = identifier_of(alloc, text, token)?;
    Ok(RpcStep::More(RpcState::Named(name)))
}

// Reads the token that ends a method.
#[tactic(auto, unfolding(crate::specs::Advancing::advance_rpc))]
fn advance_end(rpc: RpcDecl, token: &Token) -> Result<RpcStep, ProtoFault>
    ensures { (text : List ℕ) → IsResultOf result (rpc_reading (states.End rpc) (lexeme text token.now)) }
{
    if is_punctuator(token, b';') {
        Ok(RpcStep::Done(rpc, false))
    } else if is_punctuator(token, b'{') {
        Ok(RpcStep::Done(rpc, true))
    } else {
        Err(unexpected(token))
    }
}

/// Reads one token of a method.
#[tactic(auto, unfolding(crate::specs::Advancing::advance_rpc))]
pub fn advance_rpc(
    alloc: Global,
    text: &[u8],
    state: RpcState,
    token: &Token,
) -> Result<RpcStep, ProtoFault>
    requires { IsTokenOfText text.now token.now }
    ensures { IsResultOf result (rpc_reading state (lexeme text.now token.now)) }
{
    match state {
        RpcState::Start => named(alloc, text, token),
        RpcState::Named(name) if is_punctuator(token, b'(') => {
            Ok(RpcStep::More(RpcState::Input(name, NameState::Start)))
        }
        RpcState::Input(name, input) => of_input(alloc, text, name, input, token),
        RpcState::Returns(name, input) if is_word(text, token, b"returns") => {
            Ok(RpcStep::More(RpcState::Open(name, input)))
        }
        RpcState::Open(name, input) if is_punctuator(token, b'(') => {
            Ok(RpcStep::More(RpcState::Output(name, input, NameState::Start)))
        }
        RpcState::Output(name, input, output) => {
            of_output(alloc, text, name, input, output, token)
        }
        RpcState::End(rpc) => advance_end(rpc, token),
        RpcState::Named(_) | RpcState::Returns(_, _) | RpcState::Open(_, _) => {
            Err(unexpected(token))
        }
    }
}
