//! Proto files from their text.

ghost use Rattle.std.specs.Prelude.{◌≡◌, ◌↔◌, ◌<◌, ◌≤◌, ◌^◌, ◌+◌, IsTrue, ℕ, List, IfOk, IfErr, MatchOption, MatchResult};
ghost use Rattle.std.specs.Prelude.{codes, length, true, false, Ok};
ghost use Rattle.std.specs.Str.{bytes_eq};
ghost use Rattle.proto_lexer.specs.Strings.{string_value as value_of};
ghost use Rattle.proto_lexer.specs.Tokens.{IsNextToken, AreTokens, line_of_offset, is_last, literal_of};
ghost use Rattle.proto_lexer.specs.declared.token.Token.{Token};
ghost use Rattle.proto_lexer.specs.declared.token.TokenKind.TheVariants as kinds;
ghost use Rattle.proto_grammar.specs.Lexemes.{lexeme, lexemes};
ghost use Rattle.proto_schema.specs.Files.{initial_draft};
ghost use Rattle.proto_grammar.specs.Lexemes.{is_no_token};
ghost use Rattle.proto_schema.specs.Faults.{IsProtoTextOf, IsFaultOf};
ghost use Rattle.proto_ast.specs.declared.file.File.{File};
ghost use Rattle.proto_ast.specs.declared.file.Word.{Word};
ghost use Rattle.proto_grammar.specs.declared.fault.ProtoFault.TheVariants as faults;
ghost use Rattle.proto_grammar.specs.Advancing.{IsTokenOfText};
ghost use Rattle.proto_schema.specs.StatementReading.{IsReadingOutcome, IsFailedOutcome, HasContinuation, AreTokensFrom, run, reading, after_syntax_word, outcome_after_step, draft_of};
ghost use Rattle.proto_schema.specs.StatementReading.{statement_place, is_over, is_too_deep as too_deep, depth};
ghost use Rattle.proto_schema.specs.StatementReading.{advance_statement as statement_reading};
ghost use Rattle.proto_grammar.specs.Lexemes.{Lexeme};
ghost use Rattle.proto_schema.specs.declared.statement.StatementState.TheVariants as states;
ghost use Rattle.proto_schema.specs.declared.statement.StatementStep.TheVariants as steps;
ghost use Rattle.proto_schema.specs.declared.statement.StatementEffect.TheVariants as said;

use crate::draft::Draft;
use crate::statement::{
    Opening, StatementEffect, StatementPlace, StatementState, StatementStep, advance_statement,
};
use mrpc_table::Memory;
use proto_ast::{File, Span, Word};
use proto_grammar::{
    ProtoFault, ProtoReason, bytes_of, is_punctuator, is_word, proto_fault_at, span_of, unexpected,
};
use proto_lexer::{
    Token, TokenKind, next_token, next_token_is_determined, string_value, token_list_is_determined,
};
use std::alloc::Global;

// The next token of a text.
#[tactic(auto, using(crate::proofs::Next::lies_next))]
fn next(text: &[u8], place: usize, line: u64) -> Token
    requires small { length text.now < 2 ^ 62 }
    requires within { place ≤ length text.now }
    requires line { line ≡ line_of_offset text.now place }
    ensures next { IsNextToken text.now place result }
    ensures lies { IsTokenOfText text.now result }
    ensures goes_on { is_last result.kind ≡ false → place < result.end }
    ensures same_line { is_last result.kind ≡ false → line_of_offset text.now result.end ≡ result.line }
    ensures list { (ts : List Token) → AreTokens text.now place ts → AreTokensFrom text.now result ts }
{
    next_token_is_determined();
    next_token(text, place, line)
}

// True if a token is a string.
fn is_text(token: &Token) -> bool
    ensures { IsTrue result ↔ (token.now.kind ≡ kinds.Text) }
{
    token.kind == TokenKind::Text
}

// True if this is no token, or a token that may only occur inside the braces of an option.
fn is_none(token: &Token) -> bool
    ensures { (text : List ℕ) → result ≡ is_no_token (lexeme text token.now).means }
{
    matches!(token.kind, TokenKind::Bad | TokenKind::Mark(b':' | b'/'))
}

// True if the value of a string is `proto3`.
fn is_proto3(alloc: Global, text: &[u8], token: &Token) -> Result<bool, Memory>
    requires lies { IsTokenOfText text.now token.now }
    requires string { token.now.kind ≡ kinds.Text }
    ensures { IfOk result (λ b. b ≡ bytes_eq (value_of (literal_of text.now token.now)) (codes "proto3")) }
{
    let value = string_value(alloc, bytes_of(text, token))?;
    Ok(value.as_slice() == b"proto3".as_slice())
}

// True if the text ends at this token: nothing is open, and no statement has started.
fn is_end(draft: &Draft, token: &Token) -> bool
    ensures { (text : List ℕ) → result ≡ is_over (draft_of draft.now) states.Begin (lexeme text token.now) }
{
    token.kind == TokenKind::End && matches!(draft.place(), StatementPlace::File { .. })
}

// The state of the statement that this token continues; `None` if the text ends there.
#[tactic(auto, using(crate::proofs::Next::goes_in))]
fn continued_state(draft: &Draft, state: StatementState, token: &Token) -> Option<StatementState>
    ensures { (text : List ℕ) → MatchOption result
        (is_over (draft_of draft.now) state (lexeme text token.now) ≡ true)
        (λ s. (s ≡ state) × (is_over (draft_of draft.now) s (lexeme text token.now) ≡ false)) }
{
    match state {
        StatementState::Begin => {
            if is_end(draft, token) {
                None
            } else {
                Some(StatementState::Begin)
            }
        }
        other => Some(other),
    }
}

// True if this opens a message inside `MAX_OPEN` others.
fn is_too_deep(draft: &Draft, opening: Opening) -> bool
    ensures { (w : Word) → result ≡ too_deep true (draft_of draft.now) (said.Open opening w) }
{
    matches!(opening, Opening::Message) && draft.is_deep()
}

// Opens a block at the last token of its statement.
fn open(
    alloc: Global,
    draft: &mut Draft,
    opening: Opening,
    name: Word,
    token: &Token,
) -> Result<(), ProtoFault>
    ensures { (text : List ℕ) (xs : List Lexeme) → HasContinuation result (draft_of draft.new)
        (outcome_after_step (draft_of draft.old) (lexeme text token.now) xs (Ok (steps.Done (said.Open opening name)))) xs }
{
    if is_too_deep(draft, opening) {
        return Err(proto_fault_at(ProtoReason::Nesting, span_of(token)));
    }
    Ok(draft.open(alloc, opening, name)?)
}

// Adds what a statement declares, at its last token.
#[tactic(auto, using(crate::proofs::Next::added_shallow))]
fn add(
    alloc: Global,
    draft: &mut Draft,
    says: StatementEffect,
    token: &Token,
) -> Result<(), ProtoFault>
    ensures { (text : List ℕ) (xs : List Lexeme) → HasContinuation result (draft_of draft.new)
        (outcome_after_step (draft_of draft.old) (lexeme text token.now) xs (Ok (steps.Done says))) xs }
{
    match says {
        StatementEffect::Open(opening, name) => open(alloc, draft, opening, name, token),
        says => Ok(draft.add(alloc, says)?),
    }
}

// Reads one token after the statements so far.
#[tactic(auto, using(crate::proofs::Next::fails_step, crate::proofs::Next::grows, crate::proofs::Stops::takes_no_last))]
fn take(
    alloc: Global,
    text: &[u8],
    draft: &mut Draft,
    state: StatementState,
    token: &Token,
) -> Result<StatementState, ProtoFault>
    requires lies { IsTokenOfText text.now token.now }
    requires depth { depth state < 2 ^ 63 }
    ensures goes_on { IfOk result (λ t. (is_last token.now.kind ≡ false) × (depth t ≤ depth state + 1)) }
    ensures reads { let x = lexeme text.now token.now in let d = draft_of draft.old in
        MatchResult result
        (λ t. (xs : List Lexeme) → outcome_after_step d x xs (statement_reading (statement_place d) state x)
        ≡ run true (draft_of draft.new) t xs)
        (λ e. (xs : List Lexeme) → IsFailedOutcome e (outcome_after_step d x xs (statement_reading (statement_place d) state x))) }
{
    match advance_statement(alloc, text, draft.place(), state, token)? {
        StatementStep::More(state) => Ok(state),
        StatementStep::Done(says) => {
            add(alloc, draft, says, token)?;
            Ok(StatementState::Begin)
        }
    }
}

// The file that the tokens after the syntax statement declare, or the first fault among them.
fn read_statements(alloc: Global, text: &[u8], semicolon: Token) -> Result<File, ProtoFault>
    requires small { length text.now < 2 ^ 62 }
    requires within { semicolon.end ≤ length text.now }
    requires line { semicolon.line ≡ line_of_offset text.now semicolon.end }
    ensures { (ts : List Token) → AreTokens text.now semicolon.end ts
        → IsReadingOutcome result (run true initial_draft states.Begin (lexemes text.now ts)) }
{
    let mut last = semicolon;
    let mut draft = Draft::new(alloc);
    let mut state = StatementState::Begin;
    'tokens: loop {
        let token = next(text, last.end, last.line);
        let Some(begun) = continued_state(&draft, state, &token) else {
            return Ok(draft.into_file());
        };
        state = take(alloc, text, &mut draft, begun, &token)?;
        last = token;
    }
}

// The file of a text whose first token is `syntax`, or its first fault.
fn read_after_first(alloc: Global, text: &[u8], first: Token) -> Result<File, ProtoFault>
    requires small { length text.now < 2 ^ 62 }
    requires within { first.end ≤ length text.now }
    requires line { first.line ≡ line_of_offset text.now first.end }
    ensures { (ts : List Token) → AreTokens text.now first.end ts
        → IsReadingOutcome result (after_syntax_word true (lexeme text.now first) (lexemes text.now ts)) }
{
    let equals = next(text, first.end, first.line);
    if !is_punctuator(&equals, b'=') {
        return Err(unexpected(&equals));
    }
    let value = next(text, equals.end, equals.line);
    if !is_text(&value) {
        return Err(unexpected(&value));
    }
    if !is_proto3(alloc, text, &value)? {
        return Err(proto_fault_at(ProtoReason::Syntax2, span_of(&first)));
    }
    let last = next(text, value.end, value.line);
    if !is_punctuator(&last, b';') {
        return Err(unexpected(&last));
    }
    read_statements(alloc, text, last)
}

// The file of a text's tokens, or their first fault.
fn read_tokens(alloc: Global, text: &[u8]) -> Result<File, ProtoFault>
    requires small { length text.now < 2 ^ 62 }
    ensures { (ts : List Token) → AreTokens text.now 0 ts → IsReadingOutcome result (reading true (lexemes text.now ts)) }
{
    let first = next(text, 0, 1);
    if is_word(text, &first, b"syntax") {
        return read_after_first(alloc, text, first);
    }
    if is_none(&first) {
        return Err(unexpected(&first));
    }
    Err(proto_fault_at(ProtoReason::Syntax2, span_of(&first)))
}

/// Returns the file that a text reads as, or its first fault. Takes time proportional to the text.
pub fn read_proto(alloc: Global, text: &[u8]) -> Result<File, ProtoFault>
    requires small { length text.now < 2 ^ 62 }
    // A returned file is what the text reads as.
    ensures reads { IfOk result (λ f. IsProtoTextOf text.now f) }
    // If the text reads as a file, this file is returned, unless memory runs out.
    ensures only { (f : File) → IsProtoTextOf text.now f → MatchResult result (λ g. g ≡ f) (λ e. e ≡ faults.Memory) }
    // A returned fault is the first one of the text.
    ensures fault { IfErr result (λ e. IsFaultOf text.now e) }
{
    token_list_is_determined();
    read_tokens(alloc, text)
}
