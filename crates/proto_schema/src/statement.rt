//! Statements, token by token.

ghost use Rattle.std.specs.Prelude.{◌≡◌, ◌<◌, ◌^◌, ℕ, List, Ok, true, false, if◌then◌else◌};
ghost use Rattle.std.specs.Str.{bytes_eq};
ghost use Rattle.proto_lexer.specs.Tokens.{literal_of};
ghost use Rattle.proto_lexer.specs.declared.token.TokenKind.TheVariants as kinds;
ghost use Rattle.proto_grammar.specs.Lexemes.{lexeme, make_word, opening_brace, semicolon};
ghost use Rattle.proto_grammar.specs.Advancing.{IsTokenOfText, IsResultOf, wrong, if_name, is_punctuator as is_the_mark};
ghost use Rattle.proto_grammar.specs.Advancing.{advance_full_name as full_reading, advance_option as option_reading, option_depth};
ghost use Rattle.proto_grammar.specs.Advancing.{advance_field as field_reading, field_depth, advance_value as value_reading};
ghost use Rattle.proto_grammar.specs.Advancing.{value_depth, advance_reserved as reserved_reading, advance_rpc as rpc_reading};
ghost use Rattle.proto_schema.specs.StatementReading;
ghost use Rattle.proto_schema.specs.declared.statement.StatementPlace.TheVariants as places;
ghost use Rattle.proto_schema.specs.declared.statement.StatementState.TheVariants as states;
ghost use Rattle.proto_schema.specs.declared.statement.StatementEffect.TheVariants as said;
ghost use Rattle.proto_schema.specs.declared.statement.StatementStep.TheVariants as steps;

use proto_ast::{FieldDecl, FieldLabel, Import, Ranges, RpcDecl, ValueDecl, Word, Words};
use proto_grammar::{
    FieldState, FieldStep, NameState, NameStep, OptionState, OptionStep, ProtoFault, ProtoReason,
    ReservedPart, ReservedState, ReservedStep, RpcState, RpcStep, ValueState, ValueStep,
    advance_field, advance_full_name, advance_option, advance_reserved, advance_rpc, advance_value,
    bytes_of, identifier_of, is_punctuator, is_word, proto_fault_at, span_of, unexpected, word_of,
};
use proto_lexer::{Token, TokenKind, string_value};
use std::alloc::Global;

// Where a statement is.
#[derive(Clone, Copy)]
pub(crate) enum StatementPlace {
    // In the file; `package` if there was a package statement.
    File { package: bool },
    Message,
    // In a oneof; `filled` if it has a field.
    Oneof { filled: bool },
    // In an enum; `filled` if it has a value.
    Enum { filled: bool },
    Service,
    // In the block of an rpc.
    Rpc,
}

// The kind of block that a statement opens.
#[derive(Clone, Copy)]
pub(crate) enum Opening {
    Message,
    Enum,
    Service,
    Oneof,
}

// How much of a statement is read.
#[derive(Drop)]
pub(crate) enum StatementState {
    // Nothing of it is read.
    Begin,
    Package(NameState),
    // `import`, or `import public`, is read.
    Import(bool),
    // The path is read.
    Imported(Import),
    Option(OptionState),
    // The first word of a block is read.
    Opening(Opening),
    // Its name is read.
    Opened(Opening, Word),
    Field(FieldState),
    Reserved(ReservedState),
    Value(ValueState),
    Rpc(RpcState),
}

// What a complete statement declares.
#[derive(Drop)]
pub(crate) enum StatementEffect {
    Nothing,
    Package(Word),
    Import(Import),
    Open(Opening, Word),
    Field(FieldDecl),
    Ranges(Ranges),
    Names(Words),
    Value(ValueDecl),
    // A method, and whether the block of its options is open now.
    Rpc(RpcDecl, bool),
    // The innermost block is closed.
    Close,
}

// The result of reading one token of a statement.
#[derive(Drop)]
pub(crate) enum StatementStep {
    More(StatementState),
    // The token is its last one.
    Done(StatementEffect),
}

// True if a name is this word.
fn is(name: &[u8], word: &[u8]) -> bool
    ensures { result ≡ bytes_eq name.now word.now }
{
    name == word
}

fn more(state: StatementState) -> Result<StatementStep, ProtoFault>
    ensures { result ≡ StatementReading.more state }
{
    Ok(StatementStep::More(state))
}

// True if `}` closes a block here.
fn closes_in(place: StatementPlace) -> bool
    ensures { result ≡ StatementReading.closes_in place }
{
    match place {
        StatementPlace::File { .. } => false,
        StatementPlace::Oneof { filled } | StatementPlace::Enum { filled } => filled,
        StatementPlace::Message | StatementPlace::Service | StatementPlace::Rpc => true,
    }
}

// True if `;` is a statement here.
fn is_body(place: StatementPlace) -> bool
    ensures { result ≡ StatementReading.is_body place }
{
    matches!(place, StatementPlace::File { .. } | StatementPlace::Message)
}

// True if a field without a label may start here.
fn has_fields(place: StatementPlace) -> bool
    ensures { result ≡ StatementReading.has_fields place }
{
    matches!(
        place,
        StatementPlace::Message | StatementPlace::Oneof { .. }
    )
}

fn of_field(
    alloc: Global,
    text: &[u8],
    field: FieldState,
    token: &Token,
) -> Result<StatementStep, ProtoFault>
    requires lies { IsTokenOfText text.now token.now }
    requires depth { field_depth field < 2 ^ 63 }
    ensures { IsResultOf result (StatementReading.of_field (field_reading field (lexeme text.now token.now))) }
{
    match advance_field(alloc, text, field, token)? {
        FieldStep::More(field) => more(StatementState::Field(field)),
        FieldStep::Done(field) => Ok(StatementStep::Done(StatementEffect::Field(field))),
    }
}

// Starts a field without a label.
fn start_field(alloc: Global, text: &[u8], token: &Token) -> Result<StatementStep, ProtoFault>
    requires { IsTokenOfText text.now token.now }
    ensures { IsResultOf result (StatementReading.start_field (lexeme text.now token.now)) }
{
    let state = FieldState::Type(FieldLabel::Plain, NameState::Start);
    of_field(alloc, text, state, token)
}

// Starts a statement at a punctuator.
fn start_at_punctuator(
    alloc: Global,
    text: &[u8],
    place: StatementPlace,
    token: &Token,
    mark: u8,
) -> Result<StatementStep, ProtoFault>
    requires { IsTokenOfText text.now token.now }
    ensures { IsResultOf result (StatementReading.start_at_punctuator place (lexeme text.now token.now) mark) }
{
    if mark == b'.' && has_fields(place) {
        start_field(alloc, text, token)
    } else if mark == b';' && is_body(place) {
        Ok(StatementStep::Done(StatementEffect::Nothing))
    } else if mark == b'}' && closes_in(place) {
        Ok(StatementStep::Done(StatementEffect::Close))
    } else {
        Err(unexpected(token))
    }
}

// `message`, `enum`, `service` or `oneof`, if it is allowed here.
fn opening_of(in_file: bool, name: &[u8]) -> Option<Opening>
    ensures { result ≡ StatementReading.opening_of in_file name.now }
{
    if is(name, b"message") {
        Some(Opening::Message)
    } else if is(name, b"enum") {
        Some(Opening::Enum)
    } else if in_file && is(name, b"service") {
        Some(Opening::Service)
    } else if !in_file && is(name, b"oneof") {
        Some(Opening::Oneof)
    } else {
        None
    }
}

fn is_extend(name: &[u8]) -> bool
    ensures { result ≡ StatementReading.is_extend name.now }
{
    is(name, b"extend") || is(name, b"extensions")
}

fn start_in_file(package: bool, name: &[u8], token: &Token) -> Result<StatementStep, ProtoFault>
    ensures { (text : List ℕ)
        → IsResultOf result (StatementReading.start_in_file «package» name.now (lexeme text token.now)
        (StatementReading.opening_of true name.now)) }
{
    match opening_of(true, name) {
        Some(opening) => more(StatementState::Opening(opening)),
        None if is_extend(name) => Err(proto_fault_at(ProtoReason::Extend, span_of(token))),
        None if !package && is(name, b"package") => more(StatementState::Package(NameState::Start)),
        None if is(name, b"import") => more(StatementState::Import(false)),
        None => Err(unexpected(token)),
    }
}

fn reserved(signed: bool) -> Result<StatementStep, ProtoFault>
    ensures { result ≡ StatementReading.start_reserved signed }
{
    let part = ReservedPart::Start;
    more(StatementState::Reserved(ReservedState { signed, part }))
}

fn labelled(label: FieldLabel) -> Result<StatementStep, ProtoFault>
    ensures { result ≡ StatementReading.labelled label }
{
    more(StatementState::Field(FieldState::Type(label, NameState::Start)))
}

fn start_in_message(
    alloc: Global,
    text: &[u8],
    name: &[u8],
    token: &Token,
) -> Result<StatementStep, ProtoFault>
    requires { IsTokenOfText text.now token.now }
    ensures { IsResultOf result
        (StatementReading.start_in_message name.now (lexeme text.now token.now) (StatementReading.opening_of false name.now)) }
{
    match opening_of(false, name) {
        Some(opening) => more(StatementState::Opening(opening)),
        None if is_extend(name) => Err(proto_fault_at(ProtoReason::Extend, span_of(token))),
        None if is(name, b"reserved") => reserved(false),
        None if is(name, b"optional") => labelled(FieldLabel::Optional),
        None if is(name, b"repeated") => labelled(FieldLabel::Repeated),
        None => start_field(alloc, text, token),
    }
}

fn start_in_enum(
    alloc: Global,
    text: &[u8],
    filled: bool,
    name: &[u8],
    token: &Token,
) -> Result<StatementStep, ProtoFault>
    requires lies { IsTokenOfText text.now token.now }
    requires named { name.now ≡ literal_of text.now token.now }
    ensures { IsResultOf result (StatementReading.start_at_word (places.Enum filled) (lexeme text.now token.now) name.now) }
{
    if is(name, b"reserved") {
        return reserved(true);
    }
    let name = word_of(alloc, text, token)?;
    more(StatementState::Value(ValueState::Named(name)))
}

fn start_in_service(name: &[u8], token: &Token) -> Result<StatementStep, ProtoFault>
    ensures { (text : List ℕ) → IsResultOf result (StatementReading.start_at_word places.Service (lexeme text token.now) name.now) }
{
    if is(name, b"rpc") {
        more(StatementState::Rpc(RpcState::Start))
    } else {
        Err(unexpected(token))
    }
}

// Starts a statement at a word.
fn start_at_word(
    alloc: Global,
    text: &[u8],
    place: StatementPlace,
    name: &[u8],
    token: &Token,
) -> Result<StatementStep, ProtoFault>
    requires lies { IsTokenOfText text.now token.now }
    requires named { name.now ≡ literal_of text.now token.now }
    ensures { IsResultOf result (StatementReading.start_at_word place (lexeme text.now token.now) name.now) }
{
    match place {
        StatementPlace::File { package } => start_in_file(package, name, token),
        StatementPlace::Message => start_in_message(alloc, text, name, token),
        StatementPlace::Oneof { .. } => start_field(alloc, text, token),
        StatementPlace::Enum { filled } => start_in_enum(alloc, text, filled, name, token),
        StatementPlace::Service => start_in_service(name, token),
        StatementPlace::Rpc => Err(unexpected(token)),
    }
}

// Reads the first token of a statement.
fn advance_first_token(
    alloc: Global,
    text: &[u8],
    place: StatementPlace,
    token: &Token,
) -> Result<StatementStep, ProtoFault>
    requires { IsTokenOfText text.now token.now }
    ensures { let x = lexeme text.now token.now in IsResultOf result (StatementReading.advance_first_token place x x.means) }
{
    match token.kind {
        TokenKind::Identifier => {
            let name = bytes_of(text, token);
            if is(name, b"option") {
                return more(StatementState::Option(OptionState::Name { first: true }));
            }
            start_at_word(alloc, text, place, name, token)
        }
        TokenKind::Mark(mark) => start_at_punctuator(alloc, text, place, token, mark),
        _ => Err(unexpected(token)),
    }
}

// The `;` that ends a statement.
fn end(token: &Token) -> Result<(), ProtoFault>
    ensures { (text : List ℕ) → let x = lexeme text token.now in
        IsResultOf result (if is_the_mark x.means semicolon then Ok tt else wrong x) }
{
    if is_punctuator(token, b';') {
        Ok(())
    } else {
        Err(unexpected(token))
    }
}

fn of_package(
    alloc: Global,
    text: &[u8],
    name: NameState,
    token: &Token,
) -> Result<StatementStep, ProtoFault>
    requires { IsTokenOfText text.now token.now }
    ensures { let x = lexeme text.now token.now in IsResultOf result (StatementReading.of_package x (full_reading name x)) }
{
    match advance_full_name(alloc, text, name, token)? {
        NameStep::More(name) => more(StatementState::Package(name)),
        NameStep::Whole(name) => {
            end(token)?;
            Ok(StatementStep::Done(StatementEffect::Package(name)))
        }
    }
}

// Reads the path after `import` or `import public`.
fn imported(
    alloc: Global,
    text: &[u8],
    public: bool,
    token: &Token,
) -> Result<StatementStep, ProtoFault>
    requires lies { IsTokenOfText text.now token.now }
    requires string { token.now.kind ≡ kinds.Text }
    ensures { let x = lexeme text.now token.now in IsResultOf result (StatementReading.advance_import public x x.means) }
{
    let path = string_value(alloc, bytes_of(text, token))?;
    let span = span_of(token);
    more(StatementState::Imported(Import { path, public, span }))
}

// Reads a token after `import` or `import public`.
fn advance_import(
    alloc: Global,
    text: &[u8],
    public: bool,
    token: &Token,
) -> Result<StatementStep, ProtoFault>
    requires { IsTokenOfText text.now token.now }
    ensures { let x = lexeme text.now token.now in IsResultOf result (StatementReading.advance_import public x x.means) }
{
    match token.kind {
        TokenKind::Text => imported(alloc, text, public, token),
        TokenKind::End | TokenKind::Bad | TokenKind::Mark(b':' | b'/') => Err(unexpected(token)),
        _ if public => Err(unexpected(token)),
        _ if is_word(text, token, b"public") => more(StatementState::Import(true)),
        _ => Err(proto_fault_at(ProtoReason::Import, span_of(token))),
    }
}

// Reads the end of an import.
fn import_ends(import: Import, token: &Token) -> Result<StatementStep, ProtoFault>
    ensures { (text : List ℕ) → IsResultOf result (StatementReading.end_statement (said.Import import) (lexeme text token.now)) }
{
    end(token)?;
    Ok(StatementStep::Done(StatementEffect::Import(import)))
}

fn of_option(text: &[u8], option: OptionState, token: &Token) -> Result<StatementStep, ProtoFault>
    requires lies { IsTokenOfText text.now token.now }
    requires depth { option_depth option < 2 ^ 63 }
    ensures { let x = lexeme text.now token.now in IsResultOf result (StatementReading.of_options x (option_reading option x)) }
{
    match advance_option(text, option, token)? {
        OptionStep::More(option) => more(StatementState::Option(option)),
        OptionStep::Whole(_) => {
            end(token)?;
            Ok(StatementStep::Done(StatementEffect::Nothing))
        }
    }
}

fn advance_opening(
    alloc: Global,
    text: &[u8],
    opening: Opening,
    token: &Token,
) -> Result<StatementStep, ProtoFault>
    requires { IsTokenOfText text.now token.now }
    ensures { let x = lexeme text.now token.now in
        IsResultOf result (if_name x (λ n. steps.More (states.Opened opening (make_word n x.span)))) }
{
    let name = identifier_of(alloc, text, token)?;
    more(StatementState::Opened(opening, name))
}

fn advance_opened(opening: Opening, name: Word, token: &Token) -> Result<StatementStep, ProtoFault>
    ensures { (text : List ℕ) → let x = lexeme text token.now in
        IsResultOf result (if is_the_mark x.means opening_brace then StatementReading.done (said.Open opening name) else wrong x) }
{
    if is_punctuator(token, b'{') {
        Ok(StatementStep::Done(StatementEffect::Open(opening, name)))
    } else {
        Err(unexpected(token))
    }
}

fn of_reserved(
    alloc: Global,
    text: &[u8],
    state: ReservedState,
    token: &Token,
) -> Result<StatementStep, ProtoFault>
    requires { IsTokenOfText text.now token.now }
    ensures { IsResultOf result (StatementReading.of_reserved (reserved_reading state (lexeme text.now token.now))) }
{
    match advance_reserved(alloc, text, state, token)? {
        ReservedStep::More(state) => more(StatementState::Reserved(state)),
        ReservedStep::Ranges(ranges) => Ok(StatementStep::Done(StatementEffect::Ranges(ranges))),
        ReservedStep::Names(names) => Ok(StatementStep::Done(StatementEffect::Names(names))),
    }
}

fn of_value(text: &[u8], value: ValueState, token: &Token) -> Result<StatementStep, ProtoFault>
    requires lies { IsTokenOfText text.now token.now }
    requires depth { value_depth value < 2 ^ 63 }
    ensures { IsResultOf result (StatementReading.of_value (value_reading value (lexeme text.now token.now))) }
{
    match advance_value(text, value, token)? {
        ValueStep::More(value) => more(StatementState::Value(value)),
        ValueStep::Done(value) => Ok(StatementStep::Done(StatementEffect::Value(value))),
    }
}

fn of_rpc(
    alloc: Global,
    text: &[u8],
    rpc: RpcState,
    token: &Token,
) -> Result<StatementStep, ProtoFault>
    requires { IsTokenOfText text.now token.now }
    ensures { IsResultOf result (StatementReading.of_rpc (rpc_reading rpc (lexeme text.now token.now))) }
{
    match advance_rpc(alloc, text, rpc, token)? {
        RpcStep::More(rpc) => more(StatementState::Rpc(rpc)),
        RpcStep::Done(rpc, block) => Ok(StatementStep::Done(StatementEffect::Rpc(rpc, block))),
    }
}

// Reads one token of a statement in this place.
#[tactic(auto, unfolding(crate::specs::StatementReading::advance_statement))]
pub(crate) fn advance_statement(
    alloc: Global,
    text: &[u8],
    place: StatementPlace,
    state: StatementState,
    token: &Token,
) -> Result<StatementStep, ProtoFault>
    requires lies { IsTokenOfText text.now token.now }
    requires depth { StatementReading.depth state < 2 ^ 63 }
    ensures { IsResultOf result (StatementReading.advance_statement place state (lexeme text.now token.now)) }
{
    match state {
        StatementState::Begin => advance_first_token(alloc, text, place, token),
        StatementState::Package(name) => of_package(alloc, text, name, token),
        StatementState::Import(public) => advance_import(alloc, text, public, token),
        StatementState::Imported(import) => import_ends(import, token),
        StatementState::Option(option) => of_option(text, option, token),
        StatementState::Opening(opening) => advance_opening(alloc, text, opening, token),
        StatementState::Opened(opening, name) => advance_opened(opening, name, token),
        StatementState::Field(field) => of_field(alloc, text, field, token),
        StatementState::Reserved(state) => of_reserved(alloc, text, state, token),
        StatementState::Value(value) => of_value(text, value, token),
        StatementState::Rpc(rpc) => of_rpc(alloc, text, rpc, token),
    }
}
