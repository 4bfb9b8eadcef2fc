//! Fields, token by token.

ghost use Rattle.std.specs.Prelude.{◌≡◌, ◌<◌, ◌^◌, ◌&&◌, ℕ, List, false};
ghost use Rattle.proto_grammar.specs.Lexemes.{lexeme, make_number, span_of as span_of_token};
ghost use Rattle.proto_grammar.specs.Advancing.{IsTokenOfText, IsResultOf, advance_field_type_name as typed_reading, advance_map_key as key_reading};
ghost use Rattle.proto_grammar.specs.Advancing.{is_map_start as map_begins, of_key as reading_of_key};
ghost use Rattle.proto_grammar.specs.Advancing.{of_inner_key as reading_of_inner_key, of_map_value as reading_of_value};
ghost use Rattle.proto_grammar.specs.Advancing.{of_inner_value as reading_of_inner_value, if_number, close_map as closed_map};
ghost use Rattle.proto_grammar.specs.Advancing.{advance_map as map_reading, map_depth, advance_named_field};
ghost use Rattle.proto_grammar.specs.Advancing.{of_type as reading_of_type, of_map as reading_of_map};
ghost use Rattle.proto_grammar.specs.Advancing.{of_tail as reading_of_tail, advance_field as field_reading, field_depth};
ghost use Rattle.proto_grammar.specs.Advancing.{finished_field};
ghost use Rattle.proto_grammar.specs.Advancing.{advance_tail as tail_reading, tail_depth};
ghost use Rattle.proto_grammar.specs.declared.field.FieldState.TheVariants as states;
ghost use Rattle.proto_grammar.specs.declared.field.FieldStep.TheVariants as steps;
ghost use Rattle.proto_grammar.specs.declared.tail.TailState.TheVariants as tails;

use crate::fault::{ProtoFault, ProtoReason};
use crate::lexeme::{
    identifier_of, is_punctuator, is_word, number_of, proto_fault_at, span_of, unexpected,
};
use crate::name::{NameState, NameStep, advance_type_name};
use crate::tail::{TailState, TailStep, advance_tail};
use proto_ast::{FieldDecl, FieldLabel, FieldType, Number, Word};
use proto_lexer::Token;
use std::alloc::Global;

/// How much of a field is read.
#[derive(Drop)]
pub enum FieldState {
    /// Its type is being read.
    Type(FieldLabel, NameState),
    /// Its type is a map, which is being read.
    Map(FieldLabel, MapState),
    /// Its type is read.
    Typed(FieldLabel, FieldType),
    /// Its name is read.
    Named(FieldHead),
    /// `=` is read.
    Equals(FieldHead),
    /// Its number is read.
    Tail(FieldHead, Number, TailState),
}

/// The parts of a field before its `=`.
pub struct FieldHead {
    pub label: FieldLabel,
    pub kind: FieldType,
    pub name: Word,
}

impl Drop for FieldHead {
    fn drop(self) {
        let FieldHead {
            label: _,
            kind: _kind,
            name: _name,
        } = self;
    }
}

impl FieldHead {
    // The field, given the parts after the `=`.
    fn with(self, number: Number, packed: Option<bool>) -> FieldDecl
        ensures { result ≡ finished_field self number packed }
    {
        let FieldHead { label, kind, name } = self;
        FieldDecl {
            name,
            number,
            kind,
            label,
            oneof: None,
            packed,
        }
    }
}

/// How much of a map type is read.
#[derive(Drop)]
pub enum MapState {
    /// The key of the outermost map is being read.
    Key(NameState),
    /// The value of the outermost map is being read.
    Value(Word, NameState),
    /// A key of a map in this many others is being read, after the key of the outermost map.
    InnerKey(Word, usize, NameState),
    /// A value of a map in this many others is being read.
    InnerValue(Word, usize, NameState),
    /// This many maps are still open.
    Close(Word, usize),
}

/// The result of reading one token of a field.
#[derive(Drop)]
pub enum FieldStep {
    More(FieldState),
    /// The token is the final `;`.
    Done(FieldDecl),
}

/// The result of reading one token of a map type.
#[derive(Drop)]
pub enum MapStep {
    More(MapState),
    Done(FieldType),
}

// Reads a token of a type's name, or the one after it. `group` is rejected.
pub(crate) fn advance_field_type_name(
    alloc: Global,
    text: &[u8],
    state: NameState,
    token: &Token,
) -> Result<NameStep, ProtoFault>
    requires { IsTokenOfText text.now token.now }
    ensures { IsResultOf result (typed_reading state (lexeme text.now token.now)) }
{
    match state {
        NameState::Start if is_word(text, token, b"group") => {
            Err(proto_fault_at(ProtoReason::Group, span_of(token)))
        }
        other => advance_type_name(alloc, text, other, token),
    }
}

// True if a map type starts: the name is `map`, and the token is `<`.
fn is_map_start(word: &Word, token: &Token) -> bool
    ensures { (text : List ℕ) → result ≡ map_begins word.now (lexeme text token.now) }
{
    is_punctuator(token, b'<') && word.name.as_slice() == b"map".as_slice()
}

// Reads a token of a map's key, or the comma after it.
fn advance_map_key(
    alloc: Global,
    text: &[u8],
    state: NameState,
    token: &Token,
) -> Result<NameStep, ProtoFault>
    requires { IsTokenOfText text.now token.now }
    ensures { IsResultOf result (key_reading state (lexeme text.now token.now)) }
{
    match advance_field_type_name(alloc, text, state, token)? {
        NameStep::Whole(_) if !is_punctuator(token, b',') => Err(unexpected(token)),
        step => Ok(step),
    }
}

// Closes one of the nested maps.
fn close_map(outer: Word, depth: usize) -> MapStep
    ensures { result ≡ closed_map outer depth }
{
    if depth <= 1 {
        MapStep::Done(FieldType::NestedMap { key: outer })
    } else {
        MapStep::More(MapState::Close(outer, depth - 1))
    }
}

fn of_key(alloc: Global, text: &[u8], name: NameState, token: &Token) -> Result<MapStep, ProtoFault>
    requires { IsTokenOfText text.now token.now }
    ensures { IsResultOf result (reading_of_key (key_reading name (lexeme text.now token.now))) }
{
    match advance_map_key(alloc, text, name, token)? {
        NameStep::More(name) => Ok(MapStep::More(MapState::Key(name))),
        NameStep::Whole(key) => Ok(MapStep::More(MapState::Value(key, NameState::Start))),
    }
}

fn of_inner_key(
    alloc: Global,
    text: &[u8],
    outer: Word,
    depth: usize,
    name: NameState,
    token: &Token,
) -> Result<MapStep, ProtoFault>
    requires { IsTokenOfText text.now token.now }
    ensures { IsResultOf result (reading_of_inner_key outer depth (key_reading name (lexeme text.now token.now))) }
{
    match advance_map_key(alloc, text, name, token)? {
        NameStep::More(name) => Ok(MapStep::More(MapState::InnerKey(outer, depth, name))),
        NameStep::Whole(_) => Ok(MapStep::More(MapState::InnerValue(
            outer,
            depth,
            NameState::Start,
        ))),
    }
}

fn of_value(
    alloc: Global,
    text: &[u8],
    key: Word,
    name: NameState,
    token: &Token,
) -> Result<MapStep, ProtoFault>
    requires { IsTokenOfText text.now token.now }
    ensures { let x = lexeme text.now token.now in IsResultOf result (reading_of_value key x (typed_reading name x)) }
{
    match advance_field_type_name(alloc, text, name, token)? {
        NameStep::More(name) => Ok(MapStep::More(MapState::Value(key, name))),
        NameStep::Whole(value) if is_punctuator(token, b'>') => {
            Ok(MapStep::Done(FieldType::Map { key, value }))
        }
        NameStep::Whole(value) if is_map_start(&value, token) => {
            Ok(MapStep::More(MapState::InnerKey(key, 1, NameState::Start)))
        }
        NameStep::Whole(_) => Err(unexpected(token)),
    }
}

fn of_inner_value(
    alloc: Global,
    text: &[u8],
    outer: Word,
    depth: usize,
    name: NameState,
    token: &Token,
) -> Result<MapStep, ProtoFault>
    requires lies { IsTokenOfText text.now token.now }
    requires depth { depth < 2 ^ 63 }
    ensures { let x = lexeme text.now token.now in
        IsResultOf result (reading_of_inner_value outer depth x (typed_reading name x)) }
{
    match advance_field_type_name(alloc, text, name, token)? {
        NameStep::More(name) => Ok(MapStep::More(MapState::InnerValue(outer, depth, name))),
        NameStep::Whole(_) if is_punctuator(token, b'>') => Ok(MapStep::More(MapState::Close(
            outer, depth,
        ))),
        NameStep::Whole(value) if is_map_start(&value, token) => {
            Ok(MapStep::More(MapState::InnerKey(outer, depth + 1, NameState::Start)))
        }
        NameStep::Whole(_) => Err(unexpected(token)),
    }
}

#[tactic(auto, unfolding(crate::specs::Advancing::advance_map))]
fn advance_map(
    alloc: Global,
    text: &[u8],
    state: MapState,
    token: &Token,
) -> Result<MapStep, ProtoFault>
    requires lies { IsTokenOfText text.now token.now }
    requires depth { map_depth state < 2 ^ 63 }
    ensures { IsResultOf result (map_reading state (lexeme text.now token.now)) }
{
    match state {
        MapState::Key(name) => of_key(alloc, text, name, token),
        MapState::InnerKey(outer, depth, name) => {
            of_inner_key(alloc, text, outer, depth, name, token)
        }
        MapState::Value(key, name) => of_value(alloc, text, key, name, token),
        MapState::InnerValue(outer, depth, name) => {
            of_inner_value(alloc, text, outer, depth, name, token)
        }
        MapState::Close(outer, depth) if is_punctuator(token, b'>') => Ok(close_map(outer, depth)),
        MapState::Close(_, _) => Err(unexpected(token)),
    }
}

// Reads the name of a field, after its type.
fn named(
    alloc: Global,
    text: &[u8],
    label: FieldLabel,
    kind: FieldType,
    token: &Token,
) -> Result<FieldStep, ProtoFault>
    requires { IsTokenOfText text.now token.now }
    ensures { IsResultOf result (advance_named_field label kind (lexeme text.now token.now)) }
{
    let name = identifier_of(alloc, text, token)?;
    Ok(FieldStep::More(FieldState::Named(FieldHead { label, kind, name })))
}

// Reads a token of the type, or the one after it.
fn of_type(
    alloc: Global,
    text: &[u8],
    label: FieldLabel,
    name: NameState,
    token: &Token,
) -> Result<FieldStep, ProtoFault>
    requires { IsTokenOfText text.now token.now }
    ensures { let x = lexeme text.now token.now in IsResultOf result (reading_of_type label x (typed_reading name x)) }
{
    match advance_field_type_name(alloc, text, name, token)? {
        NameStep::More(name) => Ok(FieldStep::More(FieldState::Type(label, name))),
        NameStep::Whole(word) if is_map_start(&word, token) => Ok(FieldStep::More(FieldState::Map(
            label,
            MapState::Key(NameState::Start),
        ))),
        NameStep::Whole(word) => named(alloc, text, label, FieldType::Named(word), token),
    }
}

fn of_map(
    alloc: Global,
    text: &[u8],
    label: FieldLabel,
    map: MapState,
    token: &Token,
) -> Result<FieldStep, ProtoFault>
    requires lies { IsTokenOfText text.now token.now }
    requires depth { map_depth map < 2 ^ 63 }
    ensures { IsResultOf result (reading_of_map label (map_reading map (lexeme text.now token.now))) }
{
    match advance_map(alloc, text, map, token)? {
        MapStep::More(map) => Ok(FieldStep::More(FieldState::Map(label, map))),
        MapStep::Done(kind) => Ok(FieldStep::More(FieldState::Typed(label, kind))),
    }
}

fn of_tail(
    text: &[u8],
    head: FieldHead,
    number: Number,
    tail: TailState,
    token: &Token,
) -> Result<FieldStep, ProtoFault>
    requires lies { IsTokenOfText text.now token.now }
    requires depth { tail_depth tail < 2 ^ 63 }
    ensures { IsResultOf result (reading_of_tail head number (tail_reading tail (lexeme text.now token.now))) }
{
    match advance_tail(text, tail, token)? {
        TailStep::More(tail) => Ok(FieldStep::More(FieldState::Tail(head, number, tail))),
        TailStep::Done(packed) => Ok(FieldStep::Done(head.with(number, packed))),
    }
}

// Reads the number of a field.
fn of_number(head: FieldHead, token: &Token) -> Result<FieldStep, ProtoFault>
    ensures { (text : List ℕ) → IsResultOf result (if_number (lexeme text token.now)
        (λ v. steps.More (states.Tail head (make_number false v (span_of_token token.now)) tails.Start))) }
{
    let number = number_of(token)?;
    Ok(FieldStep::More(FieldState::Tail(head, number, TailState::Start)))
}

/// Reads one token of a field.
#[tactic(auto, unfolding(crate::specs::Advancing::advance_field))]
pub fn advance_field(
    alloc: Global,
    text: &[u8],
    state: FieldState,
    token: &Token,
) -> Result<FieldStep, ProtoFault>
    requires lies { IsTokenOfText text.now token.now }
    requires depth { field_depth state < 2 ^ 63 }
    ensures { IsResultOf result (field_reading state (lexeme text.now token.now)) }
{
    match state {
        FieldState::Type(label, name) => of_type(alloc, text, label, name, token),
        FieldState::Map(label, map) => of_map(alloc, text, label, map, token),
        FieldState::Typed(label, kind) => named(alloc, text, label, kind, token),
        FieldState::Named(head) if is_punctuator(token, b'=') => {
            Ok(FieldStep::More(FieldState::Equals(head)))
        }
        FieldState::Named(_) => Err(unexpected(token)),
        FieldState::Equals(head) => of_number(head, token),
        FieldState::Tail(head, number, tail) => of_tail(text, head, number, tail, token),
    }
}
