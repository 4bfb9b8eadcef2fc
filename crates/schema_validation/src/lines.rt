//! The lengths of full names, and of the lines of a table's text, before the table is made.

ghost use Rattle.std.specs.Prelude.{◌≡◌, ◌+◌, ◌*◌, ◌<◌, ◌≤◌, ◌^◌, ℕ, List, ◌++◌, length, Some, slice_get, IfOk, OnOk, MatchOption, FitsSigned, map};
ghost use Rattle.std.specs.Int.{w32};
ghost use Rattle.std.specs.Fmt.{decimal};
ghost use Rattle.mrpc_table.specs.Scalars.{no_table};
ghost use Rattle.mrpc_table.specs.declared.table.Label.TheVariants as labels;
ghost use Rattle.mrpc_table.specs.Text.{kind_text, label_text, value_line};
ghost use Rattle.proto_ast.specs.Together.{IsFormed, IsOrdered, field_decl, rpc_decl};
ghost use Rattle.proto_ast.specs.Joined.{package_parts, enclosing_of, enclosing_of_enum};
ghost use Rattle.proto_ast.specs.declared.joined.Enclosing.TheVariants as home;
ghost use Rattle.schema_symbols.specs.Scopes.{IsScope};
ghost use Rattle.schema_validation.specs.Types.{signed_value, label_in};
ghost use Rattle.schema_validation.specs.Recording.{HasRecorded, IsOfAny, IsOfElement, IsLongNameViolation, IsLongTextViolation};
ghost use Rattle.mrpc_table.specs.Capped.{capped};
ghost use Rattle.schema_validation.specs.Lengths.{prefix_length, HasLengths, AreLengths, full_length, IsKeptType, IsKeptHome, type_length, IsLengthAt, line_entry, rpcs_before, HasLinesBefore, HasAllLines, IsPast, IsLongName};

use crate::first::FirstViolation;
use crate::numbers::{enum_number, field_number};
use crate::reason::ResolveReason;
use crate::services::message_of;
use crate::types::{FieldShape, TypeOf, field_shape_of};
use mrpc_table::{Kind, Label, MAX_FULL_NAME, MAX_TEXT, Memory};
use proto_ast::{
    Enclosing, FieldDecl, Head, Joined, MessageDecl, RpcDecl, ServiceDecl, Span, ValueDecl, Word,
    Words,
};
use schema_symbols::{Symbol, SymbolTable, reference_is_unique, scope_is_determined};
use std::alloc::Global;

// The lengths of full names.
#[derive(Drop)]
pub(crate) struct Lengths {
    // For each file, the length of its package and the dot after it.
    fronts: Vec<usize>,
    messages: Vec<usize>,
    enums: Vec<usize>,
}

// The length of a package and the dot after it.
fn package_prefix_len(declared: &Option<Word>) -> usize
    ensures { result ≡ capped (prefix_length (package_parts declared.now)) }
{
    match declared {
        Some(word) => word.name.len().saturating_add(1),
        None => 0,
    }
}

// The length of each file's package and the dot after it.
fn package_prefix_lens(alloc: Global, heads: &[Head]) -> Result<Vec<usize>, Memory>
    ensures { IfOk result (λ v.
        v.items ≡ map (λ h. capped (prefix_length (package_parts h.package))) heads.now) }
{
    let mut fronts = Vec::with_capacity(alloc, heads.len())?;
    for head in heads {
        fronts.push(package_prefix_len(&head.package))?;
    }
    Ok(fronts)
}

impl Lengths {
    // The lengths of the full names of messages and enums.
    pub(crate) fn new(alloc: Global, files: &Joined<'_>) -> Result<Lengths, Memory>
        requires { IsFormed files.now }
        ensures { IfOk result (AreLengths files.now) }
    {
        let mut lengths = Lengths {
            fronts: package_prefix_lens(alloc, files.heads())?,
            messages: Vec::with_capacity(alloc, files.messages().len())?,
            enums: Vec::with_capacity(alloc, files.enums().len())?,
        };
        scope_is_determined();
        lengths.add_messages(files)?;
        lengths.add_enums(files)?;
        Ok(lengths)
    }

    fn add_messages(&mut self, files: &Joined<'_>) -> Result<(), Memory>
        requires formed { IsFormed files.now }
        requires none { HasLengths files.now 0 0 self.old }
        ensures { OnOk result (HasLengths files.now (length files.now.messages) 0 self.new) }
    {
        let all = files.messages();
        for i in 0..all.len() {
            let message = &all[i];
            let length = self.full(message.enclosing(), &message.name);
            self.messages.push(length)?;
        }
        Ok(())
    }

    fn add_enums(&mut self, files: &Joined<'_>) -> Result<(), Memory>
        requires formed { IsFormed files.now }
        requires messages { HasLengths files.now (length files.now.messages) 0 self.old }
        ensures { OnOk result (AreLengths files.now self.new) }
    {
        let all = files.enums();
        for i in 0..all.len() {
            let choices = &all[i];
            let length = self.full(choices.enclosing(), &choices.name);
            self.enums.push(length)?;
        }
        Ok(())
    }

    // The length of the full name of a declaration inside a file or a message.
    fn full(&self, home: Enclosing, word: &Word) -> usize
        requires { IsKeptHome self.now home }
        ensures { result ≡ full_length self.now home word.now }
    {
        let front = match home {
            Enclosing::Message(i) => self.messages[i].saturating_add(1),
            Enclosing::File(k) => self.fronts[k],
        };
        front.saturating_add(word.name.len())
    }

    // Records each message, enum or service whose full name is too long.
    pub(crate) fn note_long(&self, files: &Joined<'_>, first: &mut FirstViolation)
        requires formed { IsFormed files.now }
        requires lengths { AreLengths files.now self.now }
        ensures { HasRecorded (IsLongNameViolation files.now) first.old first.new }
    {
        scope_is_determined();
        self.note_messages(files, first);
        self.note_enums(files, first);
        self.note_services(files, first);
    }

    fn note_messages(&self, files: &Joined<'_>, first: &mut FirstViolation)
        requires formed { IsFormed files.now }
        requires lengths { AreLengths files.now self.now }
        ensures { HasRecorded (IsOfAny (IsOfElement files.now.messages (λ i m. IsLongName self.now (enclosing_of m) m.name)))
            first.old first.new }
    {
        let all = files.messages();
        for i in 0..all.len() {
            let message = &all[i];
            self.note_full(message.enclosing(), &message.name, first);
        }
    }

    fn note_enums(&self, files: &Joined<'_>, first: &mut FirstViolation)
        requires formed { IsFormed files.now }
        requires lengths { AreLengths files.now self.now }
        ensures { HasRecorded (IsOfAny (IsOfElement files.now.enums (λ i e. IsLongName self.now (enclosing_of_enum e) e.name)))
            first.old first.new }
    {
        let all = files.enums();
        for i in 0..all.len() {
            let choices = &all[i];
            self.note_full(choices.enclosing(), &choices.name, first);
        }
    }

    fn note_services(&self, files: &Joined<'_>, first: &mut FirstViolation)
        requires formed { IsFormed files.now }
        requires lengths { AreLengths files.now self.now }
        ensures { HasRecorded (IsOfAny (IsOfElement files.now.services (λ i x. IsLongName self.now (home.File x.file) x.name)))
            first.old first.new }
    {
        let all = files.services();
        for i in 0..all.len() {
            let service = &all[i];
            self.note_full(Enclosing::File(service.file), &service.name, first);
        }
    }

    fn note_full(&self, home: Enclosing, word: &Word, first: &mut FirstViolation)
        requires { IsKeptHome self.now home }
        ensures { HasRecorded (IsLongName self.now home word.now) first.old first.new }
    {
        let long = self.full(home, word) > MAX_FULL_NAME;
        first.note_if(long, ResolveReason::Limit, word.span);
    }

    // The length of the word for a type in a table's text.
    fn of_type(&self, type_of: TypeOf) -> usize
        requires { IsKeptType self.now type_of }
        ensures { result ≡ type_length self.now type_of }
    {
        match type_of {
            TypeOf::Scalar(kind) => kind_length(kind),
            TypeOf::Named(Symbol::Message(i)) => self.messages[i].saturating_add(8),
            TypeOf::Named(Symbol::Enum(i)) => self.enums[i].saturating_add(5),
        }
    }
}

// The length of the word for a kind: a scalar's name, or the word before the name of a message or an enum.
fn kind_length(kind: Kind) -> usize
    ensures { result ≡ length (kind_text no_table kind) }
{
    match kind {
        Kind::Bool => 4,
        Kind::Int32 | Kind::Int64 | Kind::Float | Kind::Octets | Kind::Choice(_) => 5,
        Kind::Uint32 | Kind::Uint64 | Kind::Sint32 | Kind::Sint64 | Kind::Double | Kind::Text => 6,
        Kind::Fixed32 | Kind::Fixed64 => 7,
        Kind::Sfixed32 | Kind::Sfixed64 | Kind::Message(_) => 8,
    }
}

// The length of a oneof's name and of the word before it.
fn oneof_length(oneofs: &Words, place: usize) -> usize
    ensures { result ≡ capped (length (label_text no_table (map (λ o. o.name) oneofs.now) (labels.Member place))) }
{
    match oneofs.as_slice().get(place) {
        Some(word) => word.name.len().saturating_add(6),
        None => 6,
    }
}

fn label_length(oneofs: &Words, form: FieldShape) -> usize
    ensures { result
        ≡ capped (length (label_text no_table (map (λ o. o.name) oneofs.now) (label_in form.oneof form.label))) }
{
    if let Some(place) = form.oneof {
        return oneof_length(oneofs, place);
    }
    match form.label {
        Label::Plain => 5,
        Label::Packed => 6,
        Label::Optional | Label::Repeated => 8,
        Label::Map(key) => kind_length(key).saturating_add(4),
        Label::Member(place) => oneof_length(oneofs, place as usize),
    }
}

// The number of decimal digits of a number.
fn digits(number: u128) -> usize
    ensures is { result ≡ length (decimal number) }
    ensures few { result ≤ 39 }
{
    let mut rest = number;
    let mut count = 1;
    while rest >= 10 {
        rest /= 10;
        count += 1;
    }
    count
}

// The length of the line `value NUMBER NAME`.
fn value_length(value: &ValueDecl) -> Option<usize>
    ensures { MatchOption result (FitsSigned w32 (signed_value value.now.number) → ⊥)
        (λ n. FitsSigned w32 (signed_value value.now.number)
        × (n ≡ capped (length (value_line (signed_value value.now.number, value.now.name.name))))) }
{
    let number = enum_number(&value.number)?;
    let sign: usize = if number < 0 { 1 } else { 0 };
    let length = 8 + sign + digits(u128::from(number.unsigned_abs()));
    Some(length.saturating_add(value.name.name.len()))
}

// The length of the line `field NUMBER LABEL KIND NAME`.
fn field_length<'a>(
    scopes: &SymbolTable<'a>,
    lengths: &Lengths,
    i: usize,
    message: &'a MessageDecl,
    field: &'a FieldDecl,
) -> Option<usize>
    requires lengths { AreLengths scopes.now lengths.now }
    requires place { slice_get scopes.now.messages i ≡ Some message.now }
    requires file { message.now.file < length scopes.now.heads }
    requires scope { (scope : List (List ℕ)) × IsScope scopes.now (home.Message i) scope }
    ensures { (j : ℕ) → slice_get message.now.fields j ≡ Some field.now
        → IsLengthAt scopes.now (field_decl i j) field.now.name.span result }
{
    let form = field_shape_of(scopes, message.file, i, field)?;
    let number = field_number(&field.number)?;
    let front = 10 + digits(u128::from(number));
    Some(
        front
            .saturating_add(label_length(&message.oneofs, form))
            .saturating_add(lengths.of_type(form.type_of))
            .saturating_add(field.name.name.len()),
    )
}

// The length of the line `method INDEX SERVICE NAME INPUT OUTPUT`.
fn method_length<'a>(
    scopes: &SymbolTable<'a>,
    lengths: &Lengths,
    index: u128,
    service: &ServiceDecl,
    rpc: &'a RpcDecl,
) -> Option<usize>
    requires ordered { IsOrdered scopes.now }
    requires lengths { AreLengths scopes.now lengths.now }
    requires file { service.now.file < length scopes.now.heads }
    ensures { (i j : ℕ) → slice_get scopes.now.services i ≡ Some service.now
        → slice_get service.now.rpcs j ≡ Some rpc.now → index ≡ rpcs_before scopes.now i + j
        → IsLengthAt scopes.now (rpc_decl i j) rpc.now.name.span result }
{
    let input = message_of(scopes, service.file, &rpc.input)?;
    let output = message_of(scopes, service.file, &rpc.output)?;
    let front = 12 + digits(index);
    Some(
        front
            .saturating_add(lengths.full(Enclosing::File(service.file), &service.name))
            .saturating_add(rpc.name.name.len())
            .saturating_add(lengths.messages[input])
            .saturating_add(lengths.messages[output]),
    )
}

// The spans of names and the lengths of their lines.
type NameLines = Vec<(Span, usize)>;

fn add(lines: &mut NameLines, span: Span, length: Option<usize>) -> Result<(), Memory>
    ensures { OnOk result (lines.new.items ≡ lines.old.items ++ line_entry span length) }
{
    if let Some(length) = length {
        lines.push((span, length))?;
    }
    Ok(())
}

fn add_fields<'a>(
    files: &Joined<'a>,
    scopes: &SymbolTable<'a>,
    lengths: &Lengths,
    i: usize,
    lines: &mut NameLines,
) -> Result<(), Memory>
    requires formed { IsFormed files.now }
    requires ordered { IsOrdered files.now }
    requires scopes { scopes.now ≡ files.now }
    requires lengths { AreLengths files.now lengths.now }
    requires place { i < length files.now.messages }
    requires scope { (scope : List (List ℕ)) × IsScope files.now (home.Message i) scope }
    requires message { HasLinesBefore files.now 0 i 1 lines.old.items }
    ensures { OnOk result (HasLinesBefore files.now 0 (i + 1) 0 lines.new.items) }
{
    let message = &files.messages()[i];
    let fields = message.fields.as_slice();
    for j in 0..fields.len() {
        let field = &fields[j];
        let length = field_length(scopes, lengths, i, message, field);
        add(lines, field.name.span, length)?;
    }
    Ok(())
}

fn add_messages<'a>(
    files: &Joined<'a>,
    scopes: &SymbolTable<'a>,
    lengths: &Lengths,
    lines: &mut NameLines,
) -> Result<(), Memory>
    requires formed { IsFormed files.now }
    requires ordered { IsOrdered files.now }
    requires scopes { scopes.now ≡ files.now }
    requires lengths { AreLengths files.now lengths.now }
    requires none { HasLinesBefore files.now 0 0 0 lines.old.items }
    ensures { OnOk result (HasLinesBefore files.now 1 0 0 lines.new.items) }
{
    scope_is_determined();
    let all = files.messages();
    for i in 0..all.len() {
        let length = lengths.messages[i].saturating_add(9);
        let message = &all[i];
        add(lines, message.name.span, Some(length))?;
        add_fields(files, scopes, lengths, i, lines)?;
    }
    Ok(())
}

fn add_values(files: &Joined<'_>, i: usize, lines: &mut NameLines) -> Result<(), Memory>
    requires ordered { IsOrdered files.now }
    requires place { i < length files.now.enums }
    requires choices { HasLinesBefore files.now 1 i 1 lines.old.items }
    ensures { OnOk result (HasLinesBefore files.now 1 (i + 1) 0 lines.new.items) }
{
    let choices = &files.enums()[i];
    let values = choices.values.as_slice();
    for j in 0..values.len() {
        let value = &values[j];
        let length = value_length(value);
        add(lines, value.name.span, length)?;
    }
    Ok(())
}

fn add_enums(files: &Joined<'_>, lengths: &Lengths, lines: &mut NameLines) -> Result<(), Memory>
    requires formed { IsFormed files.now }
    requires ordered { IsOrdered files.now }
    requires lengths { AreLengths files.now lengths.now }
    requires messages { HasLinesBefore files.now 1 0 0 lines.old.items }
    ensures { OnOk result (HasLinesBefore files.now 2 0 0 lines.new.items) }
{
    scope_is_determined();
    let all = files.enums();
    for i in 0..all.len() {
        let length = lengths.enums[i].saturating_add(6);
        let choices = &all[i];
        add(lines, choices.name.span, Some(length))?;
        add_values(files, i, lines)?;
    }
    Ok(())
}

// Adds the lines of a service's methods, given the number of methods before it.
fn add_rpcs<'a>(
    files: &Joined<'a>,
    scopes: &SymbolTable<'a>,
    lengths: &Lengths,
    i: usize,
    before: u128,
    lines: &mut NameLines,
) -> Result<(), Memory>
    requires formed { IsFormed files.now }
    requires ordered { IsOrdered files.now }
    requires scopes { scopes.now ≡ files.now }
    requires lengths { AreLengths files.now lengths.now }
    requires place { i < length files.now.services }
    requires before { before ≡ rpcs_before files.now i }
    requires few { before ≤ i * 2 ^ 64 }
    requires services { HasLinesBefore files.now 2 i 0 lines.old.items }
    ensures { OnOk result (HasLinesBefore files.now 2 (i + 1) 0 lines.new.items) }
{
    let service = &files.services()[i];
    let rpcs = service.rpcs.as_slice();
    for j in 0..rpcs.len() {
        let rpc = &rpcs[j];
        let length = method_length(scopes, lengths, before + j as u128, service, rpc);
        add(lines, rpc.name.span, length)?;
    }
    Ok(())
}

fn add_methods<'a>(
    files: &Joined<'a>,
    scopes: &SymbolTable<'a>,
    lengths: &Lengths,
    lines: &mut NameLines,
) -> Result<(), Memory>
    requires formed { IsFormed files.now }
    requires ordered { IsOrdered files.now }
    requires scopes { scopes.now ≡ files.now }
    requires lengths { AreLengths files.now lengths.now }
    requires enums { HasLinesBefore files.now 2 0 0 lines.old.items }
    ensures { OnOk result (HasAllLines files.now lines.new.items) }
{
    let all = files.services();
    let mut before: u128 = 0;
    for i in 0..all.len() {
        add_rpcs(files, scopes, lengths, i, before, lines)?;
        let service = &all[i];
        before += service.rpcs.len() as u128;
    }
    Ok(())
}

// Records each name at which the lines so far exceed the limit of a table's text.
fn note_lines(lines: &[(Span, usize)], first: &mut FirstViolation)
    ensures { HasRecorded (IsOfAny (IsOfElement lines.now (IsPast lines.now))) first.old first.new }
{
    let mut total: usize = 0;
    for i in 0..lines.len() {
        let line = &lines[i];
        total = total.saturating_add(line.1);
        first.note_if(total > MAX_TEXT, ResolveReason::Limit, line.0);
    }
}

// Records the first name at which the lines, in the order of the text, exceed the limit of a table's text.
pub(crate) fn note_text<'a>(
    alloc: Global,
    files: &Joined<'a>,
    scopes: &SymbolTable<'a>,
    lengths: &Lengths,
    first: &mut FirstViolation,
) -> Result<(), Memory>
    requires formed { IsFormed files.now }
    requires ordered { IsOrdered files.now }
    requires scopes { scopes.now ≡ files.now }
    requires lengths { AreLengths files.now lengths.now }
    ensures { OnOk result (HasRecorded (IsLongTextViolation files.now) first.old first.new) }
{
    scope_is_determined();
    reference_is_unique();
    let mut lines = Vec::new(alloc);
    add_messages(files, scopes, lengths, &mut lines)?;
    add_enums(files, lengths, &mut lines)?;
    add_methods(files, scopes, lengths, &mut lines)?;
    lines.sort_by_key(|line| line.0.start)?;
    note_lines(&lines, first);
    Ok(())
}
