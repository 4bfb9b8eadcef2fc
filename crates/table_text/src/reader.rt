//! A draft with the names so far.

ghost use Rattle.std.specs.Prelude.{◌≡◌, ◌++◌, ◌∷◌, ℕ, List, [], length, IfOk, IfErr, OnOk, Some, None};
ghost use Rattle.table_text.specs.declared.line.TableLine.TheVariants.{Enum, Value};
ghost use Rattle.table_text.specs.LineTests.{TypeNames, is_type_before, is_value_before, is_field_before, method_key, is_unknown_kind, is_unknown_label, has_unknown_type, has_duplicate, line_fault, end_fault};
ghost use Rattle.table_text.specs.Lines.{line_of};
ghost use Rattle.table_text.specs.Drafts.{IsFaultAtLine, with_parsed_line, table_of_draft, names_before_line, open_part, empty_draft, resolved, labeled, joined_with, new_oneof, oneofs_of_open, resolved_field, resolved_method, with_line, added_enum, added_message, added_value, added_field, added_method};
ghost use Rattle.table_text.specs.NameIndex.{AreNames};
ghost use Rattle.table_text.specs.Readers.{IsReaderState};

use crate::draft::{OpenPart, TableDraft};
use crate::fault::{TableFault, TableReason};
use crate::line_tests::{exceeds_limit, has_map_key_fault, has_number_fault, has_syntax_fault};
use crate::name_index::NameIndex;
use crate::{EnumNumber, FieldLine, KindWord, LabelWord, MethodLine, TableLine, line_of};
use mrpc_table::{
    Bytes, Choices, Field, Kind, Label, Memory, Message, Method, Name, Names, Sequence, Table,
};
use std::alloc::Global;

// A table while its text is read, with the types that the text names. It also has the names so far: of enums, messages
// and methods with their services, of the values or fields of the open part, and of its oneofs.
pub(crate) struct TableReader {
    pub known_enums: NameIndex,
    pub known_messages: NameIndex,
    pub draft: TableDraft,
    pub enum_names: NameIndex,
    pub message_names: NameIndex,
    pub method_names: NameIndex,
    pub inner_names: NameIndex,
    pub oneofs: NameIndex,
}

impl Drop for TableReader {
    fn drop(self) {
        let TableReader {
            known_enums: _known_enums,
            known_messages: _known_messages,
            draft: _draft,
            enum_names: _enum_names,
            message_names: _message_names,
            method_names: _method_names,
            inner_names: _inner_names,
            oneofs: _oneofs,
        } = self;
    }
}

// A service and a method name, with a space between them.
fn key_of(alloc: Global, method: &MethodLine) -> Result<Bytes, Memory>
    ensures { IfOk result (λ key. key ≡ method_key method.now) }
{
    let mut key = method.service.copied(alloc)?;
    key.append(b" ")?;
    key.append(method.name.as_slice())?;
    Ok(key)
}

impl TableReader {
    // A reader before the first line, for a text that names these types.
    pub(crate) fn new(
        alloc: Global,
        known_enums: NameIndex,
        known_messages: NameIndex,
    ) -> TableReader
        ensures kept { (t : TypeNames) → AreNames known_enums t.enums → AreNames known_messages t.messages → IsReaderState t result }
        ensures nothing { result.draft ≡ empty_draft }
    {
        TableReader {
            known_enums,
            known_messages,
            draft: TableDraft::new(alloc),
            enum_names: NameIndex::new(alloc),
            message_names: NameIndex::new(alloc),
            method_names: NameIndex::new(alloc),
            inner_names: NameIndex::new(alloc),
            oneofs: NameIndex::new(alloc),
        }
    }

    fn is_type_before(&self, name: &[u8]) -> bool
        ensures { (t : TypeNames) → IsReaderState t self.now → result ≡ is_type_before (names_before_line self.now.draft) name.now }
    {
        self.enum_names.contains(name) || self.message_names.contains(name)
    }

    fn is_value_before(&self, name: &[u8]) -> bool
        ensures { (t : TypeNames) → IsReaderState t self.now
            → result ≡ is_value_before (open_part self.now.draft.open_part) name.now }
    {
        match self.draft.open_part {
            OpenPart::Enum(_) => self.inner_names.contains(name),
            _ => false,
        }
    }

    fn is_field_before(&self, name: &[u8]) -> bool
        ensures { (t : TypeNames) → IsReaderState t self.now
            → result ≡ is_field_before (open_part self.now.draft.open_part) name.now }
    {
        match self.draft.open_part {
            OpenPart::Message(_) => self.inner_names.contains(name),
            _ => false,
        }
    }

    // Whether a name or a field number occurred before.
    fn has_duplicate(&self, alloc: Global, line: &TableLine) -> Result<bool, Memory>
        ensures { (t : TypeNames) → IsReaderState t self.now
            → IfOk result (λ r. r ≡ has_duplicate (names_before_line self.now.draft) line.now) }
    {
        match line {
            TableLine::Enum(name) | TableLine::Message(name) => Ok(self.is_type_before(
                name.as_slice(),
            )),
            TableLine::Value(_, name) => Ok(self.is_value_before(name.as_slice())),
            TableLine::Field(field) => Ok(
                self.is_field_before(field.name.as_slice())
                    || self.draft.open_part.repeats_number(field.number),
            ),
            TableLine::Method(method) => {
                let key = key_of(alloc, method)?;
                Ok(self.method_names.contains(key.as_slice()))
            }
        }
    }

    fn is_unknown_kind(&self, kind: &KindWord) -> bool
        ensures { (t : TypeNames) → IsReaderState t self.now → result ≡ is_unknown_kind t kind.now }
    {
        match kind {
            KindWord::Scalar(_) => false,
            KindWord::Message(name) => !self.known_messages.contains(name.as_slice()),
            KindWord::Choice(name) => !self.known_enums.contains(name.as_slice()),
        }
    }

    fn is_unknown_label(&self, label: &LabelWord) -> bool
        ensures { (t : TypeNames) → IsReaderState t self.now → result ≡ is_unknown_label t label.now }
    {
        match label {
            LabelWord::Map(key) => self.is_unknown_kind(key),
            LabelWord::Plain
            | LabelWord::Optional
            | LabelWord::Repeated
            | LabelWord::Packed
            | LabelWord::Member(_) => false,
        }
    }

    // Whether the line uses a type that no line declares.
    fn has_unknown_type(&self, line: &TableLine) -> bool
        ensures { (t : TypeNames) → IsReaderState t self.now → result ≡ has_unknown_type t line.now }
    {
        match line {
            TableLine::Field(field) => {
                self.is_unknown_label(&field.label) || self.is_unknown_kind(&field.kind)
            }
            TableLine::Method(method) => {
                !self.known_messages.contains(method.input.as_slice())
                    || !self.known_messages.contains(method.output.as_slice())
            }
            _ => false,
        }
    }

    // The first reason for which a line is at fault; `bytes` is the offset of the line's end in the text.
    pub(crate) fn fault_of(
        &self,
        alloc: Global,
        line: &TableLine,
        bytes: usize,
    ) -> Result<Option<TableReason>, Memory>
        ensures { (t : TypeNames) → IsReaderState t self.now
            → IfOk result (λ r. r ≡ line_fault t (names_before_line self.now.draft) bytes (Some line.now)) }
    {
        if has_syntax_fault(&self.draft, line) {
            return Ok(Some(TableReason::Syntax));
        }
        if has_number_fault(&self.draft, line) {
            return Ok(Some(TableReason::Number));
        }
        if self.has_duplicate(alloc, line)? {
            return Ok(Some(TableReason::Duplicate));
        }
        if self.has_unknown_type(line) {
            return Ok(Some(TableReason::UnknownType));
        }
        if has_map_key_fault(line) {
            return Ok(Some(TableReason::MapKey));
        }
        if exceeds_limit(&self.draft, bytes, line) {
            return Ok(Some(TableReason::Limit));
        }
        Ok(None)
    }

    // Reads the line with this number; `bytes` is the offset of the line's end in the text.
    pub(crate) fn take(
        &mut self,
        alloc: Global,
        text: &[u8],
        bytes: usize,
        number: u64,
    ) -> Result<(), TableFault>
        ensures clean { (t : TypeNames) → IsReaderState t self.old
            → OnOk result (line_fault t (names_before_line self.old.draft) bytes (line_of text.now) ≡ None) }
        ensures draft { (t : TypeNames) → IsReaderState t self.old
            → OnOk result (self.new.draft ≡ with_parsed_line t self.old.draft (line_of text.now)) }
        ensures kept { (t : TypeNames) → IsReaderState t self.old → OnOk result (IsReaderState t self.new) }
        ensures fault { (t : TypeNames) → IsReaderState t self.old
            → IfErr result (λ e. IsFaultAtLine e number (line_fault t (names_before_line self.old.draft) bytes (line_of text.now))) }
    {
        let Some(line) = line_of(alloc, text)? else {
            return Err(TableFault::At {
                line: number,
                reason: TableReason::Syntax,
            });
        };
        if let Some(reason) = self.fault_of(alloc, &line, bytes)? {
            return Err(TableFault::At {
                line: number,
                reason,
            });
        }
        self.add(alloc, line)?;
        Ok(())
    }

    // Adds a line to the draft. A line without a fault is added without loss.
    fn add(&mut self, alloc: Global, line: TableLine) -> Result<(), Memory>
        ensures draft { (t : TypeNames) → IsReaderState t self.old
            → OnOk result (self.new.draft ≡ with_line t self.old.draft line) }
        ensures kept { (t : TypeNames) → IsReaderState t self.old → OnOk result (IsReaderState t self.new) }
    {
        match line {
            TableLine::Enum(name) => self.add_enum(alloc, name),
            TableLine::Value(number, name) => self.add_value(alloc, number, name),
            TableLine::Message(name) => self.add_message(alloc, name),
            TableLine::Field(field) => self.add_field(alloc, field),
            TableLine::Method(method) => self.add_method(alloc, method),
        }
    }

    // The first reason for which the end of the text is at fault.
    fn end_fault(&self, rest: &[u8]) -> Option<TableReason>
        ensures { result ≡ end_fault (names_before_line self.now.draft) rest.now }
    {
        if !rest.is_empty() || self.draft.open_part.lacks_value() {
            Some(TableReason::Syntax)
        } else if self.draft.open_part.lacks_zero() {
            Some(TableReason::Number)
        } else {
            None
        }
    }

    // The table, if the end of the text, which is the line with this number, isn't at fault.
    pub(crate) fn finish(self, rest: &[u8], number: u64) -> Result<Table, TableFault>
        ensures clean { OnOk result (end_fault (names_before_line self.draft) rest.now ≡ None) }
        ensures table { IfOk result (λ t. t ≡ table_of_draft self.draft) }
        ensures fault { IfErr result (λ e. IsFaultAtLine e number (end_fault (names_before_line self.draft) rest.now)) }
    {
        if let Some(reason) = self.end_fault(rest) {
            return Err(TableFault::At {
                line: number,
                reason,
            });
        }
        Ok(self.into_draft().into_table()?)
    }

    // The draft alone.
    fn into_draft(self) -> TableDraft
        ensures { result ≡ self.draft }
    {
        let TableReader {
            known_enums: _known_enums,
            known_messages: _known_messages,
            draft,
            enum_names: _enum_names,
            message_names: _message_names,
            method_names: _method_names,
            inner_names: _inner_names,
            oneofs: _oneofs,
        } = self;
        draft
    }

    // Starts an enum.
    fn add_enum(&mut self, alloc: Global, name: Name) -> Result<(), Memory>
        ensures draft { OnOk result (self.new.draft ≡ added_enum self.old.draft name) }
        ensures kept { (t : TypeNames) → IsReaderState t self.old → OnOk result (IsReaderState t self.new) }
    {
        self.enum_names.add(alloc, name.as_slice())?;
        self.inner_names = NameIndex::new(alloc);
        self.oneofs = NameIndex::new(alloc);
        self.draft.close()?;
        self.draft.open_part = OpenPart::Enum(Choices {
            name,
            values: Sequence::new(alloc),
        });
        Ok(())
    }

    // Starts a message.
    fn add_message(&mut self, alloc: Global, name: Name) -> Result<(), Memory>
        ensures draft { OnOk result (self.new.draft ≡ added_message self.old.draft name) }
        ensures kept { (t : TypeNames) → IsReaderState t self.old → OnOk result (IsReaderState t self.new) }
    {
        self.message_names.add(alloc, name.as_slice())?;
        self.inner_names = NameIndex::new(alloc);
        self.oneofs = NameIndex::new(alloc);
        self.draft.close()?;
        self.draft.open_part = OpenPart::Message(Message {
            name,
            fields: Sequence::new(alloc),
            oneofs: Sequence::new(alloc),
        });
        Ok(())
    }

    // Adds a value to the open enum.
    fn add_value(&mut self, alloc: Global, number: EnumNumber, name: Name) -> Result<(), Memory>
        ensures draft { OnOk result (self.new.draft ≡ added_value self.old.draft number name) }
        ensures kept { (t : TypeNames) → IsReaderState t self.old → OnOk result (IsReaderState t self.new) }
    {
        let EnumNumber::Within(number) = number else {
            return Ok(());
        };
        let OpenPart::Enum(_) = self.draft.open_part else {
            return Ok(());
        };
        self.inner_names.add(alloc, name.as_slice())?;
        self.draft.open_part.add_value(number, name)
    }

    // Adds a method.
    fn add_method(&mut self, alloc: Global, method: MethodLine) -> Result<(), Memory>
        ensures draft { (t : TypeNames) → IsReaderState t self.old
            → OnOk result (self.new.draft ≡ added_method t self.old.draft method) }
        ensures kept { (t : TypeNames) → IsReaderState t self.old → OnOk result (IsReaderState t self.new) }
    {
        add_key(alloc, &mut self.method_names, &method)?;
        self.inner_names = NameIndex::new(alloc);
        self.oneofs = NameIndex::new(alloc);
        self.draft.close()?;
        let method = resolved_method(&self.known_messages, method);
        self.draft.methods.push(method)
    }

    // The kind that a word names, with the index of its type in the table.
    fn resolved(&self, kind: &KindWord) -> Kind
        ensures { (t : TypeNames) → IsReaderState t self.now → result ≡ resolved t kind.now }
    {
        match kind {
            KindWord::Scalar(kind) => *kind,
            KindWord::Message(name) => {
                Kind::Message(self.known_messages.index_or_next(name.as_slice()))
            }
            KindWord::Choice(name) => {
                Kind::Choice(self.known_enums.index_or_next(name.as_slice()))
            }
        }
    }

    // The label that a word names, with the index of its oneof in the message.
    fn labeled(&self, label: &LabelWord) -> Label
        ensures { (t : TypeNames) → IsReaderState t self.now → result ≡ labeled t (oneofs_of_open self.now.draft.open_part) label.now }
    {
        match label {
            LabelWord::Plain => Label::Plain,
            LabelWord::Optional => Label::Optional,
            LabelWord::Repeated => Label::Repeated,
            LabelWord::Packed => Label::Packed,
            LabelWord::Map(key) => Label::Map(self.resolved(key)),
            LabelWord::Member(name) => Label::Member(self.oneofs.index_or_next(name.as_slice())),
        }
    }

    // A field with its number.
    fn resolved_field(&self, number: u32, line: FieldLine) -> Field
        ensures { (t : TypeNames) → IsReaderState t self.now
            → result ≡ resolved_field t (oneofs_of_open self.now.draft.open_part) number line }
    {
        let kind = self.resolved(&line.kind);
        let label = self.labeled(&line.label);
        Field {
            number,
            name: line.into_name(),
            kind,
            label,
        }
    }

    // The oneof of a label, if the open message doesn't have it yet.
    fn new_oneof(&self, alloc: Global, label: &LabelWord) -> Result<Option<Name>, Memory>
        ensures { (t : TypeNames) → IsReaderState t self.now
            → IfOk result (λ r. r ≡ new_oneof (oneofs_of_open self.now.draft.open_part) label.now) }
    {
        match label {
            LabelWord::Member(name) => {
                if self.oneofs.contains(name.as_slice()) {
                    Ok(None)
                } else {
                    Ok(Some(name.copied(alloc)?))
                }
            }
            _ => Ok(None),
        }
    }

    // Adds a field to the open message.
    fn add_field(&mut self, alloc: Global, line: FieldLine) -> Result<(), Memory>
        ensures draft { (t : TypeNames) → IsReaderState t self.old
            → OnOk result (self.new.draft ≡ added_field t self.old.draft line) }
        ensures kept { (t : TypeNames) → IsReaderState t self.old → OnOk result (IsReaderState t self.new) }
    {
        let Some(number) = line.number else {
            return Ok(());
        };
        let OpenPart::Message(_) = self.draft.open_part else {
            return Ok(());
        };
        let oneof = self.new_oneof(alloc, &line.label)?;
        let field = self.resolved_field(number, line);
        self.inner_names.add(alloc, field.name.as_slice())?;
        add_oneof(alloc, &mut self.oneofs, &oneof)?;
        self.draft.open_part.add_field(field, oneof)
    }
}

// A method, with the indices of its messages.
fn resolved_method(messages: &NameIndex, line: MethodLine) -> Method
    ensures { (t : TypeNames) → AreNames messages.now t.messages → result ≡ resolved_method t line }
{
    let input = messages.index_or_next(line.input.as_slice());
    let output = messages.index_or_next(line.output.as_slice());
    line.into_method(input, output)
}

// Adds the key of a method.
fn add_key(alloc: Global, names: &mut NameIndex, method: &MethodLine) -> Result<(), Memory>
    ensures { (old : List (List ℕ)) → AreNames names.old old
        → OnOk result (AreNames names.new (old ++ method_key method.now ∷ [])) }
{
    let key = key_of(alloc, method)?;
    names.add(alloc, key.as_slice())
}

// Adds a oneof, if there is a new one.
fn add_oneof(alloc: Global, oneofs: &mut NameIndex, oneof: &Option<Name>) -> Result<(), Memory>
    ensures { (old : List (List ℕ)) → AreNames oneofs.old old
        → OnOk result (AreNames oneofs.new (joined_with old oneof.now)) }
{
    match oneof {
        Some(name) => oneofs.add(alloc, name.as_slice()),
        None => Ok(()),
    }
}
