//! A table while its text is read.

ghost use Rattle.std.specs.Prelude.{◌≡◌, ◌<◌, ◌==◌, ◌++◌, ◌∷◌, ℕ, [], length, map, not, nat_le, option_map, IsTrue, IfOk, OnOk};
ghost use Rattle.std.specs.Prelude.{pos};
ghost use Rattle.std.specs.Ordering.{int_eq};
ghost use Rattle.std.specs.List.{list_any};
ghost use Rattle.std.specs.Option.{option_copied};
ghost use Rattle.table_text.specs.LineTests.{is_below, is_empty, is_below_last, is_value_below, lacks_value, lacks_zero, is_value_out_of_order, is_field_out_of_order, open_count, repeats_number};
ghost use Rattle.table_text.specs.declared.line.EnumNumber.TheVariants.{Within};
ghost use Rattle.table_text.specs.Drafts.{open_part, enum_names, message_names, with_enum, with_message, with_value, joined_parts, with_parts, with_part_closed, table_of_draft, empty_draft};

use crate::EnumNumber;
use mrpc_table::{
    Choices, Enums, Field, MAX_ENUMS, MAX_MESSAGES, Memory, Message, Messages, Methods, Name,
    Sequence, Table,
};
use std::alloc::Global;
use std::cmp::Ordering;
use std::mem;

// The enum or message that a line may extend.
pub(crate) enum OpenPart {
    Nothing,
    Enum(Choices),
    Message(Message),
}

// The finished parts, and the open one.
pub(crate) struct TableDraft {
    pub enums: Enums,
    pub messages: Messages,
    pub methods: Methods,
    pub open_part: OpenPart,
}

impl Drop for OpenPart {
    fn drop(self) {
        match self {
            OpenPart::Nothing => {}
            OpenPart::Enum(_choices) => {}
            OpenPart::Message(_message) => {}
        }
    }
}

impl Drop for TableDraft {
    fn drop(self) {
        let TableDraft {
            enums: _enums,
            messages: _messages,
            methods: _methods,
            open_part: _open_part,
        } = self;
    }
}

fn add_parts(message: &mut Message, field: Field, oneof: Option<Name>) -> Result<(), Memory>
    ensures { OnOk result (message.new ≡ joined_parts message.old field oneof) }
{
    message.fields.push(field)?;
    match oneof {
        Some(name) => message.oneofs.push(name),
        None => Ok(()),
    }
}

// Whether a name is below another, byte by byte.
fn is_below<'a>(name: &'a [u8], other: &'a [u8]) -> bool
    ensures { result ≡ is_below name.now other.now }
{
    matches!(name.cmp(&other), Ordering::Less)
}

fn is_value_below(number: EnumNumber, name: &[u8], last: &(i32, Name)) -> bool
    ensures { result ≡ is_value_below number name.now last.now }
{
    match number {
        EnumNumber::Low => true,
        EnumNumber::Within(number) => {
            number < last.0 || (number == last.0 && is_below(name, last.1.as_slice()))
        }
        EnumNumber::High => false,
    }
}

fn has_zero(values: &[(i32, Name)]) -> bool
    ensures { result ≡ list_any (λ v. int_eq v.0 (pos 0)) values.now }
{
    for value in values {
        if value.0 == 0 {
            return true;
        }
    }
    false
}

fn is_below_last_enum(name: &[u8], enums: &[Choices]) -> bool
    ensures { result ≡ is_below_last name.now (map (λ e. e.name) enums.now ++ []) }
{
    match enums.last() {
        Some(last) => is_below(name, last.name.as_slice()),
        None => false,
    }
}

fn is_below_last_message(name: &[u8], messages: &[Message]) -> bool
    ensures { result ≡ is_below_last name.now (map (λ m. m.name) messages.now ++ []) }
{
    match messages.last() {
        Some(last) => is_below(name, last.name.as_slice()),
        None => false,
    }
}

impl OpenPart {
    // Whether this is an enum without a value.
    pub(crate) fn lacks_value(&self) -> bool
        ensures { result ≡ lacks_value (open_part self.now) }
    {
        match self {
            OpenPart::Enum(choices) => choices.values.is_empty(),
            _ => false,
        }
    }

    // Whether this is an enum without a value 0.
    pub(crate) fn lacks_zero(&self) -> bool
        ensures { result ≡ lacks_zero (open_part self.now) }
    {
        match self {
            OpenPart::Enum(choices) => !has_zero(choices.values.as_slice()),
            _ => false,
        }
    }

    // Whether a value can't follow: no enum is open, or it is below the enum's last value.
    pub(crate) fn is_value_out_of_order(&self, number: EnumNumber, name: &[u8]) -> bool
        ensures { result ≡ is_value_out_of_order (open_part self.now) number name.now }
    {
        match self {
            OpenPart::Enum(choices) => match choices.values.as_slice().last() {
                Some(last) => is_value_below(number, name, last),
                None => false,
            },
            _ => true,
        }
    }

    // Whether a field can't follow: no message is open, or its number is below that of the last field.
    pub(crate) fn is_field_out_of_order(&self, number: Option<u32>) -> bool
        ensures { result ≡ is_field_out_of_order (open_part self.now) number }
    {
        match self {
            OpenPart::Message(message) => match (message.fields.as_slice().last(), number) {
                (Some(last), Some(number)) => number < last.number,
                _ => false,
            },
            _ => true,
        }
    }

    // Whether a field has the number of the last field.
    pub(crate) fn repeats_number(&self, number: Option<u32>) -> bool
        ensures { result ≡ repeats_number (open_part self.now) number }
    {
        match self {
            OpenPart::Message(message) => match (message.fields.as_slice().last(), number) {
                (Some(last), Some(number)) => number == last.number,
                _ => false,
            },
            _ => false,
        }
    }

    // Adds a value to an enum.
    pub(crate) fn add_value(&mut self, number: i32, name: Name) -> Result<(), Memory>
        ensures { OnOk result (self.new ≡ with_value self.old (Within number) name) }
    {
        match self {
            OpenPart::Enum(choices) => choices.values.push((number, name)),
            _ => Ok(()),
        }
    }

    // Adds a field to a message, and its oneof if that is new.
    pub(crate) fn add_field(&mut self, field: Field, oneof: Option<Name>) -> Result<(), Memory>
        ensures { OnOk result (self.new ≡ with_parts self.old field oneof) }
    {
        match self {
            OpenPart::Message(message) => add_parts(message, field, oneof),
            _ => Ok(()),
        }
    }

    // Moves the part to the finished ones.
    fn join(self, enums: &mut Enums, messages: &mut Messages) -> Result<(), Memory>
        ensures enums { OnOk result (enums.new ≡ with_enum self enums.old) }
        ensures messages { OnOk result (messages.new ≡ with_message self messages.old) }
    {
        match self {
            OpenPart::Nothing => Ok(()),
            OpenPart::Enum(choices) => enums.push(choices),
            OpenPart::Message(message) => messages.push(message),
        }
    }

    // How many values or fields there are.
    pub(crate) fn count(&self) -> usize
        ensures { result ≡ open_count (open_part self.now) }
    {
        match self {
            OpenPart::Nothing => 0,
            OpenPart::Enum(choices) => choices.values.len(),
            OpenPart::Message(message) => message.fields.len(),
        }
    }
}

impl TableDraft {
    // An empty draft.
    pub(crate) fn new(alloc: Global) -> TableDraft
        ensures { result ≡ empty_draft }
    {
        TableDraft {
            enums: Sequence::new(alloc),
            messages: Sequence::new(alloc),
            methods: Sequence::new(alloc),
            open_part: OpenPart::Nothing,
        }
    }

    // Whether the name is below that of the last enum.
    pub(crate) fn is_enum_below_last(&self, name: &[u8]) -> bool
        ensures { result ≡ is_below_last name.now (enum_names self.now) }
    {
        match &self.open_part {
            OpenPart::Enum(choices) => is_below(name, choices.name.as_slice()),
            _ => is_below_last_enum(name, self.enums.as_slice()),
        }
    }

    // Whether the name is below that of the last message.
    pub(crate) fn is_message_below_last(&self, name: &[u8]) -> bool
        ensures { result ≡ is_below_last name.now (message_names self.now) }
    {
        match &self.open_part {
            OpenPart::Message(message) => is_below(name, message.name.as_slice()),
            _ => is_below_last_message(name, self.messages.as_slice()),
        }
    }

    // Whether there is a message.
    pub(crate) fn has_messages(&self) -> bool
        ensures { result ≡ not (is_empty (message_names self.now)) }
    {
        match self.open_part {
            OpenPart::Message(_) => true,
            _ => !self.messages.is_empty(),
        }
    }

    // Whether there are as many enums as a table may have.
    pub(crate) fn is_full_of_enums(&self) -> bool
        ensures { result ≡ nat_le MAX_ENUMS (length (enum_names self.now)) }
    {
        match self.open_part {
            OpenPart::Enum(_) => self.enums.len() >= MAX_ENUMS - 1,
            _ => self.enums.len() >= MAX_ENUMS,
        }
    }

    // Whether there are as many messages as a table may have.
    pub(crate) fn is_full_of_messages(&self) -> bool
        ensures { result ≡ nat_le MAX_MESSAGES (length (message_names self.now)) }
    {
        match self.open_part {
            OpenPart::Message(_) => self.messages.len() >= MAX_MESSAGES - 1,
            _ => self.messages.len() >= MAX_MESSAGES,
        }
    }

    // Moves the open part to the finished ones.
    pub(crate) fn close(&mut self) -> Result<(), Memory>
        ensures { OnOk result (self.new ≡ with_part_closed self.old) }
    {
        mem::replace(&mut self.open_part, OpenPart::Nothing).join(
            &mut self.enums,
            &mut self.messages,
        )
    }

    // The table of all parts, the open one included.
    pub(crate) fn into_table(mut self) -> Result<Table, Memory>
        ensures { IfOk result (λ t. t ≡ table_of_draft self) }
    {
        self.close()?;
        let TableDraft {
            enums,
            messages,
            methods,
            open_part: _open_part,
        } = self;
        Ok(Table {
            messages,
            enums,
            methods,
        })
    }
}
