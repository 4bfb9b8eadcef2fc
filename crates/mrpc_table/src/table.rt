//! The declarations of a schema: messages with their fields, enums with their values, and methods of services. A
//! message or an enum is named by its index in the table, from 0.

ghost use Rattle.std.specs.Prelude.{◌≡◌, ◌<◌, ◌↔◌, length, IsTrue};
ghost use Rattle.std.specs.Option.{option_copied};
ghost use Rattle.mrpc_table.specs.Ascending.{AreAllFieldsAscending, AreFieldsAscending};
ghost use Rattle.mrpc_table.specs.Normal.{fields_of, field_at};
ghost use Rattle.mrpc_table.specs.Scalars.{scalar_of};
ghost use Rattle.mrpc_table.specs.Valid.{IsValid};
ghost use Rattle.mrpc_table.specs.Words.{IsWordForm, is_numeric, is_key, key_kind, rank};
ghost use Rattle.mrpc_table.specs.WireTypes.{wire_type_of};

use crate::call::CallKind;
use crate::field_search::search;
use crate::sequence::{Name, Sequence};
use crate::words::is_word;

/// The kind of a value. A `Message` or a `Choice` names a message or an enum of the table.
#[derive(Clone, Copy, PartialEq, Eq)]
pub enum Kind {
    /// `int32`: a varint, sign extended to 64 bits.
    Int32,
    /// `int64`: a varint.
    Int64,
    /// `uint32`: a varint.
    Uint32,
    /// `uint64`: a varint.
    Uint64,
    /// `sint32`: a varint, ZigZag.
    Sint32,
    /// `sint64`: a varint, ZigZag.
    Sint64,
    /// `bool`: a varint, 0 or 1.
    Bool,
    /// `fixed32`: four bytes, little-endian.
    Fixed32,
    /// `fixed64`: eight bytes, little-endian.
    Fixed64,
    /// `sfixed32`: four bytes, little-endian.
    Sfixed32,
    /// `sfixed64`: eight bytes, little-endian.
    Sfixed64,
    /// `float`: four bytes, little-endian, whose bits are never compared.
    Float,
    /// `double`: eight bytes, little-endian, whose bits are never compared.
    Double,
    /// `string`: UTF-8 text after its length.
    Text,
    /// `bytes`: bytes after their length.
    Octets,
    /// A message after its length; the number is its index in the table.
    Message(u32),
    /// An enum by its index in the table: a varint, sign extended to 64 bits.
    Choice(u32),
}

impl Kind {
    ghost use Rattle.mrpc_table.specs.Words.{nested_message};

    /// The scalar kind with a proto3 name.
    pub fn of_name(name: &[u8]) -> Option<Kind>
        ensures { result ≡ scalar_of name.now }
    {
        if is_word(name, b"int32") {
            Some(Kind::Int32)
        } else if is_word(name, b"int64") {
            Some(Kind::Int64)
        } else if is_word(name, b"uint32") {
            Some(Kind::Uint32)
        } else if is_word(name, b"uint64") {
            Some(Kind::Uint64)
        } else if is_word(name, b"sint32") {
            Some(Kind::Sint32)
        } else if is_word(name, b"sint64") {
            Some(Kind::Sint64)
        } else if is_word(name, b"bool") {
            Some(Kind::Bool)
        } else if is_word(name, b"fixed32") {
            Some(Kind::Fixed32)
        } else if is_word(name, b"fixed64") {
            Some(Kind::Fixed64)
        } else if is_word(name, b"sfixed32") {
            Some(Kind::Sfixed32)
        } else if is_word(name, b"sfixed64") {
            Some(Kind::Sfixed64)
        } else if is_word(name, b"float") {
            Some(Kind::Float)
        } else if is_word(name, b"double") {
            Some(Kind::Double)
        } else if is_word(name, b"string") {
            Some(Kind::Text)
        } else if is_word(name, b"bytes") {
            Some(Kind::Octets)
        } else {
            None
        }
    }

    /// Whether the values of this kind are numbers: neither text, bytes nor messages.
    pub fn is_numeric(self) -> bool
        ensures { result ≡ is_numeric self }
    {
        match self {
            Kind::Text | Kind::Octets | Kind::Message(_) => false,
            Kind::Int32
            | Kind::Int64
            | Kind::Uint32
            | Kind::Uint64
            | Kind::Sint32
            | Kind::Sint64
            | Kind::Bool
            | Kind::Fixed32
            | Kind::Fixed64
            | Kind::Sfixed32
            | Kind::Sfixed64
            | Kind::Float
            | Kind::Double
            | Kind::Choice(_) => true,
        }
    }

    /// Whether the keys of a map may have this kind: integral, bool or string.
    pub fn is_key(self) -> bool
        ensures { result ≡ is_key self }
    {
        match self {
            Kind::Float | Kind::Double | Kind::Octets | Kind::Message(_) | Kind::Choice(_) => false,
            Kind::Int32
            | Kind::Int64
            | Kind::Uint32
            | Kind::Uint64
            | Kind::Sint32
            | Kind::Sint64
            | Kind::Bool
            | Kind::Fixed32
            | Kind::Fixed64
            | Kind::Sfixed32
            | Kind::Sfixed64
            | Kind::Text => true,
        }
    }

    /// The rank of a number, given in its word form, among the numbers of this kind.
    pub fn rank(self, word: u64) -> u64
        ensures { result ≡ rank self word }
    {
        match self {
            Kind::Int32
            | Kind::Int64
            | Kind::Sint32
            | Kind::Sint64
            | Kind::Sfixed32
            | Kind::Sfixed64
            | Kind::Choice(_) => word.wrapping_add(0x8000_0000_0000_0000),
            Kind::Uint32
            | Kind::Uint64
            | Kind::Bool
            | Kind::Fixed32
            | Kind::Fixed64
            | Kind::Float
            | Kind::Double
            | Kind::Text
            | Kind::Octets
            | Kind::Message(_) => word,
        }
    }

    /// Whether a word is the word form of a number of this kind.
    pub fn is_word_form(self, word: u64) -> bool
        ensures { IsTrue result ↔ IsWordForm self word }
    {
        match self {
            Kind::Int32 | Kind::Sint32 | Kind::Sfixed32 | Kind::Choice(_) => {
                word < 0x8000_0000 || word >= 0xffff_ffff_8000_0000
            }
            Kind::Uint32 | Kind::Fixed32 | Kind::Float => word < 0x1_0000_0000,
            Kind::Bool => word < 2,
            Kind::Int64
            | Kind::Sint64
            | Kind::Uint64
            | Kind::Fixed64
            | Kind::Sfixed64
            | Kind::Double => true,
            Kind::Text | Kind::Octets | Kind::Message(_) => false,
        }
    }

    /// The message that this kind names, by its index in the table; 0 if it names none.
    pub fn message(self) -> u32
        ensures { result ≡ nested_message self }
    {
        match self {
            Kind::Message(message) => message,
            _ => 0,
        }
    }

    /// The wire type of a record of one value of this kind (Protocol Buffers, "Encoding": "Message Structure").
    pub fn wire_type(self) -> u64
        ensures value { result ≡ wire_type_of self }
        ensures small { result < 8 }
    {
        match self {
            Kind::Fixed64 | Kind::Sfixed64 | Kind::Double => 1,
            Kind::Text | Kind::Octets | Kind::Message(_) => 2,
            Kind::Fixed32 | Kind::Sfixed32 | Kind::Float => 5,
            Kind::Int32
            | Kind::Int64
            | Kind::Uint32
            | Kind::Uint64
            | Kind::Sint32
            | Kind::Sint64
            | Kind::Bool
            | Kind::Choice(_) => 0,
        }
    }
}

/// How many values a field has, and how they are encoded.
#[derive(Clone, Copy, PartialEq, Eq)]
pub enum Label {
    /// At most one value, with implicit presence; a message is present or not.
    Plain,
    /// At most one value, with explicit presence.
    Optional,
    /// Any number of values, one record for each element.
    Repeated,
    /// Any number of values, all elements in one record.
    Packed,
    /// A map with keys of this kind; the field's own kind is that of its values.
    Map(Kind),
    /// A member of the oneof at this index of its message.
    Member(u32),
}

impl Label {
    /// The kind of a map's keys; `uint64` for any other label.
    pub fn key(self) -> Kind
        ensures { result ≡ key_kind self }
    {
        match self {
            Label::Map(key) => key,
            Label::Plain | Label::Optional | Label::Repeated | Label::Packed | Label::Member(_) =>
                Kind::Uint64,
        }
    }
}

/// A field of a message.
pub struct Field {
    /// 1 to 536870911, and not 19000 to 19999.
    pub number: u32,
    pub name: Name,
    pub kind: Kind,
    pub label: Label,
}

// Written by hand, so that a drop is one call, and not a drop of each part.
impl Drop for Field {
    fn drop(self) {
        let Field {
            number: _,
            name: _name,
            kind: _,
            label: _,
        } = self;
    }
}

/// The fields of a message, by ascending number.
pub type Fields = Sequence<Field>;

/// A list of names, such as those of the oneofs of a message.
pub type Names = Sequence<Name>;

/// A message of the schema. Its oneofs are in the order of their least member numbers.
pub struct Message {
    /// The full name.
    pub name: Name,
    pub fields: Fields,
    pub oneofs: Names,
}

// Written by hand, so that a drop is one call, and not a drop of each part.
impl Drop for Message {
    fn drop(self) {
        let Message {
            name: _name,
            fields: _fields,
            oneofs: _oneofs,
        } = self;
    }
}

impl Message {
    /// The field with a number. Takes time logarithmic in the number of fields.
    pub fn field(&self, number: u32) -> Option<&Field>
        requires { AreFieldsAscending self.now.fields }
        ensures { option_copied result ≡ field_at self.now.fields number }
    {
        let fields = self.fields.as_slice();
        match search(fields, number) {
            Some(place) => Some(&fields[place]),
            None => None,
        }
    }
}

/// The values of an enum with their names, by ascending number, then name.
pub type ChoiceValues = Sequence<(i32, Name)>;

/// An enum of the schema.
pub struct Choices {
    /// The full name.
    pub name: Name,
    pub values: ChoiceValues,
}

// Written by hand, so that a drop is one call, and not a drop of each part.
impl Drop for Choices {
    fn drop(self) {
        let Choices {
            name: _name,
            values: _values,
        } = self;
    }
}

/// A method of a service. Its input and output are indices of messages in the table.
pub struct Method {
    /// The full name of its service.
    pub service: Name,
    pub name: Name,
    pub input: u32,
    pub output: u32,
}

// Written by hand, so that a drop is one call, and not a drop of each part.
impl Drop for Method {
    fn drop(self) {
        let Method {
            service: _service,
            name: _name,
            input: _,
            output: _,
        } = self;
    }
}

/// Messages, by ascending full name.
pub type Messages = Sequence<Message>;

/// Enums, by ascending full name.
pub type Enums = Sequence<Choices>;

/// Methods, by their index.
pub type Methods = Sequence<Method>;

/// The declarations of a schema. `IsValid` of `specs/Valid.antt` defines when a canonical text can represent it.
pub struct Table {
    pub messages: Messages,
    pub enums: Enums,
    pub methods: Methods,
}

// Written by hand, so that a drop is one call, and not a drop of each part.
impl Drop for Table {
    fn drop(self) {
        let Table {
            messages: _messages,
            enums: _enums,
            methods: _methods,
        } = self;
    }
}

impl Table {
    ghost use Rattle.mrpc_table.specs.Calls.{message_of, message_at};

    /// The fields of the message at an index; empty if there is no such message.
    pub fn fields(&self, message: u32) -> &[Field]
        ensures value { result.now ≡ fields_of self.now message }
        ensures ascend { AreAllFieldsAscending self.now → AreFieldsAscending result.now }
    {
        match self.messages.as_slice().get(message as usize) {
            Some(message) => message.fields.as_slice(),
            None => &[],
        }
    }

    /// The field with a number in the message at an index. Takes time logarithmic in the number of its fields.
    pub fn field(&self, message: u32, number: u32) -> Option<&Field>
        requires { IsValid self.now }
        ensures { option_copied result ≡ field_at (fields_of self.now message) number }
    {
        match self.messages.as_slice().get(message as usize) {
            Some(message) => message.field(number),
            None => None,
        }
    }

    /// The message that the requests or the replies of a method carry, by its index in the table: the method's input or
    /// its output.
    pub fn message_of(&self, method: u16, sort: CallKind) -> u32
        requires valid { IsValid self.now }
        requires known { method < length self.now.methods }
        ensures place { result ≡ message_of self.now method sort }
        ensures within { result < length self.now.messages }
    {
        let method = &self.methods.as_slice()[method as usize];
        match sort {
            CallKind::Request => method.input,
            CallKind::Reply => method.output,
        }
    }

    /// The message that a call of a method carries. The call's number determines whether it is a request or a reply.
    pub fn message_at(&self, method: u16, number: u32) -> u32
        requires valid { IsValid self.now }
        requires known { method < length self.now.methods }
        ensures place { result ≡ message_at self.now method number }
        ensures within { result < length self.now.messages }
    {
        self.message_of(method, CallKind::of_number(number))
    }
}
