//! The parsed lines of a table's text. Each part has a drop of its own, so that dropping it is one call.

ghost use Rattle.std.specs.Prelude.{◌≡◌};

use mrpc_table::{Kind, Method, Name};

/// A kind, as a word names it.
pub enum KindWord {
    /// A scalar kind, by its name in proto3.
    Scalar(Kind),
    /// `message:` and a full name.
    Message(Name),
    /// `enum:` and a full name.
    Choice(Name),
}

/// A label, as a word names it.
pub enum LabelWord {
    /// `plain`
    Plain,
    /// `optional`
    Optional,
    /// `repeated`
    Repeated,
    /// `packed`
    Packed,
    /// `map:` and the kind of the keys.
    Map(KindWord),
    /// `oneof:` and the name of the oneof.
    Member(Name),
}

/// The number of an enum value, of any size.
#[derive(Clone, Copy)]
pub enum EnumNumber {
    /// Below each signed 32-bit number.
    Low,
    /// A signed 32-bit number.
    Within(i32),
    /// Above each signed 32-bit number.
    High,
}

/// `field NUMBER LABEL KIND NAME`
pub struct FieldLine {
    /// The number, or `None` if it has more than 32 bits.
    pub number: Option<u32>,
    /// The label that its word names.
    pub label: LabelWord,
    /// The kind that its word names.
    pub kind: KindWord,
    /// A name.
    pub name: Name,
}

/// `method INDEX SERVICE NAME INPUT OUTPUT`
pub struct MethodLine {
    /// The index, or `None` if it has more than 32 bits.
    pub index: Option<u32>,
    /// A full name.
    pub service: Name,
    /// A name.
    pub name: Name,
    /// The full name of its request message.
    pub input: Name,
    /// The full name of its reply message.
    pub output: Name,
}

/// A line of the right form.
#[derive(Drop)]
pub enum TableLine {
    /// `enum FULLNAME`
    Enum(Name),
    /// `value NUMBER NAME`
    Value(EnumNumber, Name),
    /// `message FULLNAME`
    Message(Name),
    /// A field of the last message above it.
    Field(FieldLine),
    /// A method.
    Method(MethodLine),
}

impl Drop for KindWord {
    fn drop(self) {
        match self {
            KindWord::Scalar(_) => {}
            KindWord::Message(_name) | KindWord::Choice(_name) => {}
        }
    }
}

impl Drop for LabelWord {
    fn drop(self) {
        match self {
            LabelWord::Plain | LabelWord::Optional | LabelWord::Repeated | LabelWord::Packed => {}
            LabelWord::Map(_key) => {}
            LabelWord::Member(_name) => {}
        }
    }
}

impl Drop for FieldLine {
    fn drop(self) {
        let FieldLine {
            number: _,
            label: _label,
            kind: _kind,
            name: _name,
        } = self;
    }
}

impl Drop for MethodLine {
    fn drop(self) {
        let MethodLine {
            index: _,
            service: _service,
            name: _name,
            input: _input,
            output: _output,
        } = self;
    }
}

impl FieldLine {
    /// The name.
    pub fn into_name(self) -> Name
        ensures { result ≡ self.name }
    {
        let FieldLine {
            number: _,
            label: _label,
            kind: _kind,
            name,
        } = self;
        name
    }
}

impl MethodLine {
    /// The method, with the indices of its messages in the table.
    pub fn into_method(self, input: u32, output: u32) -> Method
        ensures { result ≡ record { service = self.service; name = self.name; input = input; output = output } }
    {
        let MethodLine {
            index: _,
            service,
            name,
            input: _input,
            output: _output,
        } = self;
        Method {
            service,
            name,
            input,
            output,
        }
    }
}
