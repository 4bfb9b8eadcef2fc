//! The declarations of a proto file.
//!
//! All messages of a file are in one list, nested ones too, in the order of their names in the text; so are all
//! enums. A nested one has the index of the message that encloses it. So nothing here is recursive.

use mrpc_table::{Decimal, Name, Sequence};

/// A range of bytes of a text.
#[derive(Clone, Copy, Debug)]
pub struct Span {
    /// The offset of its first byte, from 0.
    pub start: usize,
    /// The offset just after its last byte.
    pub end: usize,
    /// The line in which it starts, from 1.
    pub line: u64,
}

/// A name as it is written, without the gaps between its parts, and its span.
#[derive(Drop)]
pub struct Word {
    /// A name, or names joined by dots; the name of a type may start with a dot.
    pub name: Name,
    pub span: Span,
}

/// Names with their spans.
pub type Words = Sequence<Word>;

/// An integer as it is written, and its span.
#[derive(Clone, Copy)]
pub struct Number {
    /// True if a `-` precedes it; the span includes the `-`.
    pub negative: bool,
    pub value: Decimal,
    pub span: Span,
}

/// An import of another file.
pub struct Import {
    /// The value of the path's string.
    pub path: Name,
    pub public: bool,
    /// The span of the path.
    pub span: Span,
}

// Written by hand so that dropping a value is one call in the caller, not one for each field.
impl Drop for Import {
    fn drop(self) {
        let Import {
            path: _path,
            public: _,
            span: _,
        } = self;
    }
}

/// Imports in the order of their statements.
pub type Imports = Sequence<Import>;

/// The label of a field.
#[derive(Clone, Copy, PartialEq, Eq)]
pub enum FieldLabel {
    Plain,
    Optional,
    Repeated,
}

/// The type of a field, as it is written.
pub enum FieldType {
    /// A scalar, or the name of a message or an enum.
    Named(Word),
    /// `map<KEY, VALUE>`
    Map { key: Word, value: Word },
    /// `map<KEY, map<..>>`, of which only the outer key is kept: a map can't be the value of a map.
    NestedMap { key: Word },
}

// Written by hand so that dropping a value is one call in the caller, not one for each field.
impl Drop for FieldType {
    fn drop(self) {
        match self {
            FieldType::Named(_a) => {}
            FieldType::Map {
                key: _key,
                value: _value,
            } => {}
            FieldType::NestedMap { key: _key } => {}
        }
    }
}

/// A field of a message.
pub struct FieldDecl {
    pub name: Word,
    pub number: Number,
    pub kind: FieldType,
    pub label: FieldLabel,
    /// The index of its oneof among those of its message.
    pub oneof: Option<usize>,
    /// The value of its last `packed` option that is `true` or `false`.
    pub packed: Option<bool>,
}

// Written by hand so that dropping a value is one call in the caller, not one for each field.
impl Drop for FieldDecl {
    fn drop(self) {
        let FieldDecl {
            name: _name,
            number: _number,
            kind: _kind,
            label: _label,
            oneof: _,
            packed: _,
        } = self;
    }
}

/// Fields in the order of the text.
pub type FieldDecls = Sequence<FieldDecl>;

/// Reserved numbers, from the first to the last.
#[derive(Clone, Copy)]
pub struct Range {
    pub first: Number,
    /// The last one; `None` means `max`.
    pub last: Option<Number>,
}

/// Ranges of reserved numbers, in the order of the text.
pub type Ranges = Sequence<Range>;

/// A message.
#[derive(Drop)]
pub struct MessageDecl {
    pub name: Word,
    /// The index of its file among the files that are resolved together; 0 in a file by itself.
    pub file: usize,
    /// The index of the enclosing message.
    pub parent: Option<usize>,
    pub fields: FieldDecls,
    pub oneofs: Words,
    pub ranges: Ranges,
    /// Reserved names.
    pub names: Words,
}

/// Messages in the order of their names in the text.
pub type MessageDecls = Sequence<MessageDecl>;

/// A value of an enum.
pub struct ValueDecl {
    pub name: Word,
    pub number: Number,
}

// Written by hand so that dropping a value is one call in the caller, not one for each field.
impl Drop for ValueDecl {
    fn drop(self) {
        let ValueDecl {
            name: _name,
            number: _number,
        } = self;
    }
}

/// Values in the order of the text.
pub type ValueDecls = Sequence<ValueDecl>;

/// An enum.
#[derive(Drop)]
pub struct EnumDecl {
    pub name: Word,
    /// The index of its file among the files that are resolved together; 0 in a file by itself.
    pub file: usize,
    /// The index of the enclosing message.
    pub parent: Option<usize>,
    pub values: ValueDecls,
    pub ranges: Ranges,
    /// Reserved names.
    pub names: Words,
}

/// Enums in the order of their names in the text.
pub type EnumDecls = Sequence<EnumDecl>;

/// A method of a service.
pub struct RpcDecl {
    pub name: Word,
    pub input: Word,
    pub output: Word,
}

// Written by hand so that dropping a value is one call in the caller, not one for each field.
impl Drop for RpcDecl {
    fn drop(self) {
        let RpcDecl {
            name: _name,
            input: _input,
            output: _output,
        } = self;
    }
}

/// Methods in the order of the text.
pub type RpcDecls = Sequence<RpcDecl>;

/// A service.
#[derive(Drop)]
pub struct ServiceDecl {
    pub name: Word,
    /// The index of its file among the files that are resolved together; 0 in a file by itself.
    pub file: usize,
    pub rpcs: RpcDecls,
}

/// Services in the order of the text.
pub type ServiceDecls = Sequence<ServiceDecl>;

/// The declarations of a proto file.
#[derive(Drop)]
pub struct File {
    pub package: Option<Word>,
    pub imports: Imports,
    pub messages: MessageDecls,
    pub enums: EnumDecls,
    pub services: ServiceDecls,
}
