//! Files that are resolved together.

ghost use Rattle.std.specs.Prelude.{◌≡◌};
ghost use Rattle.proto_ast.specs.Joined.{enclosing_of, enclosing_of_enum};

use crate::file::{EnumDecl, MessageDecl, ServiceDecl, Word};
use mrpc_table::Sequence;
use std::marker::Model;

/// Indices of files among those that are resolved together, from 0.
pub type FileIndices = Sequence<usize>;

/// The package of a file that is resolved with others, and the files visible to it.
pub struct Head {
    pub package: Option<Word>,
    /// The files whose types and packages its references may name, including itself.
    pub sees: FileIndices,
}

// Written by hand so that dropping a value is one call in the caller, not one for each field.
impl Drop for Head {
    fn drop(self) {
        let Head {
            package: _package,
            sees: _sees,
        } = self;
    }
}

/// Files in the order in which they are resolved.
pub type Heads = Sequence<Head>;

/// The file or message that encloses a declaration.
#[derive(Clone, Copy)]
pub enum Enclosing {
    /// The file with this index; the declaration is at its top level.
    File(usize),
    /// The message with this index.
    Message(usize),
}

impl MessageDecl {
    /// The file or message that encloses the message.
    pub fn enclosing(&self) -> Enclosing
        ensures { result ≡ enclosing_of self.now }
    {
        match self.parent {
            Some(i) => Enclosing::Message(i),
            None => Enclosing::File(self.file),
        }
    }
}

impl EnumDecl {
    /// The file or message that encloses the enum.
    pub fn enclosing(&self) -> Enclosing
        ensures { result ≡ enclosing_of_enum self.now }
    {
        match self.parent {
            Some(i) => Enclosing::Message(i),
            None => Enclosing::File(self.file),
        }
    }
}

/// The declarations of files that are resolved together, or of one alone: file by file, as if their texts were
/// concatenated. Clauses see four lists.
pub struct Joined<'a> {
    heads: &'a [Head],
    messages: &'a [MessageDecl],
    enums: &'a [EnumDecl],
    services: &'a [ServiceDecl],
}

// Written by hand so that dropping a value is one call in the caller, not one for each field.
impl Drop for Joined<'_> {
    fn drop(self) {
        let Joined {
            heads: _,
            messages: _,
            enums: _,
            services: _,
        } = self;
    }
}

impl<'a> Model for Joined<'a> {
    ghost use Rattle.proto_ast.specs.Joined.{Joined};

    ghost Value = { Joined };

    ghost view = { λ j. record {
      heads = j.heads.now;
      messages = j.messages.now;
      enums = j.enums.now;
      services = j.services.now;
    } };
}

impl<'a> Joined<'a> {
    /// Joins files that are resolved together, given their heads and their declarations.
    pub fn new(
        heads: &'a [Head],
        messages: &'a [MessageDecl],
        enums: &'a [EnumDecl],
        services: &'a [ServiceDecl],
    ) -> Joined<'a>
        ensures { result ≡ record {
          heads = heads.now;
          messages = messages.now;
          enums = enums.now;
          services = services.now;
        } }
    {
        Joined {
            heads,
            messages,
            enums,
            services,
        }
    }

    /// The heads of the files, in order.
    pub fn heads(&self) -> &'a [Head]
        ensures { result.now ≡ self.now.heads }
    {
        self.heads
    }

    /// The messages of all files, in order.
    pub fn messages(&self) -> &'a [MessageDecl]
        ensures { result.now ≡ self.now.messages }
    {
        self.messages
    }

    /// The enums of all files, in order.
    pub fn enums(&self) -> &'a [EnumDecl]
        ensures { result.now ≡ self.now.enums }
    {
        self.enums
    }

    /// The services of all files, in order.
    pub fn services(&self) -> &'a [ServiceDecl]
        ensures { result.now ≡ self.now.services }
    {
        self.services
    }
}
