//! Several files joined to one.

ghost use Rattle.std.specs.Prelude.{◌≡◌, ◌+◌, ◌<◌, ◌^◌, length, sum, [], IfOk, OnOk};
ghost use Rattle.proto_set.specs.Joining.{joined, sizes_of};
ghost use Rattle.proto_set.specs.Placing.{CanPlace, joined_with_file};
ghost use Rattle.proto_set.specs.WellPlaced.{AreWellPlaced};

use crate::decls::{append_all, placed_head};
use crate::linked_file::{FileBase, LinkedFile};
use mrpc_table::{Memory, Sequence};
use proto_ast::{EnumDecls, File, Heads, Joined, MessageDecls, ServiceDecls};
use std::alloc::Global;
use std::marker::Model;

/// The declarations of several files. Clauses see the files as they are resolved together.
#[derive(Drop)]
pub struct FileUnion {
    heads: Heads,
    messages: MessageDecls,
    enums: EnumDecls,
    services: ServiceDecls,
}

impl Model for FileUnion {
    ghost use Rattle.proto_ast.specs.Joined.{Joined};

    ghost Value = { Joined };

    ghost view = { λ u. record {
      heads = u.heads;
      messages = u.messages;
      enums = u.enums;
      services = u.services;
    } };
}

impl FileUnion {
    fn new(alloc: Global) -> FileUnion
        ensures { result ≡ record { heads = []; messages = []; enums = []; services = [] } }
    {
        FileUnion {
            heads: Sequence::new(alloc),
            messages: Sequence::new(alloc),
            enums: Sequence::new(alloc),
            services: Sequence::new(alloc),
        }
    }

    // Appends a file after those that precede it. If memory runs out, an unspecified part of its declarations is
    // appended.
    fn append(&mut self, part: LinkedFile, before: FileBase) -> Result<(), Memory>
        requires { CanPlace before part }
        ensures { OnOk result (self.new ≡ joined_with_file self.old before part) }
    {
        let LinkedFile {
            file,
            sees,
            size: _,
        } = part;
        let File {
            package,
            imports: _,
            messages,
            enums,
            services,
        } = file;
        self.heads.push(placed_head(package, sees, before))?;
        append_all(&mut self.messages, messages, before)?;
        append_all(&mut self.enums, enums, before)?;
        append_all(&mut self.services, services, before)
    }

    /// The files as they are resolved together.
    pub fn files(&self) -> Joined<'_>
        ensures { result ≡ self.now }
    {
        Joined::new(
            self.heads.as_slice(),
            self.messages.as_slice(),
            self.enums.as_slice(),
            self.services.as_slice(),
        )
    }
}

/// Joins files to one, as if their texts were concatenated. Moves their declarations, in time proportional to them,
/// and drops their imports.
pub fn join(alloc: Global, parts: Vec<LinkedFile>) -> Result<FileUnion, Memory>
    requires small { sum (sizes_of parts.items) < 2 ^ 64 }
    requires sound { AreWellPlaced parts.items }
    ensures { IfOk result (λ u. u ≡ joined parts.items) }
{
    let mut all = FileUnion::new(alloc);
    let mut before = FileBase {
        files: 0,
        bytes: 0,
        messages: 0,
    };
    for part in parts {
        let behind = before.after(&part)?;
        all.append(part, before)?;
        before = behind;
    }
    Ok(all)
}
