//! Reads the texts of a set of files.

ghost use Rattle.std.specs.Prelude.{◌≡◌, IfOk, IfErr};
ghost use Rattle.proto_set.specs.Named.{file_of, files_of};
ghost use Rattle.schema_files.specs.Joined.{IsReadAs, AreReadAs};
ghost use Rattle.schema_files.specs.Unread.{IsUnread, IsContentFault};

use crate::fault::{FilesFault, FilesReason};
use mrpc_table::Name;
use proto_grammar::ProtoFault;
use proto_schema::read_proto;
use proto_set::{Named, ParsedFile};
use std::alloc::Global;

// Texts of at least this size in bytes can't be read: memory can't hold their tokens.
const MAX_READ: usize = 0x4000_0000_0000_0000;

// Reads the file with an index.
fn read_file_text(alloc: Global, place: usize, packed: &Named<'_>) -> Result<ParsedFile, FilesFault>
    ensures read { IfOk result (IsReadAs (file_of packed.now)) }
    ensures fault { IfErr result (IsUnread (file_of packed.now) place) }
{
    if packed.text.len() >= MAX_READ {
        return Err(FilesFault::Memory);
    }
    match read_proto(alloc, packed.text) {
        Ok(file) => {
            let path = Name::from_slice(alloc, packed.path)?;
            Ok(ParsedFile { path, file })
        }
        Err(ProtoFault::At { reason, line, .. }) => Err(FilesFault::At {
            file: place,
            line,
            reason: FilesReason::Proto(reason),
        }),
        Err(ProtoFault::Memory) => Err(FilesFault::Memory),
    }
}

// Reads each file; the error is the first one that isn't a proto file.
pub(crate) fn read_texts(alloc: Global, files: &[Named<'_>]) -> Result<Vec<ParsedFile>, FilesFault>
    ensures read { IfOk result (λ v. AreReadAs (files_of files.now) v.items) }
    ensures fault { IfErr result (IsContentFault (files_of files.now)) }
{
    let mut members = Vec::with_capacity(alloc, files.len())?;
    for i in 0..files.len() {
        let member = read_file_text(alloc, i, &files[i])?;
        members.push(member)?;
    }
    Ok(members)
}
