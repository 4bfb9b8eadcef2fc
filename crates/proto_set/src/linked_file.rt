//! Files to be joined.

use mrpc_table::Memory;
use proto_ast::{File, FileIndices};

/// A file to be joined.
#[derive(Drop)]
pub struct LinkedFile {
    pub file: File,
    /// The files whose types and packages its references may name, including itself, by their indices among the
    /// joined files.
    pub sees: FileIndices,
    /// The length of its text in bytes.
    pub size: usize,
}

// What precedes a file among the joined files.
#[derive(Clone, Copy)]
pub(crate) struct FileBase {
    // The number of files.
    pub files: usize,
    // The number of bytes of their texts.
    pub bytes: usize,
    // The number of messages that they declare.
    pub messages: usize,
}

impl FileBase {
    ghost use Rattle.std.specs.Prelude.{◌≡◌, ◌+◌, ◌<◌, ◌^◌, length, IfOk};
    ghost use Rattle.proto_set.specs.Joining.{after_file};

    // What precedes the next file. Memory can't hold more messages than a word of 64 bits counts.
    pub(crate) fn after(self, part: &LinkedFile) -> Result<FileBase, Memory>
        requires files { self.files + 1 < 2 ^ 64 }
        requires bytes { self.bytes + part.now.size < 2 ^ 64 }
        ensures value { IfOk result (λ b. b ≡ after_file self part.now) }
        ensures room { IfOk result (λ b. b.messages < 2 ^ 64) }
    {
        let Some(messages) = self.messages.checked_add(part.file.messages.len()) else {
            return Err(Memory);
        };
        Ok(FileBase {
            files: self.files + 1,
            bytes: self.bytes + part.size,
            messages,
        })
    }
}
