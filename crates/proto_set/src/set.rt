//! Sets of files, and the files that the first one reaches.

use mrpc_table::{Name, Sequence};
use proto_ast::{File, FileIndices};

/// A file of a set: the path by which others import it, and its declarations.
#[derive(Drop)]
pub struct ParsedFile {
    pub path: Name,
    pub file: File,
}

/// The files that the first one reaches, and the files that each of them sees.
#[derive(Drop)]
pub struct ImportClosure {
    /// The reached files, in the order in which they are resolved: the first file, then the others by ascending path.
    pub order: FileIndices,
    /// The files that each of them sees, in the same order: indices in the set, ascending.
    pub sees: Sequence<FileIndices>,
}
