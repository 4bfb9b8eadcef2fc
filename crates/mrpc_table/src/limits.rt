//! The limits of tables, names, sets of files, trees, paths and heaps, which the definitions share.

/// The most messages of a table.
pub const MAX_MESSAGES: usize = 256;

/// The most enums of a table.
pub const MAX_ENUMS: usize = 256;

/// The most methods of a table.
pub const MAX_METHODS: usize = 256;

/// The most fields of a message, and so the most oneofs.
pub const MAX_FIELDS: usize = 128;

/// The most values of an enum.
pub const MAX_VALUES: usize = 1024;

/// The most bytes of a table's text.
pub const MAX_TEXT: usize = 65536;

/// The most bytes of a name, and of each part of a full name.
pub const MAX_NAME: usize = 64;

/// The most bytes of a full name.
pub const MAX_FULL_NAME: usize = 255;

/// The most files of a set.
pub const MAX_FILES: usize = 64;

/// The largest field number.
pub const MAX_FIELD_NUMBER: u64 = 536_870_911;

/// The first of the numbers that no field has: Protocol Buffers reserves them for its implementation.
pub const FIRST_RESERVED_NUMBER: u64 = 19_000;

/// The last of the numbers that no field has.
pub const LAST_RESERVED_NUMBER: u64 = 19_999;

/// How deep messages may nest in a tree in normal form; the root has depth 1.
pub const MAX_DEPTH: u32 = 32;

/// The most numbers of a path.
pub const MAX_PATH: usize = 32;

/// The fewest words of a heap; word 0 is never used.
pub const MIN_HEAP: u64 = 4;

/// The most words of a heap.
pub const MAX_HEAP: u64 = 65536;

/// The most words that are loaded of a graph, whatever limit a script sets.
pub const MAX_LOADS: u64 = 16384;
