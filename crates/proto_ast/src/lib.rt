//! The declarations of a proto file, as plain data (Protocol Buffers, proto3 language specification).
//!
//! [`File`] is what `proto_schema` reads from a text. `specs/Order.antt` states the invariants of every file that was
//! read: its names, indices and members are valid, and its names and numbers start in the order of its lists.
//! [`Joined`] are files that are resolved together, and `specs/Together.antt` states the same invariants for them.
//! The crate uses `mrpc_table`. The crates that resolve names and validate a file use this crate and not the reader,
//! so that they don't depend on it.
#![tactic(auto)]

mod file;
mod joined;

pub use file::{
    EnumDecl, EnumDecls, FieldDecl, FieldDecls, FieldLabel, FieldType, File, Import, Imports,
    MessageDecl, MessageDecls, Number, Range, Ranges, RpcDecl, RpcDecls, ServiceDecl, ServiceDecls,
    Span, ValueDecl, ValueDecls, Word, Words,
};
pub use joined::{Enclosing, FileIndices, Head, Heads, Joined};
