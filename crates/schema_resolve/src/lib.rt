//! The table of messages, enums and methods of proto files (Protocol Buffers, proto3 language guide), in this
//! project's profile.
//!
//! [`resolve`] takes a file as `proto_schema` reads it; `schema_validation` defines its violations. `specs/Tables.antt`
//! defines the table of files. The crate uses `schema_validation`, `schema_symbols`, `proto_ast`, `table_text`,
//! `mrpc_table` and `thiserror`. The layer above relies on the contracts of [`resolve`], for a file alone, and of
//! [`resolve_together`]. A table that they return is that of the file or files, and a violation that they return is
//! the first one. Well-formed files in order, such as all files that were read, have exactly one of the two
//! ([`table_or_violation`]).
#![tactic(auto)]

mod enum_table;
mod fault;
mod field_table;
mod head;
mod laws;
mod message_table;
mod method_table;
mod oneof_table;
mod placed;
mod plan;
mod resolved;
mod resolver;
mod same_text;
mod table;

pub use fault::ResolveFault;
pub use laws::{file_violation_is_unique, resolved_table_is_unique, table_or_violation};
pub use resolved::resolve_together;
pub use resolver::resolve;
