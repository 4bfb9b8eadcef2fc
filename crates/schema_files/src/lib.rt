//! The table of a set of proto files: imports are followed, and the files that the first one reaches are resolved
//! together (Protocol Buffers, proto3 language guide, "Importing Definitions").
//!
//! The crate uses `proto_set`, which defines the files of a set, finds those that the first one reaches and joins
//! them. It uses `proto_schema`, which reads each file, and `schema_validation` and `schema_resolve`, which validate
//! and resolve them. The layers above rely on the contract of [`resolve_files`]: it returns the table of the files
//! that the first one reaches, or the set's first fault.
#![tactic(auto)]

mod fault;
mod laws;
mod linked_files;
mod reading;
mod resolver;

pub use fault::{FilesFault, FilesReason};
pub use laws::{
    fault_in_set, files_fault_is_unique, files_table_is_unique, join_is_unique,
    joined_is_well_placed, table_or_files_fault,
};
pub use resolver::resolve_files;
