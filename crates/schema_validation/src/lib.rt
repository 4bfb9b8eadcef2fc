//! Validation of proto files that were read: undefined and duplicate names, numbers out of range, misplaced maps,
//! limits (Protocol Buffers, proto3 language guide; the limits are this project's own).
//!
//! `specs/Members.antt` defines the violations of single messages, enums and services, `specs/Lines.antt` the lines
//! that names have in a table's text, and `specs/Violations.antt` all violations of files, and which one comes first.
//! The crate uses `schema_symbols`, which defines the full name of a declaration and the meaning of a reference,
//! `proto_ast` and `mrpc_table`.
//!
//! The layer above relies on the contracts of [`first_violation`] and, for a file alone, [`with_import`]. It also uses
//! [`field_shape_of`], [`message_of`], [`field_number`] and [`enum_number`], which return what a field, an rpc's type and a
//! number are in a table.
#![tactic(auto)]

mod enums;
mod first;
mod laws;
mod lines;
mod messages;
mod name_set;
mod names;
mod numbers;
mod reason;
mod services;
mod types;
mod validate;

pub use first::Violation;
pub use laws::{first_violation_is_unique, violations_have_spans};
pub use numbers::{enum_number, field_number};
pub use reason::ResolveReason;
pub use services::message_of;
pub use types::{FieldShape, TypeOf, field_shape_of};
pub use validate::{first_violation, with_import};
