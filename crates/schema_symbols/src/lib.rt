//! The names of proto files that are resolved together: which message or enum a reference names (Protocol Buffers,
//! language guide, "Packages and Name Resolution").
//!
//! `specs/Scopes.antt` defines the full name of each declaration and the one that a reference means. The symbol
//! table, [`SymbolTable`], is made of files that were read; clauses see it as those files. The layer above relies on three
//! contracts. [`SymbolTable::find`] returns the first message or enum that a reference names among those visible to its
//! file, or none if it names none. [`SymbolTable::number`] returns the same number for two scopes exactly if their full
//! names are equal ([`scope_number_is_unique`]). [`SymbolTable::is_package`] returns true exactly for the name of a package or of a
//! prefix of one.
//!
//! These calls take time by the length of their input, by the depth of nesting, by the number of files, and by the
//! logarithm of the number of types. The crate uses `mrpc_table` and `proto_ast`.
#![tactic(auto)]

mod below;
mod children;
mod laws;
mod numbering;
mod parts;
mod scope_indices;
mod symbol;
mod symbol_table;
mod types;

pub use laws::{reference_is_unique, scope_is_determined, scope_number_is_unique};
pub use symbol::Symbol;
pub use symbol_table::SymbolTable;
