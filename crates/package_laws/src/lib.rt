//! Files of one package read as one file: a single file with all their declarations, in the same order, has the same
//! table (Protocol Buffers, proto3 language guide, "Packages and Name Resolution", "Importing Definitions").
//!
//! `specs/OnePackage.antt` states the conditions. The files have one package, no type at the top level has the name
//! of a part of it, and each file sees the files whose types it names. The crate has no code of its own. It uses the
//! definitions of `schema_symbols`, `schema_validation`, `schema_resolve`, `schema_files` and the crates below them.
//! Its contract is two laws: [`one_package_is_one_file`] and, for the texts of a set, [`one_package_set_is_one_file`].
#![tactic(auto)]

mod laws;

pub use laws::{one_package_is_one_file, one_package_set_is_one_file};
