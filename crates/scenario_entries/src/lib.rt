//! The entries of a scenario as they are read: tenants and policies, links, programs, and the chain of a
//! connection, as operations change it; and the laws of faults.
//!
//! Reading a list returns what all of its entries mean, or the first faulty entry with its first reason.
//! `specs/Entries.antt` defines this for any list, from what `scenario` defines for single entries. Policies that a
//! connection uses are read again under the schema of its application: the result is all of them, or the first reason
//! of their faults (`specs/Owning.antt`).
//!
//! The crate depends on `scenario` and its dependencies, on `policy_access` and `policy_redact` for the lines of
//! policies, on `policy_declarations` for declarations, and on `run_plan`. It depends on `proto_schema` and
//! `schema_resolve` for the law that a schema has one table. The reader of whole scenarios uses one contract: the
//! result of a list is what its entries mean, and its fault is their first.
#![tactic(auto)]

mod chain;
mod laws;
mod lines;
mod link;
mod names;
mod own;
mod policies;
mod policy_laws;
mod program;
mod tenants;

pub use chain::ChainOutline;
pub use laws::{fault_is_unique, plan_excludes_fault};
pub use link::{AppConnection, has_app_connection, read_links};
pub use names::{has_undeclared_name, names_reason};
pub use own::read_own_policies;
pub use policies::read_policies;
pub use policy_laws::{
    declaration_is_unique, declaration_is_valid, names_keep_index, own_schema_is_valid,
    schema_table_is_unique,
};
pub use program::{read_program, submissions};
pub use tenants::read_tenants;
