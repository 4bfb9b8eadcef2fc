//! Sets of proto files: their bundle in one input, their imports, and the files joined to one.
//!
//! A set is the line `mrpc-files 1`, followed by 1 to 64 files, each a header line `file PATH BYTES` and that many
//! bytes (this project's own format). [`read_bundle`] returns the files as slices of the input, without copying, and
//! [`first_rejected`] checks their paths.
//!
//! The first file of a set is its root. `specs/Importing.antt` defines which file an import leads to, which files a
//! file reaches, and which are visible to it (Protocol Buffers, proto3 language guide, "Importing Definitions").
//! `specs/Visiting.antt` visits them depth first, and `specs/ImportFaults.antt` defines which import is at fault.
//! [`reach`] returns the files that the root reaches, in the order in which they are resolved, exactly if no import is
//! at fault, and else the first fault.
//!
//! [`join`] joins such files as if their texts were concatenated (`specs/Joining.antt`). There is one list of the
//! declarations of all files for each kind; the offsets of each file come after the texts of the earlier ones. Joined
//! files are well-formed and in order ([`joined_is_ordered`]), and one joined file is that file alone
//! ([`joined_alone`]). An offset lies in the text of at most one file ([`offset_is_in_one_file`]), which [`file_at`] finds.
//!
//! The crate depends on `mrpc_table` and `proto_ast`, and knows nothing of names and types. The layer above uses three
//! contracts: those of the bundle, of the imports and of the joined files, each with the law that it has one result or
//! one first fault.
#![tactic(auto)]

mod bundle_fault;
mod bundle_laws;
mod decls;
mod file_union;
mod header;
mod import_fault;
mod import_laws;
mod join_laws;
mod limits;
mod linked_file;
mod links;
mod named;
mod path;
mod paths;
mod reaching;
mod read;
mod resolution_order;
mod seen;
mod set;
mod shift;
mod text;
mod traversal;

pub use bundle_fault::BundleFault;
pub use bundle_laws::{bundle_or_fault, decimal_is_round_trip, valid_or_rejected};
pub use file_union::{FileUnion, join};
pub use import_fault::{ImportFault, ImportReason};
pub use import_laws::{
    import_closure_is_unique, import_closure_or_fault, import_fault_is_unique,
    reported_cycle_exists, visit_outcome_is_unique,
};
pub use join_laws::{joined_alone, joined_is_ordered, offset_is_in_one_file};
pub use limits::MAX_PATH;
pub use linked_file::LinkedFile;
pub use named::Named;
pub use path::{first_rejected, is_path};
pub use reaching::reach;
pub use read::{is_bundle, read_bundle};
pub use set::{ImportClosure, ParsedFile};
pub use text::file_at;
