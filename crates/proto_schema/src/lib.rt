//! Proto files (Protocol Buffers, proto3 language specification), in this project's profile.
//!
//! [`read_proto`] reads a text, token by token. `specs/Files.antt` defines what a text of statements declares, and
//! `specs/Faults.antt` which token of any other text is at fault first, and why. The crate uses the tokens of
//! `proto_lexer`; `proto_grammar`, which defines and reads the parts of statements; the types of `proto_ast`; and
//! `mrpc_table`.
//!
//! The layer above relies on the contract of [`read_proto`]. A file that it returns is what the text reads as
//! (`reads`). If the text reads as a file, it returns that file or runs out of memory (`only`). A fault that it
//! returns is the text's first one (`fault`). A text reads as at most one file ([`file_is_unique`]), has at most one first
//! fault ([`text_fault_is_unique`]), and has exactly one of the two ([`file_or_fault`]).
//!
//! The file is well-formed, and its names and numbers start in the order of its lists (`Order` of `proto_ast`,
//! [`file_is_ordered`]). The same is true of it as a file that is resolved alone (`Together` of `proto_ast`,
//! [`alone_is_ordered`]). Its names and numbers lie within the text (`Within` of `proto_ast`, [`file_is_within`]).
#![tactic(auto)]

mod draft;
mod laws;
mod limits;
mod read;
mod statement;

pub use laws::{
    alone_is_ordered, file_is_ordered, file_is_unique, file_is_within, file_or_fault,
    text_fault_is_unique,
};
pub use limits::MAX_OPEN;
pub use read::read_proto;
