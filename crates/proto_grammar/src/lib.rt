//! The parts of a proto file's statements (Protocol Buffers, proto3 language specification), in this project's
//! profile: names, options, fields, values of an enum, methods of a service, reserved numbers and names.
//!
//! `specs/Lexemes.antt` defines what a token means, and `specs/Grammar.antt` which tokens form which part of a
//! statement. A part is read token by token. Its state, such as [`FieldState`], records how much of it is read; a
//! function such as [`advance_field`] reads one more token. [`ProtoFault`] is the fault of a token. The crate uses the
//! tokens of `proto_lexer`, the declarations of `proto_ast`, and `mrpc_table`. The layer above relies on one
//! contract: each step returns what `specs/Advancing.antt` defines for the token, or `Memory`. `proto_schema`
//! combines the parts into statements, and proves that what is read this way is what the grammar defines.
#![tactic(auto)]

mod fault;
mod field;
mod lexeme;
mod name;
mod option;
mod reserved;
mod rpc;
mod tail;
mod value;

pub use fault::{ProtoFault, ProtoReason};
pub use field::{FieldHead, FieldState, FieldStep, MapState, MapStep, advance_field};
pub use lexeme::{
    bytes_of, identifier_of, is_punctuator, is_word, proto_fault_at, span_of, unexpected, word_of,
};
pub use name::{NameState, NameStep, advance_full_name};
pub use option::{OptionState, OptionStep, advance_option};
pub use reserved::{RangeState, ReservedPart, ReservedState, ReservedStep, advance_reserved};
pub use rpc::{RpcState, RpcStep, advance_rpc};
pub use tail::{TailState, TailStep};
pub use value::{ValueState, ValueStep, advance_value};
