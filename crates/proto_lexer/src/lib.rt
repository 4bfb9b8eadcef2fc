//! The tokens of a proto file (Protocol Buffers, proto3 language specification, "Lexical elements").
//!
//! [`next_token`] returns the first token at or after an offset of a text. Blanks and comments separate tokens and
//! are not tokens themselves. `specs/Tokens.antt` defines tokens, with one case for each kind, and `specs/Gaps.antt`
//! defines what may separate two of them. The crate uses `mrpc_table` for names and numbers. The layer above relies
//! on one contract: a text has exactly one list of tokens, whose last one is its end or the first offset where no
//! token starts.
#![tactic(auto)]

mod gap;
mod laws;
mod next;
mod scan;
mod string;
mod token;

pub use laws::{next_token_is_determined, string_value_is_determined, token_list_is_determined};
pub use next::next_token;
pub use string::string_value;
pub use token::{Token, TokenKind};
