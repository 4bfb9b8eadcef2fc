//! Proto files: their tokens.

mod tokens;
