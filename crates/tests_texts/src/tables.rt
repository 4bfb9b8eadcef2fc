//! Texts and bytes that are read and written: tables, records, links over a sink, and the comparison of
//! hellos.

mod frames;
mod hellos;
mod records;
pub(crate) mod texts;
