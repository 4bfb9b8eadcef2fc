//! Tests of the layers below the commands, for what no command shows: devices and words, tables, records,
//! links, tokens of proto files, lines of scripts, texts of histories, and plans. The crate has no other
//! code, and nothing uses it.
#![tactic(auto)]

#[cfg(test)]
mod base;
#[cfg(test)]
mod protos;
#[cfg(test)]
mod scenarios;
#[cfg(test)]
mod scripts;
#[cfg(test)]
mod tables;

// What dropping a value does is proved in each function that drops one. Through this function it is one call,
// so values are moved into it.
#[cfg(test)]
pub(crate) fn discard<T: Drop>(_value: T) {}
