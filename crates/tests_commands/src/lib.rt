//! Tests of the commands and of the views over objects in memory, whose calls fail where a test says so. The
//! crate has no other code, and nothing uses it.
#![tactic(auto)]

#[cfg(test)]
mod commands;
#[cfg(test)]
mod devices;
#[cfg(test)]
mod views;
