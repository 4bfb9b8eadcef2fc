//! Lines of scripts, inputs of `audit`, and texts of histories.

mod audits;
mod forms;
mod inputs;
