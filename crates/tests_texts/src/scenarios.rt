//! Scenarios: the plan of one.

mod plans;
