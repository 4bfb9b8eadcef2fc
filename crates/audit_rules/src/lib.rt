//! The rules of legal histories, checked for one connection at a time.
//!
//! A [`Checker`] tracks what the events of one connection lead to (`specs/CheckerState.antt`): the engines, the pending
//! calls with their marks and forms, the clock, and the obligations that the last event leaves. Each check takes an
//! event and returns the first [`Rule`] that it breaks. Its time is at most linear in the size of one call's form. The
//! checker runs the engines themselves to find the answers of entries; a call's marks record what was noted of it. For
//! each call it caches how many entries are known to pass it (`specs/Asking.antt`), so that each entry is run once per
//! change of the chain. At the end, a checker returns the first rule with an obligation (`specs/BrokenRules.antt`).
//!
//! The crate depends on histories and their rules, on engines, and on the length of an encoding.
#![tactic(auto)]

mod ask;
mod call_events;
mod changes;
mod checker;
mod drawn;
mod event_kinds;
mod fates;
mod fixed_ticket;
mod obligation;
mod pending_lines;
mod reached;
mod rule;

pub use checker::Checker;
pub use pending_lines::listing_can_start;
pub use rule::Rule;
