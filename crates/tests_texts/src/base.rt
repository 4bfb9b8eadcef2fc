//! The lowest crates, each by itself: devices in memory and of the system, lists, totals, rates, and the
//! weighted order.

mod devices;
mod lists;
mod order;
mod rates;
mod system;
mod totals;
