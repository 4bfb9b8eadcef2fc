//! A listed connection.

use crate::account::Account;

// A listed connection with its weight and its account.
#[derive(Clone, Copy)]
pub(crate) struct WheelEntry {
    // The connection's number.
    pub conn: u32,
    // Its weight.
    pub weight: u64,
    // The sums over its visits.
    pub account: Account,
}
