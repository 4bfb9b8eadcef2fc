//! The knowledge of each seat of a quota's table, and what its accesses reveal. No value of these types but the table
//! is ever made.

use atomic_table::{Join, Play, Split, TableRule};
use std::alloc::Global;
use std::collections::LinkedList;

// The knowledge of one seat.
pub(crate) struct QuotaView {
    // The number of windows of the quota.
    pub windows: u64,
    // The draws of the seat, and of the seats that were joined to it: the window, and the ticket.
    pub draws: LinkedList<(u64, u64)>,
    // Its part of the shares. The sum over all seats of the table is fixed.
    pub share: u64,
}

pub(crate) struct Rule;

// Its key is the number of windows.
impl TableRule<(), QuotaView, u64> for Rule {
    ghost use Rattle.tenant_quota.specs.Rule.{IsQuota, opener};

    ghost holds = { IsQuota };

    ghost first = { opener };
}

// The draw of a ticket.
pub(crate) struct DrawStep;

impl Play<(), QuotaView> for DrawStep {
    ghost use Rattle.tenant_quota.specs.Rule.{IsDrawStep};

    ghost then = { IsDrawStep };
}

// A load that reveals the draws of a seat with all shares.
pub(crate) struct SettleStep;

impl Play<(), QuotaView> for SettleStep {
    ghost use Rattle.tenant_quota.specs.Rule.{IsSettleStep};

    ghost then = { IsSettleStep };
}

// A new seat, with half of this one's share and no draws.
pub(crate) struct Halves;

impl Split<QuotaView> for Halves {
    ghost use Rattle.tenant_quota.specs.Rule.{kept_view, new_view};

    ghost left = { kept_view };

    ghost right = { new_view };
}

impl Join<QuotaView> for Halves {
    ghost use Rattle.tenant_quota.specs.Rule.{joined_view, empty_view};

    ghost both = { joined_view };

    ghost spent = { empty_view };
}

pub(crate) type Table = atomic_table::Table<(), QuotaView, u64, Rule, Global>;
