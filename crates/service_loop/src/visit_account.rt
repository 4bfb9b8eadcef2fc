//! The account of a connection whose rounds go by weight.

ghost use Rattle.service_loop.specs.Within.{CanCount, HasCounted};

use crate::visit_summary::VisitSummary;
use qos_order::Account;

/// The weight of a connection, the same in all its visits, and the account of these visits.
#[derive(Clone, Copy)]
pub struct VisitAccount {
    /// 1 to 100.
    pub weight: u64,
    pub account: Account,
}

impl VisitAccount {
    // The visit account with one more visit.
    pub(crate) fn counted(mut self, visit: VisitSummary) -> VisitAccount
        requires { CanCount (record { given = visit.given; ending = visit.ending }) self }
        ensures { HasCounted (record { given = visit.given; ending = visit.ending }) self result }
    {
        self.account.visit(self.weight, visit.given, visit.ending);
        self
    }
}
