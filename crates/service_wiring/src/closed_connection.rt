//! The parts of a closed connection.

use link_queue::ClosedQueueLink;
use service_loop::{Deliveries, Submissions, VisitAccount};
use tenant_quota::Seats;

/// The parts of a connection after its link was closed.
#[derive(Drop)]
pub struct ClosedConnection<'t> {
    pub submissions: Submissions<'t>,
    pub deliveries: Deliveries<'t>,
    pub seats: Seats,
    /// What the link's queue passed on, for the writer's end.
    pub passed: ClosedQueueLink,
    /// Its weight and account, if rounds go by weight.
    pub share: Option<VisitAccount>,
    /// Whether it ran out of memory.
    pub memory: bool,
}
