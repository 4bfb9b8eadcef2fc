//! The results of a run.

use link_handshake::Unbound;
use service_threads::BoundConn;

/// The outcome of a connection.
#[derive(Drop)]
pub enum ConnectionOutcome<'t> {
    /// It wasn't bound, for this cause; its application wasn't started.
    Unbound(Unbound),
    /// It was bound, and served its application to the end.
    Bound(BoundConn<'t>),
}

/// The result of a run for one connection.
#[derive(Drop)]
pub struct ServedConn<'t, L> {
    /// Its number, 1 to 16.
    pub conn: u32,
    /// Its end of the link, which was finished.
    pub link: L,
    pub outcome: ConnectionOutcome<'t>,
}

/// The results for all connections, in the order of the plan's links: for each link first the connection `a`, then
/// `b`.
#[derive(Drop)]
pub struct Served<'t, L> {
    pub conns: Vec<ServedConn<'t, L>>,
}
