//! What the report has of a connection.

use crate::Judge;
use conn_core::Conn;
use link_handshake::Unbound;
use message_delivery::Arrivals;
use qos_order::Account;

/// A connection after a run: the cause why it wasn't bound, or what it served.
#[derive(Clone, Copy)]
pub enum ReportedConnection<'a, 't> {
    Unbound { conn: u32, why: &'a Unbound },
    Served(ServedReport<'a, 't>),
}

/// What a bound connection served.
#[derive(Clone, Copy)]
pub struct ServedReport<'a, 't> {
    /// Its calls, with their history.
    pub calls: &'a Conn<'t>,
    /// Its arrivals.
    pub arrivals: &'a Arrivals<'t>,
    /// The policy that judged the arrivals, with the name under which it is declared.
    pub judge: Option<Judge<'a>>,
    /// The returned numbers that named no held block.
    pub not_held: &'a [u64],
    /// The account of its visits, if connections got rounds by their weights.
    pub rounds: Option<Rounds>,
}

/// The account of a connection's visits.
#[derive(Clone, Copy)]
pub struct Rounds {
    /// The connection's weight among others, 1 to 100.
    pub weight: u64,
    pub account: Account,
}
