//! The tickets of quotas that threads share. A quota has up to 1024 windows, each with a word that counts its draws.
//! A [`Seat`] draws from it. Seats can be split and joined, and each may go to a thread of its own. There is no lock:
//! a draw is one atomic addition, which never blocks or allocates. The crate depends on `atomic_table`, whose words
//! change in sequentially consistent accesses, and on `mrpc_base`, which has the trait of tickets and the number of
//! windows.
//!
//! What the layer above may use: a seat has a share of its table, and keeps the list of its draws. A seat has all
//! shares only if no other seat is out. If it has, and fewer than 2^64 tickets were drawn in a window, these are 0,
//! 1, 2 and so on, each once. [`Seats`] are a list of seats, one for each tenant, and the
//! [`Tickets`](mrpc_base::Tickets) of these.
#![tactic(auto)]

mod laws;
mod opening;
mod seat;
mod seats;
mod view;

pub use laws::{join_undoes_split, shares_suffice, since_is_transitive};
pub use opening::open;
pub use seat::Seat;
pub use seats::Seats;
