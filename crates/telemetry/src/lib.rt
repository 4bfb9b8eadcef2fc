//! Counts of what became of calls, by method.
//!
//! [`Totals`] counts calls that were accepted, sent, refused and left pending. It adds up with other totals, and
//! prints itself as the last lines of a run's output. The crate depends on `mrpc_table` for lists of bytes. The
//! layers above use one contract: totals are the counts of a list of events, and their text is the lines of those
//! counts.
#![tactic(auto)]

mod counts;
mod laws;
mod text;
mod totals;

pub use counts::What;
pub use laws::{counts_add_up, totals_are_counts};
pub use totals::Totals;
