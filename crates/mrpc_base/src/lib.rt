//! The environment of the service as traits, independent of every other crate of the project.
//!
//! A [`Source`] gives bytes and a [`Sink`] takes them. A [`Link`] connects to a peer, and a [`Fabric`] opens such
//! links. [`Words`] is a shared heap as its reader loads it, and [`Stores`] as its writer stores to it. [`Tickets`]
//! draws from quotas, [`Clock`] returns the time, and the workers of a run ask [`Gate`] and [`ReadyOrder`]. Each trait
//! but the fabric has an implementation in memory, for tests and replays. [`write_all`] writes all bytes to a sink that
//! may take fewer at a time.
//!
//! Each trait of a device counts its failures, and the count never falls. A call returns `Failed` only if the count
//! rose in that call or has reached 2^64 - 1, its last value. Any other result leaves the count as it was. So a layer
//! above can prove that it reports a failure only after a device failed.
//!
//! [`read_input`] reads the whole input of a command, up to a limit in bytes. It returns all the remaining bytes of a
//! source, or that they exceed the limit, that the source failed, or that it is out of memory.
#![tactic(auto)]

mod calls;
mod clock;
mod fabric;
mod gate;
mod link;
mod log;
mod mem_link;
mod mem_sink;
mod mem_source;
mod plain_tickets;
mod plain_words;
mod races;
mod ready_order;
mod sink;
mod source;
mod stored_words;
mod stores;
mod supply;
mod tickets;
mod whole_input;
mod words;
mod writing;

pub use clock::{Clock, FixedClock};
pub use fabric::{Fabric, OpenFault};
pub use gate::{Gate, OpenGate};
pub use link::{Came, Handed, Link};
pub use mem_link::MemLink;
pub use mem_sink::MemSink;
pub use mem_source::MemSource;
pub use plain_tickets::PlainTickets;
pub use plain_words::PlainWords;
pub use ready_order::{PlainOrder, ReadyOrder};
pub use sink::{Put, Sink};
pub use source::{Got, Source};
pub use stores::Stores;
pub use tickets::{Tickets, WINDOWS};
pub use whole_input::{CHUNK, InputResult, MAX_INPUT, read_input};
pub use words::{Room, Words};
pub use writing::write_all;
