//! Why a connection isn't bound.

use frame_transport::FeedFault;
use schema_binding::AgreeFault;

/// Why a connection isn't bound to the service. It accepts no call, and its application isn't started.
#[derive(Drop)]
pub enum Unbound {
    /// The link failed before the first frame was complete.
    Transport,
    /// The other side finished before the first frame.
    Ended,
    /// The stream has this fault before any frame. Never `Memory`.
    Cut(FeedFault),
    /// The first frame isn't a hello, and `line` is 0; or it is a hello, and this is the first invalid line of its
    /// payload, from 1.
    Hello { line: u64 },
    /// The table in the other side's hello doesn't agree with the connection's own, for this cause. Never `Memory`.
    Disagrees(AgreeFault),
}
