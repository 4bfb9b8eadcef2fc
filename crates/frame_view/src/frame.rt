//! The frame at an offset of a stream.

ghost use Rattle.std.specs.Prelude.{◌≡◌, ◌≢◌, ◌<◌, ◌^◌, length, drop, IfOk, IfErr, Err};
ghost use Rattle.frame_transport.specs.FramesInPlace.{IsFrameAt, owned_frame};
ghost use Rattle.frame_view.specs.Faults.{OnFault, IsFramingFault, IsFaultOfHeader};

use crate::fault::ReadFault;
use frame_transport::{FeedFault, FrameRef, frame_at};

/// The frame at this offset of a stream, or why there is none: its header has a fault, or the stream ends
/// inside it. Allocates nothing.
pub fn frame_from_stream(stream: &[u8], from: usize) -> Result<FrameRef<'_>, ReadFault>
    requires countable { length stream.now < 2 ^ 63 }
    requires some { from < length stream.now }
    ensures frame { IfOk result (λ frame. IsFrameAt from (drop from stream.now) (owned_frame frame)) }
    ensures fault { IfErr result (OnFault (IsFramingFault from (drop from stream.now))) }
    ensures not_memory { result ≢ Err ReadFault.Memory }
{
    match frame_at(from as u64, &stream[from..]) {
        Ok(Some(frame)) => Ok(frame),
        Ok(None) => Err(ReadFault::at(from as u64, "Short")),
        Err(fault) => Err(fault_of(fault)),
    }
}

// The fault of a header.
fn fault_of(fault: FeedFault) -> ReadFault
    ensures is { OnFault (IsFaultOfHeader fault) result }
    ensures not_memory { fault ≢ FeedFault.Memory → result ≢ ReadFault.Memory }
{
    match fault {
        FeedFault::Version { place, .. } => ReadFault::at(place, "Version"),
        FeedFault::Kind { place, .. } => ReadFault::at(place, "Kind"),
        FeedFault::TooLong { place, .. } => ReadFault::at(place, "TooLong"),
        FeedFault::Memory => ReadFault::Memory,
    }
}
