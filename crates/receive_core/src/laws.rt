//! Laws of all frames.

ghost use Rattle.receive_core.specs.Fates.{HasFate, HasUniqueFate};
ghost use Rattle.receive_core.specs.ReceiverTraces.{IsEachFrameTaken, IsStreamShort, AreStoresBounded};
ghost use Rattle.receive_core.specs.Order.{IsTakenInitially, IsTakenAfterPiece, IsTakenAfterFault, IsTakenAfterFrame, IsTakenPrefix};

use frame_transport::{frame_is_unique, frames_join, split_is_unique};
use wire_decode::{decode_fault_is_unique, meaning_is_unique, meaning_or_fault};

/// A law; it does nothing. A frame has exactly one fate under a table, a policy and a heap.
pub fn fate_is_determined()
    ensures some { HasFate }
    ensures one { HasUniqueFate }
{
    meaning_or_fault();
    decode_fault_is_unique();
    meaning_is_unique();
}

/// A law; it does nothing. Over the trace of a connection, the frames with fates are a prefix of the stream's
/// frames, in order and once, however the stream was cut into pieces. It holds initially, and each piece of
/// [`crate::Inbound::bytes`] and each frame that [`crate::Inbound::turn`] takes preserve it.
pub fn frames_in_order()
    ensures begins { IsTakenInitially }
    ensures goes_on { IsTakenAfterPiece }
    ensures stops { IsTakenAfterFault }
    ensures takes { IsTakenAfterFrame }
    ensures first { IsTakenPrefix }
{
    frames_join();
    frame_is_unique();
    split_is_unique();
}

/// A law; it does nothing. What the trace of a receiver implies for the layer above, after any pieces and turns.
/// If no whole frame waits, each whole frame of the stream had its fate, except a hello that was taken. A stream
/// without a fault is then shorter than a hello, these frames and one more, each of the maximum size. For each
/// fate, at most the words of the heap without word 0 were stored.
pub fn trace_of_receiver()
    ensures each { IsEachFrameTaken }
    ensures short { IsStreamShort }
    ensures stores { AreStoresBounded }
{
    frame_is_unique();
}
