//! The content of a frame.

ghost use Rattle.std.specs.Prelude.{◌≡◌, ◌≢◌, ◌<◌, ◌^◌, length, IfOk, IfErr};
ghost use Rattle.mrpc_table.specs.Valid.{IsValid};
ghost use Rattle.frame_transport.specs.Frames.{IsFrame};
ghost use Rattle.frame_transport.specs.FramesInPlace.{owned_frame};
ghost use Rattle.frame_transport.specs.declared.format.TheConstants.{HELLO};
ghost use Rattle.frame_view.specs.Contents.{IsContentOf};
ghost use Rattle.frame_view.specs.Faults.{OnFault, IsFaultOfFrame};

use crate::fault::ReadFault;
use frame_transport::{FrameRef, HEADER_LEN, HELLO, METHOD_PLACE};
use mrpc_table::{Table, Tree};
use std::alloc::Global;
use wire_decode::{DecodeFault, TreePool, decode_with};

/// The content of a frame.
#[derive(Drop)]
pub enum FrameContent {
    /// A hello.
    Hello,
    /// The message of a request or a reply: its index in the table, and its tree.
    Call { message: u32, tree: Tree },
}

/// The content of a stream's frame, or its fault: a method that the table lacks, or the first fault of its
/// payload.
pub fn content_of(
    alloc: Global,
    spare: &mut TreePool,
    table: &Table,
    frame: &FrameRef,
) -> Result<FrameContent, ReadFault>
    requires valid { IsValid table.now }
    requires frame { IsFrame (owned_frame frame.now) }
    requires near { frame.now.place < 2 ^ 63 }
    ensures content { IfOk result (IsContentOf table.now (owned_frame frame.now)) }
    ensures fault { IfErr result (OnFault (IsFaultOfFrame table.now (owned_frame frame.now))) }
{
    if frame.kind == HELLO {
        return Ok(FrameContent::Hello);
    }
    if table.methods.len() <= frame.method as usize {
        return Err(ReadFault::at(frame.place + METHOD_PLACE, "NoMethod"));
    }
    message_of(alloc, spare, table, frame)
}

// The message of a request or a reply.
fn message_of(
    alloc: Global,
    spare: &mut TreePool,
    table: &Table,
    frame: &FrameRef,
) -> Result<FrameContent, ReadFault>
    requires valid { IsValid table.now }
    requires frame { IsFrame (owned_frame frame.now) }
    requires near { frame.now.place < 2 ^ 63 }
    requires call { frame.now.kind ≢ HELLO }
    requires known { frame.now.method < length table.now.methods }
    ensures content { IfOk result (IsContentOf table.now (owned_frame frame.now)) }
    ensures fault { IfErr result (OnFault (IsFaultOfFrame table.now (owned_frame frame.now))) }
{
    let message = frame.payload_message(table);
    match decode_with(alloc, spare, frame.payload, table, message) {
        Ok(tree) => Ok(FrameContent::Call { message, tree }),
        Err(DecodeFault::At { reason, place }) => Err(ReadFault::at(
            frame.place + (HEADER_LEN + place) as u64,
            reason.word(),
        )),
        Err(DecodeFault::Memory) => Err(ReadFault::Memory),
    }
}
