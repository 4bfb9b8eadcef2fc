//! Decodes a stream of frames: a line for each frame, up to the first fault.

ghost use Rattle.std.specs.Prelude.{◌≡◌, ◌≢◌, ◌<◌, ◌^◌, ◌⊎◌, ◌++◌, [], List, ℕ, length, drop, OnOk, IfOk, IfErr, Err};
ghost use Rattle.std.specs.Io.KnownBytes.{Appends};
ghost use Rattle.mrpc_base.specs.Failures.{HasCause};
ghost use Rattle.mrpc_table.specs.Valid.{IsValid};
ghost use Rattle.frame_transport.specs.Frames.{IsFrame};
ghost use Rattle.frame_transport.specs.FramesInPlace.{owned_frame};
ghost use Rattle.frame_transport.specs.declared.format.TheConstants.{HELLO};
ghost use Rattle.text_commands.specs.DecodeInput.{OnFault};
ghost use Rattle.text_commands.specs.Decoding.{IsLineOfFrame, IsFaultOfFrame, IsFaultOfHeader, IsDecoded, IsCutAt, hello_line, call_line};
ghost use Rattle.text_commands.specs.LineRanges.{AreLinesBetween, HasDecodedPrefix};

use crate::laws::{frame_law, meaning_law};
use audit_text::append_hex_word;
use frame_transport::{FeedFault, FrameRef, HEADER_LEN, HELLO, METHOD_PLACE, frame_at};
use mrpc_base::{Sink, write_all};
use mrpc_table::{Bytes, Memory, Table};
use std::alloc::Global;
use wire_decode::{DecodeFault, TreePool, decode_with};
use wire_encode::{BackwardBuffer, encode_into};

// The fewest bytes of lines that are gathered before a write.
const PIECE: usize = 65_536;

// Why a decoding stops before the end of its input.
#[derive(Drop, Clone, Copy)]
pub(crate) enum DecodeError {
    // The input has a fault at `place`, a line of the text or an offset in the stream; `word` is the word of
    // its reason.
    Fault { place: u64, word: &'static str },
    // Out of memory.
    Memory,
    // A write failed.
    Out,
}

impl From<Memory> for DecodeError {
    ghost use Rattle.std.specs.Prelude.{◌≡◌};
    ghost use Rattle.text_commands.specs.declared.decoding.DecodeError.TheVariants.{Memory as NoMemory};

    ghost from_gives = { λ _ cut. cut ≡ NoMemory };

    fn from(_: Memory) -> DecodeError {
        DecodeError::Memory
    }
}

// Writes the line of each frame of a stream, up to the first fault.
pub(crate) fn decode_stream<K: Sink>(
    alloc: Global,
    table: &Table,
    stream: &[u8],
    out: &mut K,
) -> Result<(), DecodeError>
    requires valid { IsValid table.now }
    requires countable { length stream.now < 2 ^ 63 }
    ensures done { OnOk result ((text : List ℕ) × IsDecoded table.now stream.now text
        × Appends (K.written out.old) (K.written out.new) text) }
    ensures cut { IfErr result (OnFault (λ place word. (text : List ℕ) × IsCutAt table.now 0 stream.now text place word
        × Appends (K.written out.old) (K.written out.new) text)) }
    ensures early { (result ≡ Err DecodeError.Memory) ⊎ (result ≡ Err DecodeError.Out)
        → HasDecodedPrefix table.now stream.now
        (K.written out.old) (K.written out.new) }
    ensures out_cause { HasCause (result ≡ Err DecodeError.Out) (K.failures out.old) (K.failures out.new) }
{
    meaning_law();
    let mut room = DecodeBuffers::new(alloc)?;
    let mut place = 0;
    while place < stream.len() {
        let mut lines = Bytes::new(alloc);
        let told = append_lines(alloc, table, stream, place, &mut room, &mut lines);
        // After `Memory` the lines may be truncated anywhere, so none of them is written.
        if matches!(told, Err(DecodeError::Memory)) {
            return Err(DecodeError::Memory);
        }
        if !write_all(out, lines.as_slice()) {
            return Err(DecodeError::Out);
        }
        place = told?;
    }
    Ok(())
}

// Buffers that are reused for each frame.
struct DecodeBuffers {
    // The encoding of a message.
    encoded: BackwardBuffer,
    // Recycled trees of earlier messages.
    spare: TreePool,
}

impl Drop for DecodeBuffers {
    fn drop(self) {
        let DecodeBuffers {
            encoded: _encoded,
            spare: _spare,
        } = self;
    }
}

impl DecodeBuffers {
    fn new(alloc: Global) -> Result<DecodeBuffers, Memory> {
        Ok(DecodeBuffers {
            encoded: BackwardBuffer::new(alloc)?,
            spare: TreePool::new(alloc),
        })
    }
}

// Appends the lines of frames from this offset until `PIECE` bytes are gathered or the stream ends. Returns
// the offset after these frames.
fn append_lines(
    alloc: Global,
    table: &Table,
    stream: &[u8],
    from: usize,
    room: &mut DecodeBuffers,
    lines: &mut Bytes,
) -> Result<usize, DecodeError>
    requires valid { IsValid table.now }
    requires countable { length stream.now < 2 ^ 63 }
    requires some { from < length stream.now }
    ensures told { IfOk result (λ to. (text : List ℕ) × (lines.new ≡ lines.old ++ text)
        × AreLinesBetween table.now stream.now from to text) }
    ensures further { IfOk result (λ to. from < to) }
    ensures cut { IfErr result (OnFault (λ place word. (text : List ℕ) × (lines.new ≡ lines.old ++ text)
        × IsCutAt table.now from (drop from stream.now) text place word)) }
    ensures not_out { result ≢ Err DecodeError.Out }
{
    frame_law();
    let mut place = from;
    'frames: loop {
        place = append_next_line(alloc, table, stream, place, room, lines)?;
        if place >= stream.len() || lines.len() >= PIECE {
            return Ok(place);
        }
    }
}

// Appends the line of the frame at this offset of a stream, and returns the offset after the frame.
fn append_next_line(
    alloc: Global,
    table: &Table,
    stream: &[u8],
    from: usize,
    room: &mut DecodeBuffers,
    lines: &mut Bytes,
) -> Result<usize, DecodeError>
    requires valid { IsValid table.now }
    requires countable { length stream.now < 2 ^ 63 }
    requires some { from < length stream.now }
    ensures told { IfOk result (λ to. (text : List ℕ) × (lines.new ≡ lines.old ++ text)
        × AreLinesBetween table.now stream.now from to text) }
    ensures further { IfOk result (λ to. from < to) }
    ensures cut { IfErr result (OnFault (λ place word. (lines.new ≡ lines.old)
        × IsCutAt table.now from (drop from stream.now) [] place word)) }
    ensures not_out { result ≢ Err DecodeError.Out }
{
    frame_law();
    match frame_at(from as u64, &stream[from..]) {
        Ok(Some(frame)) => {
            append_frame_line(alloc, table, &frame, room, lines)?;
            Ok(from + HEADER_LEN + frame.payload.len())
        }
        Ok(None) => Err(DecodeError::Fault {
            place: from as u64,
            word: "Short",
        }),
        Err(fault) => Err(header_error(fault)),
    }
}

// The fault of a header.
fn header_error(fault: FeedFault) -> DecodeError
    ensures fault { OnFault (IsFaultOfHeader fault) result }
    ensures not_out { result ≢ DecodeError.Out }
{
    match fault {
        FeedFault::Version { place, .. } => DecodeError::Fault {
            place,
            word: "Version",
        },
        FeedFault::Kind { place, .. } => DecodeError::Fault {
            place,
            word: "Kind",
        },
        FeedFault::TooLong { place, .. } => DecodeError::Fault {
            place,
            word: "TooLong",
        },
        FeedFault::Memory => DecodeError::Memory,
    }
}

// Appends the line of a frame.
fn append_frame_line(
    alloc: Global,
    table: &Table,
    frame: &FrameRef,
    room: &mut DecodeBuffers,
    lines: &mut Bytes,
) -> Result<(), DecodeError>
    requires valid { IsValid table.now }
    requires frame { IsFrame (owned_frame frame.now) }
    requires near { frame.now.place < 2 ^ 63 }
    ensures told { OnOk result ((text : List ℕ) × IsLineOfFrame table.now (owned_frame frame.now) text
        × (lines.new ≡ lines.old ++ text)) }
    ensures cut { IfErr result (OnFault (λ place word. IsFaultOfFrame table.now (owned_frame frame.now) place word
        × (lines.new ≡ lines.old))) }
    ensures not_out { result ≢ Err DecodeError.Out }
{
    if frame.kind == HELLO {
        append_hello_line(frame, lines)?;
        return Ok(());
    }
    if table.methods.len() <= frame.method as usize {
        return Err(DecodeError::Fault {
            place: frame.place + METHOD_PLACE,
            word: "NoMethod",
        });
    }
    append_call_line(alloc, table, frame, room, lines)
}

// Appends the line of a request or a reply. The encoding of its message overwrites that of the previous one.
fn append_call_line(
    alloc: Global,
    table: &Table,
    frame: &FrameRef,
    room: &mut DecodeBuffers,
    lines: &mut Bytes,
) -> Result<(), DecodeError>
    requires valid { IsValid table.now }
    requires frame { IsFrame (owned_frame frame.now) }
    requires near { frame.now.place < 2 ^ 63 }
    requires call { frame.now.kind ≢ HELLO }
    requires known { frame.now.method < length table.now.methods }
    ensures told { OnOk result ((text : List ℕ) × IsLineOfFrame table.now (owned_frame frame.now) text
        × (lines.new ≡ lines.old ++ text)) }
    ensures cut { IfErr result (OnFault (λ place word. IsFaultOfFrame table.now (owned_frame frame.now) place word
        × (lines.new ≡ lines.old))) }
    ensures not_out { result ≢ Err DecodeError.Out }
{
    let message = frame.payload_message(table);
    match decode_with(alloc, &mut room.spare, frame.payload, table, message) {
        Ok(tree) => {
            encode_into(&mut room.encoded, &tree, table, message)?;
            append_encoded_call(frame, room.encoded.as_slice(), lines)?;
            room.spare.recycle(tree);
            Ok(())
        }
        Err(DecodeFault::At { reason, place }) => Err(DecodeError::Fault {
            place: frame.place + (HEADER_LEN + place) as u64,
            word: reason.word(),
        }),
        Err(DecodeFault::Memory) => Err(DecodeError::Memory),
    }
}

// Appends the line of a hello.
fn append_hello_line(frame: &FrameRef, lines: &mut Bytes) -> Result<(), Memory>
    ensures { OnOk result (lines.new ≡ lines.old ++ hello_line (owned_frame frame.now)) }
{
    lines.append(b"hello")?;
    lines.append_word(u64::from(frame.conn))?;
    lines.append_word(frame.payload.len() as u64)?;
    lines.append(b"\n")
}

// Appends the line of a request or a reply, given the encoding of its message.
fn append_encoded_call(frame: &FrameRef, bytes: &[u8], lines: &mut Bytes) -> Result<(), Memory>
    ensures { OnOk result (lines.new ≡ lines.old ++ call_line (owned_frame frame.now) bytes.now) }
{
    lines.append(b"frame")?;
    lines.append_word(u64::from(frame.kind))?;
    lines.append_word(u64::from(frame.method))?;
    lines.append_word(u64::from(frame.conn))?;
    lines.append_word(u64::from(frame.number))?;
    append_hex_word(lines, bytes)?;
    lines.push(b'\n')
}
