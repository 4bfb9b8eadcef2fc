//! Writes the bytes of a frame.

ghost use Rattle.std.specs.Prelude.{◌≡◌, ◌≤◌, ◌++◌, length, IfOk, OnOk};
ghost use Rattle.frame_transport.specs.Bytes.{frame_bytes};

use crate::format::{
    HEADER_LEN, HELLO, HELLO_VERSION, MAX_PAYLOAD, METHOD_PLACE, REPLY, REQUEST, VERSION,
};
use byteorder::{BigEndian, ByteOrder};
use mrpc_table::{Bytes, Memory};
use std::alloc::Global;

/// The bytes of a request (kind 1) or a reply (kind 2), of version 1. The format is this project's own.
pub fn frame(
    alloc: Global,
    kind: u8,
    method: u16,
    conn: u32,
    number: u32,
    payload: &[u8],
) -> Result<Bytes, Memory>
    requires least { REQUEST ≤ kind }
    requires greatest { kind ≤ REPLY }
    requires short { length payload.now ≤ MAX_PAYLOAD }
    ensures { IfOk result (λ bytes. bytes ≡ frame_bytes kind VERSION method conn number payload.now) }
{
    let mut bytes = Bytes::with_room(alloc, HEADER_LEN + payload.len())?;
    write(&mut bytes, kind, VERSION, method, conn, number, payload)?;
    Ok(bytes)
}

/// Like `frame`, but overwrites `out` and reuses its capacity.
pub fn frame_into(
    out: &mut Bytes,
    kind: u8,
    method: u16,
    conn: u32,
    number: u32,
    payload: &[u8],
) -> Result<(), Memory>
    requires least { REQUEST ≤ kind }
    requires greatest { kind ≤ REPLY }
    requires short { length payload.now ≤ MAX_PAYLOAD }
    ensures { OnOk result (out.new ≡ frame_bytes kind VERSION method conn number payload.now) }
{
    out.clear();
    write(out, kind, VERSION, method, conn, number, payload)
}

/// The bytes of a hello, of version 2, with method and number 0. The format is this project's own.
pub fn hello_frame(alloc: Global, conn: u32, payload: &[u8]) -> Result<Bytes, Memory>
    requires short { length payload.now ≤ MAX_PAYLOAD }
    ensures { IfOk result (λ bytes. bytes ≡ frame_bytes HELLO HELLO_VERSION 0 conn 0 payload.now) }
{
    let mut bytes = Bytes::with_room(alloc, HEADER_LEN + payload.len())?;
    write(&mut bytes, HELLO, HELLO_VERSION, 0, conn, 0, payload)?;
    Ok(bytes)
}

// Appends the header, whose numbers are big-endian, and the payload.
fn write(
    out: &mut Bytes,
    kind: u8,
    version: u8,
    method: u16,
    conn: u32,
    number: u32,
    payload: &[u8],
) -> Result<(), Memory>
    requires short { length payload.now ≤ MAX_PAYLOAD }
    ensures { OnOk result (out.new ≡ out.old ++ frame_bytes kind version method conn number payload.now) }
{
    let mut header = [0; HEADER_LEN];
    BigEndian::write_u32(&mut header, payload.len() as u32);
    header[4] = kind;
    header[5] = version;
    BigEndian::write_u16(&mut header[METHOD_PLACE as usize..], method);
    BigEndian::write_u32(&mut header[8..], conn);
    BigEndian::write_u32(&mut header[12..], number);
    out.append(&header)?;
    out.append(payload)?;
    Ok(())
}
