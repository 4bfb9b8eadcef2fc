//! The lines of scripts.

ghost use Rattle.std.specs.Prelude.{◌≡◌, ◌∷◌, ◌++◌, OnOk, map};
ghost use Rattle.std.specs.Fmt.{decimal};
ghost use Rattle.std.specs.List.{flat_map};
ghost use Rattle.mrpc_table.specs.Text.{line};
ghost use Rattle.frame_transport.specs.FramesInPlace.{owned_frame};
ghost use Rattle.script_view.specs.Playing.{blank_line, blank_lines, conn_line, hello_comment, send_line, store_lines, submit_line};

use crate::limits::{FIRST_PLACE, MAX_REPLAY_WORDS};
use frame_transport::{FrameRef, REQUEST};
use mrpc_table::{Bytes, Memory};

// Appends a comment in place of a hello.
pub(crate) fn put_hello(out: &mut Bytes) -> Result<(), Memory>
    ensures { OnOk result (out.new ≡ out.old ++ hello_comment) }
{
    out.append(b"# a hello, which isn't replayed\n")
}

// Appends a line of a word and numbers.
pub(crate) fn put_line(out: &mut Bytes, word: &[u8], numbers: &[u64]) -> Result<(), Memory>
    ensures { OnOk result (out.new ≡ out.old ++ line (word.now ∷ map decimal numbers.now)) }
{
    out.append(word)?;
    for number in numbers {
        out.append_word(*number)?;
    }
    out.append(b"\n")
}

// Appends parts in order.
pub(crate) fn put_parts(out: &mut Bytes, parts: &[&[u8]]) -> Result<(), Memory>
    ensures { OnOk result (out.new ≡ out.old ++ flat_map (λ part. part.now) parts.now) }
{
    for part in parts {
        out.append(part)?;
    }
    Ok(())
}

// Appends the line that opens a connection.
pub(crate) fn put_conn(out: &mut Bytes, conn: u32) -> Result<(), Memory>
    ensures { OnOk result (out.new ≡ out.old ++ conn_line conn) }
{
    put_line(out, b"conn", &[u64::from(conn), MAX_REPLAY_WORDS])
}

// Appends this number of submissions without a message.
pub(crate) fn put_blanks(out: &mut Bytes, conn: u32, count: u64) -> Result<(), Memory>
    ensures { OnOk result (out.new ≡ out.old ++ blank_lines conn count) }
{
    for blank in 0..count {
        put_blank(out, conn)?;
    }
    Ok(())
}

fn put_blank(out: &mut Bytes, conn: u32) -> Result<(), Memory>
    ensures { OnOk result (out.new ≡ out.old ++ blank_line conn) }
{
    put_line(out, b"submit", &[u64::from(conn), 0, 0])
}

// Appends the lines that store words, in order.
pub(crate) fn put_stores(out: &mut Bytes, conn: u32, words: &[(u64, u64)]) -> Result<(), Memory>
    ensures { OnOk result (out.new ≡ out.old ++ store_lines conn words.now) }
{
    for word in words {
        put_line(out, b"store", &[u64::from(conn), word.0, word.1])?;
    }
    Ok(())
}

// Appends the submission of a frame's message.
pub(crate) fn put_submit(out: &mut Bytes, frame: &FrameRef) -> Result<(), Memory>
    ensures { OnOk result (out.new ≡ out.old ++ submit_line (owned_frame frame.now)) }
{
    let conn = u64::from(frame.conn);
    let method = u64::from(frame.method);
    if frame.kind == REQUEST {
        put_line(out, b"submit", &[conn, method, FIRST_PLACE])
    } else {
        put_line(
            out,
            b"submit",
            &[conn, method, FIRST_PLACE, u64::from(frame.number)],
        )
    }
}

// Appends the line that sends the submitted message.
pub(crate) fn put_send(out: &mut Bytes, conn: u32) -> Result<(), Memory>
    ensures { OnOk result (out.new ≡ out.old ++ send_line conn) }
{
    put_line(out, b"send", &[u64::from(conn)])
}
