//! The lines before messages.

ghost use Rattle.std.specs.Prelude.{◌≡◌, ◌<◌, ◌++◌, length, OnOk};
ghost use Rattle.frame_transport.specs.FramesInPlace.{owned_frame};
ghost use Rattle.frame_view.specs.Views.{call_head, hello_head, method_path, call_kind_word};

use frame_transport::{FrameRef, REQUEST};
use mrpc_table::{Bytes, Memory, Table};

// Appends the line of a hello.
pub(crate) fn put_hello(out: &mut Bytes, frame: &FrameRef) -> Result<(), Memory>
    ensures { OnOk result (out.new ≡ out.old ++ hello_head (owned_frame frame.now)) }
{
    out.append(b"# hello conn")?;
    out.append_word(u64::from(frame.conn))?;
    out.append(b" bytes")?;
    out.append_word(frame.payload.len() as u64)?;
    out.append(b"\n")
}

// Appends the line before the message of a request or a reply.
pub(crate) fn put_call(out: &mut Bytes, table: &Table, frame: &FrameRef) -> Result<(), Memory>
    requires { frame.now.method < length table.now.methods }
    ensures { OnOk result (out.new ≡ out.old ++ call_head table.now (owned_frame frame.now)) }
{
    out.append(b"# ")?;
    out.append(call_kind_word(frame.kind))?;
    out.append(b" ")?;
    append_method_path(out, table, frame.method)?;
    out.append(b" conn")?;
    out.append_word(u64::from(frame.conn))?;
    out.append(b" number")?;
    out.append_word(u64::from(frame.number))?;
    out.append(b"\n")
}

// The word for a request or a reply.
fn call_kind_word(kind: u8) -> &'static [u8]
    ensures { result.now ≡ call_kind_word kind }
{
    if kind == REQUEST {
        b"request"
    } else {
        b"reply"
    }
}

// Appends the name of a method's service and the name of the method.
fn append_method_path(out: &mut Bytes, table: &Table, method: u16) -> Result<(), Memory>
    requires { method < length table.now.methods }
    ensures { OnOk result (out.new ≡ out.old ++ method_path table.now method) }
{
    let method = &table.methods.as_slice()[method as usize];
    out.append(method.service.as_slice())?;
    out.append(b"/")?;
    out.append(method.name.as_slice())
}
