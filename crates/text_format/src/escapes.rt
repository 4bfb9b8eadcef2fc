//! Strings and bytes in quotation marks.

ghost use Rattle.std.specs.Prelude.{◌≡◌, ◌++◌, OnOk};
ghost use Rattle.std.specs.List.{flat_map};
ghost use Rattle.text_format.specs.Escapes.{letter_of, is_printable, octal, escape, quoted_string};

use mrpc_table::{Bytes, Memory};

// Appends a string or bytes in quotation marks.
pub(crate) fn put_quoted(out: &mut Bytes, bytes: &[u8]) -> Result<(), Memory>
    ensures { OnOk result (out.new ≡ out.old ++ quoted_string bytes.now) }
{
    out.append(b"\"")?;
    put_escaped(out, bytes)?;
    out.append(b"\"")
}

fn put_escaped(out: &mut Bytes, bytes: &[u8]) -> Result<(), Memory>
    ensures { OnOk result (out.new ≡ out.old ++ flat_map escape bytes.now) }
{
    for byte in bytes {
        put_byte(out, *byte)?;
    }
    Ok(())
}

fn put_byte(out: &mut Bytes, byte: u8) -> Result<(), Memory>
    ensures { OnOk result (out.new ≡ out.old ++ escape byte) }
{
    match letter_of(byte) {
        Some(letter) => out.append(&[b'\\', letter]),
        None if is_printable(byte) => out.append(&[byte]),
        None => put_octal(out, byte),
    }
}

// The letter for a byte after a backslash.
fn letter_of(byte: u8) -> Option<u8>
    ensures { result ≡ letter_of byte }
{
    if byte == b'\n' {
        Some(b'n')
    } else if byte == b'\r' {
        Some(b'r')
    } else if byte == b'\t' {
        Some(b't')
    } else if byte == b'"' || byte == b'\'' || byte == b'\\' {
        Some(byte)
    } else {
        None
    }
}

// Whether a byte is printable ASCII.
fn is_printable(byte: u8) -> bool
    ensures { result ≡ is_printable byte }
{
    byte >= b' ' && byte < 127
}

fn put_octal(out: &mut Bytes, byte: u8) -> Result<(), Memory>
    ensures { OnOk result (out.new ≡ out.old ++ octal byte) }
{
    out.append(&[
        b'\\',
        b'0' + byte / 64,
        b'0' + byte / 8 % 8,
        b'0' + byte % 8,
    ])
}
