//! Rows of bytes that are filled from their end, because the digits of a number come last digit first.

ghost use Rattle.std.specs.Prelude.{◌≡◌, ◌≤◌, ◌∷◌, ◌++◌, [], IfSome, drop, length, map};
ghost use Rattle.std.specs.Fmt.{decimal};
ghost use Rattle.mrpc_table.specs.Lines.{after_spaces};
ghost use Rattle.mrpc_table.specs.Text.{line};
ghost use Rattle.audit_text.specs.Pieces.{note_line};
ghost use Rattle.wire_encode.specs.Written.{AreWrittenBefore};

// Writes a byte before `end`. Returns its index; `None` if there is no room.
#[inline(always)]
pub(crate) fn put_byte(row: &mut [u8], end: usize, byte: u8) -> Option<usize>
    requires { end ≤ length row.old }
    ensures { IfSome result (λ start. AreWrittenBefore row.old row.new end start (byte ∷ [])) }
{
    if end == 0 {
        return None;
    }
    row[end - 1] = byte;
    Some(end - 1)
}

// Like `put_byte`, for several bytes.
#[inline(always)]
pub(crate) fn put_bytes(row: &mut [u8], end: usize, bytes: &[u8]) -> Option<usize>
    requires { end ≤ length row.old }
    ensures { IfSome result (λ start. AreWrittenBefore row.old row.new end start bytes.now) }
{
    if bytes.len() > end {
        return None;
    }
    let start = end - bytes.len();
    row[start..end].copy_from_slice(bytes);
    Some(start)
}

// Like `put_byte`, for a space and the digits of a decimal number.
pub(crate) fn put_number(row: &mut [u8], end: usize, number: u64) -> Option<usize>
    requires { end ≤ length row.old }
    ensures { IfSome result (λ start. AreWrittenBefore row.old row.new end start (32 ∷ decimal number)) }
{
    let mut start = end;
    let mut left = number;
    while left >= 10 {
        start = put_byte(row, start, b'0' + (left % 10) as u8)?;
        left /= 10;
    }
    let start = put_byte(row, start, b'0' + left as u8)?;
    put_byte(row, start, b' ')
}

// Like `put_number`, for several numbers.
#[inline(always)]
pub(crate) fn put_numbers(row: &mut [u8], end: usize, numbers: &[u64]) -> Option<usize>
    requires { end ≤ length row.old }
    ensures { IfSome result (λ start. AreWrittenBefore row.old row.new end start
        (after_spaces (map decimal numbers.now))) }
{
    let mut start = end;
    for place in (0..numbers.len()).rev() {
        start = put_number(row, start, numbers[place])?;
    }
    Some(start)
}

// Like `put_numbers`, with a prefix before the numbers.
#[inline(always)]
pub(crate) fn put_prefix(row: &mut [u8], end: usize, front: &[u8], numbers: &[u64]) -> Option<usize>
    requires { end ≤ length row.old }
    ensures { IfSome result (λ start. AreWrittenBefore row.old row.new end start
        (front.now ++ after_spaces (map decimal numbers.now))) }
{
    let start = put_numbers(row, end, numbers)?;
    put_bytes(row, start, front)
}

// Fills the end of a row with the line of a word and numbers. Returns its index; `None` if there is no room.
pub(crate) fn put_line(row: &mut [u8], word: &[u8], numbers: &[u64]) -> Option<usize>
    ensures { IfSome result (λ start. AreWrittenBefore row.old row.new (length row.old) start
        (line (word.now ∷ map decimal numbers.now))) }
{
    let end = row.len();
    let feed = put_byte(row, end, b'\n')?;
    put_prefix(row, feed, word, numbers)
}

// Like `put_line`, for the line of an entry's note on a call.
pub(crate) fn put_note(
    row: &mut [u8],
    word: &[u8],
    conn: u32,
    seq: u32,
    name: &[u8],
    numbers: &[u64],
) -> Option<usize>
    ensures { IfSome result (λ start. AreWrittenBefore row.old row.new (length row.old) start
        (note_line word.now conn seq name.now numbers.now)) }
{
    let end = row.len();
    let feed = put_byte(row, end, b'\n')?;
    let told = put_numbers(row, feed, numbers)?;
    let named = put_bytes(row, told, name)?;
    let space = put_byte(row, named, b' ')?;
    put_prefix(row, space, word, &[u64::from(conn), u64::from(seq)])
}
