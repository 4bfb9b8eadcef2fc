//! The whole input of a command.

ghost use Rattle.std.specs.Prelude.{◌≡◌, ◌<◌, ◌≤◌, ◌++◌, length, vec_len, IfOk, OnOk};
ghost use Rattle.mrpc_base.specs.Failures.{HasCause};
ghost use Rattle.mrpc_base.specs.WholeInput.{OnWhole, IsAllOf, HasReadPast};

use crate::{Got, Source};
use std::alloc::{AllocError, Global};

/// The most bytes that an input may have.
pub const MAX_INPUT: usize = 16_777_216;

// The most bytes that one read asks for.
const PIECE: usize = 65_536;

/// The most bytes that are copied at once. A longer copy is one string instruction in the C library, which counts as
/// one instruction per byte in tools that count instructions.
pub const CHUNK: usize = 2_048;

/// The result of reading an input.
#[derive(Drop)]
pub enum InputResult {
    /// The input was read to its end; these are its bytes.
    Whole(Vec<u8>),
    /// The input has more than `MAX_INPUT` bytes; one byte past the limit was read.
    TooLong,
    /// The source failed.
    Failed,
    /// Out of memory.
    Memory,
}

/// Reads an input to its end, or one byte past its limit.
pub fn read_input<S: Source>(alloc: Global, input: &mut S) -> InputResult
    ensures whole { OnWhole result (λ text. (length text ≤ MAX_INPUT) × IsAllOf (S.left input.old) text) }
    ensures too_long { result ≡ InputResult.TooLong → HasReadPast MAX_INPUT (S.left input.old) (S.left input.new) }
    ensures cause { HasCause (result ≡ InputResult.Failed) (S.failures input.old) (S.failures input.new) }
{
    match buffer(alloc, PIECE) {
        Ok(mut piece) => read_pieces(alloc, input, &mut piece),
        Err(_) => InputResult::Memory,
    }
}

// A buffer of `size` bytes.
fn buffer(alloc: Global, size: usize) -> Result<Vec<u8>, AllocError>
    requires { 0 < size }
    ensures { IfOk result (λ buffer. 0 < vec_len buffer) }
{
    vec![in alloc; 0; size]
}

// Appends bytes to a text, in chunks.
fn append(text: &mut Vec<u8>, bytes: &[u8]) -> Result<(), AllocError>
    ensures { OnOk result (text.new.items ≡ text.old.items ++ bytes.now) }
{
    for chunk in bytes.chunks(CHUNK) {
        text.extend_from_slice(chunk)?;
    }
    Ok(())
}

// Like `read_input`, with reads of at most the buffer's length.
fn read_pieces<S: Source>(alloc: Global, input: &mut S, piece: &mut [u8]) -> InputResult
    requires { 0 < length piece.old }
    ensures whole { OnWhole result (λ text. (length text ≤ MAX_INPUT) × IsAllOf (S.left input.old) text) }
    ensures too_long { result ≡ InputResult.TooLong → HasReadPast MAX_INPUT (S.left input.old) (S.left input.new) }
    ensures cause { HasCause (result ≡ InputResult.Failed) (S.failures input.old) (S.failures input.new) }
{
    let mut text: Vec<u8> = Vec::new(alloc);
    while text.len() <= MAX_INPUT {
        let room = piece.len().min(MAX_INPUT + 1 - text.len());
        match input.read(&mut piece[..room]) {
            Got::Bytes(count) => {
                if append(&mut text, &piece[..count]).is_err() {
                    return InputResult::Memory;
                }
            }
            Got::End => return InputResult::Whole(text),
            Got::Failed => return InputResult::Failed,
        }
    }
    InputResult::TooLong
}
