//! The views: the words that name them, and what they write for an input.

ghost use Rattle.std.specs.Prelude.{◌≡◌, ◌≢◌, ◌↔◌, ◌≤◌, length, OnOk, IfErr, IfSome, IfNone, Err};
ghost use Rattle.std.specs.Io.KnownBytes.{Appends};
ghost use Rattle.frame_view.specs.Written.{OnViewError};
ghost use Rattle.mrpc_base.specs.Failures.{HasCause};
ghost use Rattle.view_top.specs.declared.status.TheConstants.{FAULTY_INPUT};
ghost use Rattle.view_top.specs.Views.{IsView, IsNamedView, view_word, IsViewed, IsRejectedInput, IsViewOutput, IsViewToFault, HasRejectedView};

use crate::fault::write_view_fault;
use crate::status::{DONE, INPUT_FAILED, NO_COMMAND, NO_MEMORY, OUTPUT_FAILED};
use crate::timeline_of;
use frame_view::{ReadFault, ViewError, view_frames};
use mrpc_base::{InputResult, MAX_INPUT, Sink, Source, read_input, write_all};
use script_view::script_of;
use std::alloc::Global;

/// Writes the view of an input that the words name, `frames`, `script` or `timeline`, each alone, and returns
/// the exit status.
///
/// `frames` and `script` read what `mrpc decode` reads. `timeline` reads the output of `mrpc replay` or
/// `mrpc run`, or an input of `mrpc audit`. The diagnostic of a faulty input is written to `error`, for a
/// person; if a write to it fails, no more is written there.
pub fn run_view<S: Source, K: Sink, E: Sink>(
    alloc: Global,
    words: &Vec<String>,
    input: &mut S,
    out: &mut K,
    error: &mut E,
) -> u8
    ensures statuses { result ≤ OUTPUT_FAILED }

    // Which words are a view. For all others nothing is read or written.
    ensures words { (result ≡ NO_COMMAND) ↔ (IsView words.now.items → ⊥) }
    ensures untouched { result ≡ NO_COMMAND → (input.new ≡ input.old) × (out.new ≡ out.old) × (error.new ≡ error.old) }

    // The view of the input was written, or the input has a first fault, whose line was written after the
    // view of what precedes it.
    ensures done { (view : ViewKind) → IsNamedView words.now.items view → result ≡ DONE
        → IsViewed view (S.left input.old) (K.written out.old) (K.written out.new) }
    ensures faulty { (view : ViewKind) → IsNamedView words.now.items view → result ≡ FAULTY_INPUT
        → IsRejectedInput view (S.left input.old) (S.left input.new) (K.written out.old) (K.written out.new) }

    // A failure of the input and one of the output each have a status.
    ensures input_cause { HasCause (result ≡ INPUT_FAILED) (S.failures input.old) (S.failures input.new) }
    ensures out_cause { HasCause (result ≡ OUTPUT_FAILED) (K.failures out.old) (K.failures out.new) }
    ensures unread { result ≡ INPUT_FAILED → out.new ≡ out.old }

    // Only a faulty input has a diagnostic.
    ensures quiet { result ≢ FAULTY_INPUT → error.new ≡ error.old }
{
    match view_of(words) {
        Some(view) => write_view_of_input(alloc, view, input, out, error),
        None => NO_COMMAND,
    }
}

// Writes the view of an input, or its first fault.
fn write_view_of_input<S: Source, K: Sink, E: Sink>(
    alloc: Global,
    view: ViewKind,
    input: &mut S,
    out: &mut K,
    error: &mut E,
) -> u8
    ensures statuses { result ≤ OUTPUT_FAILED }
    ensures some { result ≢ NO_COMMAND }
    ensures done { result ≡ DONE → IsViewed view (S.left input.old) (K.written out.old) (K.written out.new) }
    ensures faulty { result ≡ FAULTY_INPUT
        → IsRejectedInput view (S.left input.old) (S.left input.new) (K.written out.old) (K.written out.new) }
    ensures input_cause { HasCause (result ≡ INPUT_FAILED) (S.failures input.old) (S.failures input.new) }
    ensures out_cause { HasCause (result ≡ OUTPUT_FAILED) (K.failures out.old) (K.failures out.new) }
    ensures unread { result ≡ INPUT_FAILED → out.new ≡ out.old }
    ensures quiet { result ≢ FAULTY_INPUT → error.new ≡ error.old }
{
    match read_input(alloc, input) {
        InputResult::Whole(text) => write_view_of_text(alloc, view, &text, out, error),
        InputResult::TooLong => write_view_fault(
            alloc,
            &[],
            MAX_INPUT as u64,
            b"Input",
            out,
            error,
        ),
        InputResult::Failed => INPUT_FAILED,
        InputResult::Memory => NO_MEMORY,
    }
}

// A view of the program.
#[derive(Clone, Copy)]
enum ViewKind {
    Frames,
    Script,
    Timeline,
}

// The view that the words name; `None` if they name none.
fn view_of(words: &[String]) -> Option<ViewKind>
    ensures some { IfSome result (λ view. IsNamedView words.now view) }
    ensures none { IfNone result (IsView words.now → ⊥) }
{
    match words {
        [word] => view_named(word.as_str()),
        _ => None,
    }
}

fn view_named(word: &str) -> Option<ViewKind>
    ensures some { IfSome result (λ view. word.now ≡ view_word view) }
    ensures none { IfNone result ((view : ViewKind) → word.now ≢ view_word view) }
{
    if word == "frames" {
        Some(ViewKind::Frames)
    } else if word == "script" {
        Some(ViewKind::Script)
    } else if word == "timeline" {
        Some(ViewKind::Timeline)
    } else {
        None
    }
}

// Writes the view of an input's text, or its first fault.
fn write_view_of_text<K: Sink, E: Sink>(
    alloc: Global,
    view: ViewKind,
    text: &[u8],
    out: &mut K,
    error: &mut E,
) -> u8
    requires { length text.now ≤ MAX_INPUT }
    ensures statuses { result ≤ OUTPUT_FAILED }
    ensures some { (result ≢ NO_COMMAND) × (result ≢ INPUT_FAILED) }
    ensures done { result ≡ DONE → IsViewOutput view text.now (K.written out.old) (K.written out.new) }
    ensures faulty { result ≡ FAULTY_INPUT → HasRejectedView view text.now (K.written out.old) (K.written out.new) }
    ensures out_cause { HasCause (result ≡ OUTPUT_FAILED) (K.failures out.old) (K.failures out.new) }
    ensures quiet { result ≢ FAULTY_INPUT → error.new ≡ error.old }
{
    match write_view(alloc, view, text, out) {
        Ok(()) => DONE,
        Err(ViewError::Read(ReadFault::At { place, word })) => {
            write_view_fault(alloc, text, place, word.as_bytes(), out, error)
        }
        Err(ViewError::Read(ReadFault::Memory)) => NO_MEMORY,
        Err(ViewError::Out) => OUTPUT_FAILED,
    }
}

// Writes the view of an input's text, up to its end or its first fault.
fn write_view<K: Sink>(
    alloc: Global,
    view: ViewKind,
    text: &[u8],
    out: &mut K,
) -> Result<(), ViewError>
    requires { length text.now ≤ MAX_INPUT }
    ensures done { OnOk result (IsViewOutput view text.now (K.written out.old) (K.written out.new)) }
    ensures cut { IfErr result (OnViewError (IsViewToFault view text.now (K.written out.old) (K.written out.new))) }
    ensures out_cause { HasCause (result ≡ Err ViewError.Out) (K.failures out.old) (K.failures out.new) }
{
    match view {
        ViewKind::Frames => view_frames(alloc, text, out),
        ViewKind::Script => write_script(alloc, text, out),
        ViewKind::Timeline => write_timeline(alloc, text, out),
    }
}

fn write_script<K: Sink>(alloc: Global, text: &[u8], out: &mut K) -> Result<(), ViewError>
    requires { length text.now ≤ MAX_INPUT }
    ensures done { OnOk result (IsViewOutput ViewKind.Script text.now (K.written out.old) (K.written out.new)) }
    ensures cut { IfErr result (OnViewError
        (IsViewToFault ViewKind.Script text.now (K.written out.old) (K.written out.new))) }
    ensures out_cause { HasCause (result ≡ Err ViewError.Out) (K.failures out.old) (K.failures out.new) }
{
    match script_of(alloc, text) {
        Ok(script) => write_out(script.as_slice(), out),
        Err(fault) => Err(ViewError::Read(fault)),
    }
}

fn write_timeline<K: Sink>(alloc: Global, text: &[u8], out: &mut K) -> Result<(), ViewError>
    requires { length text.now ≤ MAX_INPUT }
    ensures done { OnOk result (IsViewOutput ViewKind.Timeline text.now (K.written out.old) (K.written out.new)) }
    ensures cut { IfErr result (OnViewError
        (IsViewToFault ViewKind.Timeline text.now (K.written out.old) (K.written out.new))) }
    ensures out_cause { HasCause (result ≡ Err ViewError.Out) (K.failures out.old) (K.failures out.new) }
{
    match timeline_of(alloc, text) {
        Ok(drawing) => write_out(drawing.as_slice(), out),
        Err(_) => Err(ViewError::Read(ReadFault::Memory)),
    }
}

fn write_out<K: Sink>(shown: &[u8], out: &mut K) -> Result<(), ViewError>
    ensures done { OnOk result (Appends (K.written out.old) (K.written out.new) shown.now) }
    ensures cut { IfErr result (λ stop. stop ≡ ViewError.Out) }
    ensures out_cause { HasCause (result ≡ Err ViewError.Out) (K.failures out.old) (K.failures out.new) }
{
    if write_all(out, shown) {
        Ok(())
    } else {
        Err(ViewError::Out)
    }
}
