//! Marks: what a pending call carries of the engines that it passed.

ghost use Rattle.std.specs.Prelude.{◌≡◌, ◌≤◌, ◌==◌, not, filter, length, position};
ghost use Rattle.std.specs.List.{list_any};
ghost use Rattle.engine_core.specs.Marks.{is_allowing, other_marks};
ghost use Rattle.engine_core.specs.EngineSteps.{marks_with};

use crate::MAX_ENGINES;
use crate::engine::Engine;
use arrayvec::ArrayVec;

// The marks of a call.
pub(crate) type Marks = ArrayVec<Mark, MAX_ENGINES>;

// A mark, for the engine of an attachment.
#[derive(Clone, Copy)]
pub(crate) struct Mark {
    // The number of the attachment.
    pub attach: u32,
    pub note: MarkNote,
}

// The content of a mark.
#[derive(Clone, Copy)]
pub(crate) enum MarkNote {
    // The access policy of this version allowed the call.
    Allowed { version: u32 },
    // The call was charged.
    Charged,
    // This ticket was drawn for the call.
    Drawn { ticket: u64 },
    // The call was counted.
    Counted,
}

impl Mark {
    // Whether it is the mark of an access policy that allowed the call.
    fn is_allowing(&self) -> bool
        ensures { result ≡ is_allowing self.now.note }
    {
        matches!(self.note, MarkNote::Allowed { .. })
    }
}

// The content of unused slots for marks.
impl Default for Mark {
    fn default() -> Mark {
        Mark {
            attach: 0,
            note: MarkNote::Counted,
        }
    }
}

// Sets the mark of an attachment, replacing an earlier one.
pub(crate) fn set(marks: &mut Marks, attach: u32, note: MarkNote)
    requires { length (other_marks attach marks.old.items) ≤ 7 }
    ensures { marks.new.items ≡ marks_with attach note marks.old.items }
{
    match position_of(marks.as_slice(), attach) {
        Some(place) => marks[place] = Mark { attach, note },
        None => marks.push(Mark { attach, note }),
    }
}

// The index of the mark of an attachment, if there is one.
fn position_of(marks: &[Mark], attach: u32) -> Option<usize>
    ensures { result ≡ position (λ m. m.attach == attach) marks.now }
{
    marks.iter().position(|mark| mark.attach == attach)
}

// Removes the marks of access engines.
pub(crate) fn forget_allowing(marks: &mut Marks)
    ensures { marks.new.items ≡ filter (λ m. not (is_allowing m.note)) marks.old.items }
{
    marks.retain(|mark| !mark.is_allowing());
}

// Removes all marks but those of some engines.
pub(crate) fn keep_of(marks: &mut Marks, engines: &[Engine])
    ensures { marks.new.items ≡ filter (λ m. list_any (λ e. e.entry.attach == m.attach) engines.now) marks.old.items }
{
    marks.retain(|mark| has_attachment(engines, mark.attach));
}

// Whether one of the engines has the attachment.
fn has_attachment(engines: &[Engine], attach: u32) -> bool
    ensures { result ≡ list_any (λ e. e.entry.attach == attach) engines.now }
{
    engines.iter().any(|engine| engine.attach() == attach)
}
