//! Pending calls: accepted, neither sent nor refused.

ghost use Rattle.std.specs.Prelude.{◌≡◌, ◌≢◌, ◌≤◌, ◌<◌, ◌↔◌, ℕ, [], All, IsTrue, None, length, Some, slice_get};
ghost use Rattle.std.specs.Bool.{OnTrue, OnFalse};
ghost use Rattle.mrpc_table.specs.Weight.{weight};
ghost use Rattle.mrpc_table.specs.declared.table.Table.{Table as TheTable};
ghost use Rattle.mrpc_table.specs.Calls.{IsCallOf};
ghost use Rattle.policy_redact.specs.Redacting.{IsCallOfSomeTable, cleared_call};
ghost use Rattle.engine_core.specs.Engines.{EngineParts};
ghost use Rattle.engine_core.specs.Marks.{IsOneEach, PendingCall, note_of, other_marks};
ghost use Rattle.engine_core.specs.EngineSteps.{IsUnallowed, with_mark};
ghost use Rattle.engine_core.specs.Working.{HasOnlyMarksOf, HasKeptMarksOf};

use crate::engine::Engine;
use crate::mark::{MarkNote, Marks, forget_allowing, keep_of, set};
use mrpc_table::Call;
use policy_redact::Redact;
use std::marker::Model;

/// A pending call with its marks: at most one for each engine, and at most eight.
#[derive(Drop)]
pub struct Standing {
    call: Call,
    marks: Marks,
}

impl Model for Standing {
    ghost use Rattle.engine_core.specs.Marks.{PendingCall, IsOneEach};

    ghost Value = { PendingCall };

    ghost use Rattle.std.specs.Coded.{codes};
    ghost use Rattle.mrpc_table.specs.contracts.call.Call as c;

    ghost coded = { Prim.hlevel (codes, c.the_row.coded) };

    ghost view = { λ s. record { call = s.call; marks = s.marks.items } };

    ghost invariant = { λ s. IsOneEach s.marks.items };
}

impl Standing {
    /// A call without marks. It allocates nothing.
    pub fn new(call: Call) -> Standing
        ensures call { result.call ≡ call }
        ensures marks { result.marks ≡ [] }
    {
        Standing {
            call,
            marks: Marks::new(),
        }
    }

    /// The call.
    pub fn call(&self) -> &Call
        ensures { result.now ≡ self.now.call }
    {
        &self.call
    }

    // The content of an attachment's mark, if there is one.
    pub(crate) fn note_of(&self, attach: u32) -> Option<MarkNote>
        ensures { result ≡ note_of self.now.marks attach }
    {
        self.marks
            .as_slice()
            .iter()
            .find(|mark| mark.attach == attach)
            .map(|mark| mark.note)
    }

    // Like `note_of`, but looks at the index `likely` first.
    pub(crate) fn note_at(&self, likely: usize, attach: u32) -> Option<MarkNote>
        ensures { result ≡ note_of self.now.marks attach }
    {
        let marks = self.marks.as_slice();
        if likely < marks.len() && marks[likely].attach == attach {
            return Some(marks[likely].note);
        }
        self.note_of(attach)
    }

    // Sets the mark of an attachment.
    pub(crate) fn mark(&mut self, attach: u32, note: MarkNote)
        requires { length (other_marks attach self.old.marks) ≤ 7 }
        ensures { self.new ≡ with_mark attach note self.old }
    {
        set(&mut self.marks, attach, note);
    }

    // Clears the fields of a redacting policy. If that changes the tree, it removes the marks of access engines,
    // since their policies allowed another tree. Returns whether the tree changed.
    pub(crate) fn clear(&mut self, redact: &Redact) -> bool
        requires { IsCallOfSomeTable self.old.call }
        ensures left { self.new.call ≡ cleared_call redact.now self.old.call }
        ensures changed { IsTrue result ↔ (self.new.call.tree ≢ self.old.call.tree) }
        ensures unallowed { OnTrue result (IsUnallowed self.old.marks self.new.marks) }
        ensures smaller { OnTrue result (weight self.new.call.tree < weight self.old.call.tree) }
        ensures unchanged { OnFalse result (self.new ≡ self.old) }
        ensures fits { (T : TheTable) → IsCallOf T self.old.call → IsCallOf T self.new.call }
    {
        let changed = redact.clear(&mut self.call);
        if changed {
            forget_allowing(&mut self.marks);
        }
        changed
    }

    // Removes the marks of all engines but these.
    pub(crate) fn keep_marks_of(&mut self, engines: &[Engine])
        ensures call { self.new.call ≡ self.old.call }
        ensures kept { All (λ e. note_of self.new.marks e.entry.attach
            ≡ note_of self.old.marks e.entry.attach) engines.now }
        ensures gone { HasOnlyMarksOf engines.now self.new }
        ensures none { (attach : ℕ) → note_of self.old.marks attach ≡ None → note_of self.new.marks attach ≡ None }

        // There are at most as many marks as engines.
        ensures room { All (λ e. length (other_marks e.entry.attach self.new.marks) < length engines.now) engines.now }
    {
        keep_of(&mut self.marks, engines);
    }

    // Removes the marks of all engines but these, unless the call is known (`alone`) to have no others.
    pub(crate) fn drop_other_marks(&mut self, engines: &[Engine], alone: bool)
        requires { OnTrue alone (HasOnlyMarksOf engines.now self.old) }
        ensures { HasKeptMarksOf engines.now self.old self.new }
    {
        if !alone {
            self.keep_marks_of(engines);
        }
    }

    // A law; the function has no effect. If a call has marks of some engines alone, it has fewer marks than there are
    // engines, not counting its mark of the engine at a position.
    pub(crate) fn few_others(&self, engines: &[Engine], at: usize)
        requires engine { at < length engines.now }
        requires marks { HasOnlyMarksOf engines.now self.now }
        ensures { (e : EngineParts) → slice_get engines.now at ≡ Some e
            → length (other_marks e.entry.attach self.now.marks) < length engines.now }
    {
        self.few_marks();
        let _ = (engines.len(), at);
    }

    // A law; the function has no effect. No two marks are of the same engine, and there are at most eight.
    pub(crate) fn few_marks(&self)
        ensures one_each { IsOneEach self.now.marks }
        ensures few { length self.now.marks ≤ 8 }
    {
        let _ = self.marks.len();
    }
}
